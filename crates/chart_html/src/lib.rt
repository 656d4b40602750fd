//! A chart as a page: one HTML file that needs no network. It has the picture, a slider over the rows of the run, and
//! beside it the state in the row that it stands at: threads, locks, queues and tables.
//!
//! - `document`: the page, part by part.
//! - `fixed`: its fixed text: what it looks like, and what it does with the data.
//! - `data`: what the page knows of each row, as JSON: values with the rows from which on they hold.
//! - `items`: arrays of the data, each of whose items says which value tells it, and words with a value behind them.
//! - `threads`, `columns`, `queues`, `edits`, `tracks`: parts of the data.
#![tactic(auto)]

mod columns;
mod data;
mod document;
mod edits;
mod fixed;
mod items;
mod queues;
mod threads;
mod tracks;

pub use columns::columns_tell_rows;
pub use data::data_of;
pub use document::html;
