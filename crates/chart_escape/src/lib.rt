//! Somebody else's text in what the program writes: a title may hold any text, and neither the markup nor the JSON
//! round it may change by that.
//!
//! - `markup`: text in XML and HTML, between tags and in quoted attributes.
//! - `quoted`: text as a JSON string, which may stand in a script of an HTML page too.
//! - `piece`: what a line of markup or JSON is made of: the program's own text, numbers, and text that is escaped.
#![tactic(auto)]

mod markup;
mod piece;
mod quoted;

pub use markup::push_text;
pub use piece::{Piece, begin_line_item, push_elements, push_pieces, push_tokens};
pub use quoted::push_json;
