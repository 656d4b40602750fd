//! A chart as one picture: an SVG file that needs nothing beside it. Each thread has a lane, with bars, a strip of
//! priorities where these change, and a dot with a word for each of its turns; arrows go from lane to lane, and below
//! stand the sentences and the printed end. Each thing carries its word where it is, so there is no legend.
//!
//! - `pixels`: places on the page, and what text takes of it.
//! - `packing`: which bars of a lane stand below others, so that none overlap.
//! - `page`: where all columns and lanes are.
//! - `shapes`: the few shapes that a picture is a list of.
//! - `elements`: the elements as which they are written.
//! - `style`: colours and fonts, for light and dark.
//! - `wording`: words, piece by piece.
//! - `lines`: text in lines, which are broken at blanks.
//! - `head`: what stands above the lanes: titles, and how it ended.
//! - `frame`: what stands round the lanes: names and turns.
//! - `bars`, `strips`, `arrows`, `marks`: what stands in the lanes.
//! - `below`: sentences and the printed end.
//! - `drawing`: all of these, one behind the other; what stands in the lanes in layers.
#![tactic(auto)]

mod arrows;
mod bars;
mod below;
mod drawing;
mod elements;
mod frame;
mod head;
mod lines;
mod marks;
mod packing;
mod page;
mod pixels;
mod shapes;
mod strips;
mod style;
mod wording;

pub use drawing::svg;
