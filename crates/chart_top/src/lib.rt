//! What the program `lockchart` does, as a library: words and a script in, a picture of the script's scheduled run and
//! a status out. A program, or a face for other languages, picks up its words and its streams and calls this.
//!
//! From the outside in:
//! - `top`: the calls, with everything that is promised of them, and how they end.
//! - `drawing`: the picture of a plan.
//! - `heading`: what stands above a picture.
//! - `renderer`: what writes a chart down, and the forms in which it is written.
#![tactic(auto)]

mod drawing;
mod heading;
mod renderer;
mod top;

pub use crate::heading::Heading;
pub use crate::renderer::{Forms, Renderer};
pub use crate::top::{Drawn, lockchart, lockchart_by};
use complaints::Program;
pub use complaints::Status;

/// The program, as its sentences name it.
pub const LOCKCHART: Program = Program {
    name: "lockchart",
    form: chart_command::FORM,
    // No picture ends so: one of a run whose turns were used up is drawn.
    too_long: "the turns were used up before all threads had ended",
};

/// What is said on standard error where a picture is long.
pub const LONG: &str =
    "lockchart: a picture of more than 300 turns is wide: --from and --to, or --form html, \
    trace or text, serve better\n";
