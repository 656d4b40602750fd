//! The scheduled run of a script in somebody else's hands: its world, which owns the script's plan, and whose threads
//! get their turns one at a time, in whatever order its caller likes. Each call tests what it needs: nothing is owed by
//! its caller.
//!
//! A world goes into a call and comes out of it, with the answer: its objects are lent to `step_world` for so long, and
//! nothing is copied. Where a call may not be made it answers why not, exactly where that is so, and the world is as it
//! was. Opening a world and making its text take memory; its turns take none.
//!
//! - `opening`: how a world is made of a script, and why of others none is.
//! - `world`: a world, its turns, and what a thread is between two of them.
//! - `threads`: what is told of a thread.
//! - `text`: the text of a run as it stands.
#![tactic(auto)]

mod opening;
mod text;
mod threads;
mod world;

pub use opening::NotOpened;
pub use threads::{NoThread, ThreadNow, ThreadState};
pub use world::OpenWorld;
