//! Floors of locks, and scheduled runs of scripts, as calls from C: `include/lockrun.h` declares them. They only
//! translate, handles to what is behind them and numbers to what they stand for.
#![tactic(auto)]

mod asking;
mod codes;
mod content;
mod ending;
mod handles;
mod held;
mod looking;
mod misfits;
mod naming;
mod opening;
mod printing;
mod rows;
mod scripts;
mod worlds;
