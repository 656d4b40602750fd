//! Tests of what the programs read, do and write, from their top calls down to the running floor, over public calls
//! alone. They stand apart from the crates that carry the proofs: a crate with tests is proved a second time for them,
//! and here there is nothing else to prove.
//!
//! What is shared:
//! - `briefs`: words, scripts and plans in brief.
//! - `fixtures`: calls of programs with their ends in memory, runs of plans, and scripts that several subjects run.
//! - `gates`: gates at which all threads meet, and one that holds a thread until others sleep.
//!
//! Words and texts:
//! - `ends`: sources and sinks, in memory and over std (`lock_io`).
//! - `commands`: the words that the system gives (`top_ends`), and the command lines of `lockrun` and `lockchart`
//!   (`command_line`, `chart_command`).
//! - `faults`: the first fault of a script, and what its code means (`script_read`).
//! - `plans`: the plan of a script, and its canonical text (`script_read`).
//! - `books`: logs, histories, tables, and the printed text (`lock_history`).
//! - `sentences`: what a program says on standard error (`complaints`).
//!
//! Calls of programs:
//! - `texts`: of `lockrun`, at ends that fail, and with threads that meet.
//! - `bad_days`: of `lockrun` if each call of an end fails in turn, and of scripts that break off or are as long as may
//!   be.
//! - `pictures`: of `lockchart`, and what a renderer is given.
//! - `schedules`: of `lockplan`, the schedules that policies make, and words that are no form.
//!
//! Runs:
//! - `turns`: what each turn of a scheduled run answers.
//! - `rows`: what each thing of a scheduled run is between turns.
//! - `mutexes`: the calls of mutexes on a floor, `sx_locks`: those of sx locks, and `floors`: that floor.
//! - `threads`: running threads that meet, and `sleepers`: those that sleep.
#![tactic(auto)]

#[cfg(test)]
mod bad_days;
#[cfg(test)]
mod books;
#[cfg(test)]
mod briefs;
#[cfg(test)]
mod commands;
#[cfg(test)]
mod ends;
#[cfg(test)]
mod faults;
#[cfg(test)]
mod fixtures;
#[cfg(test)]
mod floors;
#[cfg(test)]
mod gates;
#[cfg(test)]
mod mutexes;
#[cfg(test)]
mod pictures;
#[cfg(test)]
mod plans;
#[cfg(test)]
mod rows;
#[cfg(test)]
mod schedules;
#[cfg(test)]
mod sentences;
#[cfg(test)]
mod sleepers;
#[cfg(test)]
mod sx_locks;
#[cfg(test)]
mod texts;
#[cfg(test)]
mod threads;
#[cfg(test)]
mod turns;
