//! The laws of lock orders, over definitions alone: functions with empty bodies whose contracts are theorems.
//!
//! - `orders`: steps that keep to the order of locks keep the class graph without a cycle, so no threads wait in one;
//!   and they keep it that of the takes which are noted or in progress; and who wants a lock takes it.
#![tactic(auto)]

pub mod orders;
