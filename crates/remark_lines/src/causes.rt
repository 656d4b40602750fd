//! The causes of each code. One row a cause: what has to be so, and the sentence.

use crate::finding::{Fault, Found};

mod bytes;
mod header;
mod limits;
mod locks;
mod names;
mod numbers;
mod positions;
mod words;

/// The cause of a fault with that code, where it is found.
pub fn cause(fault: &Fault<'_>, code: u64) -> Found {
    match code {
        1 => header::cause(fault),
        2 => words::cause(fault),
        3 => names::misspelled(fault),
        4 => names::declared(fault),
        5 => names::undeclared(fault),
        6 => numbers::cause(fault),
        7 => limits::cause(fault),
        8 => locks::of_other_kind(fault),
        9 => locks::held(fault),
        10 => locks::held_otherwise(fault),
        11 => locks::unheld(fault),
        12 => locks::under_others(fault),
        13 => locks::not_last(fault),
        14 => locks::still_held(fault),
        15 => positions::outside(fault),
        16 => positions::late(fault),
        17 => positions::inside(fault),
        18 => bytes::too_long(fault),
        19 => bytes::unprintable(fault),
        20 => locks::shared(fault),
        _ => Ok(None),
    }
}
