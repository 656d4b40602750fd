//! Descriptions of floors, by what they have.
use floor_calls::{OpenFloor, Thread};
use floor_table::{Description, LockPart, ThreadPart};
use lock_model::{ClassNo, Kind, LockNo, Prio, Sequence};
use std::alloc::{AllocError, Global};
use std::test::Fail;

/// What a description has: threads with these rooms, so many locks, of which the last is of this class, so many
/// channels, all of lock 0, so many keys of each of so many locks, from 0 on, of which the first of lock 0 may stand
/// once more behind the others, and so many chains. Lock 0 is a mutex, lock 1 a reader-writer lock, and all others are
/// sx locks; a lock is of the class of its number.
#[derive(Clone, Copy)]
pub struct Parts {
    pub rooms: &'static [u32],
    pub locks: u8,
    pub class: u8,
    pub channels: u8,
    pub keys: u64,
    pub tables: u8,
    pub first_once_more: bool,
    pub chains: u32,
}

/// The description that has these.
pub fn describe(alloc: Global, parts: &Parts) -> Result<Description, AllocError> {
    Ok(Description {
        threads: threads(alloc, parts)?,
        locks: locks(alloc, parts)?,
        chans: channels(alloc, parts)?,
        keys: keys(alloc, parts)?,
        chains: parts.chains,
    })
}

/// A floor that has these, and its threads.
pub fn opened(alloc: Global, parts: &Parts) -> Result<(OpenFloor, Vec<Thread>), Fail> {
    let description = describe(alloc, parts)?;
    match OpenFloor::open(alloc, description) {
        Ok(opened) => Ok(opened),
        Err(_) => Err("the floor isn't opened".into()),
    }
}

fn threads(alloc: Global, parts: &Parts) -> Result<Sequence<ThreadPart>, AllocError> {
    let mut threads = Vec::new(alloc);
    for room in parts.rooms {
        threads.push(ThreadPart {
            base: Prio(100),
            room: *room,
        })?;
    }
    Ok(Sequence::from_vec(threads))
}

fn locks(alloc: Global, parts: &Parts) -> Result<Sequence<LockPart>, AllocError> {
    let mut locks = Vec::new(alloc);
    let last = parts.locks.saturating_sub(1);
    for l in 0..parts.locks {
        let class = if l == last { parts.class } else { l };
        locks.push(LockPart {
            kind: kind_of(l),
            class: ClassNo(class),
        })?;
    }
    Ok(Sequence::from_vec(locks))
}

fn kind_of(l: u8) -> Kind {
    match l {
        0 => Kind::Mtx,
        1 => Kind::Rw,
        2..=255 => Kind::Sx,
    }
}

fn channels(alloc: Global, parts: &Parts) -> Result<Sequence<LockNo>, AllocError> {
    let mut locks = Vec::new(alloc);
    for _ in 0..parts.channels {
        locks.push(LockNo(0))?;
    }
    Ok(Sequence::from_vec(locks))
}

fn keys(alloc: Global, parts: &Parts) -> Result<Sequence<(u8, u64)>, AllocError> {
    let mut keys = Vec::new(alloc);
    for l in 0..parts.tables {
        for key in 0..parts.keys {
            keys.push((l, key))?;
        }
    }
    if parts.first_once_more {
        keys.push((0, 0))?;
    }
    Ok(Sequence::from_vec(keys))
}
