//! Which descriptions a floor is opened for: each row is one, with the reason that stands against it; and how a floor
//! is closed.
ghost use Rattle.std.specs.Prelude.{◌≡◌, IfOk};

use crate::floors::{Parts, describe};
use floor_calls::{Next, NotClosed, NotOpened, OpenFloor, Thread, Unfit};
use std::alloc::Global;
use std::test::Fail;

const ONE: Parts = Parts {
    rooms: &[1],
    locks: 1,
    class: 0,
    channels: 0,
    keys: 0,
    tables: 0,
    first_once_more: false,
    chains: 1,
};

const MOST: Parts = Parts {
    rooms: &[1; 32],
    locks: 64,
    class: 63,
    channels: 64,
    keys: 100,
    tables: 1,
    first_once_more: false,
    chains: 1,
};

const ROWS: &[(Parts, Option<Unfit>)] = &[
    (ONE, None),
    (MOST, None),
    (
        Parts {
            rooms: &[1; 33],
            ..MOST
        },
        Some(Unfit::ManyThreads),
    ),
    (Parts { locks: 65, ..MOST }, Some(Unfit::ManyLocks)),
    (
        Parts {
            channels: 65,
            ..MOST
        },
        Some(Unfit::ManyChannels),
    ),
    (Parts { class: 64, ..MOST }, Some(Unfit::HighClass)),
    (
        Parts {
            keys: 65_536,
            ..MOST
        },
        Some(Unfit::ManyKeys),
    ),
    (
        Parts {
            first_once_more: true,
            ..MOST
        },
        Some(Unfit::UnsortedKeys),
    ),
    (
        Parts {
            rooms: &[2_147_483_648; 2],
            ..MOST
        },
        Some(Unfit::MuchRoom),
    ),
    (Parts { chains: 0, ..MOST }, Some(Unfit::NotOneChain)),
    (Parts { chains: 2, ..MOST }, Some(Unfit::NotOneChain)),
    // The first of two.
    (
        Parts {
            locks: 65,
            chains: 2,
            ..MOST
        },
        Some(Unfit::ManyLocks),
    ),
];

#[test]
fn descriptions_are_tested(rt: HostRuntime) -> Result<(), Fail> {
    for (row, (parts, unfit)) in ROWS.iter().enumerate() {
        let answer = unfit_for(rt.alloc(), parts)?;
        assert!(rt; answer == *unfit, "in row {row}");
    }
    Ok(())
}

// What stands against a floor that has these.
fn unfit_for(alloc: Global, parts: &Parts) -> Result<Option<Unfit>, Fail> {
    let description = describe(alloc, parts)?;
    match OpenFloor::open(alloc, description) {
        Ok(_) => Ok(None),
        Err(NotOpened::Unfit(why)) => Ok(Some(why)),
        Err(NotOpened::NoMemory) => Err("memory was wanting".into()),
    }
}

// The only thread is the last that is awake: so it looks whether others are left before its end is done.
#[test]
fn a_floor_is_closed(rt: HostRuntime) -> Result<(), Fail> {
    let (mut open, thread) = open_for_one(rt.alloc())?;
    let Err(mut thread) = open.gather(thread) else {
        return Err("a thread was taken in that hasn't ended".into());
    };
    assert!(rt; thread.begin_end() == Ok(Next::Again));
    assert!(rt; thread.go_on() == Ok(Next::Done));
    let Err(NotClosed::NotGathered(mut open)) = open.close() else {
        return Err("the floor was closed before its thread was taken in".into());
    };
    assert!(rt; open.gather(thread).is_ok());
    let Ok(closing) = open.close() else {
        return Err("the floor wasn't closed".into());
    };
    assert!(rt; closing.logs().len() == 1 && !closing.halted());
    Ok(())
}

// A floor with one thread, and that thread.
fn open_for_one(alloc: Global) -> Result<(OpenFloor, Thread), Fail>
    ensures { IfOk result (λ made. made.1.floor ≡ made.0.floor) }
{
    let description = describe(alloc, &ONE)?;
    let Ok((open, mut threads)) = OpenFloor::open(alloc, description) else {
        return Err("the floor isn't opened".into());
    };
    let thread = threads.pop().ok_or("the floor has no thread")?;
    Ok((open, thread))
}
