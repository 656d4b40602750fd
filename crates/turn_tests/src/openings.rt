//! Which sources a world is opened for, and why not for others.
use script_read::ScriptFault;
use std::alloc::Global;
use std::test::Fail;
use turn_calls::{NotOpened, OpenWorld};

const SCRIPT: &[u8] = b"lockrun 1\ndone\n";

const ROWS: &[(&[u8], u32, Option<NotOpened>)] = &[
    (SCRIPT, 1, None),
    (SCRIPT, 64, None),
    (SCRIPT, 0, Some(NotOpened::NoChains)),
    (SCRIPT, 65, Some(NotOpened::NoChains)),
    (b"", 0, Some(NotOpened::NoChains)),
    (
        b"",
        1,
        Some(NotOpened::NoScript(ScriptFault { line: 1, code: 1 })),
    ),
    (
        b"lockrun 1\nmutex m k\nthread t 7\nunlock m\nend\ndone\n",
        1,
        Some(NotOpened::NoScript(ScriptFault { line: 4, code: 11 })),
    ),
];

#[test]
fn worlds_are_opened_for_scripts(rt: HostRuntime) {
    for (row, &(script, chains, why)) in ROWS.iter().enumerate() {
        assert!(rt;
            is_opened_so(rt.alloc(), script, chains, why),
            "in row {row}"
        );
    }
}

// Whether that stands against a world of a script. One that is opened has no threads.
fn is_opened_so(alloc: Global, script: &[u8], chains: u32, why: Option<NotOpened>) -> bool {
    match OpenWorld::open(alloc, script, chains) {
        Ok(world) => why.is_none() && world.plan().threads.as_slice().is_empty(),
        Err(found) => why == Some(found),
    }
}

#[test]
fn a_source_that_is_too_big_isnt_read(rt: HostRuntime) -> Result<(), Fail> {
    let big = vec![in rt.alloc(); b'#'; 1_048_577]?;
    assert!(rt; is_opened_so(rt.alloc(), &big, 1, Some(NotOpened::TooBig)));
    Ok(())
}
