//! Scripts of ticks, and the texts of their runs.
use crate::briefs::lines_of;
use std::alloc::Global;
use std::test::Fail;
use tick_sleep::{read_ticks, run_ticks};

const RUNS: &[(&str, &str)] = &[
    ("ticks 1;done;", "ok;"),
    ("ticks 1;sleeper a 1;done;", "ok;"),
    (
        "ticks 1;sleeper a 10;sleeper b 20;sleep a 3 5;sleepsig b 3;tick 4;tick 1;signal b;wakeup 3;done;",
        "0 a sleeps 3;1 b sleeps 3;2 tick 4;3 tick 5;3 a timedout 5;4 b interrupted;5 wakeup 3 -;ok;",
    ),
    (
        "ticks 1;sleeper a 1;signal a;sleep a 0;sleepsig a 0;done;",
        "0 signal a;1 a sleeps 0;2 a asleep;sleeping a 0;ok;",
    ),
    // One round of the wheel isn't enough where the due tick is later: 257 falls into the bucket of 1.
    (
        "ticks 1;sleeper a 1;sleep a 0 257;tick 1;tick 255;tick 1;tick 1;done;",
        "0 a sleeps 0;1 tick 1;2 tick 256;3 tick 257;3 a timedout 257;4 tick 258;ok;",
    ),
    (
        "ticks 1;sleeper a 1;sleeper b 1;sleep a 0 256;sleep b 0 768;tick 255;tick 1;tick 1000;done;",
        "0 a sleeps 0;1 b sleeps 0;2 tick 255;3 tick 256;3 a timedout 256;4 tick 1256;4 b timedout 768;ok;",
    ),
    (
        "ticks 1;sleeper a 1;sleep a 0 1000000;[999 tick 1000;]tick 999;tick 1;done;",
        "0 a sleeps 0;[ticks]1000 tick 999999;1001 tick 1000000;1001 a timedout 1000000;ok;",
    ),
    // By due tick, and then by arrival, whatever the key and the priority.
    (
        "ticks 1;sleeper a 3;sleeper b 2;sleeper c 1;sleep a 0 5;sleep b 1 3;sleep c 2 5;tick 10;done;",
        "0 a sleeps 0;1 b sleeps 1;2 c sleeps 2;3 tick 10;3 b timedout 3;3 a timedout 5;3 c timedout 5;ok;",
    ),
    (
        "ticks 1;sleeper a 1;sleeper b 1;sleeper c 1;sleep c 0 300;tick 40;sleep a 0 4;sleep b 0 260;tick 260;done;",
        "0 c sleeps 0;1 tick 40;2 a sleeps 0;3 b sleeps 0;4 tick 300;4 a timedout 44;4 c timedout 300;4 b timedout 300;ok;",
    ),
    // A sleep that has timed out, or whose thread was woken, doesn't time out again.
    (
        "ticks 1;sleeper a 1;sleep a 0 2;tick 2;tick 2;tick 256;wakeone 0;done;",
        "0 a sleeps 0;1 tick 2;1 a timedout 2;2 tick 4;3 tick 260;4 wakeone 0 -;ok;",
    ),
    (
        "ticks 1;sleeper a 1;sleep a 0 2;wakeone 0;tick 2;sleep a 1 3;wakeup 1;tick 9;done;",
        "0 a sleeps 0;1 wakeone 0 a;2 tick 2;3 a sleeps 1;4 wakeup 1 a;5 tick 11;ok;",
    ),
    (
        "ticks 1;sleeper a 1;sleep a 0 2;wakeone 0;sleep a 0 7;tick 2;tick 5;done;",
        "0 a sleeps 0;1 wakeone 0 a;2 a sleeps 0;3 tick 2;4 tick 7;4 a timedout 7;ok;",
    ),
    // The most important sleeper is woken first, and of equals the one that has slept longest.
    (
        "ticks 1;sleeper a 9;sleeper b 3;sleeper c 3;sleeper d 200;sleep a 7;sleep c 7;sleep b 7;sleep d 8;wakeone 7;wakeone 7;wakeone 7;wakeone 7;done;",
        "0 a sleeps 7;1 c sleeps 7;2 b sleeps 7;3 d sleeps 8;4 wakeone 7 c;5 wakeone 7 b;6 wakeone 7 a;7 wakeone 7 -;sleeping d 8;ok;",
    ),
    // All of a key, by number.
    (
        "ticks 1;sleeper a 1;sleeper b 1;sleeper c 1;sleep c 5;sleep b 6 1;sleep a 5 9;wakeup 5;wakeup 5;tick 10;done;",
        "0 c sleeps 5;1 b sleeps 6;2 a sleeps 5;3 wakeup 5 a c;4 wakeup 5 -;5 tick 10;5 b timedout 1;ok;",
    ),
    // A signal stays posted where nobody sleeps that it may interrupt, and two are one.
    (
        "ticks 1;sleeper a 1;signal a;signal a;sleepsig a 3;sleepsig a 3;sleepsig a 3;done;",
        "0 signal a;1 signal a;2 a interrupted;3 a sleeps 3;4 a asleep;sleeping a 3;ok;",
    ),
    (
        "ticks 1;sleeper a 1;sleep a 3 2;signal a;tick 2;sleepsig a 4;sleepsig a 4 1;signal a;tick 5;done;",
        "0 a sleeps 3;1 signal a;2 tick 2;2 a timedout 2;3 a interrupted;4 a sleeps 4;5 a interrupted;6 tick 7;ok;",
    ),
    // The limits: 64 sleepers on the keys 0 to 63, priorities 0 and 255.
    (
        "ticks 1;[64 sleeper s# 255;]sleep s63 63;sleep s0 0;wakeup 63;done;",
        "0 s63 sleeps 63;1 s0 sleeps 0;2 wakeup 63 s63;sleeping s0 0;ok;",
    ),
    (
        "ticks 1;[64 sleeper s# 0;][64 sleep s# 9 1000;]wakeup 9;done;",
        "[64 # s# sleeps 9;]64 wakeup 9[64  s#];ok;",
    ),
    ("ticks 1;# nobody;;sleeper a 1;#;done;# behind;;", "ok;"),
];

// The text of a script's run.
fn text_of(alloc: Global, brief: &str) -> Result<Vec<u8>, Fail> {
    let script = lines_of(alloc, brief)?;
    let plan = read_ticks(alloc, script.as_bytes()).ok();
    let plan = plan.ok_or("the bytes are a script")?;
    Ok(run_ticks(alloc, &plan)?)
}

#[test]
fn the_texts_of_runs(rt: HostRuntime) -> Result<(), Fail> {
    let alloc = rt.alloc();
    let mut ticks = String::new(alloc);
    for n in 1..1000 {
        ticks.push_str(&format!(in alloc; "{n} tick {n}000\n")?)?;
    }
    for (script, text) in RUNS {
        let found = text_of(alloc, script)?;
        let text = match text.split_once("[ticks]") {
            Some((front, back)) => {
                let mut all = lines_of(alloc, front)?;
                all.push_str(&ticks)?;
                all.push_str(&lines_of(alloc, back)?)?;
                all
            }
            None => lines_of(alloc, text)?,
        };
        assert!(rt; found.as_slice() == text.as_bytes(), "at {script}");
    }
    Ok(())
}
