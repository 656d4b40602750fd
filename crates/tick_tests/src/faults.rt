//! The first fault of a script of ticks.
use crate::briefs::lines_of;
use std::alloc::Global;
use std::process::Abort;
use std::test::Fail;
use tick_sleep::read_ticks;

const WORDS: &[&str] = &[
    " => line 1 code 1",
    "; => line 1 code 1",
    "ticks 2;done; => line 1 code 1",
    "ticks 1 ;done; => line 1 code 1",
    "# ticks 1;ticks 1;done; => line 1 code 1",
    "lockrun 1;done; => line 1 code 1",
    "[201 x];done; => line 1 code 1",
    "ticks 1 => line 2 code 17",
    "ticks 1; => line 2 code 17",
    "ticks 1;sleeper a 1;;# more => line 5 code 17",
    // Words.
    "ticks 1;ticks 1;done; => line 2 code 2",
    "ticks 1;sleeper a;done; => line 2 code 2",
    "ticks 1;sleeper a 1 2;done; => line 2 code 2",
    "ticks 1;sleeper a  1;done; => line 2 code 2",
    "ticks 1; done; => line 2 code 2",
    "ticks 1;sleeper a 1 ;done; => line 2 code 2",
    "ticks 1;sleep a;done; => line 2 code 2",
    "ticks 1;sleep a 1 2 3;done; => line 2 code 2",
    "ticks 1;sleepsig a;done; => line 2 code 2",
    "ticks 1;sleepsig a 1 2 3;done; => line 2 code 2",
    "ticks 1;wakeone;done; => line 2 code 2",
    "ticks 1;wakeone 1 2;done; => line 2 code 2",
    "ticks 1;wakeup;done; => line 2 code 2",
    "ticks 1;wakeup 1 2;done; => line 2 code 2",
    "ticks 1;signal;done; => line 2 code 2",
    "ticks 1;signal a b;done; => line 2 code 2",
    "ticks 1;tick;done; => line 2 code 2",
    "ticks 1;tick 1 1;done; => line 2 code 2",
    "ticks 1;done now; => line 2 code 2",
    "ticks 1;thread a 1;done; => line 2 code 2",
    "ticks 1;Sleeper a 1;done; => line 2 code 2",
    "ticks 1;done;;# more;done; => line 5 code 2",
    "ticks 1;done;nothing; => line 3 code 2",
    // Lines and bytes: before anything else, behind `done` and in comments too.
    "ticks 1;#[200 x];done; => line 2 code 18",
    "ticks 1;done;#[200 x]; => line 3 code 18",
    "ticks 1;#[200 \t];done; => line 2 code 18",
    "ticks 1;# a\tb;done; => line 2 code 19",
    "ticks 1;sleeper a\t1;done; => line 2 code 19",
    "ticks 1;done\r; => line 2 code 19",
    "ticks 1;done;\u{7f}; => line 3 code 19",
    "ticks 1;#\u{1f};done; => line 2 code 19",
];

const MEANINGS: &[&str] = &[
    // A sleeper behind an event, whatever it says.
    "ticks 1;sleeper a 1;tick 1;sleeper A 256;done; => line 4 code 16",
    "ticks 1;wakeup 1;sleeper a 1;done; => line 3 code 16",
    "ticks 1;sleeper a 1;tick 1;sleeper b;done; => line 4 code 2",
    // Names.
    "ticks 1;sleeper A 256;done; => line 2 code 3",
    "ticks 1;sleeper 1a 1;done; => line 2 code 3",
    "ticks 1;sleeper abcdefghijklmnopq 1;done; => line 2 code 3",
    "ticks 1;sleep A 64 0;done; => line 2 code 3",
    "ticks 1;sleepsig a-b 1;done; => line 2 code 3",
    "ticks 1;signal A;done; => line 2 code 3",
    "ticks 1;sleeper a 1;sleeper a 256;done; => line 3 code 4",
    "ticks 1;sleep a 64 0;done; => line 2 code 5",
    "ticks 1;sleeper a 1;sleep b 1;done; => line 3 code 5",
    "ticks 1;sleeper a 1;sleepsig b 1;done; => line 3 code 5",
    "ticks 1;signal a;done; => line 2 code 5",
    // Numbers.
    "ticks 1;sleeper a 256;done; => line 2 code 6",
    "ticks 1;sleeper a 01;done; => line 2 code 6",
    "ticks 1;sleeper a +1;done; => line 2 code 6",
    "ticks 1;sleeper a 1;sleep a 64;done; => line 3 code 6",
    "ticks 1;sleeper a 1;sleep a 00;done; => line 3 code 6",
    "ticks 1;sleeper a 1;sleep a x 1;done; => line 3 code 6",
    "ticks 1;sleeper a 1;sleep a 63 0;done; => line 3 code 6",
    "ticks 1;sleeper a 1;sleep a 63 1000001;done; => line 3 code 6",
    "ticks 1;sleeper a 1;sleepsig a 64;done; => line 3 code 6",
    "ticks 1;sleeper a 1;sleepsig a 63 0;done; => line 3 code 6",
    "ticks 1;sleeper a 1;sleepsig a 63 1000001;done; => line 3 code 6",
    "ticks 1;sleeper a 1;sleepsig a 0 18446744073709551616;done; => line 3 code 6",
    "ticks 1;sleeper a 1;sleepsig a 0 18446744073709551615;done; => line 3 code 6",
    "ticks 1;wakeone 64;done; => line 2 code 6",
    "ticks 1;wakeup 64;done; => line 2 code 6",
    "ticks 1;wakeup 256;done; => line 2 code 6",
    "ticks 1;tick 0;done; => line 2 code 6",
    "ticks 1;tick 1001;done; => line 2 code 6",
    "ticks 1;tick 4294967297;done; => line 2 code 6",
];

const LIMITS: &[&str] = &[
    "ticks 1;[65 sleeper a# 1;]done; => line 66 code 7",
    "ticks 1;[64 sleeper a# 1;]sleeper a 256;done; => line 66 code 6",
    "ticks 1;[20001 tick 1;]done; => line 20002 code 7",
    "ticks 1;[20000 wakeup 63;]wakeone 1;done; => line 20002 code 7",
    "ticks 1;sleeper a 1;[20000 wakeup 63;]sleep a 1 1;done; => line 20003 code 7",
    "ticks 1;sleeper a 1;[20000 wakeup 63;]signal a;done; => line 20003 code 7",
    "ticks 1;sleeper a 1;[20000 wakeup 63;]signal b;done; => line 20003 code 5",
    "ticks 1;[20000 tick 1;]tick 0;done; => line 20002 code 6",
    "ticks 1;[20000 tick 1;]wakeup 0;done; => line 20002 code 7",
    "ticks 1;[20000 tick 1;];# none; => line 20004 code 17",
];

const SCRIPTS: &[&str] = &[
    "ticks 1;done",
    "ticks 1;#[199 x];done;",
    "ticks 1;[64 sleeper a# 1;]done;",
    "ticks 1;# ~;sleeper abcdefghijklmnop 255;sleep abcdefghijklmnop 63 1000000;done;",
    "ticks 1;sleeper a 0;sleepsig a 63 1000000;wakeone 63;sleep a 63 1;wakeup 63;done;",
    "ticks 1;sleeper sleep 0;sleepsig sleep 0 1;tick 1000;tick 1;done;",
    "ticks 1;[20000 wakeone 0;]done;",
];

// What is said of the first fault of a script, if it has one.
fn fault_of(alloc: Global, brief: &str) -> Result<String, Fail> {
    let script = lines_of(alloc, brief)?;
    match read_ticks(alloc, script.as_bytes()) {
        Err(e) => Ok(format!(in alloc; "{e}")?),
        Ok(_) => Ok(String::from_str(alloc, "none")?),
    }
}

fn check_faults(rt: &impl Abort, alloc: Global, rows: &[&str]) -> Result<(), Fail> {
    for row in rows {
        let (script, fault) = row.split_once(" => ").ok_or("a row has its fault")?;
        let said = fault_of(alloc, script)?;
        assert!(rt; said.as_str() == fault, "{said} at {row}");
    }
    Ok(())
}

#[test]
fn faults_of_lines_and_words(rt: HostRuntime) -> Result<(), Fail> {
    check_faults(&rt, rt.alloc(), WORDS)
}

#[test]
fn faults_of_names_and_numbers(rt: HostRuntime) -> Result<(), Fail> {
    check_faults(&rt, rt.alloc(), MEANINGS)
}

#[test]
fn scripts_over_the_limits(rt: HostRuntime) -> Result<(), Fail> {
    check_faults(&rt, rt.alloc(), LIMITS)
}

#[test]
fn scripts_without_a_fault(rt: HostRuntime) -> Result<(), Fail> {
    for script in SCRIPTS {
        let said = fault_of(rt.alloc(), script)?;
        assert!(rt; said.as_str() == "none", "{said} at {script}");
    }
    Ok(())
}
