//! Profiles of worked scripts, with counts worked out by hand from their entries.
ghost use Rattle.std.specs.Prelude.{IfOk};
ghost use Rattle.lock_model.specs.Operations.{IsProper};

use floor_run::run_plan;
use hold_profile::{Profile, print_profile, profile};
use lock_io::OpenGate;
use lock_model::Plan;
use script_laws::scripts::scripts_have_proper_plans;
use script_read::read_script;
use std::alloc::{AllocError, Global};
use std::test::Fail;
use step_world::run_schedule;

// A script, and the profile of its scheduled run; `;` is the end of a line. Behind each script stands what its sections
// are: the tickets of their begins and ends.
const PROFILES: &[(&str, &str)] = &[
    ("lockrun 1;done;", "ok;"),
    // d: 0 to 2, 3 to 4 and 5 to 6, and a try at 1.
    (
        "lockrun 1;rw d k;thread r 100;rlock d;runlock d;end;thread w 90;wlock d;wunlock d;end;\
        thread n 80;tryrlock d;runlock d;endtry;rlock d;runlock d;end;schedule r w n n;done;",
        "lock d class k holds 3 total 4 longest 2 together 1 busy 1 waits 0 halted 0;ok;",
    ),
    // a: 0 to 3. b: 1 to 2, and 4 to 6.
    (
        "lockrun 1;mutex a ka;mutex b kb;thread t1 100;lock a;lock b;unlock b;unlock a;end;\
        thread t2 100;lock b;lock a;unlock a;unlock b;end;schedule t1 t1 t1 t1;done;",
        "lock a class ka holds 1 total 3 longest 3 together 1 busy 0 waits 0 halted 0;\
        lock b class kb holds 2 total 3 longest 2 together 1 busy 0 waits 0 halted 0;\
        order ka kb 1;reversed;",
    ),
    // The same with a try: b: 1 to 2, and 4 to 7, and a: 0 to 3, and 5 to 6, behind b.
    (
        "lockrun 1;mutex a ka;mutex b kb;thread t1 100;lock a;lock b;unlock b;unlock a;end;\
        thread t2 100;lock b;trylock a;unlock a;endtry;unlock b;end;schedule t1 t1 t1 t1;done;",
        "lock a class ka holds 2 total 4 longest 3 together 1 busy 0 waits 0 halted 0;\
        lock b class kb holds 2 total 4 longest 3 together 1 busy 0 waits 0 halted 0;\
        order ka kb 1;order kb ka 1;ok;",
    ),
    // s: from 0 on, and there are 3 entries. m: 1 to 2, where a wait with it begins.
    (
        "lockrun 1;mutex m k;sx s j;cond c m;\
        thread a 100;xlock s;lock m;wait c;unlock m;xunlock s;end;\
        thread b 50;xlock s;xunlock s;end;done;",
        "lock m class k holds 1 total 1 longest 1 together 1 busy 0 waits 1 halted 0;\
        lock s class j holds 1 total 3 longest 3 together 1 busy 0 waits 0 halted 0;\
        order j k 1;stuck;",
    ),
    // m: 0 to 1, 2 to 3, 7 to 8 and 9 to 10, of which the last two begin where a sleep has ended.
    (
        "lockrun 1;mutex m k;cond c m;thread a 100;lock m;wait c;unlock m;end;\
        thread b 100;lock m;wait c;unlock m;end;thread s 50;signal c;signal c;signal c;end;\
        schedule a a a b b b s s s s s;done;",
        "lock m class k holds 4 total 4 longest 1 together 1 busy 0 waits 2 halted 0;ok;",
    ),
    // d: 0 to 1, 2 to 3, 4 to 5, and 6 to 8 and 7 to 9 together.
    (
        "lockrun 1;rw d k;thread w 100;wlock d;wunlock d;end;thread r1 90;rlock d;runlock d;end;\
        thread r2 80;rlock d;runlock d;end;thread v 70;wlock d;wunlock d;end;\
        thread n 60;rlock d;runlock d;end;schedule w r1 r1 r2 r2 v v w n;done;",
        "lock d class k holds 5 total 7 longest 2 together 2 busy 0 waits 0 halted 0;ok;",
    ),
    // a: 0 to 5, and 6 to 7 behind b. b: 1 to 8, and 9 to 10.
    (
        "lockrun 1;mutex a ka;mutex b kb;thread t1 200;lock a;show;show;show;unlock a;end;\
        thread t2 150;lock b;lock a;unlock a;unlock b;end;thread t3 50;lock b;unlock b;end;\
        schedule t1 t2 t2 t2 t1 t3 t3 t1 t3 t3 t1;done;",
        "lock a class ka holds 2 total 6 longest 5 together 1 busy 0 waits 0 halted 0;\
        lock b class kb holds 2 total 8 longest 7 together 1 busy 0 waits 0 halted 0;\
        order kb ka 1;ok;",
    ),
    // x: 0 to 8. y: 1 to 7, of the same class, by a try. z: 2 to 3, and 5 to 6 behind a sleep, both behind x and y.
    (
        "lockrun 1;sx x k;sx y k;sx z j;chan c z;\
        thread a 100;xlock x;tryslock y;slock z;msleep c;sunlock z;sunlock y;endtry;xunlock x;end;\
        thread b 100;wakeup c;end;schedule a a a a a b;done;",
        "lock x class k holds 1 total 8 longest 8 together 1 busy 0 waits 0 halted 0;\
        lock y class k holds 1 total 6 longest 6 together 1 busy 0 waits 0 halted 0;\
        lock z class j holds 2 total 2 longest 1 together 1 busy 0 waits 1 halted 0;\
        order k k 1;order k j 4;ok;",
    ),
];

#[test]
fn profiles_of_scheduled_runs(rt: HostRuntime) -> Result<(), Fail> {
    for &(script, text) in PROFILES {
        assert!(rt; is_profiled(rt.alloc(), script, text)?, "{script}");
    }
    Ok(())
}

fn is_profiled(alloc: Global, script: &str, text: &str) -> Result<bool, Fail> {
    let printed = profile_of(alloc, script)?;
    let text = text.replace(alloc, ";", "\n")?;
    Ok(printed.as_slice() == text.as_bytes())
}

// The text of the profile of a script's scheduled run.
fn profile_of(alloc: Global, script: &str) -> Result<Vec<u8>, Fail> {
    let plan = plan_of(alloc, script)?;
    let outcome = run_schedule(alloc, &plan, 16, 1_000_000)?;
    let counted = profile(alloc, &plan, &outcome.history)?;
    Ok(print_profile(alloc, &plan, &counted, outcome.last)?)
}

// Eight threads that each take a mutex 100 times.
const CROWD: &str = "lockrun 1;mutex m k;";

#[test]
fn profiles_of_threads(rt: HostRuntime) -> Result<(), Fail> {
    let alloc = rt.alloc();
    let script = crowd(alloc)?;
    let plan = plan_of(alloc, &script)?;
    let (outcome, _closing) = run_plan(&rt, alloc, &plan, 1, &OpenGate)?;
    assert!(rt; outcome.history.len() == 2400);
    let counted = profile(alloc, &plan, &outcome.history)?;
    assert!(rt; is_crowd(&counted));
    Ok(())
}

// Their script.
fn crowd(alloc: Global) -> Result<String, AllocError> {
    let mut script = String::new(alloc);
    push_crowd(alloc, &mut script)?;
    Ok(script)
}

fn push_crowd(alloc: Global, script: &mut String) -> Result<(), AllocError> {
    script.push_str(CROWD)?;
    for t in 0..8u32 {
        script.push_str(&format!(in alloc; "thread t{t} 100;")?)?;
        for _ in 0..100 {
            script.push_str("lock m;add m 1 1;unlock m;")?;
        }
        script.push_str("end;")?;
    }
    script.push_str("done;")
}

// Whether the one mutex was held 800 times, by one thread at a time, over two entries at least.
fn is_crowd(counted: &Profile) -> bool {
    let [line] = counted.locks.as_slice() else {
        return false;
    };
    (line.holds, line.together) == (800, 1)
        && (line.busy, line.waits, line.halted) == (0, 0, 0)
        && line.total >= 1600
        && counted.orders.as_slice().is_empty()
}

// The plan of a script.
fn plan_of(alloc: Global, script: &str) -> Result<Plan, Fail>
    ensures { IfOk result IsProper }
{
    scripts_have_proper_plans();
    let script = script.replace(alloc, ";", "\n")?;
    match read_script(alloc, script.as_bytes()) {
        Ok(plan) => Ok(plan),
        Err(_) => Err("the bytes are a script".into()),
    }
}
