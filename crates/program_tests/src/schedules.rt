//! Calls of `lockplan`: schedules worked by hand from what the policies are, which every policy leaves as they are,
//! some that are too long, and words that are no form.
use crate::briefs::bytes_of;
use crate::fixtures::{Ends, check_row};
use complaints::Status::{BadScript, Done, TooLong, Usage};
use complaints::{Status, complaint};
use plan_top::{LOCKPLAN, lockplan};
use std::alloc::{AllocError, Global};
use std::test::Fail;

// low has the bus before high and medium come.
const INVERSION: &str = "lockrun 1;mutex bus k;\
    thread low 200;lock bus;add bus 1 1;show;unlock bus;show;end;\
    thread medium 100;show;show;show;show;end;\
    thread high 10;lock bus;add bus 1 1;unlock bus;end;";

// The same where high is the least important.
const LOWEST: &str = "lockrun 1;mutex bus k;\
    thread low 200;lock bus;add bus 1 1;show;unlock bus;show;end;\
    thread medium 100;show;show;show;show;end;\
    thread high 250;lock bus;add bus 1 1;unlock bus;end;";

// w sleeps with a lock for which x waits, and x wakes it.
const SIGNALLED: &str = "lockrun 1;mutex m k;cond c m;\
    thread w 100;lock m;wait c;unlock m;end;\
    thread x 50;lock m;signal c;unlock m;end;";

const ALONE: &str = "lockrun 1;mutex m k;cond c m;thread w 100;lock m;wait c;unlock m;end;";

const TIES: &str = "lockrun 1;thread a 7;show;show;end;thread b 7;show;show;end;";

const THREES: &str = "lockrun 1;thread a 7;show;show;show;end;thread b 9;show;show;show;end;";

const ONES: &str = "lockrun 1;thread a 7;show;end;thread b 7;show;end;thread c 7;show;end;";

const FIVE: &str = "lockrun 1;thread a 7;show;end;thread b 7;show;end;thread c 7;show;end;\
    thread d 7;show;end;thread e 7;show;end;";

// Two threads want the mutex that a third has.
const QUEUE: &str = "lockrun 1;mutex m k;thread a 30;lock m;unlock m;end;\
    thread b 20;lock m;show;unlock m;end;thread c 10;lock m;unlock m;end;";

// By the words and a script without its last lines: its schedule lines, and those that are written.
type Written = (&'static str, &'static str, &'static str, &'static str);

const WRITTEN: &[Written] = &[
    // high blocks and lends low its 10, so low goes on before medium, frees the bus and wakes high before medium has a
    // turn.
    (
        "--by priority",
        INVERSION,
        "schedule low;",
        "schedule low high high low low low low high high high;\
            schedule high medium medium medium medium low;",
    ),
    // By base priorities medium goes before low, which is lent 10, and high waits for both.
    (
        "--by priority --without-loans",
        INVERSION,
        "schedule low;",
        "schedule low high high medium medium medium medium low low low;\
            schedule low high high high high low;",
    ),
    // At 250 high comes last, and nobody ever waits.
    (
        "--by=priority",
        LOWEST,
        "schedule low;",
        "schedule low medium medium medium medium low low low low high;schedule high high;",
    ),
    // w owes the release of its wait and then x's wake-up, and x owes that of w: both go before all others.
    (
        "--by priority",
        SIGNALLED,
        "schedule w;",
        "schedule w x x w w w x x x x;schedule x w w w;",
    ),
    // Nobody wakes w: the schedule ends where all are idle.
    ("--by priority", ALONE, "", "schedule w w w;"),
    ("--by chance 7", ALONE, "", "schedule w w w;"),
    // Of equals the one that ran last, else the lowest number.
    ("--by priority", TIES, "", "schedule a a b b;"),
    ("--by priority", TIES, "schedule b;", "schedule b b a a;"),
    (
        "--without-loans --by priority",
        TIES,
        "schedule b a;",
        "schedule b a a b;",
    ),
    // The schedule of the script stands first, whatever its turns do.
    (
        "--by priority",
        TIES,
        "schedule b b b;schedule b;",
        "schedule b b b b a a;",
    ),
    // a and c have blocked, and both have yet to lend: c first, which is more important, and then a before b, which
    // runs as 10 by then. b frees m and wakes both, c and then a, before c has a turn.
    (
        "--by priority",
        QUEUE,
        "schedule b a c;",
        "schedule b a c c a b b b b c;schedule c c a a a;",
    ),
    // The first draws of the seed 1234567, as they are published, are 6457827717110365317,
    // 3203168211198807973, 9817491932198370423, 4593380528125082431 and 16408922859458223821. So the first is 2 modulo
    // 5, the second 1 modulo 4, the third 0 modulo 3, the fourth 1 modulo 2.
    ("--by chance 1234567", FIVE, "", "schedule c b a e d;"),
    // The first draws of the seed 0 are 1, 0, 1, 0, 1, 0 modulo 2, and those of 7 are 1, 0, 0, 1, 0, 1.
    ("--by chance 0", THREES, "", "schedule b a b a b a;"),
    ("--by=chance 7", THREES, "", "schedule b a a b a b;"),
    // That of 0 is 1 modulo 3, and the second 0 modulo 2.
    ("--by chance 0", ONES, "", "schedule b a c;"),
    (
        "--by chance 4294967295",
        ALONE,
        "schedule w;",
        "schedule w w w;",
    ),
    // Without a thread there is no schedule.
    ("--by priority", "lockrun 1;", "", ""),
];

const POLICIES: &[&str] = &[
    "--by priority",
    "--by priority --without-loans",
    "--by chance 1",
];

#[test]
fn schedules_by_hand(rt: HostRuntime) -> Result<(), Fail> {
    for row in WRITTEN {
        check_row(row.0, is_written(rt.alloc(), row)?)?;
        for policy in POLICIES {
            let left = (*policy, row.1, row.3, row.3);
            check_row(policy, is_written(rt.alloc(), &left)?)?;
        }
    }
    Ok(())
}

// Whether a call is done, and writes those lines.
fn is_written(alloc: Global, row: &Written) -> Result<bool, AllocError> {
    let (line, head, read, written) = *row;
    let text = bytes_of(alloc, &[head, written, "done;"])?;
    writes(alloc, line, &[head, read, "done;"], &text)
}

fn writes(alloc: Global, line: &str, script: &[&str], text: &[u8]) -> Result<bool, AllocError> {
    let mut ends = Ends::new(alloc, line, script)?;
    let ended = lockplan(alloc, &ends.words, &mut ends.source, &mut ends.sink);
    Ok(ended.status == Done && ended.fault.is_empty() && ends.sink.bytes() == text)
}

// Words and a script that is read or not, and how the call ends.
const ENDS: &[(&str, &str, Status)] = &[
    ("", ONES, Usage),
    ("--by", ONES, Usage),
    ("--by base", ONES, Usage),
    ("--by chance", ONES, Usage),
    ("--by chance x", ONES, Usage),
    ("--by chance 4294967296", ONES, Usage),
    ("--by chance --seed 7", ONES, Usage),
    ("--seed 7 --by chance", ONES, Usage),
    ("--by priority --seed 7", ONES, Usage),
    ("--by chance 7 --without-loans", ONES, Usage),
    ("--without-loans", ONES, Usage),
    ("--by priority --by priority", ONES, Usage),
    ("--by priority --without-loans --without-loans", ONES, Usage),
    ("--by --without-loans priority", ONES, Usage),
    ("priority", ONES, Usage),
    ("--by priority", "lockrun 2;", BadScript),
    ("--help", "lockrun 2;", Done),
    ("--by priority -h", "lockrun 2;", Done),
];

#[test]
fn ends_of_calls(rt: HostRuntime) -> Result<(), Fail> {
    for &(line, head, status) in ENDS {
        let mut ends = Ends::new(rt.alloc(), line, &[head, "done;"])?;
        let ended = lockplan(rt.alloc(), &ends.words, &mut ends.source, &mut ends.sink);
        check_row(line, ended.status == status)?;
    }
    Ok(())
}

// How calls end. The first script has 100,000 turns of a, all but one of which do nothing, and none is left. The
// second has a turn of b behind them. The third has 58,839 names of 16 bytes in lines of eleven, and in lines of ten
// more bytes than a script may have.
const LONG: &[(&str, Status)] = &[
    (
        "lockrun 1;thread a 1;show;end;[2000 schedule a a a a a a a a a a a a a a a a a a a a a a a a a \
            a a a a a a a a a a a a a a a a a a a a a a a a a;]done;",
        Done,
    ),
    (
        "lockrun 1;thread a 1;show;end;thread b 1;show;end;[2000 schedule a a a a a a a a a a a a a a a \
            a a a a a a a a a a a a a a a a a a a a a a a a a a a a a a a a a a a;]done;",
        TooLong,
    ),
    (
        "lockrun 1;thread abcdefghijklmnop 1;show;end;[5349 schedule \
            abcdefghijklmnop abcdefghijklmnop abcdefghijklmnop abcdefghijklmnop abcdefghijklmnop \
            abcdefghijklmnop abcdefghijklmnop abcdefghijklmnop abcdefghijklmnop abcdefghijklmnop \
            abcdefghijklmnop;]done;",
        TooLong,
    ),
];

const TOO_LONG: &str = "lockplan: the schedule would have more than 100,000 entries, \
    or the script more than 1,048,576 bytes\n";

#[test]
fn schedules_that_are_too_long(rt: HostRuntime) -> Result<(), Fail> {
    for &(script, status) in LONG {
        check_row(script, ends_so(rt.alloc(), script, status)?)?;
    }
    let said = complaint(rt.alloc(), LOCKPLAN, TooLong, b"")?;
    assert!(rt; said.as_slice() == TOO_LONG.as_bytes());
    Ok(())
}

// Whether a call ends so, and writes nothing where the schedule is too long.
fn ends_so(alloc: Global, script: &str, status: Status) -> Result<bool, AllocError> {
    let mut ends = Ends::new(alloc, "--by priority", &[script])?;
    let ended = lockplan(alloc, &ends.words, &mut ends.source, &mut ends.sink);
    Ok(ended.status == status && ends.sink.bytes().is_empty() == (status == TooLong))
}
