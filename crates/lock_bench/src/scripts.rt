//! The runs that are timed, and their scripts: each thread makes the same round again and again, and in the end a
//! `show`, before which its clock is read.
ghost use Rattle.std.specs.Prelude.{◌<◌};

use std::alloc::{AllocError, Global};

// The keys that the edits go round.
const KEYS: usize = 16;

// The better priority of the thread that takes the first owner's mutex in a chain, and that of all others.
const BETTER: u32 = 10;

const USUAL: u32 = 100;

/// What a thread does in each round. It has a first lock and a second one: mutexes, or reader-writer locks where it
/// reads or writes, or sx locks where it shares.
#[derive(Clone, Copy, PartialEq, Eq)]
pub enum Round {
    /// It takes the first, and gives it back.
    Bare,
    /// It edits the first one's table while it holds it.
    Edit,
    /// It works for a microsecond too, before it gives it back.
    Long,
    /// It takes the first and gives it back, and then takes and edits the second.
    Apart,
    /// It takes and edits the second while it holds the first.
    Nested,
    /// It takes the first for reading, and gives it back.
    Read,
    /// It takes it for writing, and gives it back.
    Write,
    /// It gets a value of its table while it holds it for reading.
    Get,
    /// The last thread edits the table, for which it takes the lock for writing, and all others get a value.
    Mixed,
    /// So it goes here, and of the last thread's takes it is told how long they were while all others read.
    Waits,
    /// It gets a value of its table while it holds it shared.
    Share,
    /// There are two threads and one condition, with a mutex that each holds but while it waits: the first waits and
    /// signals, and the second signals and waits.
    PingPong,
    /// All threads but the last wait on one condition, with its mutex, and the last one takes the mutex and wakes all,
    /// once all of them sleep.
    Broadcast,
    /// There are no rounds, but a chain of threads that each hold a mutex and wait for the next one's. The last of them
    /// shows its priority again and again, and one with a better priority takes the first one's mutex.
    Chain,
}

/// A run that is timed: how many threads it has, over how many locks they are spread, and what they do.
#[derive(Clone, Copy)]
pub struct Case {
    pub name: &'static str,
    pub threads: usize,
    pub locks: usize,
    pub round: Round,
}

/// The runs, as bench/mutex_baseline.c, bench/rwlock_baseline.c and bench/cond_baseline.c make them, but for the last.
pub const CASES: [(&str, usize, usize, Round); 29] = [
    ("lock_unlock", 1, 1, Round::Bare),
    ("one_mutex_1_thread", 1, 1, Round::Edit),
    ("one_mutex_2_threads", 2, 1, Round::Edit),
    ("one_mutex_4_threads", 4, 1, Round::Edit),
    ("one_mutex_32_threads", 32, 1, Round::Edit),
    ("two_mutexes_4_threads", 4, 2, Round::Edit),
    ("own_mutexes_2_threads", 2, 2, Round::Edit),
    ("own_mutexes_4_threads", 4, 4, Round::Edit),
    ("long_sections_1_thread", 1, 1, Round::Long),
    ("long_sections_2_threads", 2, 1, Round::Long),
    ("long_sections_4_threads", 4, 1, Round::Long),
    ("long_sections_32_threads", 32, 1, Round::Long),
    ("long_sections_of_two_mutexes_4_threads", 4, 2, Round::Long),
    ("takes_apart_1_thread", 1, 1, Round::Apart),
    ("takes_apart_4_threads", 4, 4, Round::Apart),
    ("nested_takes_1_thread", 1, 1, Round::Nested),
    ("nested_takes_4_threads", 4, 4, Round::Nested),
    ("read_unlock", 1, 1, Round::Read),
    ("write_unlock", 1, 1, Round::Write),
    ("readers_1_thread", 1, 1, Round::Get),
    ("readers_2_threads", 2, 1, Round::Get),
    ("readers_4_threads", 4, 1, Round::Get),
    ("readers_4_threads_and_a_writer", 5, 1, Round::Mixed),
    ("write_under_4_readers", 5, 1, Round::Waits),
    ("sx_readers_1_thread", 1, 1, Round::Share),
    ("sx_readers_4_threads", 4, 1, Round::Share),
    ("ping_pong_2_threads", 2, 1, Round::PingPong),
    ("broadcast_31_sleepers", 32, 1, Round::Broadcast),
    ("chain_of_8_owners", 9, 8, Round::Chain),
];

// What a thread does with a lock: how it takes it, what it does while it has it, and how it gives it back.
#[derive(Clone, Copy)]
struct Section {
    take: &'static str,
    within: Within,
    release: &'static str,
}

#[derive(Clone, Copy)]
enum Within {
    Nothing,
    // The number of the round is added to the value of a key.
    Add,
    // That value is read.
    Get,
}

const BARE: Section = Section {
    take: "lock",
    within: Within::Nothing,
    release: "unlock",
};

const EDIT: Section = Section {
    within: Within::Add,
    ..BARE
};

const READ: Section = Section {
    take: "rlock",
    within: Within::Nothing,
    release: "runlock",
};

const GET: Section = Section {
    within: Within::Get,
    ..READ
};

const WRITE: Section = Section {
    take: "wlock",
    within: Within::Nothing,
    release: "wunlock",
};

const CHANGE: Section = Section {
    within: Within::Add,
    ..WRITE
};

const SHARE: Section = Section {
    take: "slock",
    within: Within::Get,
    release: "sunlock",
};

// What a thread does where threads wait on the condition: before all rounds, in each, and behind them.
#[derive(Clone, Copy)]
struct Part {
    first: &'static str,
    round: &'static str,
    last: &'static str,
}

// The two of a ping-pong.
const WAITS: Part = Part {
    first: "lock m0\n",
    round: "wait woken\nsignal woken\n",
    last: "unlock m0\n",
};

const SIGNALS: Part = Part {
    first: "lock m0\n",
    round: "signal woken\nwait woken\n",
    last: "unlock m0\n",
};

// A sleeper of a broadcast, and the thread that wakes all.
const SLEEPS: Part = Part {
    first: "lock m0\n",
    round: "wait woken\n",
    last: "unlock m0\n",
};

const WAKES: Part = Part {
    first: "",
    round: "lock m0\nbroadcast woken\nunlock m0\n",
    last: "",
};

impl Round {
    /// How many operations it has; of a broadcast, for the thread that wakes.
    pub fn operations(self) -> usize
        ensures { 0 < result }
    {
        match self {
            Round::Bare | Round::Read | Round::Write | Round::PingPong => 2,
            Round::Edit
            | Round::Long
            | Round::Get
            | Round::Mixed
            | Round::Waits
            | Round::Share
            | Round::Broadcast => 3,
            Round::Apart | Round::Nested => 5,
            Round::Chain => 1,
        }
    }

    // By which word a script declares its locks.
    fn kind(self) -> &'static str {
        match self {
            Round::Bare
            | Round::Edit
            | Round::Long
            | Round::Apart
            | Round::Nested
            | Round::PingPong
            | Round::Broadcast
            | Round::Chain => "mutex",
            Round::Read | Round::Write | Round::Get | Round::Mixed | Round::Waits => "rw",
            Round::Share => "sx",
        }
    }
}

impl Case {
    /// The case that a row of the table names.
    pub fn of(row: &(&'static str, usize, usize, Round)) -> Case {
        let (name, threads, locks, round) = *row;
        Case {
            name,
            threads,
            locks,
            round,
        }
    }

    // Whether the thread is the last of all.
    fn is_last(&self, t: usize) -> bool {
        t.saturating_add(1) == self.threads
    }

    /// How many rounds each thread makes, where all threads together make so many operations at most; in a chain, how
    /// often the last owner shows its priority.
    pub fn rounds(&self, most: usize) -> usize {
        most / self.threads.max(1) / self.round.operations()
    }

    /// How many operations its threads make together in so many rounds each. A chain is timed as one, and where threads
    /// wait on a condition, each round.
    pub fn operations(&self, rounds: usize) -> u64 {
        match self.round {
            Round::Bare
            | Round::Edit
            | Round::Long
            | Round::Apart
            | Round::Nested
            | Round::Read
            | Round::Write
            | Round::Get
            | Round::Mixed
            | Round::Waits
            | Round::Share => rounds
                .saturating_mul(self.round.operations())
                .saturating_mul(self.threads) as u64,
            Round::PingPong | Round::Broadcast => rounds as u64,
            Round::Chain => 1,
        }
    }
}

/// The script of a case, in which each thread makes so many rounds.
pub fn script_of(alloc: Global, case: &Case, rounds: usize) -> Result<String, AllocError> {
    let mut script = String::new(alloc);
    push_script(alloc, &mut script, case, rounds)?;
    Ok(script)
}

fn push_script(
    alloc: Global,
    script: &mut String,
    case: &Case,
    rounds: usize,
) -> Result<(), AllocError> {
    script.push_str("lockrun 1\n")?;
    for m in 0..case.locks.saturating_mul(2) {
        push_lock(alloc, script, case.round.kind(), m)?;
    }
    script.push_str("cond woken m0\n")?;
    for t in 0..case.threads {
        push_thread(alloc, script, case, t, rounds)?;
    }
    script.push_str("done\n")
}

fn push_lock(alloc: Global, script: &mut String, kind: &str, m: usize) -> Result<(), AllocError> {
    script.push_str(&format!(in alloc; "{kind} m{m} c{m}\n")?)
}

fn push_thread(
    alloc: Global,
    script: &mut String,
    case: &Case,
    t: usize,
    rounds: usize,
) -> Result<(), AllocError> {
    match case.round {
        Round::Bare
        | Round::Edit
        | Round::Long
        | Round::Apart
        | Round::Nested
        | Round::Read
        | Round::Write
        | Round::Get
        | Round::Mixed
        | Round::Waits
        | Round::Share => push_rounds(alloc, script, case, t, rounds),
        Round::PingPong => {
            let part = if case.is_last(t) { SIGNALS } else { WAITS };
            push_part(alloc, script, t, &part, rounds)
        }
        Round::Broadcast => {
            let part = if case.is_last(t) { WAKES } else { SLEEPS };
            push_part(alloc, script, t, &part, rounds)
        }
        Round::Chain => push_link(alloc, script, case, t, rounds),
    }
}

// The first line of a thread.
fn push_head(alloc: Global, script: &mut String, t: usize, base: u32) -> Result<(), AllocError> {
    script.push_str(&format!(in alloc; "thread t{t} {base}\n")?)
}

// A thread that makes so many rounds, with the lock that is its own among so many, and with one behind all of these.
fn push_rounds(
    alloc: Global,
    script: &mut String,
    case: &Case,
    t: usize,
    rounds: usize,
) -> Result<(), AllocError> {
    let a = t % case.locks.max(1);
    let b = a.saturating_add(case.locks);
    push_head(alloc, script, t, USUAL)?;
    for i in 0..rounds {
        push_round(alloc, script, case.round, case.is_last(t), (a, b), i)?;
    }
    script.push_str("show\nend\n")
}

// The round of that number of a thread with these two locks, which writes where others read if it is the last.
fn push_round(
    alloc: Global,
    script: &mut String,
    round: Round,
    is_last: bool,
    (a, b): (usize, usize),
    i: usize,
) -> Result<(), AllocError> {
    match round {
        Round::Bare => push_section(alloc, script, &BARE, a, i),
        Round::Edit | Round::Long => push_section(alloc, script, &EDIT, a, i),
        Round::Apart => {
            push_section(alloc, script, &BARE, a, i)?;
            push_section(alloc, script, &EDIT, b, i)
        }
        Round::Nested => {
            push_of(alloc, script, "lock", a)?;
            push_section(alloc, script, &EDIT, b, i)?;
            push_of(alloc, script, "unlock", a)
        }
        Round::Read => push_section(alloc, script, &READ, a, i),
        Round::Write => push_section(alloc, script, &WRITE, a, i),
        Round::Mixed | Round::Waits if is_last => push_section(alloc, script, &CHANGE, a, i),
        Round::Get | Round::Mixed | Round::Waits => push_section(alloc, script, &GET, a, i),
        Round::Share => push_section(alloc, script, &SHARE, a, i),
        Round::PingPong | Round::Broadcast | Round::Chain => Ok(()),
    }
}

// A section of a lock, in the round of that number.
fn push_section(
    alloc: Global,
    script: &mut String,
    section: &Section,
    m: usize,
    i: usize,
) -> Result<(), AllocError> {
    push_of(alloc, script, section.take, m)?;
    match section.within {
        Within::Nothing => {}
        Within::Add => push_add(alloc, script, m, i)?,
        Within::Get => push_get(alloc, script, m, i)?,
    }
    push_of(alloc, script, section.release, m)
}

fn push_add(alloc: Global, script: &mut String, m: usize, i: usize) -> Result<(), AllocError> {
    let key = i % KEYS;
    script.push_str(&format!(in alloc; "add m{m} {key} {i}\n")?)
}

fn push_get(alloc: Global, script: &mut String, m: usize, i: usize) -> Result<(), AllocError> {
    let key = i % KEYS;
    script.push_str(&format!(in alloc; "get m{m} {key}\n")?)
}

// A thread that has a part where threads wait on the condition.
fn push_part(
    alloc: Global,
    script: &mut String,
    t: usize,
    part: &Part,
    rounds: usize,
) -> Result<(), AllocError> {
    push_head(alloc, script, t, USUAL)?;
    script.push_str(part.first)?;
    for _ in 0..rounds {
        script.push_str(part.round)?;
    }
    script.push_str(part.last)?;
    script.push_str("show\nend\n")
}

// A thread of a chain: an owner, the last of them, or the one that takes the first one's mutex.
fn push_link(
    alloc: Global,
    script: &mut String,
    case: &Case,
    t: usize,
    shows: usize,
) -> Result<(), AllocError> {
    let next = t.saturating_add(1);
    if next == case.threads {
        push_head(alloc, script, t, BETTER)?;
        script.push_str("show\nlock m0\nunlock m0\nend\n")
    } else {
        push_head(alloc, script, t, USUAL)?;
        push_of(alloc, script, "lock", t)?;
        if next < case.locks {
            push_of(alloc, script, "lock", next)?;
            push_of(alloc, script, "unlock", next)?;
        } else {
            push_shows(script, shows)?;
        }
        push_of(alloc, script, "unlock", t)?;
        script.push_str("end\n")
    }
}

// An operation of a lock.
fn push_of(alloc: Global, script: &mut String, word: &str, m: usize) -> Result<(), AllocError> {
    script.push_str(&format!(in alloc; "{word} m{m}\n")?)
}

fn push_shows(script: &mut String, shows: usize) -> Result<(), AllocError> {
    for _ in 0..shows {
        script.push_str("show\n")?;
    }
    Ok(())
}
