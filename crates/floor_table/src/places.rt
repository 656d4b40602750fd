//! Where the words of a floor's table are.
ghost use Rattle.std.specs.Prelude.{◌≡◌, ◌<◌, ◌^◌};
ghost use Rattle.floor_table.specs.Places.{spot, lock_line, wait_line, ticket_line, awake_line, ended_line, halt_line, latch_line, words_for};

use lock_model::{LockNo, ThreadNo};

// How many words a line has: those of a cache line.
const LINE: usize = 8;

// The line of the first wait word, behind room for the words of 64 locks.
const WAITS: usize = 64;

// The line of the ticket word, behind room for the wait words of 32 threads.
const TICKET: usize = 96;

// The line of the word that counts the threads which are awake.
const AWAKE: usize = 97;

// The line of the word that counts those that have ended.
const ENDED: usize = 98;

// The line of the halt word.
const HALT: usize = 99;

// The line of the first latch.
const LATCHES: usize = 128;

/// Where a lock's word is.
pub fn lock_spot(l: LockNo) -> usize
    ensures { result ≡ spot (lock_line l.0) }
{
    LINE * usize::from(l.0)
}

/// Where a thread's wait word is.
pub fn wait_spot(t: ThreadNo) -> usize
    ensures { result ≡ spot (wait_line t.0) }
{
    LINE * (WAITS + usize::from(t.0))
}

/// Where the word of the next ticket is.
pub fn ticket_spot() -> usize
    ensures { result ≡ spot ticket_line }
{
    LINE * TICKET
}

/// Where the word is that counts the threads which are awake.
pub fn awake_spot() -> usize
    ensures { result ≡ spot awake_line }
{
    LINE * AWAKE
}

/// Where the word is that counts the threads which have ended.
pub fn ended_spot() -> usize
    ensures { result ≡ spot ended_line }
{
    LINE * ENDED
}

/// Where the halt word is.
pub fn halt_spot() -> usize
    ensures { result ≡ spot halt_line }
{
    LINE * HALT
}

/// Where the latch of a value is.
pub fn latch_spot(slot: usize) -> usize
    requires { slot < 2 ^ 32 }
    ensures { result ≡ spot (latch_line slot) }
{
    LINE * (LATCHES + slot)
}

/// How many words a table with so many values has.
pub fn words_for(slots: usize) -> usize
    requires { slots < 2 ^ 32 }
    ensures { result ≡ words_for slots }
{
    latch_spot(slots)
}
