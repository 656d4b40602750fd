//! Lock words: what 64 bits say about a lock, which holder a word admits, and what it becomes.
//!
//! Bit 0 shows exclusive waiters and bit 1 shared ones. Bit 2 is set where the lock is held exclusively.
//! The bits from 3 up hold the owner's number there, and else the number of threads that share the lock.
//! A call is one row of a table in `lock_model`'s `specs/Words.antt`, read off the bits.
#![tactic(auto)]

ghost use Rattle.std.specs.Prelude.{◌≡◌, ◌≤◌, ◌/◌, ◌%◌, ◌==◌, true, false, option_map};
ghost use Rattle.lock_model.specs.Words.{word_of, bits_of, IsWellFormed, admits, is_plain, gained, dropped, entered, unshown, opened, side_opened, side_woken, claimed, without_one, is_drop, is_free, owner_of, shows_waiters};
ghost use Rattle.lock_words.specs.Views.{word_of_view, MayGain, IsHeldIn};

use lock_model::{Kind, Mode, Side, ThreadNo};

const EXCLUSIVE_WAITERS: u64 = 1;

const SHARED_WAITERS: u64 = 2;

const EXCLUSIVE: u64 = 4;

const ONE: u64 = 8;

/// Who holds a lock.
///
/// ```
/// let hold = Hold::Shared(2);
/// ```
#[derive(Clone, Copy, Debug, PartialEq, Eq)]
pub enum Hold {
    /// Nobody.
    Free,
    /// One thread, exclusively.
    Excl(ThreadNo),
    /// So many threads, which share it.
    Shared(u32),
}

/// What a lock word says: its holder, and whether exclusive and shared waiters are shown.
///
/// ```
/// let two_readers = WordView { hold: Hold::Shared(2), xw: true, sw: false };
/// ```
#[derive(Clone, Copy, Debug, PartialEq, Eq)]
pub struct WordView {
    pub hold: Hold,
    pub xw: bool,
    pub sw: bool,
}

/// What a word says. The word is well formed: an owner is at most 63, and at most 64 threads share.
pub fn decode(w: u64) -> WordView
    requires { IsWellFormed (word_of w) }
    ensures word { word_of_view result ≡ word_of w }
    ensures again { bits_of (word_of_view result) ≡ w }
{
    let high = w / ONE;
    let hold = if is_exclusive(w) {
        Hold::Excl(ThreadNo(high as u8))
    } else if high == 0 {
        Hold::Free
    } else {
        Hold::Shared(high as u32)
    };
    WordView {
        hold,
        xw: w % 2 == EXCLUSIVE_WAITERS,
        sw: w / SHARED_WAITERS % 2 == 1,
    }
}

/// The word that says it. An owner is at most 63, and from 1 to 64 threads share.
pub fn encode(v: WordView) -> u64
    requires { IsWellFormed (word_of_view v) }
    ensures bits { result ≡ bits_of (word_of_view v) }
    ensures read_back { word_of result ≡ word_of_view v }
{
    let holder = match v.hold {
        Hold::Free => 0,
        Hold::Excl(t) => ONE * u64::from(t.0) + EXCLUSIVE,
        Hold::Shared(n) => ONE * u64::from(n),
    };
    holder + SHARED_WAITERS * u64::from(v.sw) + EXCLUSIVE_WAITERS * u64::from(v.xw)
}

/// The thread that holds the lock exclusively. There is none exactly where nobody does.
pub fn owner_of(w: u64) -> Option<ThreadNo>
    requires { IsWellFormed (word_of w) }
    ensures { option_map (λ t. t.0) result ≡ owner_of (word_of w).holder }
{
    if is_exclusive(w) {
        Some(ThreadNo((w / ONE) as u8))
    } else {
        None
    }
}

/// Whether the word shows waiters, of either side.
pub fn shows_waiters(w: u64) -> bool
    ensures { result ≡ shows_waiters (word_of w) }
{
    w % EXCLUSIVE != 0
}

/// Whether a release of the held word only takes one holder off: another shared holder stays, or no waiter is
/// shown. Else it opens the lock and wakes waiters.
pub fn is_drop(w: u64) -> bool
    ensures { result ≡ is_drop (word_of w) }
{
    let is_shared_on = !is_exclusive(w) && w / ONE > 1;
    is_shared_on || !shows_waiters(w)
}

/// Whether a thread may gain a lock of that kind in that mode. A mutex is asked for exclusively alone.
pub fn admits(kind: Kind, w: u64, mode: Mode) -> bool
    requires well_formed { IsWellFormed (word_of w) }
    requires mutex { kind ≡ Kind.Mtx → mode ≡ Mode.Excl }
    ensures { result ≡ admits kind (word_of w) mode }
{
    let is_free = w / EXCLUSIVE == 0;
    match (kind, mode) {
        (_, Mode::Excl) => is_free,
        (Kind::Mtx, Mode::Shared) => false,
        (Kind::Rw, Mode::Shared) => !is_exclusive(w) && (is_free || w % 2 == 0),
        (Kind::Sx, Mode::Shared) => !is_exclusive(w),
    }
}

/// Whether a gain in that mode keeps the waiters' bits and is no more than that. An exclusive gain of a mutex or a
/// reader-writer lock whose word shows waiters is a claim: the thread becomes the owner of their turnstile.
pub fn is_plain(kind: Kind, w: u64, mode: Mode) -> bool
    ensures { result ≡ is_plain kind (word_of w) mode }
{
    match (kind, mode) {
        (_, Mode::Shared) | (Kind::Sx, Mode::Excl) => true,
        (Kind::Mtx | Kind::Rw, Mode::Excl) => !shows_waiters(w),
    }
}

/// The word with one holder more, and the same waiters' bits. It is free, or the mode is shared and 1 to 63 threads
/// share it.
pub fn gained(w: u64, t: ThreadNo, mode: Mode) -> u64
    requires well_formed { IsWellFormed (word_of w) }
    requires thread { t.0 ≤ 63 }
    requires may { MayGain (word_of w).holder mode }
    ensures word { word_of result ≡ gained (word_of w) t.0 mode }
    ensures well_formed { IsWellFormed (word_of result) }
{
    match mode {
        Mode::Excl => w + ONE * u64::from(t.0) + EXCLUSIVE,
        Mode::Shared => w + ONE,
    }
}

/// The word with one holder less, and the same waiters' bits. It is held in that mode, and another shared holder stays
/// or no waiter is shown.
pub fn dropped(w: u64, mode: Mode) -> u64
    requires well_formed { IsWellFormed (word_of w) }
    requires held { IsHeldIn (word_of w).holder mode }
    requires may { is_drop (word_of w) ≡ true }
    ensures word { word_of result ≡ dropped (word_of w) }
    ensures well_formed { IsWellFormed (word_of result) }
{
    match mode {
        Mode::Excl => w % EXCLUSIVE,
        Mode::Shared => w - ONE,
    }
}

/// The word with a waiter shown on that side. It is held.
pub fn entered(w: u64, side: Side) -> u64
    requires well_formed { IsWellFormed (word_of w) }
    requires held { is_free (word_of w).holder ≡ false }
    ensures word { word_of result ≡ entered (word_of w) side }
    ensures well_formed { IsWellFormed (word_of result) }
{
    match side {
        Side::X => w - w % 2 + EXCLUSIVE_WAITERS,
        Side::S => w - SHARED_WAITERS * (w / SHARED_WAITERS % 2) + SHARED_WAITERS,
    }
}

/// The word with no waiter shown on that side.
pub fn unshown(w: u64, side: Side) -> u64
    requires { IsWellFormed (word_of w) }
    ensures word { word_of result ≡ unshown (word_of w) side }
    ensures well_formed { IsWellFormed (word_of result) }
{
    match side {
        Side::X => w - w % 2,
        Side::S => w - SHARED_WAITERS * (w / SHARED_WAITERS % 2),
    }
}

/// The free word that the last holder leaves, and the side that it wakes, whose bit is cleared; the other side's bit
/// stays. The side is `None` exactly where no waiter is shown. One holder is left.
pub fn opened(kind: Kind, w: u64) -> (u64, Option<Side>)
    requires well_formed { IsWellFormed (word_of w) }
    requires last { is_free (without_one (word_of w).holder) ≡ true }
    requires held { is_free (word_of w).holder ≡ false }
    ensures word { word_of result.0 ≡ opened kind (word_of w) }
    ensures side { result.1 ≡ side_opened kind (word_of w) }
{
    let side = side_woken(kind, w);
    (
        unshown(w % EXCLUSIVE, side),
        shows_waiters(w).then_some(side),
    )
}

fn side_woken(kind: Kind, w: u64) -> Side
    ensures { result ≡ side_woken kind (word_of w) }
{
    let xw = w % 2 == 1;
    let sw = w / SHARED_WAITERS % 2 == 1;
    let shared_first = match kind {
        Kind::Mtx => false,
        Kind::Rw => !xw,
        Kind::Sx => if is_exclusive(w) { sw } else { !xw },
    };
    if shared_first { Side::S } else { Side::X }
}

/// The free word made the thread's own, with the same waiters' bits.
pub fn claimed(w: u64, t: ThreadNo) -> u64
    requires well_formed { IsWellFormed (word_of w) }
    requires free { is_free (word_of w).holder ≡ true }
    requires thread { t.0 ≤ 63 }
    ensures word { word_of result ≡ claimed (word_of w) t.0 }
    ensures well_formed { IsWellFormed (word_of result) }
{
    w + ONE * u64::from(t.0) + EXCLUSIVE
}

fn is_exclusive(w: u64) -> bool
    ensures { result ≡ (w / 4 % 2 == 1) }
{
    w / EXCLUSIVE % 2 == 1
}
