//! The tests that a line has to pass, stage by stage, in the order of their codes. Each answers the code of the first
//! that fails, or what the line's words stand for.
#![tactic(auto, using(lock_model::proofs::LeastCodes::least_is_first))]

ghost use Rattle.std.specs.Prelude.{◌≡◌, ◌<◌, ◌==◌, ◌||◌, Some, None, Ok, Err, IfOk, if◌then◌else◌, length, nat_lt, ok_or, option_and_then, slice_get};
ghost use Rattle.std.specs.List.{list_all};
ghost use Rattle.lock_model.specs.Limits.{most_channels, most_classes, most_locks, most_operations, most_threads};
ghost use Rattle.lock_model.specs.Names.{is_name};
ghost use Rattle.lock_model.specs.Operations.{is_of_kind, may_be_held};
ghost use Rattle.lock_model.specs.Script.Faults.{byte_tests, word_tests, is_before_threads};
ghost use Rattle.lock_model.specs.Script.Learning.{declared_as, lock_of, lock_named, chan_named, thread_named, class_number, op_of};
ghost use Rattle.lock_model.specs.Script.Lines.{has_meaning, is_printable, words_of, priority_of};
ghost use Rattle.lock_model.specs.Script.Statements.{Declares, DeclaresChan, Begins, Schedules, Take, Release, Try, Set, Add, Get, Prio, Show, Wait, statement_of};
ghost use Rattle.lock_model.specs.Tests.{least_code};
ghost use Rattle.lock_model.specs.declared.plan.Kind.TheVariants.{Sx};
ghost use Rattle.lock_model.specs.declared.plan.Op.TheVariants as operation;
ghost use Rattle.script_read.specs.OpenThreads.{thread_of};
ghost use Rattle.script_read.specs.Reading.{Finds, gain_tests, name_fault, named, operation_fault, sort_tests};
ghost use Rattle.script_read.specs.Readers.{known};
ghost use Rattle.script_read.specs.Statements.{meant, meant_operation};

use crate::fault::{Code, test};
use crate::numbers::{number_of, priority_of};
use crate::reader::Reader;
use crate::reader::held::{is_last, mode_of};
use crate::reader::open_thread::OpenThread;
use crate::statement::{Operation, Statement, statement_of};
use lock_model::{
    ChanDecl, ChanNo, Declared, Held, Kind, LockNo, Mode, Name, Op, Prio, ThreadNo, limits,
};

/// The stage of a line's bytes, of which is known whether each may stand in a script.
pub fn test_bytes(line: &[u8], printable: bool) -> Result<(), Code>
    requires { printable ≡ list_all is_printable line.now }
    ensures { Finds (least_code (byte_tests line.now)) result }
{
    test(Code::LENGTH, line.len() <= limits::LINE_BYTES)?;
    test(Code::BYTE, printable)
}

/// Whether a line says something: it isn't empty and no comment.
pub fn has_meaning(line: &[u8]) -> bool
    ensures { result ≡ has_meaning line.now }
{
    !line.is_empty() && line[0] != b'#'
}

impl Reader {
    /// The stage of a line's words: what it says.
    pub fn test_words<'a>(&self, line: &'a [u8]) -> Result<Statement<'a>, Code>
        ensures fault { Finds (least_code (word_tests (known self.now) line.now)) result }
        ensures said { IfOk result (λ s. statement_of line.now ≡ Some (meant s)) }
    {
        test(Code::WORDS, !self.is_done)?;
        statement_of(line).ok_or(Code::WORDS)
    }

    /// Whether no thread has begun.
    pub fn is_before_threads(&self) -> bool
        ensures { result ≡ is_before_threads (known self.now) }
    {
        self.open_thread.is_none() && self.threads.is_empty()
    }

    /// What a lock's declaration names: the lock and its class.
    pub fn test_lock(&self, kind: Kind, name: &[u8], class: &[u8]) -> Result<(Name, Name), Code>
        ensures fault { Finds (name_fault (known self.now)
            (Declares kind name.now class.now)) result }
        ensures names { IfOk result (λ r. (r.0 ≡ name.now) × (r.1 ≡ class.now)) }
        ensures new { IfOk result (λ r. declared_as (known self.now) name.now ≡ None) }
        ensures few { IfOk result (λ r. (length (known self.now).locks < most_locks)
            × (class_number (known self.now).classes class.now < most_classes)) }
    {
        let name = spelled(name)?;
        let class = spelled(class)?;
        test(Code::DECLARED, !self.names.contains_key(&name))?;
        test(Code::LIMIT, self.locks.len() < limits::LOCKS)?;
        test(Code::LIMIT, self.class_number(class) < limits::CLASSES)?;
        Ok((name, class))
    }

    // The number of a class: that of its first use, or the next.
    fn class_number(&self, class: Name) -> usize
        ensures { result ≡ class_number (known self.now).classes class }
    {
        self.classes
            .get_index_of(&class)
            .unwrap_or(self.classes.len())
    }

    /// What a channel's declaration names: the channel and its lock.
    pub fn test_chan(&self, cond: bool, name: &[u8], lock: &[u8]) -> Result<(Name, LockNo), Code>
        ensures fault { Finds (name_fault (known self.now)
            (DeclaresChan cond name.now lock.now)) result }
        ensures names { IfOk result (λ r. (r.0 ≡ name.now)
            × (lock_named (known self.now) lock.now ≡ Some r.1)) }
        ensures new { IfOk result (λ r. declared_as (known self.now) name.now ≡ None) }
        ensures few { IfOk result (λ r. length (known self.now).chans < most_channels) }
    {
        let name = spelled(name)?;
        let lock = spelled(lock)?;
        test(Code::DECLARED, !self.names.contains_key(&name))?;
        let lock = self.lock_of(&lock)?;
        test(Code::LIMIT, self.chans.len() < limits::CHANNELS)?;
        Ok((name, lock))
    }

    /// What a thread's first line says: its name and its priority.
    pub fn test_thread(&self, name: &[u8], prio: &[u8]) -> Result<(Name, Prio), Code>
        ensures fault { Finds (name_fault (known self.now) (Begins name.now prio.now)) result }
        ensures says { IfOk result (λ r. (r.0 ≡ name.now) × (priority_of prio.now ≡ Some r.1.0)) }
        ensures new { IfOk result (λ r. declared_as (known self.now) name.now ≡ None) }
        ensures few { IfOk result (λ r. length (known self.now).threads < most_threads) }
    {
        let name = spelled(name)?;
        test(Code::DECLARED, !self.names.contains_key(&name))?;
        let base = priority_of(prio).ok_or(Code::NUMBER)?;
        test(Code::LIMIT, self.threads.len() < limits::THREADS)?;
        Ok((name, base))
    }

    /// The operation that the words say, where it fits what the open thread holds.
    pub(super) fn test_operation(
        &self,
        thread: &OpenThread,
        operation: Operation,
    ) -> Result<Op, Code>
        ensures fault { Finds (operation_fault (known self.now) (meant_operation operation.entry)
            (thread_of thread.now)) result }
        ensures said { IfOk result (λ op. op_of (known self.now) (meant_operation operation.entry)
            ≡ Some op) }
        ensures few { IfOk result (λ op. (known self.now).operations < most_operations) }
    {
        match operation {
            Operation::Take { kind, mode, lock } => self.test_take(thread, kind, mode, lock),
            Operation::Try { kind, mode, lock } => self.test_try(thread, kind, mode, lock),
            Operation::Release { kind, mode, lock } => self.test_release(thread, kind, mode, lock),
            Operation::Set { lock, key, value } => {
                let (l, key, value) = self.test_edit(thread, lock, key, value)?;
                Ok(Op::Set { l, key, value })
            }
            Operation::Add { lock, key, amount } => {
                let (l, key, amount) = self.test_edit(thread, lock, key, amount)?;
                Ok(Op::Add { l, key, amount })
            }
            Operation::Get { lock, key } => self.test_get(thread, lock, key),
            Operation::Prio { prio } => {
                let prio = priority_of(prio).ok_or(Code::NUMBER)?;
                self.test_room()?;
                Ok(Op::Base { prio })
            }
            Operation::Show => {
                self.test_room()?;
                Ok(Op::Show)
            }
            Operation::Wait { cond, chan } => self.test_wait(thread, cond, chan),
            Operation::WakeOne { cond, chan } => {
                let c = self.chan_named(chan)?;
                self.test_sort(cond, c)?;
                Ok(Op::WakeOne { c })
            }
            Operation::WakeAll { cond, chan } => {
                let c = self.chan_named(chan)?;
                self.test_sort(cond, c)?;
                Ok(Op::WakeAll { c })
            }
        }
    }

    // `lock L` and its like take a lock.
    fn test_take(
        &self,
        thread: &OpenThread,
        kind: Kind,
        mode: Mode,
        lock: &[u8],
    ) -> Result<Op, Code>
        ensures fault { Finds (operation_fault (known self.now) (Take kind mode lock.now)
            (thread_of thread.now)) result }
        ensures said { IfOk result (λ op. op_of (known self.now) (Take kind mode lock.now)
            ≡ Some op) }
        ensures few { IfOk result (λ op. (known self.now).operations < most_operations) }
    {
        let l = self.lock_named(lock)?;
        self.test_gain(thread, kind, mode, l)?;
        Ok(Op::Take { l, mode })
    }

    // `trylock L` and its like try for a lock. Where the try goes on, its `endtry` says.
    #[tactic(auto, using(lock_model::proofs::LeastCodes::least_is_first, crate::proofs::OpenBlocks::as_many))]
    fn test_try(&self, thread: &OpenThread, kind: Kind, mode: Mode, lock: &[u8]) -> Result<Op, Code>
        ensures fault { Finds (operation_fault (known self.now) (Try kind mode lock.now)
            (thread_of thread.now)) result }
        ensures said { IfOk result (λ op. op_of (known self.now) (Try kind mode lock.now)
            ≡ Some op) }
        ensures few { IfOk result (λ op. (known self.now).operations < most_operations) }
    {
        let l = self.lock_named(lock)?;
        test(Code::LIMIT, thread.blocks.len() < limits::OPEN_TRIES)?;
        self.test_gain(thread, kind, mode, l)?;
        Ok(Op::Try { l, mode, past: 0 })
    }

    // A thread is to gain a lock.
    fn test_gain(&self, thread: &OpenThread, kind: Kind, mode: Mode, l: LockNo) -> Result<(), Code>
        ensures fault { Finds (least_code (gain_tests (known self.now) (thread_of thread.now)
            kind mode l)) result }
        ensures few { IfOk result (λ op. (known self.now).operations < most_operations) }
    {
        self.test_room()?;
        test(Code::LIMIT, thread.held.len() < limits::HELD)?;
        test(
            Code::KIND,
            self.is_of_kind(kind, l) && self.may_be_held(mode, l),
        )?;
        test(Code::HELD, mode_of(&thread.held, l).is_none())?;
        test(
            Code::UNDER_OTHERS,
            !self.is_of_kind(Kind::Sx, l) || self.are_sx(&thread.held),
        )
    }

    // `unlock L` and its like release a lock.
    fn test_release(
        &self,
        thread: &OpenThread,
        kind: Kind,
        mode: Mode,
        lock: &[u8],
    ) -> Result<Op, Code>
        ensures fault { Finds (operation_fault (known self.now) (Release kind mode lock.now)
            (thread_of thread.now)) result }
        ensures said { IfOk result (λ op. op_of (known self.now) (Release kind mode lock.now)
            ≡ Some op) }
        ensures few { IfOk result (λ op. (known self.now).operations < most_operations) }
    {
        let l = self.lock_named(lock)?;
        self.test_room()?;
        test(Code::KIND, self.is_of_kind(kind, l))?;
        let held = mode_of(&thread.held, l);
        test(Code::MODE, held.is_none_or(|held| held == mode))?;
        test(Code::UNHELD, held.is_some())?;
        Ok(Op::Release { l })
    }

    // `set L KEY VALUE` and `add L KEY AMOUNT` change a lock's table: the lock and the two numbers.
    #[inline(always)]
    fn test_edit(
        &self,
        thread: &OpenThread,
        lock: &[u8],
        key: &[u8],
        number: &[u8],
    ) -> Result<(LockNo, u64, u64), Code>
        ensures fault { Finds (operation_fault (known self.now) (Set lock.now key.now number.now)
            (thread_of thread.now)) result }
        ensures said { IfOk result (λ r. op_of (known self.now) (Set lock.now key.now number.now)
            ≡ Some (operation.Set r.0 r.1 r.2)) }
        ensures few { IfOk result (λ op. (known self.now).operations < most_operations) }
    {
        let l = self.lock_named(lock)?;
        let key = number_of(key).ok_or(Code::NUMBER)?;
        let number = number_of(number).ok_or(Code::NUMBER)?;
        self.test_room()?;
        let held = mode_of(&thread.held, l).ok_or(Code::UNHELD)?;
        test(Code::SHARED, held == Mode::Excl)?;
        Ok((l, key, number))
    }

    // `get L KEY` reads a key of a lock's table.
    fn test_get(&self, thread: &OpenThread, lock: &[u8], key: &[u8]) -> Result<Op, Code>
        ensures fault { Finds (operation_fault (known self.now) (Get lock.now key.now)
            (thread_of thread.now)) result }
        ensures said { IfOk result (λ op. op_of (known self.now) (Get lock.now key.now) ≡ Some op) }
        ensures few { IfOk result (λ op. (known self.now).operations < most_operations) }
    {
        let l = self.lock_named(lock)?;
        let key = number_of(key).ok_or(Code::NUMBER)?;
        self.test_room()?;
        test(Code::UNHELD, mode_of(&thread.held, l).is_some())?;
        Ok(Op::Get { l, key })
    }

    // `wait C` and `msleep C` wait with the lock of a condition variable or channel.
    #[tactic(auto, using(lock_model::proofs::LeastCodes::least_is_first, crate::proofs::Channels::sort_of, crate::proofs::Channels::is_declared))]
    fn test_wait(&self, thread: &OpenThread, cond: bool, chan: &[u8]) -> Result<Op, Code>
        ensures fault { Finds (operation_fault (known self.now) (Wait cond chan.now)
            (thread_of thread.now)) result }
        ensures said { IfOk result (λ op. op_of (known self.now) (Wait cond chan.now) ≡ Some op) }
        ensures few { IfOk result (λ op. (known self.now).operations < most_operations) }
    {
        let c = self.chan_named(chan)?;
        let lock = self.test_sort(cond, c)?.lock;
        test(Code::UNHELD, mode_of(&thread.held, lock).is_some())?;
        test(Code::UNDER_OTHERS, self.are_sx_beside(&thread.held, lock))?;
        test(Code::NOT_LAST, is_last(&thread.held, lock))?;
        Ok(Op::Sleep { c })
    }

    // What waits and wakes share, where the channel that they name is known: it is declared, and of their sort.
    #[tactic(auto, using(lock_model::proofs::LeastCodes::least_is_first, crate::proofs::Channels::sort_of, crate::proofs::Channels::is_declared))]
    fn test_sort(&self, cond: bool, c: ChanNo) -> Result<ChanDecl, Code>
        ensures fault { Finds (least_code (sort_tests (known self.now) cond c)) result }
        ensures declared { IfOk result (λ d. slice_get (known self.now).chans c.0 ≡ Some d) }
        ensures few { IfOk result (λ d. (known self.now).operations < most_operations) }
    {
        let chan = self.declared_chan(c).ok_or(Code::UNDECLARED)?;
        self.test_room()?;
        test(Code::KIND, chan.cond == cond)?;
        Ok(chan)
    }

    // There is room for an operation more.
    fn test_room(&self) -> Result<(), Code>
        ensures { result ≡ (if nat_lt (known self.now).operations most_operations
            then Ok tt else Err (record { 0 = 7 })) }
    {
        test(Code::LIMIT, self.operations < limits::OPERATIONS)
    }

    // The lock of a name.
    fn lock_of(&self, name: &Name) -> Result<LockNo, Code>
        ensures { result ≡ ok_or (option_and_then lock_of (declared_as (known self.now) name.now))
            (record { 0 = 5 }) }
    {
        match self.names.get(name) {
            Some(Declared::Lock(l)) => Ok(*l),
            Some(Declared::Chan(_) | Declared::Thread(_)) | None => Err(Code::UNDECLARED),
        }
    }

    // The condition variable or channel of that number.
    fn declared_chan(&self, c: ChanNo) -> Option<ChanDecl>
        ensures { result ≡ slice_get (known self.now).chans c.0 }
    {
        self.chans.get(usize::from(c.0)).copied()
    }

    // Whether a lock is of that kind.
    fn is_of_kind(&self, kind: Kind, l: LockNo) -> bool
        ensures { result ≡ is_of_kind (known self.now).locks kind l }
    {
        self.locks
            .get(usize::from(l.0))
            .is_some_and(|lock| lock.kind == kind)
    }

    // Whether a lock can be held in that mode.
    fn may_be_held(&self, mode: Mode, l: LockNo) -> bool
        ensures { result ≡ may_be_held (known self.now).locks mode l }
    {
        match mode {
            Mode::Excl => usize::from(l.0) < self.locks.len(),
            Mode::Shared => self.is_of_kind(Kind::Rw, l) || self.is_of_kind(Kind::Sx, l),
        }
    }

    // Whether only sx locks are held.
    fn are_sx(&self, held: &[Held]) -> bool
        ensures { result ≡ list_all (λ h. is_of_kind (known self.now).locks Sx h.l) held.now }
    {
        held.iter().all(|h| self.is_of_kind(Kind::Sx, h.l))
    }

    // Whether only sx locks are held beside that lock.
    fn are_sx_beside(&self, held: &[Held], l: LockNo) -> bool
        ensures { result ≡ list_all
            (λ h. h.l.0 == l.0 || is_of_kind (known self.now).locks Sx h.l) held.now }
    {
        held.iter()
            .all(|h| h.l == l || self.is_of_kind(Kind::Sx, h.l))
    }
}

/// The name that a word spells.
pub fn spelled(word: &[u8]) -> Result<Name, Code>
    ensures { result ≡ (if is_name word.now then Ok word.now else Err (record { 0 = 3 })) }
{
    Name::of(word).ok_or(Code::SPELLING)
}
