//! What the lines of a script have made known so far, and what each line adds to it. A line is tested first, and then
//! learnt; the names of a schedule are learnt as they are tested. Behind a fault nothing is read, so what is known then
//! doesn't matter.
#![tactic(auto, using(lock_model::proofs::LeastCodes::least_is_first))]

ghost use Rattle.std.specs.Prelude.{◌≡◌, ◌<◌, ◌≤◌, None, Some, [], IfOk, OnOk, is_some, option_to_list};
ghost use Rattle.std.specs.List.{list_all};
ghost use Rattle.lock_model.specs.Limits.{most_operations};
ghost use Rattle.lock_model.specs.Script.{reading_from};
ghost use Rattle.lock_model.specs.Script.Faults.{line_fault, behind_line};
ghost use Rattle.lock_model.specs.Script.Learning.{nothing_known, declared_as, learned, thread_named, with_operation};
ghost use Rattle.lock_model.specs.Names.{is_name};
ghost use Rattle.lock_model.specs.Script.Lines.{is_printable, lines_of, words_of};
ghost use Rattle.lock_model.specs.Script.Statements.{Declares, DeclaresChan, Begins, Ends, Schedules, IsDone, Operates, EndsTry};
ghost use Rattle.script_read.specs.Reading.{Goes, GoesBy, Tells, name_fault};
ghost use Rattle.script_read.specs.OpenThreads.{operations_of};
ghost use Rattle.script_read.specs.Statements.{meant, meant_operation};

use crate::fault::{Code, LineError, ReadError, ScriptFault, test};
use crate::lines::split_judged;
use crate::reader::names::{HINTS, hint_of};
use crate::reader::open_thread::OpenThread;
use crate::statement::{Operation, Statement};
use crate::words::cut_word;
use indexmap::{IndexMap, IndexSet};
use lock_model::{
    ChanDecl, ChanNo, ClassNo, Declared, Kind, LockDecl, LockNo, Name, Op, Plan, Sequence,
    ThreadDecl, ThreadNo, limits,
};
use std::alloc::{AllocError, Global};

pub mod held;
mod names;
mod open_thread;
mod stages;

pub use stages::{has_meaning, spelled, test_bytes};

/// What is known behind some lines.
#[derive(Drop)]
pub struct Reader {
    names: IndexMap<Name, Declared>,
    // Where a name likely stands among them, by `hint_of`.
    hints: [u8; HINTS],
    classes: IndexSet<Name>,
    locks: Vec<LockDecl>,
    chans: Vec<ChanDecl>,
    threads: Vec<ThreadDecl>,
    schedule: Vec<ThreadNo>,
    open_thread: Option<OpenThread>,
    // Operations of all threads.
    operations: usize,
    is_done: bool,
    // Those of the open thread are among all operations.
    ghost counted: { operations_of open_thread ≤ operations },
}

impl Reader {
    ghost use Rattle.script_read.specs.Readers.{known, with_name, with_turns};

    // What the header makes known: nothing.
    fn new(alloc: Global) -> Reader
        ensures { known result ≡ nothing_known }
    {
        Reader {
            names: IndexMap::new(alloc),
            hints: [0; HINTS],
            classes: IndexSet::new(alloc),
            locks: Vec::new(alloc),
            chans: Vec::new(alloc),
            threads: Vec::new(alloc),
            schedule: Vec::new(alloc),
            open_thread: None,
            operations: 0,
            is_done: false,
        }
    }

    /// Reads all lines behind the header.
    pub fn read(alloc: Global, lines: &[u8]) -> Result<Plan, ReadError>
        ensures { Tells (reading_from 2 nothing_known (lines_of lines.now)) result }
    {
        let mut reader = Reader::new(alloc);
        let mut number: u32 = 2;
        let mut rest = lines;
        while let Some((line, printable, after)) = split_judged(rest) {
            if let Err(e) = reader.read_line(alloc, line, printable) {
                return Err(e.at(number));
            }
            number = number.saturating_add(1);
            rest = after;
        }
        reader.into_plan(alloc, number)
    }

    // The plan, where `done` has come; else the line with that number is lacking.
    #[tactic(auto, unfolding(lock_model::specs::Script::reading_from))]
    fn into_plan(self, alloc: Global, number: u32) -> Result<Plan, ReadError>
        ensures { Tells (reading_from number (known self) []) result }
    {
        if !self.is_done {
            return Err(Code::INSIDE.at(number));
        }
        Ok(Plan {
            classes: Sequence::from_vec(Vec::from_slice(alloc, self.classes.as_slice())?),
            locks: Sequence::from_vec(self.locks),
            chans: Sequence::from_vec(self.chans),
            threads: Sequence::from_vec(self.threads),
            schedule: Sequence::from_vec(self.schedule),
        })
    }

    // Reads a line behind the header, of which is known whether each of its bytes may stand in a script.
    fn read_line(&mut self, alloc: Global, line: &[u8], printable: bool) -> Result<(), LineError>
        requires { printable ≡ list_all is_printable line.now }
        ensures { Goes (line_fault (known self.old) line.now) (behind_line (known self.old) line.now)
            (known self.new) result }
    {
        test_bytes(line, printable)?;
        if !has_meaning(line) {
            return Ok(());
        }
        let statement = self.test_words(line)?;
        self.apply(alloc, statement)
    }

    // Reads what a line says.
    fn apply(&mut self, alloc: Global, statement: Statement) -> Result<(), LineError>
        ensures { GoesBy (known self.old) (meant statement.entry) (known self.new) result }
    {
        match statement {
            Statement::Lock { kind, name, class } => self.lock(kind, name, class),
            Statement::Chan { cond, name, lock } => self.chan(cond, name, lock),
            Statement::Thread { name, prio } => self.thread(alloc, name, prio),
            Statement::End => self.end(),
            Statement::Schedule { names } => self.schedule(names),
            Statement::Done => self.done(),
            Statement::Operation(operation) => self.operation(alloc, operation),
            Statement::EndTry => self.end_try(),
        }
    }

    // `mutex NAME CLASS` and its like declare a lock.
    fn lock(&mut self, kind: Kind, name: &[u8], class: &[u8]) -> Result<(), LineError>
        ensures { GoesBy (known self.old) (Declares kind name.now class.now) (known self.new) result }
    {
        test(Code::LATE, self.is_before_threads())?;
        let (name, class) = self.test_lock(kind, name, class)?;
        let (class, _) = self.classes.insert_full(class)?;
        let lock = LockNo(self.locks.len() as u8);
        self.declare(name, Declared::Lock(lock))?;
        let class = ClassNo(class as u8);
        self.locks.push(LockDecl { name, kind, class })?;
        Ok(())
    }

    // `cond NAME LOCK` and `chan NAME LOCK` declare what threads sleep on.
    fn chan(&mut self, cond: bool, name: &[u8], lock: &[u8]) -> Result<(), LineError>
        ensures { GoesBy (known self.old) (DeclaresChan cond name.now lock.now)
            (known self.new) result }
    {
        test(Code::LATE, self.is_before_threads())?;
        let (name, lock) = self.test_chan(cond, name, lock)?;
        let chan = ChanNo(self.chans.len() as u8);
        self.declare(name, Declared::Chan(chan))?;
        self.chans.push(ChanDecl { name, cond, lock })?;
        Ok(())
    }

    // `thread NAME PRIO` begins a thread.
    fn thread(&mut self, alloc: Global, name: &[u8], prio: &[u8]) -> Result<(), LineError>
        ensures { GoesBy (known self.old) (Begins name.now prio.now) (known self.new) result }
    {
        test(Code::INSIDE, self.open_thread.is_none())?;
        let (name, base) = self.test_thread(name, prio)?;
        let thread = ThreadNo(self.threads.len() as u8);
        self.declare(name, Declared::Thread(thread))?;
        self.open_thread = Some(OpenThread {
            name,
            base,
            ops: Vec::new(alloc),
            held: Vec::new(alloc),
            blocks: Vec::new(alloc),
        });
        Ok(())
    }

    // `end` ends the open thread.
    #[tactic(auto, using(lock_model::proofs::LeastCodes::least_is_first, crate::proofs::OpenBlocks::none_open))]
    fn end(&mut self) -> Result<(), LineError>
        ensures { GoesBy (known self.old) Ends (known self.new) result }
    {
        let thread = self.open_thread.take().ok_or(Code::OUTSIDE)?;
        test(Code::INSIDE, thread.blocks.is_empty())?;
        test(Code::STILL_HELD, thread.held.is_empty())?;
        self.threads.push(ThreadDecl {
            name: thread.name,
            base: thread.base,
            ops: Sequence::from_vec(thread.ops),
        })?;
        Ok(())
    }

    // `schedule NAME ..` lets each of those threads have a turn, behind the turns of earlier lines.
    fn schedule(&mut self, names: &[u8]) -> Result<(), LineError>
        ensures { GoesBy (known self.old) (Schedules (words_of names.now)) (known self.new) result }
    {
        test(Code::INSIDE, self.open_thread.is_none())?;
        self.learn_schedule(names)
    }

    // Tests the names of a schedule, and learns them as it goes: behind a fault nothing is read. The whole line has the
    // smallest code of all its names.
    fn learn_schedule(&mut self, names: &[u8]) -> Result<(), LineError>
        ensures { Goes (name_fault (known self.old) (Schedules (words_of names.now)))
            (learned (known self.old) (Schedules (words_of names.now))) (known self.new) result }
    {
        let mut are_names = true;
        let mut are_threads = true;
        let mut rest = Some(names);
        while let Some(text) = rest {
            let (name, behind) = cut_word(text);
            let (is_name, is_thread) = self.learn_turn(name)?;
            are_names = are_names && is_name;
            are_threads = are_threads && is_thread;
            rest = behind;
        }
        test(Code::SPELLING, are_names)?;
        test(Code::UNDECLARED, are_threads)?;
        test(Code::LIMIT, self.schedule.len() <= limits::SCHEDULE)?;
        Ok(())
    }

    // Lets a thread have a turn. It tells whether the word spells a name, and whether a thread's.
    fn learn_turn(&mut self, word: &[u8]) -> Result<(bool, bool), AllocError>
        ensures spelled { IfOk result (λ r. r.0 ≡ is_name word.now) }
        ensures named { IfOk result (λ r. r.1 ≡ is_some (thread_named (known self.old) word.now)) }
        ensures learnt { OnOk result (known self.new ≡ with_turns (known self.old)
            (option_to_list (thread_named (known self.old) word.now))) }
    {
        match self.thread_named(word) {
            Ok(thread) => {
                self.schedule.push(thread)?;
                Ok((true, true))
            }
            Err(code) => Ok((code.0 != Code::SPELLING.0, false)),
        }
    }

    // `done` ends the script.
    fn done(&mut self) -> Result<(), LineError>
        ensures { GoesBy (known self.old) IsDone (known self.new) result }
    {
        test(Code::INSIDE, self.open_thread.is_none())?;
        self.is_done = true;
        Ok(())
    }

    // An operation of the open thread.
    fn operation(&mut self, alloc: Global, operation: Operation) -> Result<(), LineError>
        ensures { GoesBy (known self.old) (Operates (meant_operation operation.entry)) (known self.new) result }
    {
        let thread = self.open_thread.as_ref().ok_or(Code::OUTSIDE)?;
        let op = self.test_operation(thread, operation)?;
        self.add_operation(alloc, op)?;
        Ok(())
    }

    // `endtry` closes the innermost block, where the thread holds just what it held before the try.
    #[tactic(auto, using(lock_model::proofs::LeastCodes::least_is_first, crate::proofs::OpenBlocks::innermost))]
    fn end_try(&mut self) -> Result<(), LineError>
        ensures { GoesBy (known self.old) EndsTry (known self.new) result }
    {
        let thread = self.open_thread.as_mut().ok_or(Code::OUTSIDE)?;
        let block = thread.blocks.pop().ok_or(Code::OUTSIDE)?;
        test(Code::LIMIT, self.operations < limits::OPERATIONS)?;
        test(Code::STILL_HELD, held::is_same(&thread.held, &block.before))?;
        thread.go_on_behind(block);
        thread.ops.push(Op::EndTry)?;
        self.operations += 1;
        Ok(())
    }

    // Declares a new name.
    fn declare(&mut self, name: Name, declared: Declared) -> Result<(), AllocError>
        requires { declared_as (known self.old) name ≡ None }
        ensures { OnOk result (known self.new ≡ with_name (known self.old) name declared) }
    {
        self.hints[hint_of(name.as_bytes())] = (self.names.len() % 256) as u8;
        self.names.insert(name, declared)?;
        Ok(())
    }

    // Adds an operation to the open thread's.
    fn add_operation(&mut self, alloc: Global, op: Op) -> Result<(), AllocError>
        requires { (known self.old).operations < most_operations }
        ensures { OnOk result (known self.new
            ≡ with_operation (known self.old) (known self.old).open_thread (Some op)) }
    {
        if let Some(thread) = self.open_thread.as_mut() {
            if let Some(block) = thread.opened_by(alloc, op)? {
                thread.blocks.push(block)?;
            }
            held::hold_behind(&mut thread.held, op)?;
            thread.ops.push(op)?;
            self.operations += 1;
        }
        Ok(())
    }
}
