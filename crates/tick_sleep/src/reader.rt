//! What the lines of a script have made known so far, and what each line adds to it. A line is judged first, and then
//! learnt; behind a fault nothing is read.
#![tactic(auto, using(lock_model::proofs::LeastCodes::least_is_first))]

ghost use Rattle.std.specs.Prelude.{◌≡◌, ◌<◌, ◌≤◌, true, false, Some, Ok, Err, [], ◌∷◌, length, nat_lt, option_copied, IfOk, OnOk, if◌then◌else◌};
ghost use Rattle.std.specs.List.{list_all};
ghost use Rattle.lock_model.specs.Script.Lines.{is_printable, lines_of, priority_of};
ghost use Rattle.lock_model.specs.Tests.{least_code, test};
ghost use Rattle.lock_model.specs.Counts.{is_empty};
ghost use Rattle.tick_sleep.specs.Limits.{most_events, most_sleepers};
ghost use Rattle.tick_sleep.specs.Plans.{IsProper, can_happen};
ghost use Rattle.tick_sleep.specs.Script.{reading_from};
ghost use Rattle.tick_sleep.specs.Faults.{line_fault, behind_line, name_tests, word_tests};
ghost use Rattle.tick_sleep.specs.Learning.{nothing_known, is_declared, sleeper_named, learned};
ghost use Rattle.tick_sleep.specs.Statements.{Declares, Sleeps, statement_of};
ghost use Rattle.script_read.specs.Reading.{Finds, named};
ghost use Rattle.tick_sleep.specs.Reading.{Tells, statement_fault};
ghost use Rattle.tick_sleep.specs.Words.{meant};

use crate::limits;
use crate::numbers::{key_of, sleep_ticks_of, ticks_of};
use crate::plan::{SleeperDecl, TickEvent, TickPlan};
use crate::statement::{Statement, statement_of};
use indexmap::IndexSet;
use lock_model::{Name, Sequence, ThreadNo};
use script_read::{
    Code, ReadError, has_meaning, priority_of, spelled, split_judged, test, test_bytes,
};
use std::alloc::{AllocError, Global};

/// What is known behind some lines.
#[derive(Drop)]
pub(crate) struct Reader {
    names: IndexSet<Name>,
    sleepers: Vec<SleeperDecl>,
    events: Vec<TickEvent>,
    is_done: bool,
    ghost few_names: { length names.keys ≤ most_sleepers },
    ghost few_events: { length events.items ≤ most_events },
    ghost proper: { list_all (can_happen (length names.keys)) events.items ≡ true },
}

/// What a line adds.
#[derive(Clone, Copy)]
pub(crate) enum Lesson {
    Nothing,
    Sleeper(SleeperDecl),
    Event(TickEvent),
    Done,
}

impl Reader {
    ghost use Rattle.tick_sleep.specs.Readers.{known, taught, Teaches};

    // What the header makes known: nothing.
    fn new(alloc: Global) -> Reader
        ensures { known result ≡ nothing_known }
    {
        Reader {
            names: IndexSet::new(alloc),
            sleepers: Vec::new(alloc),
            events: Vec::new(alloc),
            is_done: false,
        }
    }

    /// Reads all lines behind the header.
    pub(crate) fn read(alloc: Global, lines: &[u8]) -> Result<TickPlan, ReadError>
        ensures told { Tells (reading_from 2 nothing_known (lines_of lines.now)) result }
        ensures proper { IfOk result IsProper }
    {
        let mut reader = Reader::new(alloc);
        let mut number: u32 = 2;
        let mut rest = lines;
        while let Some((line, printable, after)) = split_judged(rest) {
            match reader.judge(line, printable) {
                Err(code) => return Err(code.at(number)),
                Ok(lesson) => reader.learn(lesson)?,
            }
            number = number.saturating_add(1);
            rest = after;
        }
        reader.into_plan(number)
    }

    // The plan, where `done` has come; else the line with that number is lacking.
    #[tactic(auto, unfolding(crate::specs::Script::reading_from))]
    fn into_plan(self, number: u32) -> Result<TickPlan, ReadError>
        requires { length (known self).names ≡ length (known self).sleepers }
        ensures told { Tells (reading_from number (known self) []) result }
        ensures proper { IfOk result IsProper }
    {
        if !self.is_done {
            return Err(Code::INSIDE.at(number));
        }
        Ok(TickPlan {
            sleepers: Sequence::from_vec(self.sleepers),
            events: Sequence::from_vec(self.events),
        })
    }

    // What a line behind the header adds, or the code of its fault. Of the line is known whether each of its bytes may
    // stand in a script.
    fn judge(&self, line: &[u8], printable: bool) -> Result<Lesson, Code>
        requires { printable ≡ list_all is_printable line.now }
        ensures fault { Finds (line_fault (known self.now) line.now) result }
        ensures taught { IfOk result (λ lesson.
            behind_line (known self.now) line.now ≡ taught lesson (known self.now)) }
        ensures fits { IfOk result (Teaches (known self.now)) }
    {
        test_bytes(line, printable)?;
        if !has_meaning(line) {
            return Ok(Lesson::Nothing);
        }
        let statement = self.test_words(line)?;
        self.judge_statement(statement)
    }

    // The stage of a line's words: what it says.
    fn test_words<'a>(&self, line: &'a [u8]) -> Result<Statement<'a>, Code>
        ensures fault { Finds (least_code (word_tests (known self.now) line.now)) result }
        ensures said { IfOk result (λ s. statement_of line.now ≡ Some (meant s)) }
    {
        test(Code::WORDS, !self.is_done)?;
        statement_of(line).ok_or(Code::WORDS)
    }

    // What a statement adds, by its place and by what it names.
    fn judge_statement(&self, statement: Statement) -> Result<Lesson, Code>
        ensures fault { Finds (statement_fault (known self.now) (meant statement.entry)) result }
        ensures taught { IfOk result (λ lesson.
            learned (known self.now) (meant statement.entry) ≡ taught lesson (known self.now)) }
        ensures fits { IfOk result (Teaches (known self.now)) }
    {
        match statement {
            Statement::Sleeper { name, prio } => {
                self.test_place()?;
                Ok(Lesson::Sleeper(self.test_sleeper(name, prio)?))
            }
            Statement::Sleep {
                sig,
                name,
                key,
                ticks,
            } => self.judge_sleep(sig, name, key, ticks),
            Statement::WakeOne { key } => {
                let key = key_of(key).ok_or(Code::NUMBER)?;
                self.test_room()?;
                Ok(Lesson::Event(TickEvent::WakeOne { key }))
            }
            Statement::WakeAll { key } => {
                let key = key_of(key).ok_or(Code::NUMBER)?;
                self.test_room()?;
                Ok(Lesson::Event(TickEvent::WakeAll { key }))
            }
            Statement::Signal { name } => {
                let t = self.sleeper_named(name)?;
                self.test_room()?;
                Ok(Lesson::Event(TickEvent::Post { t }))
            }
            Statement::Tick { ticks } => {
                let n = ticks_of(ticks).ok_or(Code::NUMBER)?;
                self.test_room()?;
                Ok(Lesson::Event(TickEvent::Tick { n }))
            }
            Statement::Done => Ok(Lesson::Done),
        }
    }

    // A sleeper may be declared here: no event stands before it.
    fn test_place(&self) -> Result<(), Code>
        ensures { Finds (least_code (test 16 (is_empty (known self.now).events) ∷ [])) result }
    {
        test(Code::LATE, self.events.is_empty())
    }

    // `sleeper NAME PRIO` declares a sleeper.
    fn test_sleeper(&self, name: &[u8], prio: &[u8]) -> Result<SleeperDecl, Code>
        ensures fault { Finds (least_code (name_tests (known self.now)
            (Declares name.now prio.now))) result }
        ensures says { IfOk result (λ d. (d.name ≡ name.now)
            × (priority_of prio.now ≡ Some d.prio.0)) }
        ensures new { IfOk result (λ d. is_declared (known self.now) d.name ≡ false) }
        ensures few { IfOk result (λ d. length (known self.now).names < most_sleepers) }
    {
        let name = spelled(name)?;
        test(Code::DECLARED, !self.names.contains(&name))?;
        let prio = priority_of(prio).ok_or(Code::NUMBER)?;
        test(Code::LIMIT, self.names.len() < limits::SLEEPERS)?;
        Ok(SleeperDecl { name, prio })
    }

    // `sleep NAME KEY` and `sleepsig NAME KEY`, with a number of ticks or without.
    fn judge_sleep(
        &self,
        sig: bool,
        name: &[u8],
        key: &[u8],
        ticks: Option<&[u8]>,
    ) -> Result<Lesson, Code>
        ensures fault { Finds (statement_fault (known self.now)
            (Sleeps sig name.now key.now (option_copied ticks.entry))) result }
        ensures taught { IfOk result (λ lesson. learned (known self.now)
            (Sleeps sig name.now key.now (option_copied ticks.entry))
            ≡ taught lesson (known self.now)) }
        ensures fits { IfOk result (Teaches (known self.now)) }
    {
        let t = self.sleeper_named(name)?;
        let key = key_of(key).ok_or(Code::NUMBER)?;
        let ticks = match ticks {
            None => None,
            Some(word) => Some(sleep_ticks_of(word).ok_or(Code::NUMBER)?),
        };
        self.test_room()?;
        Ok(Lesson::Event(TickEvent::Sleep { t, key, ticks, sig }))
    }

    // The sleeper that a word names.
    fn sleeper_named(&self, word: &[u8]) -> Result<ThreadNo, Code>
        ensures named { result ≡ named word.now (sleeper_named (known self.now) word.now) }
        ensures declared { IfOk result (λ t. t.0 < length (known self.now).names) }
    {
        let name = spelled(word)?;
        match self.names.get_index_of(&name) {
            Some(t) => Ok(ThreadNo(t as u8)),
            None => Err(Code::UNDECLARED),
        }
    }

    // There is room for an event more.
    fn test_room(&self) -> Result<(), Code>
        ensures { result ≡ (if nat_lt (length (known self.now).events) most_events
            then Ok tt else Err (record { 0 = 7 })) }
    {
        test(Code::LIMIT, self.events.len() < limits::EVENTS)
    }

    // Adds what a line adds.
    fn learn(&mut self, lesson: Lesson) -> Result<(), AllocError>
        requires { Teaches (known self.old) lesson }
        ensures { OnOk result (known self.new ≡ taught lesson (known self.old)) }
    {
        match lesson {
            Lesson::Nothing => {}
            Lesson::Sleeper(sleeper) => {
                self.names.insert(sleeper.name)?;
                self.sleepers.push(sleeper)?;
            }
            Lesson::Event(event) => self.events.push(event)?,
            Lesson::Done => self.is_done = true,
        }
        Ok(())
    }
}
