//! A run's history beside its script: of which line each entry is, what each thread holds, and which takes put one
//! class of locks before another. The history is that of the printed text, and the lines are found by reading the
//! script again: a thread's entries follow its operations, one by one.

use crate::actor::{Actor, Hold, Operation};
use crate::book::Book;
use crate::places::{text_of, word_at};
use crate::verbs::{Role, verb_of};
use script_read::number_of;
use std::alloc::{AllocError, Global};

/// A take that put the class of a lock that was held before that of the wanted one.
#[derive(Clone, Copy)]
pub struct Order<'a> {
    pub before: &'a str,
    pub behind: &'a str,
    pub thread: &'a str,
    pub wanted: &'a str,
    pub held: &'a str,
    pub line: u32,
    /// That of the entry of its gain, or of its halt; `None` where it waits still.
    pub ticket: Option<u64>,
    /// That of the thread's last entry before, behind which it asked.
    pub after: Option<u64>,
}

/// A take that was refused for its order.
#[derive(Clone, Copy)]
pub struct Refusal<'a> {
    pub thread: &'a str,
    pub wanted: &'a str,
    pub line: u32,
    pub ticket: u64,
    /// The lock that forbids it.
    pub held: Hold<'a>,
}

/// A wake of a condition or a channel on which nobody slept.
#[derive(Clone, Copy)]
pub struct EmptyWake<'a> {
    pub thread: &'a str,
    pub operation: Operation<'a>,
    pub ticket: u64,
}

/// A run that was made again from its history.
#[derive(Drop)]
pub struct Replay<'a> {
    pub book: Book<'a>,
    pub actors: Vec<Actor<'a>>,
    /// What lines of the script wake, and the wakes that found nobody.
    pub woken: Vec<&'a str>,
    pub empty_wakes: Vec<EmptyWake<'a>>,
    /// The takes for each pair of classes by their tickets, but those that asked no earlier than one before them.
    pub orders: Vec<Order<'a>>,
    /// The first refusal.
    pub refusal: Option<Refusal<'a>>,
    /// The text tells of threads, so it is that of a run.
    pub is_run: bool,
}

// An entry of the history: `TICKET THREAD WORD NAME ..`.
#[derive(Clone, Copy)]
struct Entry<'a> {
    ticket: u64,
    line: &'a str,
}

impl<'a> Entry<'a> {
    fn word(self, n: usize) -> &'a str {
        word_at(self.line, n)
    }
}

/// The run of a script whose printed text is this one.
pub fn replay_of<'a>(
    alloc: Global,
    source: &'a [u8],
    text: &'a [u8],
) -> Result<Replay<'a>, AllocError> {
    let mut run = Replay {
        book: Book::new(alloc, false),
        actors: Vec::new(alloc),
        woken: Vec::new(alloc),
        empty_wakes: Vec::new(alloc),
        orders: Vec::new(alloc),
        refusal: None,
        is_run: false,
    };
    run.read(alloc, text_of(source), text_of(text))?;
    Ok(run)
}

impl<'a> Replay<'a> {
    // The script, and then the text.
    fn read(&mut self, alloc: Global, script: &'a str, text: &'a str) -> Result<(), AllocError> {
        self.learn_all(alloc, script)?;
        for actor in &mut self.actors {
            actor.begin();
        }
        for line in text.lines() {
            self.make_line(line)?;
        }
        self.ask()
    }

    // The lines of the script behind its header.
    fn learn_all(&mut self, alloc: Global, script: &'a str) -> Result<(), AllocError> {
        let mut number: u32 = 1;
        for line in script.lines() {
            if number > 1 {
                self.learn(alloc, number, line)?;
            }
            number = number.saturating_add(1);
        }
        Ok(())
    }

    fn learn(&mut self, alloc: Global, number: u32, line: &'a str) -> Result<(), AllocError> {
        self.book.learn(number, line)?;
        match verb_of(false, word_at(line, 0)) {
            Some(verb) if verb.role().is_operation() => self.learn_operation(Operation {
                line: number,
                text: line,
                role: verb.role(),
            }),
            Some(verb) if matches!(verb.role(), Role::Begins) => {
                self.actors.push(Actor::new(alloc, word_at(line, 1)))?;
                Ok(())
            }
            Some(_) | None => Ok(()),
        }
    }

    // An operation of the thread that began last.
    fn learn_operation(&mut self, operation: Operation<'a>) -> Result<(), AllocError> {
        if matches!(operation.role, Role::Wakes(_)) {
            self.woken.push(operation.name())?;
        }
        match self.actors.as_mut_slice().last_mut() {
            Some(actor) => actor.add(operation),
            None => Ok(()),
        }
    }

    // A line of the text: an entry, or what stands behind the history.
    fn make_line(&mut self, line: &'a str) -> Result<(), AllocError> {
        let first = word_at(line, 0);
        match number_of(first.as_bytes()) {
            Some(ticket) => self.make(Entry { ticket, line }),
            None => {
                self.is_run = self.is_run || first == "thread";
                Ok(())
            }
        }
    }

    // An entry.
    fn make(&mut self, entry: Entry<'a>) -> Result<(), AllocError> {
        for actor in &mut self.actors {
            if actor.name == entry.word(1) {
                make_in(
                    actor,
                    entry,
                    &self.book,
                    &mut self.orders,
                    &mut self.empty_wakes,
                    &mut self.refusal,
                )?;
                actor.last = Some(entry.ticket);
            }
        }
        if wakes(entry.word(2)) {
            self.wake(entry.line);
        }
        Ok(())
    }

    // `TICKET THREAD signal C NAME` and its like: those threads were woken.
    fn wake(&mut self, line: &str) {
        for name in line.split(' ').skip(4) {
            self.wake_thread(name);
        }
    }

    fn wake_thread(&mut self, name: &str) {
        for actor in &mut self.actors {
            actor.is_woken = actor.is_woken || actor.name == name;
        }
    }

    // Those that wait for a lock in the end have taught its order too, and have no entry.
    fn ask(&mut self) -> Result<(), AllocError> {
        for actor in &self.actors {
            if let Some(operation) = waiting_take(actor) {
                teach(
                    actor,
                    &self.book,
                    &mut self.orders,
                    operation.name(),
                    operation.line,
                    None,
                )?;
            }
        }
        Ok(())
    }
}

// Whether an operation with that first word wakes sleepers.
fn wakes(word: &str) -> bool {
    match verb_of(false, word) {
        Some(verb) => matches!(verb.role(), Role::Wakes(_)),
        None => false,
    }
}

// What an entry does to its thread.
fn make_in<'a>(
    actor: &mut Actor<'a>,
    entry: Entry<'a>,
    book: &Book<'a>,
    orders: &mut Vec<Order<'a>>,
    empty_wakes: &mut Vec<EmptyWake<'a>>,
    refusal: &mut Option<Refusal<'a>>,
) -> Result<(), AllocError> {
    match entry.word(2) {
        "woke" => {
            actor.asleep = None;
            Ok(())
        }
        "busy" => {
            actor.skip_block();
            Ok(())
        }
        "halted" => halt(actor, entry, book, orders),
        "reversed" => {
            refuse(actor, entry, book, refusal);
            Ok(())
        }
        _ if actor.is_cut => {
            actor.release(entry.word(3));
            Ok(())
        }
        _ => go_on(actor, entry, book, orders, empty_wakes),
    }
}

// A sleep is halted, and its thread is cut: it is that of a wait, or of a take, which has put classes in order all the
// same.
fn halt<'a>(
    actor: &mut Actor<'a>,
    entry: Entry<'a>,
    book: &Book<'a>,
    orders: &mut Vec<Order<'a>>,
) -> Result<(), AllocError> {
    if let Some(operation) = actor.asleep {
        actor.halt(operation, entry.ticket);
    } else if let Some(operation) = actor.go_on() {
        let (lock, line) = (operation.name(), operation.line);
        teach(actor, book, orders, lock, line, Some(entry.ticket))?;
        actor.halt(operation, entry.ticket);
    }
    Ok(())
}

// A take is refused, and its thread is cut. The first refusal of a run is kept.
fn refuse<'a>(
    actor: &mut Actor<'a>,
    entry: Entry<'a>,
    book: &Book<'a>,
    refusal: &mut Option<Refusal<'a>>,
) {
    actor.is_cut = true;
    if let Some(operation) = actor.go_on()
        && let Some(held) = held_of_class(actor, book, entry.word(4))
        && refusal.is_none()
    {
        *refusal = Some(Refusal {
            thread: actor.name,
            wanted: entry.word(3),
            line: operation.line,
            ticket: entry.ticket,
            held,
        });
    }
}

// The first lock of a class that a thread holds.
fn held_of_class<'a>(actor: &Actor<'a>, book: &Book<'a>, class: &str) -> Option<Hold<'a>> {
    for hold in &actor.holds {
        if class_of(book, hold.lock) == class {
            return Some(*hold);
        }
    }
    None
}

// An entry that is the operation's own words.
fn go_on<'a>(
    actor: &mut Actor<'a>,
    entry: Entry<'a>,
    book: &Book<'a>,
    orders: &mut Vec<Order<'a>>,
    empty_wakes: &mut Vec<EmptyWake<'a>>,
) -> Result<(), AllocError> {
    match actor.go_on() {
        Some(operation) if matches!(operation.role, Role::Wakes(_)) => {
            wake_from(actor, entry, operation, empty_wakes)
        }
        Some(operation) => operate(actor, entry, operation, book, orders),
        None => Ok(()),
    }
}

// A wake of what an operation names. Where it woke nobody, its entry says so by a sign.
fn wake_from<'a>(
    actor: &Actor<'a>,
    entry: Entry<'a>,
    operation: Operation<'a>,
    empty_wakes: &mut Vec<EmptyWake<'a>>,
) -> Result<(), AllocError> {
    if entry.word(4) == "-" {
        empty_wakes.push(EmptyWake {
            thread: actor.name,
            operation,
            ticket: entry.ticket,
        })?;
    }
    Ok(())
}

// Any other operation.
fn operate<'a>(
    actor: &mut Actor<'a>,
    entry: Entry<'a>,
    operation: Operation<'a>,
    book: &Book<'a>,
    orders: &mut Vec<Order<'a>>,
) -> Result<(), AllocError> {
    let (lock, line, ticket) = (entry.word(3), operation.line, entry.ticket);
    match operation.role {
        Role::Takes(_, _) => {
            teach(actor, book, orders, lock, line, Some(ticket))?;
            actor.gain(Hold { lock, line, ticket })
        }
        Role::Tries(_, _) => actor.gain(Hold { lock, line, ticket }),
        Role::Releases(_, _) => {
            actor.release(lock);
            Ok(())
        }
        Role::Waits(_) => {
            actor.asleep = Some(operation);
            actor.is_woken = false;
            Ok(())
        }
        Role::Edits
        | Role::Reads
        | Role::SetsPriority
        | Role::Shows
        | Role::Wakes(_)
        | Role::EndsTry
        | Role::Declares(_)
        | Role::Begins
        | Role::Ends
        | Role::Schedules
        | Role::Finishes
        | Role::Sleeps
        | Role::WakesKey
        | Role::Posts
        | Role::Passes => Ok(()),
    }
}

// A take puts the classes of the locks that its thread holds before that of the wanted one.
fn teach<'a>(
    actor: &Actor<'a>,
    book: &Book<'a>,
    orders: &mut Vec<Order<'a>>,
    wanted: &'a str,
    line: u32,
    ticket: Option<u64>,
) -> Result<(), AllocError> {
    let behind = class_of(book, wanted);
    for hold in &actor.holds {
        let order = Order {
            before: class_of(book, hold.lock),
            behind,
            thread: actor.name,
            wanted,
            held: hold.lock,
            line,
            ticket,
            after: actor.last,
        };
        if !is_known(orders, order) {
            orders.push(order)?;
        }
    }
    Ok(())
}

// Whether one of the orders is of the same classes, and was asked for no later.
fn is_known(orders: &[Order<'_>], order: Order<'_>) -> bool {
    for o in orders {
        if o.before == order.before && o.behind == order.behind && !is_less(order.after, o.after) {
            return true;
        }
    }
    false
}

// Whether the one ticket is less than the other; none is less than any.
fn is_less(one: Option<u64>, other: Option<u64>) -> bool {
    match (one, other) {
        (None, Some(_)) => true,
        (Some(one), Some(other)) => one < other,
        (None | Some(_), None) => false,
    }
}

// The take that a thread has yet to make.
fn waiting_take<'a>(actor: &Actor<'a>) -> Option<Operation<'a>> {
    if actor.is_cut || actor.asleep.is_some() {
        return None;
    }
    let operation = actor.coming()?;
    if matches!(operation.role, Role::Takes(_, _)) {
        Some(operation)
    } else {
        None
    }
}

/// The class of a lock.
pub fn class_of<'a>(book: &Book<'a>, lock: &str) -> &'a str {
    match book.declared(lock) {
        Some(named) => named.goes_with,
        None => "",
    }
}
