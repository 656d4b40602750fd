//! Plans made of a number, for trying the engines on more than anybody writes by hand. All draws of a plan come from
//! one sequence, so a plan is its number's in each run and on each machine.
ghost use Rattle.std.specs.Prelude.{◌≡◌, ℕ, ◌≤◌, ◌<◌, ◌++◌, ◌∷◌, [], map, IfOk, OnOk, Some, slice_get};
ghost use Rattle.std.specs.List.{range_with_len};
ghost use Rattle.lock_model.specs.Operations.{IsProper};
ghost use Rattle.lock_model.specs.OrderedPlans.{IsOrdered};
ghost use Rattle.lock_model.specs.Plans.{operations_of};
ghost use Rattle.lock_model.specs.declared.plan.Op.TheVariants.{Set};
ghost use Rattle.script_read.specs.Generator.{adds, behind, behind_round, behind_rounds, behind_threads, drawn, generated, mutex, next_state, numbered, over_one, over_two, round_at, rounds_at, takes, thread_at};

use lock_model::{
    ClassNo, Kind, LockDecl, LockNo, Mode, Name, Op, Plan, Prio, Sequence, ThreadDecl,
};
use std::alloc::{AllocError, Global};

const LOCKS: u8 = 8;

const THREADS: u8 = 8;

const ROUNDS: u32 = 100;

/// The plan that a number generates. It has the mutexes `m0` to `m7`, each with a class of its own, and the threads
/// `t0` to `t7`. A thread makes 100 rounds. A round takes one or two of the mutexes in order of declaration, adds to a
/// key of each, and releases them. It fails where memory runs out.
///
/// ```
/// let plan = gen_plan(alloc, 0)?; // its first thread has the base priority 191
/// ```
#[tactic(auto, unfolding(crate::specs::Generator::generated))]
pub fn gen_plan(alloc: Global, n: u64) -> Result<Plan, AllocError>
    ensures { IfOk result (λ plan. plan ≡ generated n) }
{
    Ok(Plan {
        classes: classes(alloc)?,
        locks: locks(alloc)?,
        chans: Sequence::from_vec(Vec::new(alloc)),
        threads: threads(alloc, n)?,
        schedule: Sequence::from_vec(Vec::new(alloc)),
    })
}

fn classes(alloc: Global) -> Result<Sequence<Name>, AllocError>
    ensures { IfOk result (λ names. names ≡ map (numbered 99) (range_with_len 0 8)) }
{
    let mut names = Vec::new(alloc);
    for n in 0..LOCKS {
        names.push(numbered(b'c', n))?;
    }
    Ok(Sequence::from_vec(names))
}

fn locks(alloc: Global) -> Result<Sequence<LockDecl>, AllocError>
    ensures { IfOk result (λ locks. locks ≡ map mutex (range_with_len 0 8)) }
{
    let mut locks = Vec::new(alloc);
    for n in 0..LOCKS {
        locks.push(LockDecl {
            name: numbered(b'm', n),
            kind: Kind::Mtx,
            class: ClassNo(n),
        })?;
    }
    Ok(Sequence::from_vec(locks))
}

fn threads(alloc: Global, n: u64) -> Result<Sequence<ThreadDecl>, AllocError>
    ensures { IfOk result (λ threads.
        threads ≡ map (λ t. thread_at (behind_threads n t) t) (range_with_len 0 8)) }
{
    let mut draws = Draws { state: n };
    let mut threads = Vec::new(alloc);
    for t in 0..THREADS {
        threads.push(thread(alloc, &mut draws, t)?)?;
    }
    Ok(Sequence::from_vec(threads))
}

// A thread, with what it draws.
fn thread(alloc: Global, draws: &mut Draws, t: u8) -> Result<ThreadDecl, AllocError>
    requires { t < 8 }
    ensures made { IfOk result (λ d. d ≡ thread_at draws.old.state t) }
    ensures state { OnOk result
        (draws.new.state ≡ behind_rounds (behind 1 draws.old.state) 100) }
{
    let base = draws.one_of(256);
    let ops = rounds(alloc, draws)?;
    Ok(ThreadDecl {
        name: numbered(b't', t),
        base: Prio(base as u8),
        ops: Sequence::from_vec(ops),
    })
}

fn rounds(alloc: Global, draws: &mut Draws) -> Result<Vec<Op>, AllocError>
    ensures ops { IfOk result (λ ops. ops.items ≡ rounds_at draws.old.state 100) }
    ensures state { OnOk result (draws.new.state ≡ behind_rounds draws.old.state 100) }
{
    let mut ops = Vec::new(alloc);
    for _ in 0..ROUNDS {
        push_round(&mut ops, draws)?;
    }
    Ok(ops)
}

fn push_round(ops: &mut Vec<Op>, draws: &mut Draws) -> Result<(), AllocError>
    ensures ops { OnOk result (ops.new.items ≡ ops.old.items ++ round_at draws.old.state) }
    ensures state { draws.new.state ≡ behind_round draws.old.state }
{
    let i = draws.lock();
    let j = draws.lock();
    if i == j {
        push_all(ops, &draws.over_one(LockNo(i)))
    } else {
        push_all(ops, &draws.over_two(LockNo(i.min(j)), LockNo(i.max(j))))
    }
}

fn push_all(ops: &mut Vec<Op>, round: &[Op]) -> Result<(), AllocError>
    ensures { OnOk result (ops.new.items ≡ ops.old.items ++ round.now) }
{
    ops.extend_from_slice(round)
}

/// A generated plan is proper, and its threads take their locks in order of declaration. Its only edits are adds. What
/// follows for its run is a law of such plans: `run_laws` has it.
pub fn generated_plans_are_ordered()
    ensures proper { (n : ℕ) → IsProper (generated n) }
    ensures ordered { (n : ℕ) → IsOrdered (generated n) }
    ensures adds { (n t i : ℕ) (l : LockNo) (key value : ℕ)
        → slice_get (operations_of (generated n) t) i ≡ Some (Set l key value) → ⊥ }
{}

// A letter and a digit.
fn numbered(letter: u8, n: u8) -> Name
    requires letter { 97 ≤ letter }
    requires last_letter { letter ≤ 122 }
    requires digit { n < 8 }
    ensures { result ≡ numbered letter n }
{
    match Name::of(&[letter, b'0' + n]) {
        Some(name) => name,
        None => unreachable!(),
    }
}

// A sequence of draws, by Knuth's linear congruential generator of his MMIX. Its low bits have short periods, so only
// its upper ones are drawn.
#[derive(Drop)]
struct Draws {
    state: u64,
}

impl Draws {
    // One of so many numbers.
    fn one_of(&mut self, k: u64) -> u64
        requires { 1 ≤ k }
        ensures drawn { result ≡ drawn k self.old.state }
        ensures below { result < k }
        ensures state { self.new.state ≡ next_state self.old.state }
    {
        self.state = self
            .state
            .wrapping_mul(6364136223846793005)
            .wrapping_add(1442695040888963407);
        (self.state >> 33) % k
    }

    // The number of a lock.
    fn lock(&mut self) -> u8
        ensures drawn { result ≡ drawn 8 self.old.state }
        ensures state { self.new.state ≡ next_state self.old.state }
    {
        self.one_of(u64::from(LOCKS)) as u8
    }

    // What a round adds under a lock.
    fn adds(&mut self, l: LockNo) -> Op
        ensures added { result ≡ adds self.old.state l.0 }
        ensures state { self.new.state ≡ behind 2 self.old.state }
    {
        let key = self.one_of(16);
        let amount = self.one_of(1000);
        Op::Add { l, key, amount }
    }

    // A round over one lock.
    fn over_one(&mut self, l: LockNo) -> [Op; 3]
        ensures ops { result ≡ over_one self.old.state l.0 }
        ensures state { self.new.state ≡ behind 2 self.old.state }
    {
        [takes(l), self.adds(l), Op::Release { l }]
    }

    // A round over two locks, of which the first is declared before the other.
    fn over_two(&mut self, l: LockNo, k: LockNo) -> [Op; 6]
        ensures ops { result ≡ over_two self.old.state l.0 k.0 }
        ensures state { self.new.state ≡ behind 4 self.old.state }
    {
        [
            takes(l),
            takes(k),
            self.adds(l),
            self.adds(k),
            Op::Release { l: k },
            Op::Release { l },
        ]
    }
}

fn takes(l: LockNo) -> Op
    ensures { result ≡ takes l.0 }
{
    Op::Take {
        l,
        mode: Mode::Excl,
    }
}
