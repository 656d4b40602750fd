//! The names of a floor that C describes, as a plan that says no operations.
ghost use Rattle.std.specs.Prelude.{◌≡◌, ◌<◌, ◌≤◌, length, map, position, nat_eq, ◌==◌, IfOk, IfSome};
ghost use Rattle.std.specs.Cmp.Lexicographic.{pointwise};
ghost use Rattle.lock_model.specs.Limits.{most_classes};
ghost use Rattle.lockrun_c.specs.Naming.{AreClassed, AreOfKinds, AreOnLocks, IsNamedFor, chan_decl, class_at, kind_at, lock_decl, number_of_kind, spelling, thread_decl};

use crate::codes::byte_of;
use crate::misfits::Misfit;
use crate::rows::{ChanRow, LockRow, ThreadRow};
use lock_model::limits::{CLASSES, NAME_BYTES};
use lock_model::{
    ChanDecl, ClassNo, Kind, LockDecl, LockNo, Name, Plan, Prio, Sequence, ThreadDecl,
};
use std::alloc::Global;

// The plan that has these names. Locks, channels and threads share one set of names.
pub(crate) fn plan_of(
    alloc: Global,
    threads: &[ThreadRow],
    locks: &[LockRow],
    chans: &[ChanRow],
) -> Result<Plan, Misfit>
    ensures { IfOk result (λ plan. IsNamedFor threads.now locks.now chans.now plan) }
{
    let mut names = Vec::new(alloc);
    let classes = classes_of(alloc, locks)?;
    let locks = locks_of(alloc, locks, classes.as_slice(), &mut names)?;
    let chans = chans_of(alloc, chans, locks.len(), &mut names)?;
    let threads = threads_of(alloc, threads, &mut names)?;
    Ok(Plan {
        classes: Sequence::from_vec(classes),
        locks: Sequence::from_vec(locks),
        chans: Sequence::from_vec(chans),
        threads: Sequence::from_vec(threads),
        schedule: Sequence::from_vec(Vec::new(alloc)),
    })
}

// The classes of locks, each once, in the order in which they are named first.
fn classes_of(alloc: Global, rows: &[LockRow]) -> Result<Vec<Name>, Misfit>
    ensures few { IfOk result (λ classes. length classes.items ≤ most_classes) }
{
    let mut classes = Vec::new(alloc);
    for row in rows {
        let class = name_of(&row.class)?;
        if !classes.contains(&class) {
            classes.push(class)?;
        }
    }
    if classes.len() > CLASSES {
        return Err(Misfit::ManyClasses);
    }
    Ok(classes)
}

fn locks_of(
    alloc: Global,
    rows: &[LockRow],
    classes: &[Name],
    names: &mut Vec<Name>,
) -> Result<Vec<LockDecl>, Misfit>
    requires few { length classes.now ≤ most_classes }
    ensures locks { IfOk result (λ locks. locks.items ≡ map (lock_decl classes.now) rows.now) }
    ensures classed { IfOk result (λ locks. AreClassed (length classes.now) locks.items) }
    ensures kinds { IfOk result (λ locks. AreOfKinds rows.now locks.items) }
{
    let mut locks = Vec::new(alloc);
    for row in rows {
        locks.push(lock_of(row, classes, names)?)?;
    }
    Ok(locks)
}

fn lock_of(row: &LockRow, classes: &[Name], names: &mut Vec<Name>) -> Result<LockDecl, Misfit>
    requires few { length classes.now ≤ most_classes }
    ensures lock { IfOk result (λ lock. lock ≡ lock_decl classes.now row.now) }
    ensures classed { IfOk result (λ lock. lock.class.0 < length classes.now) }
    ensures kind { IfOk result (λ lock. number_of_kind lock.kind ≡ row.now.kind) }
{
    let name = new_name(&row.name, names)?;
    let kind = kind_of(row.kind)?;
    let class = class_of(&row.class, classes)?;
    Ok(LockDecl { name, kind, class })
}

fn chans_of(
    alloc: Global,
    rows: &[ChanRow],
    locks: usize,
    names: &mut Vec<Name>,
) -> Result<Vec<ChanDecl>, Misfit>
    ensures chans { IfOk result (λ chans. chans.items ≡ map chan_decl rows.now) }
    ensures on_locks { IfOk result (λ chans. AreOnLocks locks chans.items) }
{
    let mut chans = Vec::new(alloc);
    for row in rows {
        chans.push(chan_of(row, locks, names)?)?;
    }
    Ok(chans)
}

fn chan_of(row: &ChanRow, locks: usize, names: &mut Vec<Name>) -> Result<ChanDecl, Misfit>
    ensures chan { IfOk result (λ chan. chan ≡ chan_decl row.now) }
    ensures on_lock { IfOk result (λ chan. chan.lock.0 < locks) }
{
    let name = new_name(&row.name, names)?;
    let lock = byte_of(row.lock);
    if usize::from(lock) >= locks {
        return Err(Misfit::NoLock);
    }
    Ok(ChanDecl {
        name,
        cond: row.is_channel == 0,
        lock: LockNo(lock),
    })
}

fn threads_of(
    alloc: Global,
    rows: &[ThreadRow],
    names: &mut Vec<Name>,
) -> Result<Vec<ThreadDecl>, Misfit>
    ensures { IfOk result (λ threads. threads.items ≡ map thread_decl rows.now) }
{
    let mut threads = Vec::new(alloc);
    for row in rows {
        threads.push(thread_of(alloc, row, names)?)?;
    }
    Ok(threads)
}

fn thread_of(alloc: Global, row: &ThreadRow, names: &mut Vec<Name>) -> Result<ThreadDecl, Misfit>
    ensures { IfOk result (λ thread. thread ≡ thread_decl row.now) }
{
    let name = new_name(&row.name, names)?;
    Ok(ThreadDecl {
        name,
        base: Prio(row.base),
        ops: Sequence::from_vec(Vec::new(alloc)),
    })
}

fn kind_of(kind: u32) -> Result<Kind, Misfit>
    ensures kind { IfOk result (λ k. k ≡ kind_at kind) }
    ensures number { IfOk result (λ k. number_of_kind k ≡ kind) }
{
    match kind {
        0 => Ok(Kind::Mtx),
        1 => Ok(Kind::Rw),
        2 => Ok(Kind::Sx),
        3.. => Err(Misfit::NoKind),
    }
}

// The number of the class that bytes name.
fn class_of(bytes: &[u8; NAME_BYTES], classes: &[Name]) -> Result<ClassNo, Misfit>
    requires few { length classes.now ≤ most_classes }
    ensures class { IfOk result (λ class. class.0 ≡ class_at classes.now (spelling bytes.now)) }
    ensures bound { IfOk result (λ class. class.0 < length classes.now) }
{
    let class = name_of(bytes)?;
    match place_of(&class, classes) {
        None => Err(Misfit::NoName),
        Some(at) => Ok(ClassNo(at as u8)),
    }
}

// Where a name stands.
fn place_of(name: &Name, names: &[Name]) -> Option<usize>
    ensures place { result ≡ position (λ n. pointwise nat_eq n name.now) names.now }
    ensures bound { IfSome result (λ at. at < length names.now) }
{
    names.iter().position(|it| *it == *name)
}

// The name that bytes spell, which none has yet.
fn new_name(bytes: &[u8; NAME_BYTES], names: &mut Vec<Name>) -> Result<Name, Misfit>
    ensures { IfOk result (λ name. name ≡ spelling bytes.now) }
{
    let name = name_of(bytes)?;
    if names.contains(&name) {
        return Err(Misfit::NameTwice);
    }
    names.push(name)?;
    Ok(name)
}

// The name that bytes spell, up to the first 0 among them.
fn name_of(bytes: &[u8; NAME_BYTES]) -> Result<Name, Misfit>
    ensures { IfOk result (λ name. name ≡ spelling bytes.now) }
{
    let len = place_of_zero(bytes).unwrap_or(bytes.len());
    named(&bytes[..len])
}

// The name that these bytes are.
fn named(bytes: &[u8]) -> Result<Name, Misfit>
    ensures { IfOk result (λ name. name ≡ bytes.now) }
{
    match Name::of(bytes) {
        None => Err(Misfit::NoName),
        Some(name) => Ok(name),
    }
}

fn place_of_zero(bytes: &[u8]) -> Option<usize>
    ensures place { result ≡ position (λ b. b == 0) bytes.now }
    ensures bound { IfSome result (λ at. at < length bytes.now) }
{
    bytes.iter().position(|b| *b == 0)
}
