//! What a thread of a floor steps with.
ghost use Rattle.std.specs.Prelude.{◌≡◌, ◌<◌, length, true};
ghost use Rattle.std.specs.Vec.{vec_capacity};
ghost use Rattle.lock_model.specs.Operations.{hold_in, without_lock};
ghost use Rattle.lock_objects.specs.Represents.{hold_of};
ghost use Rattle.lock_floor.specs.declared.calls.Call.TheVariants as calls;

use crate::calls::Call;
use crate::ties::Ties;
use atomic_table::Seat;
use floor_table::{Description, Law, Slot, View};
use lock_history::Log;
use lock_model::{Held, LockNo, Mode, ThreadNo, place_held};
use lock_objects::Marked;
use std::marker::{Model, PhantomData};

/// A pass to a table of any values, views and keys.
#[derive(Drop)]
pub struct PassOf<S, V, K, P: Ties<S, V, K>> {
    pub(crate) seat: Seat<S, V>,
    pub(crate) who: ThreadNo,
    /// The locks that the thread holds, in order of acquisition. There is room for as many as a thread may hold.
    pub(crate) held: Vec<Held>,
    /// Those whom it took off a queue and has yet to wake.
    pub(crate) marked: Marked,
    pub(crate) log: Log,
    pub(crate) finished: bool,
    /// The call of a lock that the thread is in the middle of.
    pub(crate) call: Call,
    pub(crate) law: PhantomData<(K, P)>,
    /// Nothing: it keeps what another pass of a list writes off the cache lines of this one.
    pub(crate) apart: [u64; 16],
}

impl<S, V, K, P: Ties<S, V, K>> Model for PassOf<S, V, K, P> {
    ghost use Rattle.lock_floor.specs.Floors.{Pass};

    ghost Value = { Pass V };

    ghost view = { λ p. record {
      table = p.seat.table_id;
      view = p.seat.me.0;
      finished = p.finished;
      call = p.call;
    } };

    ghost invariant = { λ p. P.tied p.who.0 p.held p.marked p.log p.finished p.seat.me };
}

/// The pass of a thread: its seat at the floor's table, the locks that it holds, those whom it is to wake, its log, and
/// the call of a lock that it is in the middle of.
pub type Pass = PassOf<Slot, View, Description, Law>;

impl PassOf<Slot, View, Description, Law> {
    /// The thread, which is one of the floor's.
    pub fn thread(&self) -> ThreadNo
        ensures same { result.0 ≡ self.now.view.thread }
        ensures of_floor { result.0 < length self.now.view.description.threads }
    {
        self.who
    }

    /// How many entries it has room for.
    pub fn spare(&self) -> u32
        ensures { result ≡ self.now.view.spare }
    {
        self.log.spare()
    }

    /// The locks that it holds, in order of acquisition.
    pub fn held(&self) -> &[Held]
        ensures { result.now ≡ self.now.view.share.held }
    {
        &self.held
    }

    /// The call of a lock that it is in the middle of.
    pub fn call(&self) -> Call
        ensures { result ≡ self.now.call }
    {
        self.call
    }

    /// Makes this the call that it is in the middle of. It is no step. Where it is in the middle of none, and stays so,
    /// nothing is written: the next atomic step would wait for it.
    pub fn set_call(&mut self, call: Call)
        ensures { self.new ≡ record self.old { call = call } }
    {
        if !(is_none(self.call) && is_none(call)) {
            self.call = call;
        }
    }

    /// The mode in which it holds the lock. `None` comes exactly where it doesn't hold it.
    pub fn mode(&self, l: LockNo) -> Option<Mode>
        ensures { hold_of result ≡ hold_in self.now.view.share.held l.0 }
    {
        match place_held(l, &self.held) {
            Some(i) => Some(self.held[i].mode),
            None => None,
        }
    }
}

// Whether it is none.
fn is_none(call: Call) -> bool
    ensures { result ≡ true → call ≡ calls.None }
{
    match call {
        Call::None => true,
        Call::Take { .. } | Call::Try { .. } | Call::Release { .. } => false,
    }
}

// Takes a lock that a thread releases off those that it holds. Mostly it is the last of them.
#[inline(always)]
pub(crate) fn leave(l: LockNo, held: &mut Vec<Held>)
    ensures left { held.new.items ≡ without_lock l.0 held.old.items }
    ensures room { vec_capacity held.new ≡ vec_capacity held.old }
{
    if let Some(i) = place_held(l, held) {
        if i + 1 == held.len() {
            held.take_last();
        } else {
            held.remove(i);
        }
    }
}
