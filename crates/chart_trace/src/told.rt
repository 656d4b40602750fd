//! What events tell of a chart, one thing after the other.
ghost use Rattle.std.specs.Prelude.{◌≡◌, ◌++◌, flat_map, List, OnOk};
ghost use Rattle.chart_trace.specs.Events.{next_lines, Event};

use lock_model::Plan;
use std::alloc::AllocError;

/// Whether memory was there for what is pushed.
pub type Pushed = Result<(), AllocError>;

/// What events tell.
pub trait Told {
    ghost use Rattle.lock_model.specs.declared.plan.Plan.{Plan};

    /// The events that tell it.
    ghost events: { Plan → Self → List Event };

    /// Pushes them, behind others.
    fn push(&self, out: &mut Vec<u8>, plan: &Plan) -> Pushed
        ensures { OnOk result (out.new.items
            ≡ out.old.items ++ next_lines (events plan.now self.now)) };
}

/// Pushes the events that tell each of these.
pub fn push_each<T: Told>(out: &mut Vec<u8>, plan: &Plan, each: &[T]) -> Pushed
    ensures { OnOk result (out.new.items
        ≡ out.old.items ++ next_lines (flat_map (T.events plan.now) each.now)) }
{
    for one in each {
        one.push(out, plan)?;
    }
    Ok(())
}
