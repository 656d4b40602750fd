//! What each turn of a scheduled run answers, turn after turn, in orders that no schedule asks for.
ghost use Rattle.lock_model.specs.Operations.{IsProper};

use crate::briefs::plan_of;
use crate::fixtures::{REVERSED, check_row};
use lock_model::{Plan, StepKind, ThreadNo, Turn};
use std::alloc::Global;
use std::test::Fail;
use step_world::World;

const LENT: &str = "lockrun 1;mutex m a;thread p 100;lock m;show;unlock m;end;\
    thread q 50;lock m;add m 1 3;unlock m;end;schedule p q q p p p q;done;";

const CLAIMED: &str = "lockrun 1;rw d k;thread w 100;wlock d;wunlock d;end;\
    thread r1 90;rlock d;runlock d;end;thread r2 80;rlock d;runlock d;end;\
    thread v 70;wlock d;wunlock d;end;thread n 95;wlock d;show;wunlock d;end;\
    schedule w r1 r1 r2 r2 v v w n n;done;";

// Threads 0 and 1 hold b and a, and 1 waits for b. Threads 2 and 3 then both lend to 1 through a.
const LENT_TWICE: &str = "lockrun 1;mutex a ka;mutex b kb;thread t1 200;lock b;unlock b;end;\
    thread t2 150;lock a;lock b;unlock b;unlock a;end;\
    thread t3 50;lock a;unlock a;end;thread t4 40;lock a;unlock a;end;done;";

// Thread 0 sleeps with a shared lock, and thread 1 wakes it while it holds that exclusively.
const WOKEN: &str = "lockrun 1;sx s k;chan z s;\
    thread a 100;slock s;msleep z;sunlock s;end;\
    thread b 50;xlock s;wakeup z;xunlock s;end;done;";

// A script, and who has the turn with its answer, turn after turn.
type Answers = (&'static str, &'static [(u8, Turn)]);

// A hand-over with an idle and an ended turn; a claim behind a release that woke the other side; a second walk that
// sorts a thread anew whose priority is kept already; a walk to a thread that is taken off its queue, and so ends; a
// wait that gives its lock back in a turn of its own, is woken, and blocks before it has the lock again; a refused
// take, and what its thread gives back.
const TURNS: &[Answers] = &[
    (
        LENT,
        &[
            (0, Turn::Did(StepKind::Gain)),
            (1, Turn::Did(StepKind::Enter)),
            (1, Turn::Did(StepKind::Lend)),
            (1, Turn::Idle),
            (0, Turn::Did(StepKind::Note)),
            (0, Turn::Did(StepKind::OpenUp)),
            (0, Turn::Did(StepKind::Mark)),
            (0, Turn::Ended),
            (1, Turn::Did(StepKind::Resume)),
            (1, Turn::Did(StepKind::Gain)),
        ],
    ),
    (
        CLAIMED,
        &[
            (0, Turn::Did(StepKind::Gain)),
            (1, Turn::Did(StepKind::Enter)),
            (1, Turn::Did(StepKind::Lend)),
            (3, Turn::Did(StepKind::Enter)),
            (0, Turn::Did(StepKind::OpenUp)),
            (4, Turn::Did(StepKind::Claim)),
        ],
    ),
    (
        LENT_TWICE,
        &[
            (0, Turn::Did(StepKind::Gain)),
            (1, Turn::Did(StepKind::Gain)),
            (1, Turn::Did(StepKind::Enter)),
            (1, Turn::Did(StepKind::Lend)),
            (2, Turn::Did(StepKind::Enter)),
            (2, Turn::Did(StepKind::Lend)),
            (3, Turn::Did(StepKind::Enter)),
            (3, Turn::Did(StepKind::Lend)),
            (2, Turn::Did(StepKind::Shift)),
            (3, Turn::Did(StepKind::Shift)),
            (2, Turn::Did(StepKind::Lend)),
            (3, Turn::Did(StepKind::Lend)),
        ],
    ),
    (
        LENT_TWICE,
        &[
            (0, Turn::Did(StepKind::Gain)),
            (1, Turn::Did(StepKind::Gain)),
            (1, Turn::Did(StepKind::Enter)),
            (1, Turn::Did(StepKind::Lend)),
            (0, Turn::Did(StepKind::OpenUp)),
            (2, Turn::Did(StepKind::Enter)),
            (2, Turn::Did(StepKind::Lend)),
            (2, Turn::Did(StepKind::WalkEnd)),
            (0, Turn::Did(StepKind::Mark)),
            (1, Turn::Did(StepKind::Resume)),
        ],
    ),
    (
        WOKEN,
        &[
            (0, Turn::Did(StepKind::Gain)),
            (0, Turn::Did(StepKind::Add)),
            (0, Turn::Did(StepKind::Drop)),
            (0, Turn::Idle),
            (1, Turn::Did(StepKind::Gain)),
            (1, Turn::Did(StepKind::Wake)),
            (1, Turn::Did(StepKind::Mark)),
            (0, Turn::Did(StepKind::Resume)),
            (0, Turn::Did(StepKind::Enter)),
            (1, Turn::Did(StepKind::OpenUp)),
            (1, Turn::Did(StepKind::Mark)),
            (1, Turn::Ended),
            (0, Turn::Did(StepKind::Resume)),
            (0, Turn::Did(StepKind::Gain)),
            (0, Turn::Did(StepKind::Drop)),
            (0, Turn::Ended),
        ],
    ),
    (
        REVERSED,
        &[
            (0, Turn::Did(StepKind::Gain)),
            (1, Turn::Did(StepKind::Gain)),
            (0, Turn::Did(StepKind::Enter)),
            (1, Turn::Did(StepKind::Note)),
            (0, Turn::Did(StepKind::Lend)),
            (1, Turn::Did(StepKind::OpenUp)),
            (0, Turn::Idle),
            (1, Turn::Did(StepKind::Mark)),
            (1, Turn::Ended),
            (0, Turn::Did(StepKind::Resume)),
            (0, Turn::Did(StepKind::Gain)),
            (0, Turn::Did(StepKind::Drop)),
            (0, Turn::Did(StepKind::Drop)),
            (0, Turn::Ended),
        ],
    ),
];

#[test]
fn turns_and_their_answers(rt: HostRuntime) -> Result<(), Fail> {
    for &(script, turns) in TURNS {
        check_row(script, runs_so(rt.alloc(), script, turns)?)?;
    }
    Ok(())
}

// Whether the turns of a script's run have those answers.
fn runs_so(alloc: Global, script: &str, turns: &[(u8, Turn)]) -> Result<bool, Fail> {
    let plan = plan_of(alloc, &[script])?;
    plan_runs_so(alloc, &plan, turns)
}

fn plan_runs_so(alloc: Global, plan: &Plan, turns: &[(u8, Turn)]) -> Result<bool, Fail>
    requires { IsProper plan.now }
{
    let mut world = World::make(alloc, plan, 16)?;
    Ok(answers_so(&mut world, turns))
}

fn answers_so(world: &mut World<'_>, turns: &[(u8, Turn)]) -> bool {
    for &(t, answer) in turns {
        if t >= world.threads() {
            return false;
        }
        if world.turn(ThreadNo(t)) != answer {
            return false;
        }
    }
    true
}
