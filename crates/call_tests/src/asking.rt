//! What is asked of a thread, call by call.
use floor_calls::{Cause, Next, Request, Thread};

// How many parts of a call are made in a row at most: a take looks 100 times, and has a few other parts.
const PARTS: u32 = 1_000;

/// Asks that of a thread. Where that is to go on, it goes on until that answers something else.
pub fn ask(thread: &mut Thread, request: Request) -> Result<Next, Cause> {
    match request {
        Request::Take { l, mode } => thread.begin_take(l, mode),
        Request::Try { l, mode } => thread.begin_try(l, mode),
        Request::Release { l, mode } => thread.begin_release(l, mode),
        Request::Edit { cell, change } => thread.edit(cell, change),
        Request::Read { cell } => thread.read(cell),
        Request::SetBase { prio } => thread.set_base(prio),
        Request::Show => thread.show(),
        Request::WakeUp { c, all } => thread.begin_wakeup(c, all),
        Request::Wait { c } => thread.begin_wait(c),
        Request::End => thread.begin_end(),
        Request::GoOn => go_on(thread),
    }
}

// Goes on with a thread's call, until that answers something else than to go on.
fn go_on(thread: &mut Thread) -> Result<Next, Cause> {
    for _ in 0..PARTS {
        let answer = thread.go_on();
        if answer != Ok(Next::Again) {
            return answer;
        }
    }
    Ok(Next::Again)
}
