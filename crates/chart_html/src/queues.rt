//! The queues that weren't empty.
ghost use Rattle.chart_html.specs.Data.{queue, queues_from, thread_called, waiter};

use crate::items::{Known, Listed, push_items, push_with_number, push_with_string};
use chart_escape::{Piece, push_tokens};
use chart_words::{push_words, queue_name};
use lock_history::QueueLine;
use lock_model::{Prio, Sequence, ThreadNo};
use std::alloc::AllocError;

/// A row, and the queues that from it on weren't empty.
impl Listed for (u32, Sequence<QueueLine>) {
    ghost value = { λ known n change. queues_from known.plan.now change };

    fn push(&self, out: &mut Vec<u8>, known: &Known<'_>, _n: usize) -> Result<(), AllocError> {
        push_with_number(out, "{\"row\":", u64::from(self.0))?;
        push_items(out, b",\"lines\":", known, self.1.as_slice())?;
        push_words(out, b"}")
    }
}

impl Listed for QueueLine {
    ghost value = { λ known n line. queue known.plan.now line };

    fn push(&self, out: &mut Vec<u8>, known: &Known<'_>, _n: usize) -> Result<(), AllocError> {
        push_with_string(out, "{\"name\":", queue_name(known.plan, self.q))?;
        push_with_number(out, ",\"slot\":", u64::from(self.slot))?;
        push_with_string(out, ",\"head\":", known.plan.thread_name(self.head))?;
        push_items(out, b",\"free\":", known, self.free.as_slice())?;
        push_items(out, b",\"excl\":", known, self.excl.as_slice())?;
        push_items(out, b",\"shared\":", known, self.shared.as_slice())?;
        push_words(out, b"}")?;
        Ok(())
    }
}

impl Listed for ThreadNo {
    ghost value = { λ known n t. thread_called known.plan.now t };

    fn push(&self, out: &mut Vec<u8>, known: &Known<'_>, _n: usize) -> Result<(), AllocError> {
        push_tokens(out, &[Piece::Json(known.plan.thread_name(*self))])
    }
}

/// A waiter, with the priority that is kept for it.
impl Listed for (ThreadNo, Prio) {
    ghost value = { λ known n its. waiter known.plan.now its };

    fn push(&self, out: &mut Vec<u8>, known: &Known<'_>, _n: usize) -> Result<(), AllocError> {
        push_with_string(out, "[", known.plan.thread_name(self.0))?;
        push_with_number(out, ",", u64::from(self.1.0))?;
        push_words(out, b"]")
    }
}
