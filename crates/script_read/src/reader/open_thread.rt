//! The thread whose `end` hasn't come: its operations, what it holds behind them, and the blocks of its tries that are
//! open.
ghost use Rattle.std.specs.Prelude.{◌≡◌, ◌<◌, ◌++◌, ◌^◌, suc, length, slice_set, option_map, option_to_list, IfOk};
ghost use Rattle.lock_model.specs.Script.Learning.{blocks_behind};
ghost use Rattle.lock_model.specs.declared.plan.Op.TheVariants.{Try};
ghost use Rattle.script_read.specs.OpenThreads.{thread_of, block_of};

use lock_model::{Held, LockNo, Mode, Name, OfLocks, Op, Prio};
use std::alloc::{AllocError, Global};

/// A try's block that is open: the try, its place among the thread's operations, and what the thread held before it.
#[derive(Drop)]
pub struct Block {
    pub lock: LockNo,
    pub mode: Mode,
    pub opened_at: usize,
    pub before: Vec<Held>,
}

/// A thread whose `end` hasn't come.
#[derive(Drop)]
pub struct OpenThread {
    pub name: Name,
    pub base: Prio,
    pub ops: Vec<Op>,
    pub held: Vec<Held>,
    // The innermost last.
    pub blocks: Vec<Block>,
}

impl OpenThread {
    /// The block that an operation opens, where it comes next.
    pub fn opened_by(&self, alloc: Global, op: Op) -> Result<Option<Block>, AllocError>
        ensures { IfOk result (λ block. blocks_behind (thread_of self.now) op
            ≡ option_to_list (option_map block_of block) ++ (thread_of self.now).blocks) }
    {
        match op.of_locks() {
            OfLocks::Acquires { held } if held.by_try => Ok(Some(Block {
                lock: held.l,
                mode: held.mode,
                opened_at: self.ops.len(),
                before: Vec::from_slice(alloc, &self.held)?,
            })),
            OfLocks::NoLock
            | OfLocks::Acquires { .. }
            | OfLocks::ClosesBlock
            | OfLocks::Releases { .. }
            | OfLocks::EditsAt { .. }
            | OfLocks::ReadsAt { .. }
            | OfLocks::SleepsOn { .. }
            | OfLocks::WakesOn { .. } => Ok(None),
        }
    }

    /// Lets a block's try go on behind the next operation, which closes the block.
    pub fn go_on_behind(&mut self, block: Block)
        requires { suc (length self.old.ops.items) < 2 ^ 32 }
        ensures { thread_of self.new ≡ record (thread_of self.old) {
          ops = slice_set self.old.ops.items block.opened_at
              (Try block.lock block.mode (suc (length self.old.ops.items)));
        } }
    {
        let past = (self.ops.len() + 1) as u32;
        if let Some(op) = self.ops.get_mut(block.opened_at) {
            *op = Op::Try {
                l: block.lock,
                mode: block.mode,
                past,
            };
        }
    }
}
