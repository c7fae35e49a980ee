//! The successors of operations: the blocks that they may go on to.
ghost use Rattle.std.specs.Prelude.{◌≡◌, ℕ, ◌++◌, ◌∷◌, [], ◌<◌, ◌≤◌, Some, IsNone, IsSome, MatchOption, OnOk, OnErr, length, slice_get};
ghost use Rattle.ir_entities.specs.Uses.{key_of};
ghost use Rattle.ir_program.specs.Program.{block_at, operation_at};
ghost use Rattle.ir_program.specs.Rows.{successors_at};
ghost use Rattle.ir_program.specs.Edits.{IsUnchanged, KeepsValues};
ghost use Rattle.ir_program.specs.RowEdits.{PushesSuccessor, InsertsSuccessor, RemovesSuccessor, ReplacesSuccessor, ChangesSuccessors};

use crate::{BasicBlock, Operation, Program, Ptr};
use ir_entities::{insert_place, push_place, remove_place};
use std::alloc::AllocError;

impl<O, B> Program<O, B> {
    /// Each successor is a block that is there.
    pub fn know_successors(&self)
        ensures { (p : _) (k : ℕ) (b : _) → slice_get (successors_at self.now p) k ≡ Some b
            → IsSome (block_at self.now b) }
    {
        self.targets.know_named();
    }

    /// How many successors an operation has.
    pub fn successor_count(&self, op: Ptr<Operation>) -> usize
        requires { IsSome (operation_at self.now op) }
        ensures { result ≡ length (successors_at self.now op) }
    {
        self.forest.op(op.key).successors.len()
    }

    /// The successor at an index.
    pub fn successor(&self, op: Ptr<Operation>, index: usize) -> Ptr<BasicBlock>
        requires { index < length (successors_at self.now op) }
        ensures exact { slice_get (successors_at self.now op) index ≡ Some result }
        ensures live { IsSome (block_at self.now result) }
    {
        let place = self.forest.op(op.key).successors[index];
        self.targets.key(self.targets.definition(place))
    }

    /// Gives an operation one successor more, behind the others.
    ///
    /// # Errors
    /// Without memory nothing is changed.
    pub fn push_successor(
        &mut self,
        op: Ptr<Operation>,
        block: Ptr<BasicBlock>,
    ) -> Result<(), AllocError>
        requires operation { IsSome (operation_at self.old op) }
        requires block { IsSome (block_at self.old block) }
        ensures pushed { OnOk result (PushesSuccessor self.old self.new op block) }
        ensures err { OnErr result (IsUnchanged self.old self.new) }
        ensures values { KeepsValues self.old self.new }
    {
        let thread = self.block_thread(block);
        let record = self.forest.op_mut(op.key);
        push_place(
            &mut self.targets,
            &mut record.successors,
            op.key.slot,
            thread,
        )
    }

    /// Puts a successor at an index. Those that stood there and behind move back by one.
    ///
    /// # Errors
    /// Without memory nothing is changed.
    pub fn insert_successor(
        &mut self,
        op: Ptr<Operation>,
        index: usize,
        block: Ptr<BasicBlock>,
    ) -> Result<(), AllocError>
        requires operation { IsSome (operation_at self.old op) }
        requires within { index ≤ length (successors_at self.old op) }
        requires block { IsSome (block_at self.old block) }
        ensures inserted { OnOk result (InsertsSuccessor self.old self.new op index block) }
        ensures err { OnErr result (IsUnchanged self.old self.new) }
        ensures values { KeepsValues self.old self.new }
    {
        let thread = self.block_thread(block);
        let record = self.forest.op_mut(op.key);
        insert_place(
            &mut self.targets,
            &mut record.successors,
            op.key.slot,
            index,
            thread,
        )
    }

    /// Takes away the successor at an index. Those behind it move up by one.
    pub fn remove_successor(&mut self, op: Ptr<Operation>, index: usize) -> Ptr<BasicBlock>
        requires { index < length (successors_at self.old op) }
        ensures block { slice_get (successors_at self.old op) index ≡ Some result }
        ensures removed { RemovesSuccessor self.old self.new op index }
        ensures values { KeepsValues self.old self.new }
    {
        let block = self.successor(op, index);
        let record = self.forest.op_mut(op.key);
        remove_place(
            &mut self.targets,
            &mut record.successors,
            op.key.slot,
            index,
        );
        block
    }

    /// Takes away the last successor, if there is one.
    pub fn pop_successor(&mut self, op: Ptr<Operation>) -> Option<Ptr<BasicBlock>>
        requires { IsSome (operation_at self.old op) }
        ensures block { MatchOption result (successors_at self.old op ≡ [])
            (λ b. successors_at self.old op ≡ successors_at self.new op ++ b ∷ []) }
        ensures popped { ChangesSuccessors self.old self.new op }
        ensures none { IsNone result → IsUnchanged self.old self.new }
        ensures values { KeepsValues self.old self.new }
    {
        let last = self.successor_count(op).checked_sub(1)?;
        Some(self.remove_successor(op, last))
    }

    /// Puts another block in place of the successor at an index.
    pub fn replace_successor(&mut self, op: Ptr<Operation>, index: usize, block: Ptr<BasicBlock>)
        requires within { index < length (successors_at self.old op) }
        requires block { IsSome (block_at self.old block) }
        ensures replaced { ReplacesSuccessor self.old self.new op index block }
        ensures values { KeepsValues self.old self.new }
    {
        let thread = self.block_thread(block);
        let place = self.forest.op(op.key).successors[index];
        self.targets.rename(place, thread);
    }

    /// The number of the block's thread among the uses of blocks.
    fn block_thread(&self, block: Ptr<BasicBlock>) -> usize
        requires { IsSome (block_at self.now block) }
        ensures { key_of self.now.targets result ≡ Some block }
    {
        self.forest.block(block.key).thread
    }
}
