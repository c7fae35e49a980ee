//! What operations and blocks carry.
ghost use Rattle.std.specs.Prelude.{◌≡◌, Some, IsSome};
ghost use Rattle.std.specs.Borrow.{sem};
ghost use Rattle.ir_program.specs.Program.{operation_at, block_at, type_at};
ghost use Rattle.ir_program.specs.declared.handles.Value.{Value};
ghost use Rattle.ir_program.specs.Edits.{EditsOperation, EditsBlock};

use crate::{BasicBlock, Operation, Program, Ptr};

impl<O, B> Program<O, B> {
    ghost use Rattle.ir_program.specs.Lent.{payload_at, block_payload_at, with_payload, with_block_payload, lends_payload, lends_block_payload};

    /// The payload of an operation.
    pub fn payload(&self, op: Ptr<Operation>) -> &O
        requires { IsSome (operation_at self.now op) }
        ensures { payload_at self.now op ≡ Some result.now }
    {
        &self.forest.op(op.key).payload
    }

    /// Lends the payload of an operation, to be changed.
    pub fn payload_mut(&mut self, op: Ptr<Operation>) -> &mut O
        requires { IsSome (operation_at self.old op) }
        ensures* lends { sem 𝓛 (lends_payload O.row B.row self.entry op result) }
        ensures value { payload_at self.old op ≡ Some result.now }
        // Nothing changes but the payload.
        ensures edits { (w : _)
            → EditsOperation self.old (with_payload self.old op w) op (λ o. record o { payload = w }) }
        ensures types { (w : _) (v : Value) → type_at (with_payload self.old op w) v ≡ type_at self.old v }
        ensures counter { (w : _) → (with_payload self.old op w).counter ≡ self.old.counter }
    {
        let record = self.forest.op_mut(op.key);
        &mut record.payload
    }

    /// The payload of a block.
    pub fn block_payload(&self, block: Ptr<BasicBlock>) -> &B
        requires { IsSome (block_at self.now block) }
        ensures { block_payload_at self.now block ≡ Some result.now }
    {
        &self.forest.block(block.key).payload
    }

    /// Lends the payload of a block, to be changed.
    pub fn block_payload_mut(&mut self, block: Ptr<BasicBlock>) -> &mut B
        requires { IsSome (block_at self.old block) }
        ensures* lends { sem 𝓛 (lends_block_payload O.row B.row self.entry block result) }
        ensures value { block_payload_at self.old block ≡ Some result.now }
        // Nothing changes but the payload.
        ensures edits { (w : _)
            → EditsBlock self.old (with_block_payload self.old block w) block (λ b. record b { payload = w }) }
        ensures types { (w : _) (v : Value) → type_at (with_block_payload self.old block w) v ≡ type_at self.old v }
        ensures counter { (w : _) → (with_block_payload self.old block w).counter ≡ self.old.counter }
    {
        let record = self.forest.block_mut(block.key);
        &mut record.payload
    }
}
