//! Changing where operations and blocks come from, and what blocks are called.
ghost use Rattle.std.specs.Prelude.{◌≡◌, Some, IsSome};
ghost use Rattle.ir_program.specs.Program.{operation_at, block_at};
ghost use Rattle.ir_program.specs.Edits.{EditsOperation, EditsBlock, KeepsValues};
ghost use Rattle.ir_program.specs.Lent.{block_payload_at};
ghost use Rattle.ir_program.specs.declared.handles.Ptr.{Ptr};
ghost use Rattle.ir_program.specs.declared.handles.Operation.{Operation};
ghost use Rattle.ir_program.specs.declared.handles.BasicBlock.{BasicBlock};
ghost use Rattle.ir_context.specs.Kept.{notes_at};

use crate::Context;
use ir_names::Identifier;
use ir_program::{BasicBlock, Operation, Ptr};
use ir_types::DialectTables;

/// Changing where an operation comes from.
pub trait OperationChanges {
    /// The handle of the operation.
    ghost op: { Self → Ptr Operation };

    /// Says where the operation comes from.
    fn set_loc<D: DialectTables>(self, ctx: &mut Context<D>, loc: D::Location)
        requires { IsSome (operation_at ctx.old.program (op self)) }
        ensures edited { (n : _) → notes_at ctx.old.program (op self) ≡ Some n
            → EditsOperation ctx.old.program ctx.new.program (op self)
            (λ o. record o { payload = record o.payload { notes = record n { loc = loc } } }) }
        ensures values { KeepsValues ctx.old.program ctx.new.program }
        ensures types { ctx.new.types ≡ ctx.old.types };
}

impl OperationChanges for Ptr<Operation> {
    ghost op = { λ o. o };

    fn set_loc<D: DialectTables>(self, ctx: &mut Context<D>, loc: D::Location) {
        ctx.payload_mut(self).notes.loc = loc;
    }
}

/// Changing where a block comes from and what it is called.
pub trait BlockChanges {
    /// The handle of the block.
    ghost block: { Self → Ptr BasicBlock };

    /// Gives the block a label, or takes its label away.
    fn set_label<D: DialectTables>(self, ctx: &mut Context<D>, label: Option<Identifier>)
        requires { IsSome (block_at ctx.old.program (block self)) }
        ensures edited { (n : _) → block_payload_at ctx.old.program (block self) ≡ Some n
            → EditsBlock ctx.old.program ctx.new.program (block self)
            (λ b. record b { payload = record n { label = label } }) }
        ensures values { KeepsValues ctx.old.program ctx.new.program }
        ensures types { ctx.new.types ≡ ctx.old.types };

    /// Says where the block comes from.
    fn set_loc<D: DialectTables>(self, ctx: &mut Context<D>, loc: D::Location)
        requires { IsSome (block_at ctx.old.program (block self)) }
        ensures edited { (n : _) → block_payload_at ctx.old.program (block self) ≡ Some n
            → EditsBlock ctx.old.program ctx.new.program (block self)
            (λ b. record b { payload = record n { loc = loc } }) }
        ensures values { KeepsValues ctx.old.program ctx.new.program }
        ensures types { ctx.new.types ≡ ctx.old.types };
}

impl BlockChanges for Ptr<BasicBlock> {
    ghost block = { λ b. b };

    fn set_label<D: DialectTables>(self, ctx: &mut Context<D>, label: Option<Identifier>) {
        ctx.block_payload_mut(self).label = label;
    }

    fn set_loc<D: DialectTables>(self, ctx: &mut Context<D>, loc: D::Location) {
        ctx.block_payload_mut(self).loc = loc;
    }
}
