//! Making operations and blocks that come from no source and have no attributes.
ghost use Rattle.std.specs.Prelude.{◌≡◌, ◌≤◌, ◌+◌, ◌^◌, [], Err, IfOk, OnErr, length};
ghost use Rattle.ir_base.specs.declared.growth.GrowError.TheVariants.{CounterFull};
ghost use Rattle.ir_program.specs.Program.{type_at};
ghost use Rattle.ir_program.specs.Edits.{IsUnchanged};
ghost use Rattle.ir_program.specs.Adds.{AreLiveValues, AreLiveBlocks};
ghost use Rattle.ir_program.specs.Made.{BuildsOperation, BuildsBlock};
ghost use Rattle.ir_program.specs.declared.handles.Value.{Value};
ghost use Rattle.ir_context.specs.Known.{AreKnownIn};

use crate::Context;
use crate::notes::{BlockNotes, OperationData, OperationNotes};
use ir_names::{AttributeDict, GrowError, Identifier, TypeHandle};
use ir_program::{BasicBlock, Operation, Ptr, Value};
use ir_types::DialectTables;
use std::alloc::Global;

/// `Operation::new`.
pub trait NewOperation {
    /// Makes an operation of a kind that stands in no block, with results of these types, these operands and successors,
    /// and so many regions, each with no block. It comes from no source and has no attributes.
    ///
    /// # Errors
    /// As `Context::new_operation`. Each handle leads to what it led to then.
    fn new<D: DialectTables>(
        alloc: Global,
        ctx: &mut Context<D>,
        kind: D::OpKind,
        result_types: &[TypeHandle],
        operands: &[Value],
        successors: &[Ptr<BasicBlock>],
        num_regions: usize,
    ) -> Result<Ptr<Operation>, GrowError>
        requires known { AreKnownIn (length ctx.old.types.keys) result_types.now }
        requires operands { AreLiveValues ctx.old.program operands.now }
        requires successors { AreLiveBlocks ctx.old.program successors.now }
        ensures built { IfOk result (λ p. BuildsOperation ctx.old.program ctx.new.program p
            (record { kind = kind; notes = record { attributes = []; loc = D.nowhere } }) result_types.now operands.now
            successors.now num_regions) }
        ensures err { OnErr result (IsUnchanged ctx.old.program ctx.new.program) }
        ensures err_values { OnErr result ((v : Value) → type_at ctx.new.program v ≡ type_at ctx.old.program v) }
        ensures full { result ≡ Err CounterFull → 2 ^ 64 ≤ ctx.old.program.counter + length result_types.now }
        ensures types { ctx.new.types ≡ ctx.old.types };
}

impl NewOperation for Operation {
    fn new<D: DialectTables>(
        alloc: Global,
        ctx: &mut Context<D>,
        kind: D::OpKind,
        result_types: &[TypeHandle],
        operands: &[Value],
        successors: &[Ptr<BasicBlock>],
        num_regions: usize,
    ) -> Result<Ptr<Operation>, GrowError> {
        let notes = OperationNotes {
            attributes: AttributeDict::new(alloc),
            loc: D::unknown_location(),
        };
        let payload = OperationData { kind, notes };
        ctx.new_operation(
            alloc,
            payload,
            result_types,
            operands,
            successors,
            num_regions,
        )
    }
}

/// `BasicBlock::new`.
pub trait NewBlock {
    /// Makes a block that stands in no region, with a label and arguments of these types, and no operation. It comes from
    /// no source and has no attributes.
    ///
    /// # Errors
    /// As `Context::new_block`. Each handle leads to what it led to then.
    fn new<D: DialectTables>(
        alloc: Global,
        ctx: &mut Context<D>,
        label: Option<Identifier>,
        argument_types: &[TypeHandle],
    ) -> Result<Ptr<BasicBlock>, GrowError>
        requires known { AreKnownIn (length ctx.old.types.keys) argument_types.now }
        ensures built { IfOk result (λ p. BuildsBlock ctx.old.program ctx.new.program p
            (record { attributes = []; loc = D.nowhere; label = label }) argument_types.now) }
        ensures err { OnErr result (IsUnchanged ctx.old.program ctx.new.program) }
        ensures err_values { OnErr result ((v : Value) → type_at ctx.new.program v ≡ type_at ctx.old.program v) }
        ensures full { result ≡ Err CounterFull → 2 ^ 64 ≤ ctx.old.program.counter + length argument_types.now }
        ensures types { ctx.new.types ≡ ctx.old.types };
}

impl NewBlock for BasicBlock {
    fn new<D: DialectTables>(
        alloc: Global,
        ctx: &mut Context<D>,
        label: Option<Identifier>,
        argument_types: &[TypeHandle],
    ) -> Result<Ptr<BasicBlock>, GrowError> {
        let notes = BlockNotes {
            attributes: AttributeDict::new(alloc),
            loc: D::unknown_location(),
            label,
        };
        ctx.new_block(alloc, notes, argument_types)
    }
}
