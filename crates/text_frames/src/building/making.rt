//! Making blocks and operations.
ghost use Rattle.std.specs.Prelude.{◌≡◌, ◌≤◌, ◌+◌, ◌^◌, [], Err, IfOk, OnOk, OnErr, length};
ghost use Rattle.ir_base.specs.declared.growth.GrowError.TheVariants.{CounterFull};
ghost use Rattle.ir_context.specs.Known.{AreKnownIn};
ghost use Rattle.ir_program.specs.Edits.{KeepsErased};
ghost use Rattle.ir_program.specs.Made.{BuildsOperation};
ghost use Rattle.text_dialect.specs.Seen.{seen};
ghost use Rattle.text_frames.specs.building.Kept.{SameSeen, GivesNumbers, KeepsPayloads};
ghost use Rattle.text_frames.specs.building.Loose.{AreAllLoose, ListsAreApart};
ghost use Rattle.text_frames.specs.building.Made.{MakesDetachedOperation, OpensBlock, lists_of};

use crate::building::filling::fill_regions;
use ir_context::{Context, NewBlock, OperationData, OperationNotes};
use ir_names::{AttributeDict, GrowError, Identifier, TypeHandle};
use ir_program::{BasicBlock, Operation, Ptr};
use ir_types::DialectTables;
use std::alloc::Global;

/// Makes a block in no region, with this label, arguments of these types, no attributes, and no operation.
///
/// # Errors
/// `Memory`, and `CounterFull` where there are not so many numbers left for values. Each handle leads to what it led to
/// then.
pub fn open_block<D: DialectTables>(
    alloc: Global,
    ctx: &mut Context<D>,
    label: Option<Identifier>,
    argument_types: &[TypeHandle],
) -> Result<Ptr<BasicBlock>, GrowError>
    requires known { AreKnownIn (length ctx.old.types.keys) argument_types.now }
    ensures opened { IfOk result (λ b. OpensBlock (seen ctx.old) (seen ctx.new) b label argument_types.now
        ctx.old.program.counter) }
    ensures numbers { OnOk result (GivesNumbers ctx.old.program ctx.new.program (length argument_types.now)) }
    ensures err { OnErr result (SameSeen (seen ctx.old) (seen ctx.new)) }
    ensures full { result ≡ Err CounterFull → 2 ^ 64 ≤ ctx.old.program.counter + length argument_types.now }
    ensures erased { KeepsErased ctx.old.program ctx.new.program }
    ensures payloads { KeepsPayloads ctx.old.program ctx.new.program }
    ensures types { ctx.new.types ≡ ctx.old.types }
{
    BasicBlock::new(alloc, ctx, label, argument_types)
}

/// Makes an operation in no block of this kind, with these attributes, results of these types, no operands and no
/// successors, and with so many regions, each with no block. It comes from no source.
fn bare_operation<D: DialectTables>(
    alloc: Global,
    ctx: &mut Context<D>,
    kind: D::OpKind,
    attributes: AttributeDict<D>,
    result_types: &[TypeHandle],
    regions: usize,
) -> Result<Ptr<Operation>, GrowError>
    requires known { AreKnownIn (length ctx.old.types.keys) result_types.now }
    ensures built { IfOk result (λ p. BuildsOperation ctx.old.program ctx.new.program p
        (record { kind = kind; notes = record { attributes = attributes; loc = D.nowhere } })
        result_types.now [] [] regions) }
    ensures err { OnErr result (SameSeen (seen ctx.old) (seen ctx.new)) }
    ensures full { result ≡ Err CounterFull → 2 ^ 64 ≤ ctx.old.program.counter + length result_types.now }
    ensures erased { KeepsErased ctx.old.program ctx.new.program }
    ensures payloads { KeepsPayloads ctx.old.program ctx.new.program }
    ensures types { ctx.new.types ≡ ctx.old.types }
{
    let notes = OperationNotes {
        attributes,
        loc: D::unknown_location(),
    };
    let payload = OperationData::new(kind, notes);
    ctx.new_operation(alloc, payload, result_types, &[], &[], regions)
}

/// Makes an operation in no block of this kind, with these attributes, results of these types, no operands and no
/// successors, and with a region for each of the lists, which takes the blocks of the list. These are in no region
/// before.
///
/// # Errors
/// `Memory`, and `CounterFull` where there are not so many numbers left for values. Each handle leads to what it led to
/// then.
pub fn make_operation<D: DialectTables>(
    alloc: Global,
    ctx: &mut Context<D>,
    kind: D::OpKind,
    attributes: AttributeDict<D>,
    result_types: &[TypeHandle],
    regions: &[Vec<Ptr<BasicBlock>>],
) -> Result<Ptr<Operation>, GrowError>
    requires known { AreKnownIn (length ctx.old.types.keys) result_types.now }
    requires loose { AreAllLoose (seen ctx.old) (lists_of regions.now) }
    requires apart { ListsAreApart (lists_of regions.now) }
    ensures made { IfOk result
        (λ p. MakesDetachedOperation (seen ctx.old) (seen ctx.new) p kind attributes result_types.now
        ctx.old.program.counter (lists_of regions.now)) }
    ensures numbers { OnOk result (GivesNumbers ctx.old.program ctx.new.program (length result_types.now)) }
    ensures err { OnErr result (SameSeen (seen ctx.old) (seen ctx.new)) }
    ensures full { result ≡ Err CounterFull → 2 ^ 64 ≤ ctx.old.program.counter + length result_types.now }
    ensures erased { KeepsErased ctx.old.program ctx.new.program }
    ensures payloads { KeepsPayloads ctx.old.program ctx.new.program }
    ensures types { ctx.new.types ≡ ctx.old.types }
{
    let op = bare_operation(alloc, ctx, kind, attributes, result_types, regions.len())?;
    fill_regions(ctx, op, regions);
    Ok(op)
}
