//! How many results, operands, successors and regions an operation has.
ghost use Rattle.std.specs.Prelude.{◌≡◌, ◌↔◌, IsSome, IsTrue, length};
ghost use Rattle.ir_program.specs.Program.{operation_at};
ghost use Rattle.kit_checks.specs.Reading.{OfTree};
ghost use Rattle.kit_checks.specs.Rules.{Counts, HasOperands};
ghost use Rattle.kit_checks.specs.Sites.{region_list};

use ir_context::{
    OperandCalls, OperationCalls, ResultCalls, SuccessorCalls, TypeTable, TypedProgram,
};
use ir_program::{Operation, Ptr};

/// Whether an operation has so many regions.
pub(crate) fn has_regions<O, B, T: TypeTable>(
    ctx: &TypedProgram<O, B, T>,
    op: Ptr<Operation>,
    regions: usize,
) -> bool
    requires { IsSome (operation_at ctx.now.program op) }
    ensures { OfTree ctx.now.program op (λ u. IsTrue result ↔ (length (region_list u.regions) ≡ regions)) }
{
    op.num_regions(ctx) == regions
}

/// Whether an operation has so many results, successors and regions.
pub(crate) fn has_counts<O, B, T: TypeTable>(
    ctx: &TypedProgram<O, B, T>,
    op: Ptr<Operation>,
    results: usize,
    successors: usize,
    regions: usize,
) -> bool
    requires { IsSome (operation_at ctx.now.program op) }
    ensures { OfTree ctx.now.program op (λ u. IsTrue result ↔ Counts u results successors regions) }
{
    op.get_num_results(ctx) == results
        && op.get_num_successors(ctx) == successors
        && has_regions(ctx, op, regions)
}

/// Whether an operation has so many operands.
pub(crate) fn has_operands<O, B, T: TypeTable>(
    ctx: &TypedProgram<O, B, T>,
    op: Ptr<Operation>,
    operands: usize,
) -> bool
    requires { IsSome (operation_at ctx.now.program op) }
    ensures { OfTree ctx.now.program op (λ u. IsTrue result ↔ HasOperands u operands) }
{
    op.get_num_operands(ctx) == operands
}
