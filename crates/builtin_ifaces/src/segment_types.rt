//! Interfaces that say of which types the operands of a segment are.
ghost use Rattle.std.specs.Prelude.{◌≡◌, ◌↔◌, ◌<◌, ◌≤◌, Bool, true, IsSome, IsTrue, length};
ghost use Rattle.ir_base.specs.declared.types.TypeHandle.{TypeHandle};
ghost use Rattle.ir_program.specs.Program.{operation_at};
ghost use Rattle.ir_program.specs.Rows.{operands_at};
ghost use Rattle.ir_types.specs.Interned.{passes};
ghost use Rattle.ir_types.specs.Views.{TypesView};
ghost use Rattle.op_ifaces.specs.Interfaces.{key_passes};
ghost use Rattle.op_ifaces.specs.Rows.{passes_test, row_length, row_type};
ghost use Rattle.op_ifaces.specs.Rules.{AcceptsExactly, AllPassIn};
ghost use Rattle.op_ifaces.specs.declared.rows.Row.TheVariants.{Operands};
ghost use Rattle.builtin_ifaces.specs.Segments.{SegmentPasses};

use crate::segments::find_segment;
use builtin_tables::BuiltinDialect;
use ir_context::{Context, OperandCalls, ValueCalls};
use ir_names::{OpInterface, TypeTest};
use ir_program::{Operation, Ptr};
use ir_queries::TypeMarker;
use ir_types::DialectTables;
use op_ifaces::verify_rows;
use std::marker::PhantomData;
use thiserror::Error;

/// Why the operands of a segment aren't as wanted.
#[derive(Clone, Copy, Debug, PartialEq, Eq, Error)]
pub enum SegmentNOfTypeError {
    /// The operands aren't in segments, or there are too few segments.
    #[error("there is no segment {0}")]
    SegmentNotFound(usize),
    /// The type of one isn't as wanted.
    #[error("an operand of segment {0} is of another type than expected")]
    UnexpectedType(usize),
}

/// A test of the types of operands.
trait TestOfOperands<D: DialectTables> {
    /// Whether a type passes, which a handle that leads to none doesn't.
    ghost passes: { Self → TypesView D.TypeKey D.TypeBody D.Saved → TypeHandle → Bool };

    /// Whether the type of the operand at an index passes.
    fn is_met(&self, op: Ptr<Operation>, ctx: &Context<D>, i: usize) -> bool
        requires live { IsSome (operation_at ctx.now.program op) }
        requires within { i < length (operands_at ctx.now.program op) }
        ensures { IsTrue result ↔ (passes_test (passes self.now ctx.now.types)
            (row_type ctx.now.program op Operands i) ≡ true) };
}

/// The type is of the kind that `T` stands for.
#[derive_where(Clone, Copy)]
struct OfKind<T>(PhantomData<T>);

impl<D: DialectTables, T: TypeMarker<D>> TestOfOperands<D> for OfKind<T> {
    ghost use Rattle.ir_types.specs.Interned.{passes as passes_by_key};

    ghost passes = { λ _ types ty. passes_by_key (λ key. D.TypeKind.eq (D.kind_of_type key) T.KIND) types ty };

    fn is_met(&self, op: Ptr<Operation>, ctx: &Context<D>, i: usize) -> bool {
        ctx.types()
            .has_kind(op.get_operand(ctx, i).get_type(ctx), T::KIND)
    }
}

/// The type passes a test of a table.
#[derive(Clone, Copy)]
struct ByTable(TypeTest);

impl<D: DialectTables> TestOfOperands<D> for ByTable {
    ghost use Rattle.ir_types.specs.Interned.{passes as passes_by_key};
    ghost use Rattle.op_ifaces.specs.Interfaces.{key_passes};

    ghost passes = { λ test types ty.
        passes_by_key (key_passes (λ key. D.type_text (D.kind_of_type key)) D.type_has test.0) types ty };

    fn is_met(&self, op: Ptr<Operation>, ctx: &Context<D>, i: usize) -> bool {
        verify_rows(OpInterface::OperandN(i, self.0), op, ctx).is_ok()
    }
}

/// Whether the type of each operand from the start up to the end passes.
fn all_pass_in<D: DialectTables, P: TestOfOperands<D>>(
    op: Ptr<Operation>,
    ctx: &Context<D>,
    test: &P,
    start: usize,
    end: usize,
) -> bool
    requires live { IsSome (operation_at ctx.now.program op) }
    requires within { end ≤ length (operands_at ctx.now.program op) }
    ensures { IsTrue result ↔ AllPassIn (row_type ctx.now.program op Operands)
        (row_length ctx.now.program op Operands) (P.passes test.now ctx.now.types) start end }
{
    for i in start..end {
        if !test.is_met(op, ctx, i) {
            return false;
        }
    }
    true
}

/// Whether there is a segment with this number, and the type of each of its operands passes.
fn segment_passes<D: BuiltinDialect, P: TestOfOperands<D>>(
    op: Ptr<Operation>,
    ctx: &Context<D>,
    test: &P,
    s: usize,
    unexpected: SegmentNOfTypeError,
) -> Result<(), SegmentNOfTypeError>
    requires { IsSome (operation_at ctx.now.program op) }
    ensures { AcceptsExactly result (SegmentPasses D.held_sizes D.segment_count ctx.now.program op
        (P.passes test.now ctx.now.types) s) }
{
    match find_segment(op, ctx, s) {
        Some(range) => {
            if all_pass_in(op, ctx, test, range.start, range.end) {
                return Ok(());
            }
            Err(unexpected)
        }
        None => Err(SegmentNOfTypeError::SegmentNotFound(s)),
    }
}

/// Whether there is a segment with this number, and the type of each of its operands passes a test of a table.
pub(crate) fn expect_segment<D: BuiltinDialect>(
    s: usize,
    test: TypeTest,
    op: Ptr<Operation>,
    ctx: &Context<D>,
) -> Result<(), SegmentNOfTypeError>
    requires { IsSome (operation_at ctx.now.program op) }
    ensures { AcceptsExactly result (SegmentPasses D.held_sizes D.segment_count ctx.now.program op
        (passes (key_passes (λ key. D.type_text (D.kind_of_type key)) D.type_has test) ctx.now.types) s) }
{
    segment_passes(
        op,
        ctx,
        &ByTable(test),
        s,
        SegmentNOfTypeError::UnexpectedType(s),
    )
}

/// The operands of the segment with number `N` are of the type that `T` stands for.
pub struct SegmentNOfType<const N: usize, T>(PhantomData<T>);

impl<const N: usize, T> SegmentNOfType<N, T> {
    /// Whether there is such a segment, and they are.
    pub fn verify<D: BuiltinDialect>(
        op: Ptr<Operation>,
        ctx: &Context<D>,
    ) -> Result<(), SegmentNOfTypeError>
    where
        T: TypeMarker<D>,
        requires { IsSome (operation_at ctx.now.program op) }
        ensures { AcceptsExactly result (SegmentPasses D.held_sizes D.segment_count ctx.now.program op
            (passes (λ key. D.TypeKind.eq (D.kind_of_type key) T.KIND) ctx.now.types) N) }
    {
        let unexpected = SegmentNOfTypeError::UnexpectedType(N);
        segment_passes(op, ctx, &OfKind::<T>(PhantomData), N, unexpected)
    }
}
