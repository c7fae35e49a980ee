//! Tests of the types in a row.
ghost use Rattle.std.specs.Prelude.{◌≡◌, ◌↔◌, ◌≤◌, Bool, IsSome, IsTrue};
ghost use Rattle.ir_base.specs.declared.types.TypeHandle.{TypeHandle};
ghost use Rattle.ir_program.specs.Program.{operation_at};
ghost use Rattle.ir_types.specs.Views.{TypesView};
ghost use Rattle.op_ifaces.specs.Rows.{row_length, row_type};
ghost use Rattle.op_ifaces.specs.Rules.{AllPass, AllPassIn, HasOneType, PassesAt, RangePasses};
ghost use Rattle.op_ifaces.specs.Ranges.{index_range};

use crate::ranges::{IndexRange, resolve_index_range};
use crate::rows::{Row, row_length, row_type};
use ir_context::{Context, TypeTable, TypedProgram};
use ir_names::{TypeHandle, TypeInterface};
use ir_program::{Operation, Ptr};
use ir_queries::TypeMarker;
use ir_types::DialectTables;
use std::marker::PhantomData;

/// A test of types.
pub(crate) trait TestOfTypes<D: DialectTables> {
    /// Whether a type passes, which a handle that leads to none doesn't.
    ghost passes: { Self → TypesView D.TypeKey D.TypeBody D.Saved → TypeHandle → Bool };

    /// Whether a type passes.
    fn is_met(&self, ty: TypeHandle, ctx: &Context<D>) -> bool
        ensures { result ≡ passes self.now ctx.now.types ty };
}

/// The type is of the kind that `T` stands for.
#[derive_where(Clone, Copy)]
pub(crate) struct OfKind<T>(pub(crate) PhantomData<T>);

impl<D: DialectTables, T: TypeMarker<D>> TestOfTypes<D> for OfKind<T> {
    ghost use Rattle.ir_types.specs.Interned.{passes as key_passes};

    ghost passes = { λ _ types ty. key_passes (λ key. D.TypeKind.eq (D.kind_of_type key) T.KIND) types ty };

    fn is_met(&self, ty: TypeHandle, ctx: &Context<D>) -> bool {
        ctx.types().has_kind(ty, T::KIND)
    }
}

/// The type implements the interface.
#[derive(Clone, Copy)]
pub(crate) struct Implementing(pub(crate) TypeInterface);

impl<D: DialectTables> TestOfTypes<D> for Implementing {
    ghost use Rattle.ir_types.specs.Interned.{passes as key_passes};

    ghost passes = { λ test types ty. key_passes (λ key. D.type_has key test.0) types ty };

    fn is_met(&self, ty: TypeHandle, ctx: &Context<D>) -> bool {
        ctx.types().implements(ty, self.0)
    }
}

/// Whether there is one type at least in the row, and all are alike.
pub(crate) fn has_one_type<O, B, T: TypeTable>(
    row: Row,
    op: Ptr<Operation>,
    ctx: &TypedProgram<O, B, T>,
) -> bool
    requires { IsSome (operation_at ctx.now.program op) }
    ensures { IsTrue result ↔ HasOneType (row_type ctx.now.program op row) (row_length ctx.now.program op row) }
{
    let count = row_length(row, op, ctx);
    if count == 0 {
        return false;
    }
    let first = row_type(row, op, ctx, 0);
    for i in 1..count {
        if row_type(row, op, ctx, i) != first {
            return false;
        }
    }
    true
}

/// Whether each type of the row from the first index up to the end passes.
pub(crate) fn all_pass_in<D: DialectTables, P: TestOfTypes<D>>(
    row: Row,
    op: Ptr<Operation>,
    ctx: &Context<D>,
    test: &P,
    start: usize,
    end: usize,
) -> bool
    requires live { IsSome (operation_at ctx.now.program op) }
    requires within { end ≤ row_length ctx.now.program op row }
    ensures { IsTrue result ↔ AllPassIn (row_type ctx.now.program op row) (row_length ctx.now.program op row)
        (P.passes test.now ctx.now.types) start end }
{
    for i in start..end {
        if !test.is_met(row_type(row, op, ctx, i), ctx) {
            return false;
        }
    }
    true
}

/// Whether each type of the row passes.
pub(crate) fn all_pass<D: DialectTables, P: TestOfTypes<D>>(
    row: Row,
    op: Ptr<Operation>,
    ctx: &Context<D>,
    test: &P,
) -> bool
    requires { IsSome (operation_at ctx.now.program op) }
    ensures { IsTrue result ↔ AllPass (row_type ctx.now.program op row) (row_length ctx.now.program op row)
        (P.passes test.now ctx.now.types) }
{
    all_pass_in(row, op, ctx, test, 0, row_length(row, op, ctx))
}

/// Whether there is a type at this index of the row, and it passes.
pub(crate) fn passes_at<D: DialectTables, P: TestOfTypes<D>>(
    row: Row,
    op: Ptr<Operation>,
    ctx: &Context<D>,
    test: &P,
    n: usize,
) -> bool
    requires { IsSome (operation_at ctx.now.program op) }
    ensures { IsTrue result ↔ PassesAt (row_type ctx.now.program op row) (row_length ctx.now.program op row)
        (P.passes test.now ctx.now.types) n }
{
    if n >= row_length(row, op, ctx) {
        return false;
    }
    test.is_met(row_type(row, op, ctx, n), ctx)
}

/// Whether the members of the row that a range names are there and pass.
pub(crate) fn range_passes<D: DialectTables, P: TestOfTypes<D>>(
    row: Row,
    op: Ptr<Operation>,
    ctx: &Context<D>,
    test: &P,
    m: u32,
    n: i32,
) -> bool
    requires { IsSome (operation_at ctx.now.program op) }
    ensures { IsTrue result ↔ RangePasses (row_type ctx.now.program op row) (row_length ctx.now.program op row)
        (P.passes test.now ctx.now.types) (index_range m n (row_length ctx.now.program op row)) }
{
    match resolve_index_range(m, n, row_length(row, op, ctx)) {
        IndexRange::Range { start, end } => all_pass_in(row, op, ctx, test, start, end + 1),
        IndexRange::NotEnough => false,
        IndexRange::Empty => true,
    }
}
