//! What an interface asks, told by the interface itself: for what a table of a dialect lists.
ghost use Rattle.std.specs.Prelude.{◌≡◌, ◌↔◌, true, IsSome, IsTrue};
ghost use Rattle.ir_program.specs.Program.{operation_at};
ghost use Rattle.op_ifaces.specs.Interfaces.{Rule, TypesRule, is_told_by_rows, key_passes};
ghost use Rattle.op_ifaces.specs.Rules.{AcceptsExactly};

use crate::operands::{
    AtLeastNOpdsVerifyErr, AtMostNOpdsVerifyErr, NOpdsVerifyErr, expect_at_least_operands,
    expect_at_most_operands, expect_operands,
};
use crate::regions::{
    AtMostNRegionVerifyErr, NRegionsVerifyErr, expect_at_most_regions, expect_regions,
};
use crate::results::{
    AtLeastNResultsVerifyErr, AtMostNResultsVerifyErr, NResultsVerifyErr, expect_at_least_results,
    expect_at_most_results, expect_results,
};
use crate::rows::Row;
use crate::same_types::{
    SameOperandsAndResultType, SameOperandsAndResultTypeVerifyErr, SameOperandsType,
    SameOperandsTypeVerifyErr, SameResultsType, SameResultsTypeVerifyErr,
};
use crate::single_blocks::{SingleBlockRegionInterface, SingleBlockRegionVerifyErr};
use crate::successors::{NSuccsVerifyErr, expect_successors};
use crate::type_tests::{TestOfTypes, all_pass, passes_at, range_passes};
use ir_context::Context;
use ir_names::{OpInterface, TypeHandle, TypeTest};
use ir_program::{Operation, Ptr};
use ir_types::DialectTables;
use thiserror::Error;

/// Why an operation isn't as an interface wants it.
#[derive(Clone, Copy, Debug, PartialEq, Eq, Error)]
pub enum RowsVerifyErr {
    /// There are not as many results as wanted.
    #[error(transparent)]
    NResults(#[from] NResultsVerifyErr),
    /// There are more results than wanted.
    #[error(transparent)]
    AtMostNResults(#[from] AtMostNResultsVerifyErr),
    /// There are fewer results than wanted.
    #[error(transparent)]
    AtLeastNResults(#[from] AtLeastNResultsVerifyErr),
    /// There are not as many operands as wanted.
    #[error(transparent)]
    NOpds(#[from] NOpdsVerifyErr),
    /// There are more operands than wanted.
    #[error(transparent)]
    AtMostNOpds(#[from] AtMostNOpdsVerifyErr),
    /// There are fewer operands than wanted.
    #[error(transparent)]
    AtLeastNOpds(#[from] AtLeastNOpdsVerifyErr),
    /// There are not as many successors as wanted.
    #[error(transparent)]
    NSuccs(#[from] NSuccsVerifyErr),
    /// There are not as many regions as wanted.
    #[error(transparent)]
    NRegions(#[from] NRegionsVerifyErr),
    /// There are more regions than wanted.
    #[error(transparent)]
    AtMostNRegions(#[from] AtMostNRegionVerifyErr),
    /// A region hasn't exactly one block.
    #[error(transparent)]
    SingleBlockRegion(#[from] SingleBlockRegionVerifyErr),
    /// The operands don't have one type.
    #[error(transparent)]
    SameOperandsType(#[from] SameOperandsTypeVerifyErr),
    /// The results don't have one type.
    #[error(transparent)]
    SameResultsType(#[from] SameResultsTypeVerifyErr),
    /// The operands and the results don't have one type.
    #[error(transparent)]
    SameOperandsAndResultType(#[from] SameOperandsAndResultTypeVerifyErr),
    /// A type isn't as the interface wants it.
    #[error("the types aren't as {0:?} wants them")]
    Types(OpInterface),
}

/// The type passes a test of a table.
#[derive(Clone, Copy)]
struct ByTable(TypeTest);

impl<D: DialectTables> TestOfTypes<D> for ByTable {
    ghost use Rattle.ir_types.specs.Interned.{passes as passes_by_key};
    ghost use Rattle.op_ifaces.specs.Interfaces.{key_passes};

    ghost passes = { λ test types ty.
        passes_by_key (key_passes (λ key. D.type_text (D.kind_of_type key)) D.type_has test.0) types ty };

    fn is_met(&self, ty: TypeHandle, ctx: &Context<D>) -> bool {
        match ctx.type_key(ty) {
            Some(key) => key_passes::<D>(self.0, key),
            None => false,
        }
    }
}

/// Whether a type passes a test of a table.
fn key_passes<D: DialectTables>(test: TypeTest, key: &D::TypeKey) -> bool
    ensures { result ≡ key_passes (λ key. D.type_text (D.kind_of_type key)) D.type_has test key.now }
{
    match test {
        TypeTest::Kind { dialect, name } => {
            let id = D::type_id(D::type_kind(key));
            id.dialect.as_str() == dialect && id.name.as_str() == name
        }
        TypeTest::Interface(interface) => D::type_implements(key, interface),
    }
}

/// Whether what an interface asks can be told from rows, regions and types alone, so that `verify_rows` tells it.
pub fn is_told_by_rows(interface: OpInterface) -> bool
    ensures { result ≡ is_told_by_rows interface }
{
    match interface {
        OpInterface::Branch
        | OpInterface::RegionBranch
        | OpInterface::OperandSegment
        | OpInterface::SymbolOp
        | OpInterface::SymbolTable
        | OpInterface::CallOp
        | OpInterface::SegmentN(_, _)
        | OpInterface::SideEffects
        | OpInterface::BlockArgRemoval
        | OpInterface::ConstFold
        | OpInterface::BranchOpFold
        | OpInterface::Other(_) => false,
        _ => true,
    }
}

/// Whether the types of operands and results are as an interface wants them.
fn types_pass<D: DialectTables>(
    interface: OpInterface,
    op: Ptr<Operation>,
    ctx: &Context<D>,
) -> bool
    requires { IsSome (operation_at ctx.now.program op) }
    ensures { IsTrue result ↔ TypesRule (λ key. D.type_text (D.kind_of_type key)) D.type_has ctx.now.program
        ctx.now.types op interface }
{
    match interface {
        OpInterface::AllOperands(test) => all_pass(Row::Operands, op, ctx, &ByTable(test)),
        OpInterface::OperandN(n, test) => passes_at(Row::Operands, op, ctx, &ByTable(test), n),
        OpInterface::OperandsMN(m, n, test) => {
            range_passes(Row::Operands, op, ctx, &ByTable(test), m, n)
        }
        OpInterface::AllResults(test) => all_pass(Row::Results, op, ctx, &ByTable(test)),
        OpInterface::ResultN(n, test) => passes_at(Row::Results, op, ctx, &ByTable(test), n),
        OpInterface::ResultsMN(m, n, test) => {
            range_passes(Row::Results, op, ctx, &ByTable(test), m, n)
        }
        _ => true,
    }
}

/// Whether the operation is as an interface wants it that can be told by rows. The interfaces that it stands on aren't asked.
pub fn verify_rows<D: DialectTables>(
    interface: OpInterface,
    op: Ptr<Operation>,
    ctx: &Context<D>,
) -> Result<(), RowsVerifyErr>
    requires operation { IsSome (operation_at ctx.now.program op) }
    requires told { is_told_by_rows interface ≡ true }
    ensures { AcceptsExactly result (Rule (λ key. D.type_text (D.kind_of_type key)) D.type_has ctx.now.program
        ctx.now.types op interface) }
{
    match interface {
        OpInterface::NResults(n) => expect_results(n, op, ctx)?,
        OpInterface::AtMostNResults(n) => expect_at_most_results(n, op, ctx)?,
        OpInterface::AtLeastNResults(n) => expect_at_least_results(n, op, ctx)?,
        OpInterface::OptionalResult => expect_at_most_results(1, op, ctx)?,
        OpInterface::OneResult => expect_results(1, op, ctx)?,
        OpInterface::NOpds(n) => expect_operands(n, op, ctx)?,
        OpInterface::AtMostNOpds(n) => expect_at_most_operands(n, op, ctx)?,
        OpInterface::AtLeastNOpds(n) => expect_at_least_operands(n, op, ctx)?,
        OpInterface::OptionalOpd => expect_at_most_operands(1, op, ctx)?,
        OpInterface::OneOpd => expect_operands(1, op, ctx)?,
        OpInterface::NSuccs(n) => expect_successors(n, op, ctx)?,
        OpInterface::OneSucc => expect_successors(1, op, ctx)?,
        OpInterface::NRegions(n) => expect_regions(n, op, ctx)?,
        OpInterface::OneRegion => expect_regions(1, op, ctx)?,
        OpInterface::AtMostNRegions(n) => expect_at_most_regions(n, op, ctx)?,
        OpInterface::AtMostOneRegion => expect_at_most_regions(1, op, ctx)?,
        OpInterface::SingleBlockRegion => SingleBlockRegionInterface::verify(op, ctx)?,
        OpInterface::SameOperandsType => SameOperandsType::verify(op, ctx)?,
        OpInterface::SameResultsType => SameResultsType::verify(op, ctx)?,
        OpInterface::SameOperandsAndResultType => SameOperandsAndResultType::verify(op, ctx)?,
        _ => {
            if !types_pass(interface, op, ctx) {
                return Err(RowsVerifyErr::Types(interface));
            }
        }
    }
    Ok(())
}
