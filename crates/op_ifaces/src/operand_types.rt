//! Interfaces that say of which types an operation's operands are.
ghost use Rattle.std.specs.Prelude.{IsSome};
ghost use Rattle.ir_names.specs.declared.interfaces.OpInterface.TheVariants as interface;
ghost use Rattle.ir_names.specs.declared.interfaces.TypeTest.TheVariants.{Interface};
ghost use Rattle.ir_program.specs.Program.{operation_at};
ghost use Rattle.ir_types.specs.Interned.{passes};
ghost use Rattle.op_ifaces.specs.Ranges.{index_range};
ghost use Rattle.op_ifaces.specs.Rows.{row_length, row_type};
ghost use Rattle.op_ifaces.specs.Rules.{AcceptsExactly, AllPass, PassesAt, RangePasses};
ghost use Rattle.op_ifaces.specs.declared.rows.Row.TheVariants.{Operands};

use crate::ranges::{IndexRange, resolve_index_range};
use crate::rows::{Row, row_length};
use crate::type_faults::{NotEnoughOperandsErr, TypeInterfaceImplsErr};
use crate::type_tests::{Implementing, OfKind, all_pass, passes_at, range_passes};
use ir_context::Context;
use ir_names::{OpInterface, TypeId, TypeTest};
use ir_program::{Operation, Ptr};
use ir_queries::{OpInterfaceMarker, TypeInterfaceMarker, TypeMarker};
use ir_types::DialectTables;
use std::marker::PhantomData;
use thiserror::Error;

/// An operand is of another type than wanted.
#[derive(Clone, Copy, Debug, PartialEq, Eq, Error)]
#[error("expected each operand to be of type {0}")]
pub struct AllOperandsOfTypeVerifyErr(pub TypeId);

/// Why the operand at an index isn't as wanted.
#[derive(Clone, Copy, Debug, PartialEq, Eq, Error)]
pub enum OperandNOfTypeError {
    /// There are too few.
    #[error(transparent)]
    NotEnough(NotEnoughOperandsErr),
    /// It is of another type.
    #[error("operand {0} is of another type than expected")]
    UnexpectedType(usize),
    /// Its type doesn't implement the interface.
    #[error(transparent)]
    Impls(TypeInterfaceImplsErr),
}

/// Why the operands that a range names aren't as wanted.
#[derive(Clone, Copy, Debug, PartialEq, Eq, Error)]
pub enum OperandsMNOfTypeError {
    /// There are too few.
    #[error(transparent)]
    NotEnough(NotEnoughOperandsErr),
    /// One is of another type.
    #[error("one of the operands from {0} to {1} is of another type than expected")]
    UnexpectedType(u32, i32),
    /// The type of one doesn't implement the interface.
    #[error(transparent)]
    Impls(TypeInterfaceImplsErr),
}

/// What is said where there is no operand at an index, or of the one that is there.
fn fault_at<D: DialectTables>(
    n: usize,
    op: Ptr<Operation>,
    ctx: &Context<D>,
    there: OperandNOfTypeError,
) -> OperandNOfTypeError
    requires { IsSome (operation_at ctx.now.program op) }
{
    let found = row_length(Row::Operands, op, ctx);
    if n < found {
        return there;
    }
    OperandNOfTypeError::NotEnough(NotEnoughOperandsErr(n, found))
}

/// What is said where a range names operands that aren't there, or of those that are.
fn fault_in<D: DialectTables>(
    m: u32,
    n: i32,
    op: Ptr<Operation>,
    ctx: &Context<D>,
    there: OperandsMNOfTypeError,
) -> OperandsMNOfTypeError
    requires { IsSome (operation_at ctx.now.program op) }
{
    let found = row_length(Row::Operands, op, ctx);
    match resolve_index_range(m, n, found) {
        IndexRange::NotEnough => {
            OperandsMNOfTypeError::NotEnough(NotEnoughOperandsErr(n.unsigned_abs() as usize, found))
        }
        _ => there,
    }
}

/// Each operand is of the type that `T` stands for.
pub struct AllOperandsOfType<T>(PhantomData<T>);

impl<T> AllOperandsOfType<T> {
    /// Whether each is.
    pub fn verify<D: DialectTables>(
        op: Ptr<Operation>,
        ctx: &Context<D>,
    ) -> Result<(), AllOperandsOfTypeVerifyErr>
    where
        T: TypeMarker<D>,
        requires { IsSome (operation_at ctx.now.program op) }
        ensures { AcceptsExactly result (AllPass (row_type ctx.now.program op Operands)
            (row_length ctx.now.program op Operands)
            (passes (λ key. D.TypeKind.eq (D.kind_of_type key) T.KIND) ctx.now.types)) }
    {
        if all_pass(Row::Operands, op, ctx, &OfKind::<T>(PhantomData)) {
            return Ok(());
        }
        Err(AllOperandsOfTypeVerifyErr(D::type_id(T::KIND)))
    }
}

/// The type of each operand implements the interface that `I` stands for.
pub struct AllOperandsImplsTy<I>(PhantomData<I>);

impl<I: TypeInterfaceMarker> OpInterfaceMarker for AllOperandsImplsTy<I> {
    ghost INTERFACE = { interface.AllOperands (Interface I.INTERFACE) };

    const INTERFACE: OpInterface = OpInterface::AllOperands(TypeTest::Interface(I::INTERFACE));
}

impl<I: TypeInterfaceMarker> AllOperandsImplsTy<I> {
    /// Whether each does.
    pub fn verify<D: DialectTables>(
        op: Ptr<Operation>,
        ctx: &Context<D>,
    ) -> Result<(), TypeInterfaceImplsErr>
        requires { IsSome (operation_at ctx.now.program op) }
        ensures { AcceptsExactly result (AllPass (row_type ctx.now.program op Operands)
            (row_length ctx.now.program op Operands) (passes (λ key. D.type_has key I.INTERFACE) ctx.now.types)) }
    {
        if all_pass(Row::Operands, op, ctx, &Implementing(I::INTERFACE)) {
            return Ok(());
        }
        Err(TypeInterfaceImplsErr::Operand(I::INTERFACE))
    }
}

/// The operand at index `N` is of the type that `T` stands for.
pub struct OperandNOfType<const N: usize, T>(PhantomData<T>);

impl<const N: usize, T> OperandNOfType<N, T> {
    /// Whether it is there and of the type.
    pub fn verify<D: DialectTables>(
        op: Ptr<Operation>,
        ctx: &Context<D>,
    ) -> Result<(), OperandNOfTypeError>
    where
        T: TypeMarker<D>,
        requires { IsSome (operation_at ctx.now.program op) }
        ensures { AcceptsExactly result (PassesAt (row_type ctx.now.program op Operands)
            (row_length ctx.now.program op Operands)
            (passes (λ key. D.TypeKind.eq (D.kind_of_type key) T.KIND) ctx.now.types) N) }
    {
        if passes_at(Row::Operands, op, ctx, &OfKind::<T>(PhantomData), N) {
            return Ok(());
        }
        let there = OperandNOfTypeError::UnexpectedType(N);
        Err(fault_at(N, op, ctx, there))
    }
}

/// The type of the operand at index `N` implements the interface that `I` stands for.
pub struct OperandNImplsTy<const N: usize, I>(PhantomData<I>);

impl<const N: usize, I: TypeInterfaceMarker> OpInterfaceMarker for OperandNImplsTy<N, I> {
    ghost INTERFACE = { interface.OperandN N (Interface I.INTERFACE) };

    const INTERFACE: OpInterface = OpInterface::OperandN(N, TypeTest::Interface(I::INTERFACE));
}

impl<const N: usize, I: TypeInterfaceMarker> OperandNImplsTy<N, I> {
    /// Whether it is there and its type does.
    pub fn verify<D: DialectTables>(
        op: Ptr<Operation>,
        ctx: &Context<D>,
    ) -> Result<(), OperandNOfTypeError>
        requires { IsSome (operation_at ctx.now.program op) }
        ensures { AcceptsExactly result (PassesAt (row_type ctx.now.program op Operands)
            (row_length ctx.now.program op Operands) (passes (λ key. D.type_has key I.INTERFACE) ctx.now.types) N) }
    {
        if passes_at(Row::Operands, op, ctx, &Implementing(I::INTERFACE), N) {
            return Ok(());
        }
        let there = OperandNOfTypeError::Impls(TypeInterfaceImplsErr::Operand(I::INTERFACE));
        Err(fault_at(N, op, ctx, there))
    }
}

/// The operands from index `M` to index `N`, both in the range, are of the type that `T` stands for.
pub struct OperandsMNOfType<const M: u32, const N: i32, T>(PhantomData<T>);

impl<const M: u32, const N: i32, T> OperandsMNOfType<M, N, T> {
    /// Whether they are there and of the type.
    pub fn verify<D: DialectTables>(
        op: Ptr<Operation>,
        ctx: &Context<D>,
    ) -> Result<(), OperandsMNOfTypeError>
    where
        T: TypeMarker<D>,
        requires { IsSome (operation_at ctx.now.program op) }
        ensures { AcceptsExactly result (RangePasses (row_type ctx.now.program op Operands)
            (row_length ctx.now.program op Operands)
            (passes (λ key. D.TypeKind.eq (D.kind_of_type key) T.KIND) ctx.now.types)
            (index_range M N (row_length ctx.now.program op Operands))) }
    {
        if range_passes(Row::Operands, op, ctx, &OfKind::<T>(PhantomData), M, N) {
            return Ok(());
        }
        let there = OperandsMNOfTypeError::UnexpectedType(M, N);
        Err(fault_in(M, N, op, ctx, there))
    }
}

/// The types of the operands from index `M` to index `N`, both in the range, implement the interface that `I` stands for.
pub struct OperandsMNImplsTy<const M: u32, const N: i32, I>(PhantomData<I>);

impl<const M: u32, const N: i32, I: TypeInterfaceMarker> OpInterfaceMarker
    for OperandsMNImplsTy<M, N, I> {
    ghost INTERFACE = { interface.OperandsMN M N (Interface I.INTERFACE) };

    const INTERFACE: OpInterface = OpInterface::OperandsMN(M, N, TypeTest::Interface(I::INTERFACE));
}

impl<const M: u32, const N: i32, I: TypeInterfaceMarker> OperandsMNImplsTy<M, N, I> {
    /// Whether they are there and their types do.
    pub fn verify<D: DialectTables>(
        op: Ptr<Operation>,
        ctx: &Context<D>,
    ) -> Result<(), OperandsMNOfTypeError>
        requires { IsSome (operation_at ctx.now.program op) }
        ensures { AcceptsExactly result (RangePasses (row_type ctx.now.program op Operands)
            (row_length ctx.now.program op Operands) (passes (λ key. D.type_has key I.INTERFACE) ctx.now.types)
            (index_range M N (row_length ctx.now.program op Operands))) }
    {
        if range_passes(Row::Operands, op, ctx, &Implementing(I::INTERFACE), M, N) {
            return Ok(());
        }
        let there = OperandsMNOfTypeError::Impls(TypeInterfaceImplsErr::Operand(I::INTERFACE));
        Err(fault_in(M, N, op, ctx, there))
    }
}
