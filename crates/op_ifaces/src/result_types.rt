//! Interfaces that say of which types an operation's results are.
ghost use Rattle.std.specs.Prelude.{IsSome};
ghost use Rattle.ir_names.specs.declared.interfaces.OpInterface.TheVariants as interface;
ghost use Rattle.ir_names.specs.declared.interfaces.TypeTest.TheVariants.{Interface};
ghost use Rattle.ir_program.specs.Program.{operation_at};
ghost use Rattle.ir_types.specs.Interned.{passes};
ghost use Rattle.op_ifaces.specs.Ranges.{index_range};
ghost use Rattle.op_ifaces.specs.Rows.{row_length, row_type};
ghost use Rattle.op_ifaces.specs.Rules.{AcceptsExactly, AllPass, PassesAt, RangePasses};
ghost use Rattle.op_ifaces.specs.declared.rows.Row.TheVariants.{Results};

use crate::ranges::{IndexRange, resolve_index_range};
use crate::rows::{Row, row_length};
use crate::type_faults::{NotEnoughResultsErr, TypeInterfaceImplsErr};
use crate::type_tests::{Implementing, OfKind, all_pass, passes_at, range_passes};
use ir_context::Context;
use ir_names::{OpInterface, TypeId, TypeTest};
use ir_program::{Operation, Ptr};
use ir_queries::{OpInterfaceMarker, TypeInterfaceMarker, TypeMarker};
use ir_types::DialectTables;
use std::marker::PhantomData;
use thiserror::Error;

/// A result is of another type than wanted.
#[derive(Clone, Copy, Debug, PartialEq, Eq, Error)]
#[error("expected each result to be of type {0}")]
pub struct AllResultsOfTypeVerifyErr(pub TypeId);

/// Why the result at an index isn't as wanted.
#[derive(Clone, Copy, Debug, PartialEq, Eq, Error)]
pub enum ResultNOfTypeError {
    /// There are too few.
    #[error(transparent)]
    NotEnough(NotEnoughResultsErr),
    /// It is of another type.
    #[error("result {0} is of another type than expected")]
    UnexpectedType(usize),
    /// Its type doesn't implement the interface.
    #[error(transparent)]
    Impls(TypeInterfaceImplsErr),
}

/// Why the results that a range names aren't as wanted.
#[derive(Clone, Copy, Debug, PartialEq, Eq, Error)]
pub enum ResultsMNOfTypeError {
    /// There are too few.
    #[error(transparent)]
    NotEnough(NotEnoughResultsErr),
    /// One is of another type.
    #[error("one of the results from {0} to {1} is of another type than expected")]
    UnexpectedType(u32, i32),
    /// The type of one doesn't implement the interface.
    #[error(transparent)]
    Impls(TypeInterfaceImplsErr),
}

/// What is said where there is no result at an index, or of the one that is there.
fn fault_at<D: DialectTables>(
    n: usize,
    op: Ptr<Operation>,
    ctx: &Context<D>,
    there: ResultNOfTypeError,
) -> ResultNOfTypeError
    requires { IsSome (operation_at ctx.now.program op) }
{
    let found = row_length(Row::Results, op, ctx);
    if n < found {
        return there;
    }
    ResultNOfTypeError::NotEnough(NotEnoughResultsErr(n, found))
}

/// What is said where a range names results that aren't there, or of those that are.
fn fault_in<D: DialectTables>(
    m: u32,
    n: i32,
    op: Ptr<Operation>,
    ctx: &Context<D>,
    there: ResultsMNOfTypeError,
) -> ResultsMNOfTypeError
    requires { IsSome (operation_at ctx.now.program op) }
{
    let found = row_length(Row::Results, op, ctx);
    match resolve_index_range(m, n, found) {
        IndexRange::NotEnough => {
            ResultsMNOfTypeError::NotEnough(NotEnoughResultsErr(n.unsigned_abs() as usize, found))
        }
        _ => there,
    }
}

/// Each result is of the type that `T` stands for.
pub struct AllResultsOfType<T>(PhantomData<T>);

impl<T> AllResultsOfType<T> {
    /// Whether each is.
    pub fn verify<D: DialectTables>(
        op: Ptr<Operation>,
        ctx: &Context<D>,
    ) -> Result<(), AllResultsOfTypeVerifyErr>
    where
        T: TypeMarker<D>,
        requires { IsSome (operation_at ctx.now.program op) }
        ensures { AcceptsExactly result (AllPass (row_type ctx.now.program op Results)
            (row_length ctx.now.program op Results)
            (passes (λ key. D.TypeKind.eq (D.kind_of_type key) T.KIND) ctx.now.types)) }
    {
        if all_pass(Row::Results, op, ctx, &OfKind::<T>(PhantomData)) {
            return Ok(());
        }
        Err(AllResultsOfTypeVerifyErr(D::type_id(T::KIND)))
    }
}

/// The type of each result implements the interface that `I` stands for.
pub struct AllResultsImplsTy<I>(PhantomData<I>);

impl<I: TypeInterfaceMarker> OpInterfaceMarker for AllResultsImplsTy<I> {
    ghost INTERFACE = { interface.AllResults (Interface I.INTERFACE) };

    const INTERFACE: OpInterface = OpInterface::AllResults(TypeTest::Interface(I::INTERFACE));
}

impl<I: TypeInterfaceMarker> AllResultsImplsTy<I> {
    /// Whether each does.
    pub fn verify<D: DialectTables>(
        op: Ptr<Operation>,
        ctx: &Context<D>,
    ) -> Result<(), TypeInterfaceImplsErr>
        requires { IsSome (operation_at ctx.now.program op) }
        ensures { AcceptsExactly result (AllPass (row_type ctx.now.program op Results)
            (row_length ctx.now.program op Results) (passes (λ key. D.type_has key I.INTERFACE) ctx.now.types)) }
    {
        if all_pass(Row::Results, op, ctx, &Implementing(I::INTERFACE)) {
            return Ok(());
        }
        Err(TypeInterfaceImplsErr::Result(I::INTERFACE))
    }
}

/// The result at index `N` is of the type that `T` stands for.
pub struct ResultNOfType<const N: usize, T>(PhantomData<T>);

impl<const N: usize, T> ResultNOfType<N, T> {
    /// Whether it is there and of the type.
    pub fn verify<D: DialectTables>(
        op: Ptr<Operation>,
        ctx: &Context<D>,
    ) -> Result<(), ResultNOfTypeError>
    where
        T: TypeMarker<D>,
        requires { IsSome (operation_at ctx.now.program op) }
        ensures { AcceptsExactly result (PassesAt (row_type ctx.now.program op Results)
            (row_length ctx.now.program op Results)
            (passes (λ key. D.TypeKind.eq (D.kind_of_type key) T.KIND) ctx.now.types) N) }
    {
        if passes_at(Row::Results, op, ctx, &OfKind::<T>(PhantomData), N) {
            return Ok(());
        }
        let there = ResultNOfTypeError::UnexpectedType(N);
        Err(fault_at(N, op, ctx, there))
    }
}

/// The type of the result at index `N` implements the interface that `I` stands for.
pub struct ResultNImplsTy<const N: usize, I>(PhantomData<I>);

impl<const N: usize, I: TypeInterfaceMarker> OpInterfaceMarker for ResultNImplsTy<N, I> {
    ghost INTERFACE = { interface.ResultN N (Interface I.INTERFACE) };

    const INTERFACE: OpInterface = OpInterface::ResultN(N, TypeTest::Interface(I::INTERFACE));
}

impl<const N: usize, I: TypeInterfaceMarker> ResultNImplsTy<N, I> {
    /// Whether it is there and its type does.
    pub fn verify<D: DialectTables>(
        op: Ptr<Operation>,
        ctx: &Context<D>,
    ) -> Result<(), ResultNOfTypeError>
        requires { IsSome (operation_at ctx.now.program op) }
        ensures { AcceptsExactly result (PassesAt (row_type ctx.now.program op Results)
            (row_length ctx.now.program op Results) (passes (λ key. D.type_has key I.INTERFACE) ctx.now.types) N) }
    {
        if passes_at(Row::Results, op, ctx, &Implementing(I::INTERFACE), N) {
            return Ok(());
        }
        let there = ResultNOfTypeError::Impls(TypeInterfaceImplsErr::Result(I::INTERFACE));
        Err(fault_at(N, op, ctx, there))
    }
}

/// The results from index `M` to index `N`, both in the range, are of the type that `T` stands for.
pub struct ResultsMNOfType<const M: u32, const N: i32, T>(PhantomData<T>);

impl<const M: u32, const N: i32, T> ResultsMNOfType<M, N, T> {
    /// Whether they are there and of the type.
    pub fn verify<D: DialectTables>(
        op: Ptr<Operation>,
        ctx: &Context<D>,
    ) -> Result<(), ResultsMNOfTypeError>
    where
        T: TypeMarker<D>,
        requires { IsSome (operation_at ctx.now.program op) }
        ensures { AcceptsExactly result (RangePasses (row_type ctx.now.program op Results)
            (row_length ctx.now.program op Results)
            (passes (λ key. D.TypeKind.eq (D.kind_of_type key) T.KIND) ctx.now.types)
            (index_range M N (row_length ctx.now.program op Results))) }
    {
        if range_passes(Row::Results, op, ctx, &OfKind::<T>(PhantomData), M, N) {
            return Ok(());
        }
        let there = ResultsMNOfTypeError::UnexpectedType(M, N);
        Err(fault_in(M, N, op, ctx, there))
    }
}

/// The types of the results from index `M` to index `N`, both in the range, implement the interface that `I` stands for.
pub struct ResultsMNImplsTy<const M: u32, const N: i32, I>(PhantomData<I>);

impl<const M: u32, const N: i32, I: TypeInterfaceMarker> OpInterfaceMarker
    for ResultsMNImplsTy<M, N, I> {
    ghost INTERFACE = { interface.ResultsMN M N (Interface I.INTERFACE) };

    const INTERFACE: OpInterface = OpInterface::ResultsMN(M, N, TypeTest::Interface(I::INTERFACE));
}

impl<const M: u32, const N: i32, I: TypeInterfaceMarker> ResultsMNImplsTy<M, N, I> {
    /// Whether they are there and their types do.
    pub fn verify<D: DialectTables>(
        op: Ptr<Operation>,
        ctx: &Context<D>,
    ) -> Result<(), ResultsMNOfTypeError>
        requires { IsSome (operation_at ctx.now.program op) }
        ensures { AcceptsExactly result (RangePasses (row_type ctx.now.program op Results)
            (row_length ctx.now.program op Results) (passes (λ key. D.type_has key I.INTERFACE) ctx.now.types)
            (index_range M N (row_length ctx.now.program op Results))) }
    {
        if range_passes(Row::Results, op, ctx, &Implementing(I::INTERFACE), M, N) {
            return Ok(());
        }
        let there = ResultsMNOfTypeError::Impls(TypeInterfaceImplsErr::Result(I::INTERFACE));
        Err(fault_in(M, N, op, ctx, there))
    }
}
