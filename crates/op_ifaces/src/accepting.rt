//! Interfaces that ask nothing of an operation's rows and regions.
ghost use Rattle.std.specs.Prelude.{◌≡◌, ◌↔◌, IsOk, IsSome, IsTrue, IfSome};
ghost use Rattle.ir_names.specs.declared.interfaces.OpInterface.TheVariants as interface;
ghost use Rattle.ir_names.specs.declared.interfaces.RegionKind.TheVariants.{SSACFG};
ghost use Rattle.ir_program.specs.Program.{operation_at};
ghost use Rattle.ir_context.specs.Kept.{kind_at};

use ir_context::{Context, OperationCalls, TypeTable, TypedProgram};
use ir_names::{OpInterface, RegionKind};
use ir_program::{Operation, Ptr};
use ir_queries::OpInterfaceMarker;
use ir_types::DialectTables;
use std::convert::Infallible;

/// The operation ends a block.
pub struct IsTerminatorInterface;

impl OpInterfaceMarker for IsTerminatorInterface {
    ghost INTERFACE = { interface.IsTerminator };

    const INTERFACE: OpInterface = OpInterface::IsTerminator;
}

impl IsTerminatorInterface {
    /// Each operation is accepted.
    pub fn verify<O, B, T: TypeTable>(
        _op: Ptr<Operation>,
        _ctx: &TypedProgram<O, B, T>,
    ) -> Result<(), Infallible>
        ensures { IsOk result }
    {
        Ok(())
    }
}

/// The blocks of the operation's regions end in no terminator.
pub struct NoTerminatorInterface;

impl OpInterfaceMarker for NoTerminatorInterface {
    ghost INTERFACE = { interface.NoTerminator };

    const INTERFACE: OpInterface = OpInterface::NoTerminator;
}

impl NoTerminatorInterface {
    /// Each operation is accepted.
    pub fn verify<O, B, T: TypeTable>(
        _op: Ptr<Operation>,
        _ctx: &TypedProgram<O, B, T>,
    ) -> Result<(), Infallible>
        ensures { IsOk result }
    {
        Ok(())
    }
}

/// The operation's regions name no value from outside of it.
pub struct IsolatedFromAboveInterface;

impl OpInterfaceMarker for IsolatedFromAboveInterface {
    ghost INTERFACE = { interface.IsolatedFromAbove };

    const INTERFACE: OpInterface = OpInterface::IsolatedFromAbove;
}

impl IsolatedFromAboveInterface {
    /// Each operation is accepted.
    pub fn verify<O, B, T: TypeTable>(
        _op: Ptr<Operation>,
        _ctx: &TypedProgram<O, B, T>,
    ) -> Result<(), Infallible>
        ensures { IsOk result }
    {
        Ok(())
    }
}

/// The operation says which of its regions are graphs.
pub struct RegionKindInterface;

impl OpInterfaceMarker for RegionKindInterface {
    ghost INTERFACE = { interface.RegionKind };

    const INTERFACE: OpInterface = OpInterface::RegionKind;
}

impl RegionKindInterface {
    /// Each operation is accepted.
    pub fn verify<O, B, T: TypeTable>(
        _op: Ptr<Operation>,
        _ctx: &TypedProgram<O, B, T>,
    ) -> Result<(), Infallible>
        ensures { IsOk result }
    {
        Ok(())
    }

    /// How the blocks of the region at an index are ordered.
    pub fn get_region_kind<D: DialectTables>(
        op: Ptr<Operation>,
        ctx: &Context<D>,
        i: usize,
    ) -> RegionKind
        requires { IsSome (operation_at ctx.now.program op) }
        ensures { IfSome (kind_at ctx.now.program op) (λ kind. result ≡ D.order kind i) }
    {
        D::region_kind(op.kind(ctx), i)
    }

    /// Whether the values of the region at an index come before they are used.
    pub fn has_ssa_dominance<D: DialectTables>(
        op: Ptr<Operation>,
        ctx: &Context<D>,
        i: usize,
    ) -> bool
        requires { IsSome (operation_at ctx.now.program op) }
        ensures { IfSome (kind_at ctx.now.program op) (λ kind. IsTrue result ↔ (D.order kind i ≡ SSACFG)) }
    {
        D::region_kind(op.kind(ctx), i) == RegionKind::SSACFG
    }
}
