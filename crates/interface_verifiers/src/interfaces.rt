//! Whether an operation is as the interfaces want it that its dialect's table lists.
ghost use Rattle.std.specs.Prelude.{IfErr, IsSome};
ghost use Rattle.ir_program.specs.Program.{operation_at};
ghost use Rattle.op_ifaces.specs.Rules.{AcceptsExactly};
ghost use Rattle.interface_verifiers.specs.Wanted.{AsksInside, IsAsAllWant, IsAsWanted, IsAsWantedBy, MeetsItsInterfaces};
ghost use Rattle.interface_verifiers.specs.Faults.{IsInterfaceFault, IsOperationFault, IsListedFault};

use crate::builtin_rules::verify_builtin;
use crate::faults::{InterfaceErr, OperationFault};
use crate::region_branches::RegionBranchVerifier;
use crate::summary::Summarized;
use builtin_ifaces::verify_interface;
use builtin_tables::BuiltinDialect;
use ir_context::{Context, OperationCalls};
use ir_names::OpInterface;
use ir_program::{Operation, Ptr};
use std::alloc::Global;
use symbol_ifaces::SymbolTableInterface;

/// Whether what is in the operation is as the interface wants it.
fn verify_inside<D: BuiltinDialect, R: RegionBranchVerifier<D>>(
    alloc: Global,
    interface: OpInterface,
    op: Ptr<Operation>,
    ctx: &Context<D>,
) -> Result<(), InterfaceErr>
    requires { IsSome (operation_at ctx.now.program op) }
    ensures exact { AcceptsExactly result (AsksInside ⟦<D as Summarized>⟧.summary (R.edges ctx.now) ctx.now.program
        ctx.now.types op interface) }
    ensures fault { IfErr result (IsInterfaceFault ⟦<D as Summarized>⟧.summary ctx.now.program ctx.now.types op
        (R.edges ctx.now) interface) }
{
    match interface {
        OpInterface::SymbolTable => match SymbolTableInterface::verify(alloc, op, ctx) {
            Ok(()) => Ok(()),
            Err(fault) => Err(InterfaceErr::SymbolTable(fault)),
        },
        OpInterface::RegionBranch => match R::verify_edges(op, ctx) {
            Ok(()) => Ok(()),
            Err(fault) => Err(InterfaceErr::RegionBranch(fault)),
        },
        _ => Ok(()),
    }
}

/// Whether the operation is as the interface wants it.
fn verify_wanted<D: BuiltinDialect, R: RegionBranchVerifier<D>>(
    alloc: Global,
    interface: OpInterface,
    op: Ptr<Operation>,
    ctx: &Context<D>,
) -> Result<(), InterfaceErr>
    requires { IsSome (operation_at ctx.now.program op) }
    ensures exact { AcceptsExactly result (IsAsWantedBy ⟦<D as Summarized>⟧.summary (R.edges ctx.now)
        ctx.now.program ctx.now.types op interface) }
    ensures fault { IfErr result (IsInterfaceFault ⟦<D as Summarized>⟧.summary ctx.now.program ctx.now.types op
        (R.edges ctx.now) interface) }
{
    match verify_interface(interface, op, ctx) {
        Ok(()) => verify_inside::<D, R>(alloc, interface, op, ctx),
        Err(fault) => Err(InterfaceErr::Alone(fault)),
    }
}

/// Whether the operation is as each of these interfaces wants it.
fn verify_listed<D: BuiltinDialect, R: RegionBranchVerifier<D>>(
    alloc: Global,
    interfaces: &[OpInterface],
    op: Ptr<Operation>,
    ctx: &Context<D>,
) -> Result<(), OperationFault>
    requires { IsSome (operation_at ctx.now.program op) }
    ensures exact { AcceptsExactly result (IsAsAllWant ⟦<D as Summarized>⟧.summary (R.edges ctx.now) ctx.now.program
        ctx.now.types op interfaces.now) }
    ensures fault { IfErr result (IsListedFault ⟦<D as Summarized>⟧.summary ctx.now.program ctx.now.types op
        (R.edges ctx.now) interfaces.now) }
{
    for listed in interfaces {
        let interface = *listed;
        match verify_wanted::<D, R>(alloc, interface, op, ctx) {
            Ok(()) => {}
            Err(fault) => return Err(OperationFault::Interface { interface, fault }),
        }
    }
    Ok(())
}

/// Whether the operation is as each interface wants it that the table of its kind lists.
fn verify_interfaces<D: BuiltinDialect, R: RegionBranchVerifier<D>>(
    alloc: Global,
    op: Ptr<Operation>,
    ctx: &Context<D>,
) -> Result<(), OperationFault>
    requires { IsSome (operation_at ctx.now.program op) }
    ensures exact { AcceptsExactly result (MeetsItsInterfaces ⟦<D as Summarized>⟧.summary (R.edges ctx.now)
        ctx.now.program ctx.now.types op) }
    ensures fault { IfErr result (IsOperationFault ⟦<D as Summarized>⟧.summary ctx.now.program ctx.now.types op
        (R.edges ctx.now)) }
{
    match verify_listed::<D, R>(alloc, D::interfaces(op.kind(ctx)), op, ctx) {
        Ok(()) => Ok(()),
        Err(fault) => Err(fault),
    }
}

/// Whether the operation is as its interfaces want it, and as its kind of the dialect `builtin` does, if it is of one.
pub(crate) fn verify_by_table<D: BuiltinDialect, R: RegionBranchVerifier<D>>(
    alloc: Global,
    op: Ptr<Operation>,
    ctx: &Context<D>,
) -> Result<(), OperationFault>
    requires { IsSome (operation_at ctx.now.program op) }
    ensures exact { AcceptsExactly result (IsAsWanted ⟦<D as Summarized>⟧.summary (R.edges ctx.now) ctx.now.program
        ctx.now.types op) }
    ensures fault { IfErr result (IsOperationFault ⟦<D as Summarized>⟧.summary ctx.now.program ctx.now.types op
        (R.edges ctx.now)) }
{
    verify_interfaces::<D, R>(alloc, op, ctx)?;
    match verify_builtin(op, ctx) {
        Ok(()) => Ok(()),
        Err(fault) => Err(OperationFault::Builtin(fault)),
    }
}
