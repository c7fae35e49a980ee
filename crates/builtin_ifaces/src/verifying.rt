//! What interfaces ask, told by the interface itself, and all that the table of a kind lists.
ghost use Rattle.std.specs.Prelude.{◌≡◌, true, IsSome, OnOk};
ghost use Rattle.ir_program.specs.Program.{operation_at};
ghost use Rattle.op_ifaces.specs.Interfaces.{Rule as RowsRule, is_told_by_rows};
ghost use Rattle.op_ifaces.specs.Rules.{AcceptsExactly};
ghost use Rattle.builtin_ifaces.specs.Interfaces.{AllRules, MeetsInterfaces, MeetsTable, OwnRule, Rule};

use crate::branches::{BranchOpInterface, BranchOpInterfaceVerifyErr};
use crate::calls::{CallOpInterface, CallOpInterfaceErr};
use crate::segment_types::{SegmentNOfTypeError, expect_segment};
use crate::segments::{OperandSegmentInterface, OperandSegmentInterfaceVerifyErr};
use crate::symbols::{SymbolOpInterface, SymbolOpInterfaceErr};
use builtin_tables::BuiltinDialect;
use ir_context::{Context, OperationCalls};
use ir_names::OpInterface;
use ir_program::{Operation, Ptr};
use op_ifaces::{RowsVerifyErr, is_told_by_rows, verify_rows};
use thiserror::Error;

/// Why an operation isn't as an interface wants it.
#[derive(Clone, Copy, Debug, PartialEq, Eq, Error)]
pub enum VerifyFault {
    /// Its rows, its regions, or the types of its operands or results aren't.
    #[error(transparent)]
    Rows(#[from] RowsVerifyErr),
    /// The operands aren't in segments.
    #[error(transparent)]
    OperandSegment(#[from] OperandSegmentInterfaceVerifyErr),
    /// The types of the operands of a segment aren't as wanted.
    #[error(transparent)]
    SegmentN(#[from] SegmentNOfTypeError),
    /// What is forwarded along an edge doesn't fit its block.
    #[error(transparent)]
    Branch(#[from] BranchOpInterfaceVerifyErr),
    /// It has no name.
    #[error(transparent)]
    SymbolOp(#[from] SymbolOpInterfaceErr),
    /// The type of what it calls isn't as it should be.
    #[error(transparent)]
    CallOp(#[from] CallOpInterfaceErr),
}

/// Which interface of its kind's table an operation isn't as wanted by, and why.
#[derive(Clone, Copy, Debug, PartialEq, Eq, Error)]
#[error("{interface:?}: {fault}")]
pub struct InterfaceFault {
    /// The interface, the first one of the table.
    pub interface: OpInterface,
    /// Why.
    pub fault: VerifyFault,
}

/// Whether the operation is as the interface wants it, as far as that can't be told by rows.
fn verify_own<D: BuiltinDialect>(
    interface: OpInterface,
    op: Ptr<Operation>,
    ctx: &Context<D>,
) -> Result<(), VerifyFault>
    requires { IsSome (operation_at ctx.now.program op) }
    ensures { AcceptsExactly result (OwnRule D.held_identifier D.held_type D.held_sizes D.segment_count D.layout
        D.key_of_callee_type (λ key. D.type_text (D.kind_of_type key)) D.type_has ctx.now.program ctx.now.types op
        interface) }
{
    match interface {
        OpInterface::OperandSegment => Ok(OperandSegmentInterface::verify(op, ctx)?),
        OpInterface::SegmentN(n, test) => match expect_segment(n, test, op, ctx) {
            Ok(()) => Ok(()),
            Err(fault) => Err(VerifyFault::SegmentN(fault)),
        },
        OpInterface::Branch => Ok(BranchOpInterface::verify(op, ctx)?),
        OpInterface::SymbolOp => Ok(SymbolOpInterface::verify(op, ctx)?),
        OpInterface::CallOp => Ok(CallOpInterface::verify(op, ctx)?),
        _ => Ok(()),
    }
}

/// Whether the operation is as the interface wants it, where that can be told by rows; else it is accepted.
fn verify_by_rows<D: BuiltinDialect>(
    interface: OpInterface,
    op: Ptr<Operation>,
    ctx: &Context<D>,
) -> Result<(), VerifyFault>
    requires { IsSome (operation_at ctx.now.program op) }
    ensures { AcceptsExactly result (is_told_by_rows interface ≡ true
        → RowsRule (λ key. D.type_text (D.kind_of_type key)) D.type_has ctx.now.program ctx.now.types op interface) }
{
    if !is_told_by_rows(interface) {
        return Ok(());
    }
    match verify_rows(interface, op, ctx) {
        Ok(()) => Ok(()),
        Err(fault) => Err(VerifyFault::Rows(fault)),
    }
}

/// Whether the operation is as the interface wants it. The interfaces that it stands on aren't asked. What a symbol table, a
/// branch into regions, an optimisation or a dialect's own interface asks is told elsewhere: here these accept each operation.
pub fn verify_interface<D: BuiltinDialect>(
    interface: OpInterface,
    op: Ptr<Operation>,
    ctx: &Context<D>,
) -> Result<(), VerifyFault>
    requires { IsSome (operation_at ctx.now.program op) }
    ensures { AcceptsExactly result (Rule D.held_identifier D.held_type D.held_sizes D.segment_count D.layout
        D.key_of_callee_type (λ key. D.type_text (D.kind_of_type key)) D.type_has ctx.now.program ctx.now.types op
        interface) }
{
    verify_own(interface, op, ctx)?;
    verify_by_rows(interface, op, ctx)?;
    Ok(())
}

/// The same, with the interface in the error.
fn verify_member<D: BuiltinDialect>(
    interface: OpInterface,
    op: Ptr<Operation>,
    ctx: &Context<D>,
) -> Result<(), InterfaceFault>
    requires { IsSome (operation_at ctx.now.program op) }
    ensures { AcceptsExactly result (Rule D.held_identifier D.held_type D.held_sizes D.segment_count D.layout
        D.key_of_callee_type (λ key. D.type_text (D.kind_of_type key)) D.type_has ctx.now.program ctx.now.types op
        interface) }
{
    match verify_interface(interface, op, ctx) {
        Ok(()) => Ok(()),
        Err(fault) => Err(InterfaceFault { interface, fault }),
    }
}

/// Whether the operation is as each of these interfaces wants it.
fn verify_listed<D: BuiltinDialect>(
    interfaces: &[OpInterface],
    op: Ptr<Operation>,
    ctx: &Context<D>,
) -> Result<(), InterfaceFault>
    requires { IsSome (operation_at ctx.now.program op) }
    ensures { AcceptsExactly result (AllRules D.held_identifier D.held_type D.held_sizes D.segment_count D.layout
        D.key_of_callee_type (λ key. D.type_text (D.kind_of_type key)) D.type_has ctx.now.program ctx.now.types op
        interfaces.now) }
{
    for interface in interfaces {
        match verify_member(*interface, op, ctx) {
            Ok(()) => {}
            Err(fault) => return Err(fault),
        }
    }
    Ok(())
}

/// Whether the operation is as each interface wants it that the table of its kind lists. Where it is, it
/// meets the conditions of the getters of each interface that its kind implements.
///
/// # Errors
/// Of the first interface in the table that doesn't accept it.
pub fn verify_interfaces<D: BuiltinDialect>(
    op: Ptr<Operation>,
    ctx: &Context<D>,
) -> Result<(), InterfaceFault>
    requires { IsSome (operation_at ctx.now.program op) }
    ensures exact { AcceptsExactly result (MeetsTable D.held_identifier D.held_type D.held_sizes D.segment_count
        D.layout D.key_of_callee_type (λ key. D.type_text (D.kind_of_type key)) D.type_has ctx.now.program
        ctx.now.types op D.table) }
    ensures implemented { OnOk result (MeetsInterfaces D.held_identifier D.held_type D.held_sizes D.segment_count
        D.layout D.key_of_callee_type (λ key. D.type_text (D.kind_of_type key)) D.type_has ctx.now.program
        ctx.now.types op D.op_has) }
{
    match verify_listed(D::interfaces(op.kind(ctx)), op, ctx) {
        Ok(()) => Ok(()),
        Err(fault) => Err(fault),
    }
}
