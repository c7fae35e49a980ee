//! The verifiers of a dialect's table.
ghost use Rattle.std.specs.Prelude.{◌↔◌, IsOk, IsSome, OnOk};
ghost use Rattle.ir_core.specs.verification.Verified.{AnswersVerify, IsVerified};
ghost use Rattle.ir_program.specs.Program.{operation_at};
ghost use Rattle.ir_program.specs.declared.handles.IRNode.TheVariants.{Operation as OperationNode};
ghost use Rattle.interface_verifiers.specs.Conditions.{AllMeetConditions};
ghost use Rattle.interface_verifiers.specs.Faults.{IsFaultOf};
ghost use Rattle.interface_verifiers.specs.Wanted.{IsAccepted};

use crate::faults::OperationFault;
use crate::interfaces::verify_by_table;
use crate::region_branches::{NoRegionBranches, RegionBranchVerifier, RegionBranchesOfDialect};
use crate::summary::Summarized;
use builtin_tables::BuiltinDialect;
use ir_context::Context;
use ir_core::{Verifiers, VerifyErr, verify_operation};
use ir_names::TypeHandle;
use ir_program::{Operation, Ptr};
use std::alloc::Global;
use std::marker::PhantomData;

/// The verifiers of a dialect's table: an operation is asked what each interface wants that the table of its kind lists, in the
/// table's order, and then what its kind of the dialect `builtin` wants. Attributes and types are accepted.
///
/// `R` says which edges lead into regions.
#[derive(Clone, Copy, Debug)]
pub struct InterfaceVerifiers<R = NoRegionBranches> {
    alloc: Global,
    regions: PhantomData<R>,
}

impl InterfaceVerifiers<NoRegionBranches> {
    /// The verifiers of a dialect without branches into regions.
    pub fn new(alloc: Global) -> InterfaceVerifiers<NoRegionBranches> {
        InterfaceVerifiers {
            alloc,
            regions: PhantomData,
        }
    }
}

impl InterfaceVerifiers<RegionBranchesOfDialect> {
    /// The verifiers of a dialect that says which edges lead into regions.
    pub fn with_region_branches(alloc: Global) -> InterfaceVerifiers<RegionBranchesOfDialect> {
        InterfaceVerifiers {
            alloc,
            regions: PhantomData,
        }
    }
}

impl<D: BuiltinDialect, R: RegionBranchVerifier<D>> Verifiers<D> for InterfaceVerifiers<R> {
    type Fault = OperationFault;

    ghost accepts = { λ _ c test. IsAccepted ⟦<D as Summarized>⟧.summary (R.edges c) c.program c.types test };

    ghost answers = { λ _ c test fault. IsFaultOf ⟦<D as Summarized>⟧.summary (R.edges c) c.program c.types test fault };

    fn verify_op(&self, op: Ptr<Operation>, ctx: &Context<D>) -> Result<(), OperationFault> {
        match verify_by_table::<D, R>(self.alloc, op, ctx) {
            Ok(()) => Ok(()),
            Err(fault) => Err(fault),
        }
    }

    fn verify_attr(&self, _attr: &D::Attr, _ctx: &Context<D>) -> Result<(), OperationFault> {
        Ok(())
    }

    fn verify_type(&self, _ty: TypeHandle, _ctx: &Context<D>) -> Result<(), OperationFault> {
        Ok(())
    }
}

impl<R> InterfaceVerifiers<R> {
    /// Whether each block inside an operation ends as it has to, and the operation and each in it, however far down, is as its
    /// interfaces want it. It answers what `verify_operation` does with these verifiers.
    ///
    /// Where it accepts, each operation inside meets the conditions of the getters of the interfaces that it implements.
    ///
    /// # Errors
    /// A block without a terminator, else a block with a terminator that isn't its last operation, else the fault of the first
    /// operation that isn't as wanted, in the order of the program.
    pub fn verify<D: BuiltinDialect>(
        &self,
        op: Ptr<Operation>,
        ctx: &Context<D>,
    ) -> Result<(), VerifyErr<OperationFault>>
    where
        R: RegionBranchVerifier<D>,
        requires { IsSome (operation_at ctx.now.program op) }
        ensures accepted { IsOk result ↔ IsVerified D.op_has
            (IsAccepted ⟦<D as Summarized>⟧.summary (R.edges ctx.now) ctx.now.program ctx.now.types) ctx.now.program
            (OperationNode op) }
        ensures answer { AnswersVerify D.op_has
            (IsAccepted ⟦<D as Summarized>⟧.summary (R.edges ctx.now) ctx.now.program ctx.now.types)
            (IsFaultOf ⟦<D as Summarized>⟧.summary (R.edges ctx.now) ctx.now.program ctx.now.types) ctx.now.program
            (OperationNode op) result }
        ensures conditions { OnOk result (AllMeetConditions ⟦<D as Summarized>⟧.summary (R.edges ctx.now)
            ctx.now.program ctx.now.types op) }
    {
        match verify_operation(op, ctx, self) {
            Ok(()) => Ok(()),
            Err(fault) => Err(fault),
        }
    }
}
