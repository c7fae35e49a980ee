//! What is asked of operations.
ghost use Rattle.std.specs.Prelude.{◌≡◌, ◌↔◌, ◌<◌, Some, None, IsSome, IfSome, IfOk, IsErr, MatchOption, is_some, length, slice_get};
ghost use Rattle.ir_names.specs.Names.{op_id_text};
ghost use Rattle.ir_program.specs.declared.handles.Ptr.{Ptr};
ghost use Rattle.ir_program.specs.declared.handles.Operation.{Operation};
ghost use Rattle.ir_program.specs.declared.handles.BasicBlock.{BasicBlock};
ghost use Rattle.ir_program.specs.declared.handles.Region.{Region};
ghost use Rattle.ir_program.specs.Program.{operation_at};
ghost use Rattle.ir_program.specs.Lists.{regions_in, StandsInBlock, StandsInOperation, IsUnlinkedOperation};
ghost use Rattle.ir_context.specs.Holders.{HasRegion, HasParent};
ghost use Rattle.ir_context.specs.Kept.{kind_at, notes_at, location_at};

use crate::parents::{parent_of_operation, region_of_operation};
use crate::{Context, DanglingPtrDerefError, OperationNotes, TypeTable, TypedProgram};
use ir_names::OpId;
use ir_program::{BasicBlock, Operation, Ptr, Region};
use ir_types::DialectTables;

/// What is asked of an operation.
pub trait OperationCalls {
    /// The handle of the operation.
    ghost op: { Self → Ptr Operation };

    /// Whether the handle leads to an operation.
    fn is_live<O, B, T: TypeTable>(self, ctx: &TypedProgram<O, B, T>) -> bool
        ensures { result ≡ is_some (operation_at ctx.now.program (op self)) };

    /// The block that the operation stands in.
    fn get_parent_block<O, B, T: TypeTable>(
        self,
        ctx: &TypedProgram<O, B, T>,
    ) -> Option<Ptr<BasicBlock>>
        requires { IsSome (operation_at ctx.now.program (op self)) }
        ensures parent { MatchOption result (IsUnlinkedOperation ctx.now.program (op self))
            (λ block. StandsInBlock ctx.now.program (op self) block) }
        ensures only { (block : Ptr BasicBlock) → StandsInBlock ctx.now.program (op self) block → result ≡ Some block };

    /// The region that its block stands in.
    fn get_parent_region<O, B, T: TypeTable>(
        self,
        ctx: &TypedProgram<O, B, T>,
    ) -> Option<Ptr<Region>>
        requires { IsSome (operation_at ctx.now.program (op self)) }
        ensures found { IfSome result (λ region. HasRegion ctx.now.program (op self) region) }
        ensures only { (region : Ptr Region) → HasRegion ctx.now.program (op self) region → result ≡ Some region };

    /// The operation that this region stands in.
    fn get_parent_op<O, B, T: TypeTable>(
        self,
        ctx: &TypedProgram<O, B, T>,
    ) -> Option<Ptr<Operation>>
        requires { IsSome (operation_at ctx.now.program (op self)) }
        ensures found { IfSome result (λ parent. HasParent ctx.now.program (op self) parent) }
        ensures only { (parent : Ptr Operation) → HasParent ctx.now.program (op self) parent → result ≡ Some parent };

    /// The kind of the operation.
    fn kind<D: DialectTables>(self, ctx: &Context<D>) -> D::OpKind
        requires { IsSome (operation_at ctx.now.program (op self)) }
        ensures { kind_at ctx.now.program (op self) ≡ Some result };

    /// What its kind is called.
    fn get_opid<D: DialectTables>(self, ctx: &Context<D>) -> OpId
        requires { IsSome (operation_at ctx.now.program (op self)) }
        ensures { IfSome (kind_at ctx.now.program (op self)) (λ kind. op_id_text result ≡ D.op_text kind) };

    /// Its attributes and its location.
    fn deref<D: DialectTables>(self, ctx: &Context<D>) -> &OperationNotes<D>
        requires { IsSome (operation_at ctx.now.program (op self)) }
        ensures { notes_at ctx.now.program (op self) ≡ Some result.now };

    /// Its attributes and its location.
    ///
    /// # Errors
    /// Refused exactly where the handle leads to no operation.
    fn try_deref<D: DialectTables>(
        self,
        ctx: &Context<D>,
    ) -> Result<&OperationNotes<D>, DanglingPtrDerefError>
        ensures found { IfOk result (λ notes. notes_at ctx.now.program (op self) ≡ Some notes.now) }
        ensures refused { IsErr result ↔ (operation_at ctx.now.program (op self) ≡ None) };

    /// Where it comes from.
    fn loc<D: DialectTables>(self, ctx: &Context<D>) -> &D::Location
        requires { IsSome (operation_at ctx.now.program (op self)) }
        ensures { location_at ctx.now.program (op self) ≡ Some result.now };

    /// How many regions it has.
    fn num_regions<O, B, T: TypeTable>(self, ctx: &TypedProgram<O, B, T>) -> usize
        requires { IsSome (operation_at ctx.now.program (op self)) }
        ensures { result ≡ length (regions_in ctx.now.program (op self)) };

    /// The region at an index of its regions.
    fn get_region<O, B, T: TypeTable>(self, ctx: &TypedProgram<O, B, T>, i: usize) -> Ptr<Region>
        requires operation { IsSome (operation_at ctx.now.program (op self)) }
        requires within { i < length (regions_in ctx.now.program (op self)) }
        ensures region { slice_get (regions_in ctx.now.program (op self)) i ≡ Some result }
        ensures stands { StandsInOperation ctx.now.program result (op self) };
}

impl OperationCalls for Ptr<Operation> {
    ghost op = { λ o. o };

    fn is_live<O, B, T: TypeTable>(self, ctx: &TypedProgram<O, B, T>) -> bool {
        ctx.program.has_operation(self)
    }

    fn get_parent_block<O, B, T: TypeTable>(
        self,
        ctx: &TypedProgram<O, B, T>,
    ) -> Option<Ptr<BasicBlock>> {
        ctx.program.parent_block(self)
    }

    fn get_parent_region<O, B, T: TypeTable>(
        self,
        ctx: &TypedProgram<O, B, T>,
    ) -> Option<Ptr<Region>> {
        region_of_operation(&ctx.program, self)
    }

    fn get_parent_op<O, B, T: TypeTable>(
        self,
        ctx: &TypedProgram<O, B, T>,
    ) -> Option<Ptr<Operation>> {
        parent_of_operation(&ctx.program, self)
    }

    fn kind<D: DialectTables>(self, ctx: &Context<D>) -> D::OpKind {
        ctx.program.payload(self).kind
    }

    fn get_opid<D: DialectTables>(self, ctx: &Context<D>) -> OpId {
        D::op_id(self.kind(ctx))
    }

    fn deref<D: DialectTables>(self, ctx: &Context<D>) -> &OperationNotes<D> {
        &ctx.program.payload(self).notes
    }

    fn try_deref<D: DialectTables>(
        self,
        ctx: &Context<D>,
    ) -> Result<&OperationNotes<D>, DanglingPtrDerefError> {
        if !ctx.program.has_operation(self) {
            return Err(DanglingPtrDerefError);
        }
        Ok(self.deref(ctx))
    }

    fn loc<D: DialectTables>(self, ctx: &Context<D>) -> &D::Location {
        &ctx.program.payload(self).notes.loc
    }

    fn num_regions<O, B, T: TypeTable>(self, ctx: &TypedProgram<O, B, T>) -> usize {
        ctx.program.region_count(self)
    }

    fn get_region<O, B, T: TypeTable>(self, ctx: &TypedProgram<O, B, T>, i: usize) -> Ptr<Region> {
        match ctx.program.region(self, i) {
            Some(region) => region,
            None => unreachable!(),
        }
    }
}
