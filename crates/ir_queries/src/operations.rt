//! The rows of an operation, and the uses of its results.
ghost use Rattle.std.specs.Prelude.{◌≡◌, ◌↔◌, ◌<◌, ℕ, IsSome, IsTrue, IfOk, IfSome, length, option_map, slice_get, Some};
ghost use Rattle.ir_program.specs.declared.handles.Ptr.{Ptr};
ghost use Rattle.ir_program.specs.declared.handles.Operation.{Operation};
ghost use Rattle.ir_program.specs.Program.{operation_at, results_at};
ghost use Rattle.ir_program.specs.Rows.{operands_at, successors_at};
ghost use Rattle.ir_program.specs.Lists.{regions_in};
ghost use Rattle.ir_context.specs.Kept.{kind_at};
ghost use Rattle.ir_queries.specs.Rows.{values_of, types_of, AreTypesOf, ArePlacesOf, place_at};
ghost use Rattle.ir_queries.specs.Results.{HasUsedResult, AreResultUses, IsResultUseCount};

use crate::OpMarker;
use crate::rows::{
    operand_places, operand_types_of, operands_of, regions_of, result_types_of, results_of,
    successor_places, successors_of,
};
use crate::uses::{count_of_result_uses, has_used_result, uses_of_results};
use ir_context::{Context, OperationCalls, TypeTable, TypedProgram};
use ir_names::TypeHandle;
use ir_program::{BasicBlock, Operation, Ptr, Region, Use, Value};
use ir_types::DialectTables;
use std::alloc::{AllocError, Global};

/// The rows of an operation, and where its results are used.
pub trait OperationRows {
    /// The handle of the operation.
    ghost op: { Self → Ptr Operation };

    /// Whether the operation is of the kind that `T` stands for.
    fn is_op<T: OpMarker<D>, D: DialectTables>(self, ctx: &Context<D>) -> bool
        requires { IsSome (operation_at ctx.now.program (op self)) }
        ensures { IfSome (kind_at ctx.now.program (op self)) (λ kind. result ≡ D.OpKind.eq kind T.KIND) };

    /// Its results, in order.
    fn results<O, B, T: TypeTable>(
        self,
        alloc: Global,
        ctx: &TypedProgram<O, B, T>,
    ) -> Result<Vec<Value>, AllocError>
        requires { IsSome (operation_at ctx.now.program (op self)) }
        ensures { IfOk result (λ r. r.items ≡ values_of (results_at ctx.now.program (op self))) };

    /// The types of its results, in order.
    fn result_types<O, B, T: TypeTable>(
        self,
        alloc: Global,
        ctx: &TypedProgram<O, B, T>,
    ) -> Result<Vec<TypeHandle>, AllocError>
        requires { IsSome (operation_at ctx.now.program (op self)) }
        ensures { IfOk result (λ r. r.items ≡ types_of (results_at ctx.now.program (op self))) };

    /// Its operands, in order.
    fn operands<O, B, T: TypeTable>(
        self,
        alloc: Global,
        ctx: &TypedProgram<O, B, T>,
    ) -> Result<Vec<Value>, AllocError>
        requires { IsSome (operation_at ctx.now.program (op self)) }
        ensures { IfOk result (λ r. r.items ≡ operands_at ctx.now.program (op self)) };

    /// The types of its operands, in order.
    fn operand_types<O, B, T: TypeTable>(
        self,
        alloc: Global,
        ctx: &TypedProgram<O, B, T>,
    ) -> Result<Vec<TypeHandle>, AllocError>
        requires { IsSome (operation_at ctx.now.program (op self)) }
        ensures { IfOk result (λ r. AreTypesOf ctx.now.program (operands_at ctx.now.program (op self)) r.items) };

    /// Its successors, in order.
    fn successors<O, B, T: TypeTable>(
        self,
        alloc: Global,
        ctx: &TypedProgram<O, B, T>,
    ) -> Result<Vec<Ptr<BasicBlock>>, AllocError>
        requires { IsSome (operation_at ctx.now.program (op self)) }
        ensures { IfOk result (λ r. r.items ≡ successors_at ctx.now.program (op self)) };

    /// Its regions, in order.
    fn regions<O, B, T: TypeTable>(
        self,
        alloc: Global,
        ctx: &TypedProgram<O, B, T>,
    ) -> Result<Vec<Ptr<Region>>, AllocError>
        requires { IsSome (operation_at ctx.now.program (op self)) }
        ensures { IfOk result (λ r. r.items ≡ regions_in ctx.now.program (op self)) };

    /// The use that its operand at an index is.
    fn get_operand_as_use<O, B, T: TypeTable>(
        self,
        ctx: &TypedProgram<O, B, T>,
        i: usize,
    ) -> Use<Value>
        requires { i < length (operands_at ctx.now.program (op self)) }
        ensures { option_map (place_at (op self) i) (slice_get (operands_at ctx.now.program (op self)) i)
            ≡ Some result };

    /// The use that its successor at an index is.
    fn get_successor_as_use<O, B, T: TypeTable>(
        self,
        ctx: &TypedProgram<O, B, T>,
        i: usize,
    ) -> Use<Ptr<BasicBlock>>
        requires { i < length (successors_at ctx.now.program (op self)) }
        ensures { option_map (place_at (op self) i) (slice_get (successors_at ctx.now.program (op self)) i)
            ≡ Some result };

    /// The uses that its operands are, in order.
    fn operands_as_uses<O, B, T: TypeTable>(
        self,
        alloc: Global,
        ctx: &TypedProgram<O, B, T>,
    ) -> Result<Vec<Use<Value>>, AllocError>
        requires { IsSome (operation_at ctx.now.program (op self)) }
        ensures { IfOk result (λ r. ArePlacesOf (op self) (operands_at ctx.now.program (op self)) r.items) };

    /// The uses that its successors are, in order.
    fn successors_as_uses<O, B, T: TypeTable>(
        self,
        alloc: Global,
        ctx: &TypedProgram<O, B, T>,
    ) -> Result<Vec<Use<Ptr<BasicBlock>>>, AllocError>
        requires { IsSome (operation_at ctx.now.program (op self)) }
        ensures { IfOk result (λ r. ArePlacesOf (op self) (successors_at ctx.now.program (op self)) r.items) };

    /// Whether some operation takes one of its results.
    fn has_use<O, B, T: TypeTable>(self, ctx: &TypedProgram<O, B, T>) -> bool
        requires { IsSome (operation_at ctx.now.program (op self)) }
        ensures { IsTrue result ↔ HasUsedResult ctx.now.program (op self) };

    /// How many operands are results of it. An operation that takes a result twice counts twice.
    fn num_uses<O, B, T: TypeTable>(self, ctx: &TypedProgram<O, B, T>) -> usize
        requires { IsSome (operation_at ctx.now.program (op self)) }
        ensures count { IsResultUseCount ctx.now.program (op self) result }
        ensures only { (n : ℕ) → IsResultUseCount ctx.now.program (op self) n → n ≡ result };

    /// The uses of its results, each once, in no promised order.
    fn uses<O, B, T: TypeTable>(
        self,
        alloc: Global,
        ctx: &TypedProgram<O, B, T>,
    ) -> Result<Vec<Use<Value>>, AllocError>
        requires { IsSome (operation_at ctx.now.program (op self)) }
        ensures { IfOk result (λ r. AreResultUses ctx.now.program (op self) r.items) };
}

impl OperationRows for Ptr<Operation> {
    ghost op = { λ o. o };

    fn is_op<T: OpMarker<D>, D: DialectTables>(self, ctx: &Context<D>) -> bool {
        self.kind(ctx) == T::KIND
    }

    fn results<O, B, T: TypeTable>(
        self,
        alloc: Global,
        ctx: &TypedProgram<O, B, T>,
    ) -> Result<Vec<Value>, AllocError> {
        results_of(ctx.program(), alloc, self)
    }

    fn result_types<O, B, T: TypeTable>(
        self,
        alloc: Global,
        ctx: &TypedProgram<O, B, T>,
    ) -> Result<Vec<TypeHandle>, AllocError> {
        result_types_of(ctx.program(), alloc, self)
    }

    fn operands<O, B, T: TypeTable>(
        self,
        alloc: Global,
        ctx: &TypedProgram<O, B, T>,
    ) -> Result<Vec<Value>, AllocError> {
        operands_of(ctx.program(), alloc, self)
    }

    fn operand_types<O, B, T: TypeTable>(
        self,
        alloc: Global,
        ctx: &TypedProgram<O, B, T>,
    ) -> Result<Vec<TypeHandle>, AllocError> {
        operand_types_of(ctx.program(), alloc, self)
    }

    fn successors<O, B, T: TypeTable>(
        self,
        alloc: Global,
        ctx: &TypedProgram<O, B, T>,
    ) -> Result<Vec<Ptr<BasicBlock>>, AllocError> {
        successors_of(ctx.program(), alloc, self)
    }

    fn regions<O, B, T: TypeTable>(
        self,
        alloc: Global,
        ctx: &TypedProgram<O, B, T>,
    ) -> Result<Vec<Ptr<Region>>, AllocError> {
        regions_of(ctx.program(), alloc, self)
    }

    fn get_operand_as_use<O, B, T: TypeTable>(
        self,
        ctx: &TypedProgram<O, B, T>,
        i: usize,
    ) -> Use<Value> {
        let def = ctx.program().operand(self, i);
        Use {
            user_op: self,
            index: i,
            def,
        }
    }

    fn get_successor_as_use<O, B, T: TypeTable>(
        self,
        ctx: &TypedProgram<O, B, T>,
        i: usize,
    ) -> Use<Ptr<BasicBlock>> {
        let def = ctx.program().successor(self, i);
        Use {
            user_op: self,
            index: i,
            def,
        }
    }

    fn operands_as_uses<O, B, T: TypeTable>(
        self,
        alloc: Global,
        ctx: &TypedProgram<O, B, T>,
    ) -> Result<Vec<Use<Value>>, AllocError> {
        operand_places(ctx.program(), alloc, self)
    }

    fn successors_as_uses<O, B, T: TypeTable>(
        self,
        alloc: Global,
        ctx: &TypedProgram<O, B, T>,
    ) -> Result<Vec<Use<Ptr<BasicBlock>>>, AllocError> {
        successor_places(ctx.program(), alloc, self)
    }

    fn has_use<O, B, T: TypeTable>(self, ctx: &TypedProgram<O, B, T>) -> bool {
        has_used_result(ctx.program(), self)
    }

    fn num_uses<O, B, T: TypeTable>(self, ctx: &TypedProgram<O, B, T>) -> usize {
        count_of_result_uses(ctx.program(), self)
    }

    fn uses<O, B, T: TypeTable>(
        self,
        alloc: Global,
        ctx: &TypedProgram<O, B, T>,
    ) -> Result<Vec<Use<Value>>, AllocError> {
        uses_of_results(ctx.program(), alloc, self)
    }
}
