//! The successors of operations.
ghost use Rattle.std.specs.Prelude.{◌≡◌, ◌++◌, ◌∷◌, [], ◌<◌, ◌≤◌, Some, IsNone, IsOk, IsSome, MatchOption, OnOk, OnErr, length, slice_get};
ghost use Rattle.ir_program.specs.Program.{block_at, operation_at};
ghost use Rattle.ir_program.specs.Rows.{successors_at};
ghost use Rattle.ir_program.specs.Edits.{IsUnchanged, KeepsValues};
ghost use Rattle.ir_program.specs.declared.handles.Ptr.{Ptr};
ghost use Rattle.ir_program.specs.declared.handles.Operation.{Operation};
ghost use Rattle.ir_program.specs.RowEdits.{PushesSuccessor, InsertsSuccessor, RemovesSuccessor, ReplacesSuccessor, ChangesSuccessors};

use crate::{TypeTable, TypedProgram};
use ir_program::{BasicBlock, Operation, Ptr};
use std::alloc::{AllocError, Global};

/// The successors of an operation: the blocks that it may go on to.
pub trait SuccessorCalls {
    /// The handle of the operation.
    ghost op: { Self → Ptr Operation };

    /// How many successors the operation has.
    fn get_num_successors<O, B, T: TypeTable>(self, ctx: &TypedProgram<O, B, T>) -> usize
        requires { IsSome (operation_at ctx.now.program (op self)) }
        ensures { result ≡ length (successors_at ctx.now.program (op self)) };

    /// The successor at an index.
    fn get_successor<O, B, T: TypeTable>(
        self,
        ctx: &TypedProgram<O, B, T>,
        i: usize,
    ) -> Ptr<BasicBlock>
        requires { i < length (successors_at ctx.now.program (op self)) }
        ensures exact { slice_get (successors_at ctx.now.program (op self)) i ≡ Some result }
        ensures live { IsSome (block_at ctx.now.program result) };

    /// Gives the operation one successor more, behind the others.
    ///
    /// # Errors
    /// Without memory nothing is changed.
    fn push_successor<O, B, T: TypeTable>(
        self,
        _alloc: Global,
        ctx: &mut TypedProgram<O, B, T>,
        block: Ptr<BasicBlock>,
    ) -> Result<(), AllocError>
        requires operation { IsSome (operation_at ctx.old.program (op self)) }
        requires block { IsSome (block_at ctx.old.program block) }
        ensures pushed { OnOk result (PushesSuccessor ctx.old.program ctx.new.program (op self) block) }
        ensures err { OnErr result (IsUnchanged ctx.old.program ctx.new.program) }
        ensures values { KeepsValues ctx.old.program ctx.new.program }
        ensures types { ctx.new.types ≡ ctx.old.types };

    /// Puts a successor at an index. Those that stood there and behind move back by one.
    ///
    /// # Errors
    /// Without memory nothing is changed.
    fn insert_successor<O, B, T: TypeTable>(
        self,
        _alloc: Global,
        ctx: &mut TypedProgram<O, B, T>,
        i: usize,
        block: Ptr<BasicBlock>,
    ) -> Result<(), AllocError>
        requires operation { IsSome (operation_at ctx.old.program (op self)) }
        requires within { i ≤ length (successors_at ctx.old.program (op self)) }
        requires block { IsSome (block_at ctx.old.program block) }
        ensures inserted { OnOk result (InsertsSuccessor ctx.old.program ctx.new.program (op self) i block) }
        ensures err { OnErr result (IsUnchanged ctx.old.program ctx.new.program) }
        ensures values { KeepsValues ctx.old.program ctx.new.program }
        ensures types { ctx.new.types ≡ ctx.old.types };

    /// Takes away the last successor, if there is one.
    fn pop_successor<O, B, T: TypeTable>(
        self,
        ctx: &mut TypedProgram<O, B, T>,
    ) -> Option<Ptr<BasicBlock>>
        requires { IsSome (operation_at ctx.old.program (op self)) }
        ensures block { MatchOption result (successors_at ctx.old.program (op self) ≡ [])
            (λ b. successors_at ctx.old.program (op self) ≡ successors_at ctx.new.program (op self) ++ b ∷ []) }
        ensures popped { ChangesSuccessors ctx.old.program ctx.new.program (op self) }
        ensures none { IsNone result → IsUnchanged ctx.old.program ctx.new.program }
        ensures values { KeepsValues ctx.old.program ctx.new.program }
        ensures types { ctx.new.types ≡ ctx.old.types };

    /// Takes away the successor at an index. Those behind it move up by one.
    fn remove_successor<O, B, T: TypeTable>(
        self,
        ctx: &mut TypedProgram<O, B, T>,
        i: usize,
    ) -> Ptr<BasicBlock>
        requires { i < length (successors_at ctx.old.program (op self)) }
        ensures block { slice_get (successors_at ctx.old.program (op self)) i ≡ Some result }
        ensures removed { RemovesSuccessor ctx.old.program ctx.new.program (op self) i }
        ensures values { KeepsValues ctx.old.program ctx.new.program }
        ensures types { ctx.new.types ≡ ctx.old.types };

    /// Puts another block in place of the successor at an index. The parameter stays for callers that allocate; no memory
    /// is asked for.
    fn replace_successor<O, B, T: TypeTable>(
        self,
        _alloc: Global,
        ctx: &mut TypedProgram<O, B, T>,
        i: usize,
        block: Ptr<BasicBlock>,
    ) -> Result<(), AllocError>
        requires within { i < length (successors_at ctx.old.program (op self)) }
        requires block { IsSome (block_at ctx.old.program block) }
        ensures succeeds { IsOk result }
        ensures replaced { ReplacesSuccessor ctx.old.program ctx.new.program (op self) i block }
        ensures values { KeepsValues ctx.old.program ctx.new.program }
        ensures types { ctx.new.types ≡ ctx.old.types };
}

impl SuccessorCalls for Ptr<Operation> {
    ghost op = { λ p. p };

    fn get_num_successors<O, B, T: TypeTable>(self, ctx: &TypedProgram<O, B, T>) -> usize {
        ctx.program.successor_count(self)
    }

    fn get_successor<O, B, T: TypeTable>(
        self,
        ctx: &TypedProgram<O, B, T>,
        i: usize,
    ) -> Ptr<BasicBlock> {
        ctx.program.successor(self, i)
    }

    fn push_successor<O, B, T: TypeTable>(
        self,
        _alloc: Global,
        ctx: &mut TypedProgram<O, B, T>,
        block: Ptr<BasicBlock>,
    ) -> Result<(), AllocError> {
        ctx.program.push_successor(self, block)
    }

    fn insert_successor<O, B, T: TypeTable>(
        self,
        _alloc: Global,
        ctx: &mut TypedProgram<O, B, T>,
        i: usize,
        block: Ptr<BasicBlock>,
    ) -> Result<(), AllocError> {
        ctx.program.insert_successor(self, i, block)
    }

    fn pop_successor<O, B, T: TypeTable>(
        self,
        ctx: &mut TypedProgram<O, B, T>,
    ) -> Option<Ptr<BasicBlock>> {
        ctx.program.pop_successor(self)
    }

    fn remove_successor<O, B, T: TypeTable>(
        self,
        ctx: &mut TypedProgram<O, B, T>,
        i: usize,
    ) -> Ptr<BasicBlock> {
        ctx.program.remove_successor(self, i)
    }

    fn replace_successor<O, B, T: TypeTable>(
        self,
        _alloc: Global,
        ctx: &mut TypedProgram<O, B, T>,
        i: usize,
        block: Ptr<BasicBlock>,
    ) -> Result<(), AllocError> {
        ctx.program.replace_successor(self, i, block);
        Ok(())
    }
}
