//! What is asked of a use: whether it stands, and what it names.
ghost use Rattle.std.specs.Prelude.{◌≡◌, ◌↔◌, Some, IsOk, IfOk};
ghost use Rattle.ir_program.specs.declared.handles.Ptr.{Ptr};
ghost use Rattle.ir_program.specs.declared.handles.BasicBlock.{BasicBlock};
ghost use Rattle.ir_program.specs.declared.handles.Value.{Value};
ghost use Rattle.ir_program.specs.declared.handles.Use.{Use};
ghost use Rattle.ir_program.specs.Program.{type_at};
ghost use Rattle.ir_program.specs.Uses.{IsUse, IsBlockUse};
ghost use Rattle.ir_context.specs.Known.{IsKnownIn};

use crate::finding::{is_edge, is_use};
use ir_context::{DefUseVerifyErr, TypeTable, TypedProgram};
use ir_names::TypeHandle;
use ir_program::{BasicBlock, Ptr, Use, Value};

/// A use of a value. It stands where its operation has the value as its operand at the index.
pub trait OperandPlace {
    /// The use.
    ghost place: { Self → Use Value };

    /// The index of the operand.
    ///
    /// # Errors
    /// Refused exactly where the use does not stand.
    fn try_find_index<O, B, T: TypeTable>(
        &self,
        ctx: &TypedProgram<O, B, T>,
    ) -> Result<usize, DefUseVerifyErr>
        ensures stands { IsOk result ↔ IsUse ctx.now.program (place self.now) }
        ensures index { IfOk result (λ i. i ≡ (place self.now).index) };

    /// The index of the operand.
    fn find_index<O, B, T: TypeTable>(&self, ctx: &TypedProgram<O, B, T>) -> usize
        requires { IsUse ctx.now.program (place self.now) }
        ensures { result ≡ (place self.now).index };

    /// The value that is used.
    fn get_def<O, B, T: TypeTable>(&self, ctx: &TypedProgram<O, B, T>) -> Value
        requires { IsUse ctx.now.program (place self.now) }
        ensures { result ≡ (place self.now).def };

    /// The type of the value that is used, which is one of the context's types.
    fn get_type<O, B, T: TypeTable>(&self, ctx: &TypedProgram<O, B, T>) -> TypeHandle
        requires { IsUse ctx.now.program (place self.now) }
        ensures exact { type_at ctx.now.program (place self.now).def ≡ Some result }
        ensures known { IsKnownIn (T.type_count ctx.now.types) result };
}

impl OperandPlace for Use<Value> {
    ghost place = { λ u. u };

    fn try_find_index<O, B, T: TypeTable>(
        &self,
        ctx: &TypedProgram<O, B, T>,
    ) -> Result<usize, DefUseVerifyErr> {
        if !is_use(ctx.program(), self) {
            return Err(DefUseVerifyErr::OperandNotUseOfDef);
        }
        Ok(self.index)
    }

    fn find_index<O, B, T: TypeTable>(&self, _ctx: &TypedProgram<O, B, T>) -> usize {
        self.index
    }

    fn get_def<O, B, T: TypeTable>(&self, _ctx: &TypedProgram<O, B, T>) -> Value {
        self.def
    }

    fn get_type<O, B, T: TypeTable>(&self, ctx: &TypedProgram<O, B, T>) -> TypeHandle {
        ctx.program().know_operands();
        ctx.know_types();
        ctx.program().value_type(self.def)
    }
}

/// A use of a block. It stands where its operation has the block as its successor at the index.
pub trait SuccessorPlace {
    /// The use.
    ghost place: { Self → Use (Ptr BasicBlock) };

    /// The index of the successor.
    ///
    /// # Errors
    /// Refused exactly where the use does not stand.
    fn try_find_index<O, B, T: TypeTable>(
        &self,
        ctx: &TypedProgram<O, B, T>,
    ) -> Result<usize, DefUseVerifyErr>
        ensures stands { IsOk result ↔ IsBlockUse ctx.now.program (place self.now) }
        ensures index { IfOk result (λ i. i ≡ (place self.now).index) };

    /// The index of the successor.
    fn find_index<O, B, T: TypeTable>(&self, ctx: &TypedProgram<O, B, T>) -> usize
        requires { IsBlockUse ctx.now.program (place self.now) }
        ensures { result ≡ (place self.now).index };

    /// The block that is used.
    fn get_def<O, B, T: TypeTable>(&self, ctx: &TypedProgram<O, B, T>) -> Ptr<BasicBlock>
        requires { IsBlockUse ctx.now.program (place self.now) }
        ensures { result ≡ (place self.now).def };
}

impl SuccessorPlace for Use<Ptr<BasicBlock>> {
    ghost place = { λ u. u };

    fn try_find_index<O, B, T: TypeTable>(
        &self,
        ctx: &TypedProgram<O, B, T>,
    ) -> Result<usize, DefUseVerifyErr> {
        if !is_edge(ctx.program(), self) {
            return Err(DefUseVerifyErr::OperandNotUseOfDef);
        }
        Ok(self.index)
    }

    fn find_index<O, B, T: TypeTable>(&self, _ctx: &TypedProgram<O, B, T>) -> usize {
        self.index
    }

    fn get_def<O, B, T: TypeTable>(&self, _ctx: &TypedProgram<O, B, T>) -> Ptr<BasicBlock> {
        self.def
    }
}
