//! Lists of names: whether each stands for something, and for what.
ghost use Rattle.std.specs.Prelude.{◌≡◌, ◌↔◌, Some, IsSome, IsTrue, IfOk};
ghost use Rattle.ir_program.specs.Program.{block_at, IsLiveValue};
ghost use Rattle.ir_program.specs.declared.handles.Ptr.{Ptr};
ghost use Rattle.ir_program.specs.declared.handles.Operation.{Operation};
ghost use Rattle.ir_program.specs.declared.handles.BasicBlock.{BasicBlock};
ghost use Rattle.ir_program.specs.declared.handles.Value.{Value};
ghost use Rattle.ir_context.specs.Known.{AreKnownIn};
ghost use Rattle.ir_core.specs.edits.Naming.{block_named, value_named, NameEach, AreNamed};

use crate::edits::naming::{block, value};
use crate::edits::{At, Entity, ValueAt};
use ir_context::{BlockCalls, TypeCalls, TypeTable, TypedProgram, ValueCalls};
use ir_names::TypeHandle;
use ir_program::{BasicBlock, Ptr, Value};
use std::alloc::{AllocError, Global};

/// Whether each of the handles leads to a type.
pub fn are_known<O, B, T: TypeTable>(ctx: &TypedProgram<O, B, T>, types: &[TypeHandle]) -> bool
    ensures { IsTrue result ↔ AreKnownIn (T.type_count ctx.now.types) types.now }
{
    for ty in types {
        if !ty.is_live(ctx) {
            return false;
        }
    }
    true
}

/// Whether each of the names stands for a value that stands at its definer.
pub fn name_live_values<O, B, T: TypeTable>(
    ctx: &TypedProgram<O, B, T>,
    made: &[Option<Entity>],
    names: &[ValueAt],
) -> bool
    ensures { IsTrue result ↔ NameEach (value_named ctx.now.program made.now) (IsLiveValue ctx.now.program) names.now }
{
    for name in names {
        let Some(value) = value(ctx, made, *name) else {
            return false;
        };
        if !value.is_live(ctx) {
            return false;
        }
    }
    true
}

/// The values that the names stand for.
///
/// # Errors
/// Where there is no memory.
pub fn values<O, B, T: TypeTable>(
    alloc: Global,
    ctx: &TypedProgram<O, B, T>,
    made: &[Option<Entity>],
    names: &[ValueAt],
) -> Result<Vec<Value>, AllocError>
    requires { NameEach (value_named ctx.now.program made.now) (IsLiveValue ctx.now.program) names.now }
    ensures { IfOk result (λ vs. AreNamed (value_named ctx.now.program made.now) names.now vs.items) }
{
    let mut values = Vec::new(alloc);
    for name in names {
        match value(ctx, made, *name) {
            Some(value) => values.push(value)?,
            None => unreachable!(),
        }
    }
    Ok(values)
}

/// Whether each of the names stands for a block that is there.
pub fn name_live_blocks<O, B, T: TypeTable>(
    ctx: &TypedProgram<O, B, T>,
    made: &[Option<Entity>],
    names: &[At<Ptr<BasicBlock>>],
) -> bool
    ensures { IsTrue result ↔ NameEach (block_named made.now) (λ b. IsSome (block_at ctx.now.program b)) names.now }
{
    for name in names {
        let Some(block) = block(made, *name) else {
            return false;
        };
        if !block.is_live(ctx) {
            return false;
        }
    }
    true
}

/// The blocks that the names stand for.
///
/// # Errors
/// Where there is no memory.
pub fn blocks<O, B, T: TypeTable>(
    alloc: Global,
    ctx: &TypedProgram<O, B, T>,
    made: &[Option<Entity>],
    names: &[At<Ptr<BasicBlock>>],
) -> Result<Vec<Ptr<BasicBlock>>, AllocError>
    requires { NameEach (block_named made.now) (λ b. IsSome (block_at ctx.now.program b)) names.now }
    ensures { IfOk result (λ bs. AreNamed (block_named made.now) names.now bs.items) }
{
    let _program = ctx.program();
    let mut blocks = Vec::new(alloc);
    for name in names {
        match block(made, *name) {
            Some(block) => blocks.push(block)?,
            None => unreachable!(),
        }
    }
    Ok(blocks)
}
