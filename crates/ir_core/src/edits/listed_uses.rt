//! Edits of the uses at the places of a list.
ghost use Rattle.std.specs.Prelude.{◌≡◌, ◌↔◌, ◌++◌, ◌∷◌, [], OnOk, MatchOption, Some, IfSome, IfNone, IfOk, IsTrue, slice_get};
ghost use Rattle.ir_program.specs.Rows.{operands_at, successors_at};
ghost use Rattle.ir_program.specs.declared.handles.Ptr.{Ptr};
ghost use Rattle.ir_program.specs.declared.handles.Operation.{Operation};
ghost use Rattle.ir_core.specs.declared.edits.edit.PlaceAt.{PlaceAt};
ghost use Rattle.ir_core.specs.edits.Naming.{operation_named, NameEach};
ghost use Rattle.ir_core.specs.edits.UseEdits.{AreListedUses, ReplacesSomeUses, RetargetsSome};

use crate::edits::uses::{is_operand, is_successor};
use crate::edits::{Entity, PlaceAt, naming};
use ir_context::{
    BlockCalls, CoreError, PredecessorCalls, TypeTable, TypedProgram, UseCalls, ValueCalls,
};
use ir_program::{BasicBlock, Operation, Ptr, Use, Value};
use std::alloc::{AllocError, Global};

/// Puts what was found, if anything was, behind the others.
fn push_found<T: Drop>(uses: &mut Vec<T>, found: Option<T>) -> Result<(), AllocError>
    ensures { OnOk result (MatchOption found (uses.new.items ≡ uses.old.items)
        (λ u. uses.new.items ≡ uses.old.items ++ u ∷ [])) }
{
    if let Some(item) = found {
        uses.push(item)?;
    }
    Ok(())
}

/// Whether the operation of each place is named.
fn are_named(made: &[Option<Entity>], places: &[PlaceAt]) -> bool
    ensures { IsTrue result ↔ NameEach (λ (at : PlaceAt). operation_named made.now at.user_op)
        (λ _. Unit {0}) places.now }
{
    for place in places {
        let Some(_) = naming::operation(made, place.user_op) else {
            return false;
        };
    }
    true
}

/// The place as a use, where the value is there.
fn operand_use<O, B, T: TypeTable>(
    ctx: &TypedProgram<O, B, T>,
    made: &[Option<Entity>],
    place: PlaceAt,
    value: Value,
) -> Option<Use<Value>>
    ensures found { IfSome result (λ u. (operation_named made.now place.user_op ≡ Some u.user_op)
        × (u.index ≡ place.index) × (u.def ≡ value)
        × (slice_get (operands_at ctx.now.program u.user_op) u.index ≡ Some value)) }
    ensures none { IfNone result ((p : Ptr Operation) → operation_named made.now place.user_op ≡ Some p
        → slice_get (operands_at ctx.now.program p) place.index ≡ Some value → ⊥) }
{
    let user_op = naming::operation(made, place.user_op)?;
    if !is_operand(ctx, user_op, place.index, value) {
        return None;
    }
    Some(Use {
        user_op,
        index: place.index,
        def: value,
    })
}

/// The uses of the value that stand in the list.
///
/// # Errors
/// Where there is no memory.
fn listed_operands<O, B, T: TypeTable>(
    alloc: Global,
    ctx: &TypedProgram<O, B, T>,
    made: &[Option<Entity>],
    places: &[PlaceAt],
    value: Value,
) -> Result<Vec<Use<Value>>, AllocError>
    ensures { IfOk result (λ us. AreListedUses made.now places.now (operands_at ctx.now.program) value us.items) }
{
    let mut uses = Vec::new(alloc);
    for place in places {
        push_found(&mut uses, operand_use(ctx, made, *place, value))?;
    }
    Ok(uses)
}

/// Puts another value in place of the value, at those of its uses that stand in the list.
pub fn replace_some_uses<O, B, T: TypeTable>(
    ctx: &mut TypedProgram<O, B, T>,
    made: &[Option<Entity>],
    value: Value,
    places: &[PlaceAt],
    other: Value,
) -> Result<Option<Entity>, CoreError>
    ensures { ReplacesSomeUses ctx.old value made.now places.now other ctx.new result }
{
    if !value.is_live(ctx) || !other.is_live(ctx) || !are_named(made, places) {
        return Err(CoreError::EditNotAllowed);
    }
    let Ok(uses) = listed_operands(ctx.allocator(), ctx, made, places, value) else {
        return Err(CoreError::Memory);
    };
    let _succeeds = value.replace_uses_with(ctx.allocator(), ctx, &uses, other);
    Ok(None)
}

/// The place as a use, where the block is there.
fn successor_use<O, B, T: TypeTable>(
    ctx: &TypedProgram<O, B, T>,
    made: &[Option<Entity>],
    place: PlaceAt,
    block: Ptr<BasicBlock>,
) -> Option<Use<Ptr<BasicBlock>>>
    ensures found { IfSome result (λ u. (operation_named made.now place.user_op ≡ Some u.user_op)
        × (u.index ≡ place.index) × (u.def ≡ block)
        × (slice_get (successors_at ctx.now.program u.user_op) u.index ≡ Some block)) }
    ensures none { IfNone result ((p : Ptr Operation) → operation_named made.now place.user_op ≡ Some p
        → slice_get (successors_at ctx.now.program p) place.index ≡ Some block → ⊥) }
{
    let user_op = naming::operation(made, place.user_op)?;
    if !is_successor(ctx, user_op, place.index, block) {
        return None;
    }
    Some(Use {
        user_op,
        index: place.index,
        def: block,
    })
}

/// The uses of the block that stand in the list.
///
/// # Errors
/// Where there is no memory.
fn listed_successors<O, B, T: TypeTable>(
    alloc: Global,
    ctx: &TypedProgram<O, B, T>,
    made: &[Option<Entity>],
    places: &[PlaceAt],
    block: Ptr<BasicBlock>,
) -> Result<Vec<Use<Ptr<BasicBlock>>>, AllocError>
    ensures { IfOk result (λ us. AreListedUses made.now places.now (successors_at ctx.now.program) block us.items) }
{
    let mut uses = Vec::new(alloc);
    for place in places {
        push_found(&mut uses, successor_use(ctx, made, *place, block))?;
    }
    Ok(uses)
}

/// Makes the edges to a block lead to another, those that stand in the list.
pub fn retarget_some<O, B, T: TypeTable>(
    ctx: &mut TypedProgram<O, B, T>,
    made: &[Option<Entity>],
    block: Ptr<BasicBlock>,
    places: &[PlaceAt],
    other: Ptr<BasicBlock>,
) -> Result<Option<Entity>, CoreError>
    ensures { RetargetsSome ctx.old block made.now places.now other ctx.new result }
{
    if !block.is_live(ctx) || !other.is_live(ctx) || !are_named(made, places) {
        return Err(CoreError::EditNotAllowed);
    }
    let Ok(uses) = listed_successors(ctx.allocator(), ctx, made, places, block) else {
        return Err(CoreError::Memory);
    };
    let _succeeds = block.retarget_preds_to(ctx.allocator(), ctx, &uses, other);
    Ok(None)
}
