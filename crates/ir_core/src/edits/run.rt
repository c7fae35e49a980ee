//! Lists of edits.
ghost use Rattle.std.specs.Prelude.{◌≡◌, ◌⊎◌, [], Ok, Err, IfOk, IfErr, OnOk, length};
ghost use Rattle.ir_context.specs.Views.{ContextView};
ghost use Rattle.ir_types.specs.Views.{TypesView};
ghost use Rattle.ir_context.specs.declared.errors.CoreError.TheVariants.{Memory};
ghost use Rattle.ir_context.specs.declared.notes.OperationData.{OperationData};
ghost use Rattle.ir_context.specs.declared.notes.BlockNotes.{BlockNotes};
ghost use Rattle.ir_program.specs.Edits.{KeepsErased};
ghost use Rattle.ir_core.specs.edits.Steps.{RunsEdits, listed};

use crate::edits::apply::apply;
use crate::edits::{Edit, Entity};
use ir_context::{Context, CoreError};
use ir_types::DialectTables;
use std::alloc::{AllocError, Global};

/// Running lists of edits on a context.
pub trait RunEdits<D: DialectTables> {
    /// What contracts see of the context.
    ghost context: { Self
        → ContextView (OperationData D D.TypeKind D.AttrKind D.TypeBody D.Saved D.Location D.OpKind D.Attr D.TypeKey)
        (BlockNotes D D.TypeKind D.AttrKind D.TypeBody D.Saved D.Location D.OpKind D.Attr D.TypeKey)
        (TypesView D.TypeKey D.TypeBody D.Saved) };

    /// Makes the edits in order, up to the first that is refused. Those before it stand, and the rest is dropped. A handle
    /// that was given out and leads nowhere leads nowhere for good.
    ///
    /// Of each edit it answers what it made: an operation, a region, a block or a value, or `None` where it makes nothing.
    ///
    /// # Errors
    /// The number of the edit that was refused, from 0 on, and why: `EditNotAllowed` where a name stands for nothing or the
    /// condition of the call doesn't hold, else `Memory` or `CounterFull` as the call answers; that edit changes nothing. Where
    /// there is no room for the answer, `Memory` with number 0, and nothing is changed.
    fn run(
        &mut self,
        edits: Vec<Edit<D::OpKind>>,
    ) -> Result<Vec<Option<Entity>>, (usize, CoreError)>
        ensures runs { RunsEdits D.nowhere (context self.old) [] edits.items (context self.new) (listed result)
            ⊎ ((result ≡ Err (0, Memory)) × (context self.new ≡ context self.old)) }
        ensures erased { KeepsErased (context self.old).program (context self.new).program };
}

impl<D: DialectTables> RunEdits<D> for Context<D> {
    ghost context = { λ c. c };

    fn run(
        &mut self,
        edits: Vec<Edit<D::OpKind>>,
    ) -> Result<Vec<Option<Entity>>, (usize, CoreError)>
        ensures runs { RunsEdits D.nowhere self.old [] edits.items self.new (listed result)
            ⊎ ((result ≡ Err (0, Memory)) × (self.new ≡ self.old)) }
        ensures erased { KeepsErased self.old.program self.new.program }
    {
        let Ok(mut made) = room_for(self.allocator(), edits.len()) else {
            return Err((0, CoreError::Memory));
        };
        match run_all(self, &edits, &mut made) {
            Ok(()) => Ok(made),
            Err(refused) => Err(refused),
        }
    }
}

/// As many places, each for what an edit makes.
fn room_for(alloc: Global, count: usize) -> Result<Vec<Option<Entity>>, AllocError>
    ensures { IfOk result (λ made. length made.items ≡ count) }
{
    vec![in alloc; None; count]
}

/// Makes the edits in order, up to the first that is refused, and writes down what they make.
///
/// # Errors
/// The number of the edit that was refused, and why.
fn run_all<D: DialectTables>(
    ctx: &mut Context<D>,
    edits: &[Edit<D::OpKind>],
    made: &mut Vec<Option<Entity>>,
) -> Result<(), (usize, CoreError)>
    requires { length made.old.items ≡ length edits.now }
    ensures all { OnOk result (RunsEdits D.nowhere ctx.old [] edits.now ctx.new (Ok made.new.items)) }
    ensures refused { IfErr result (λ e. RunsEdits D.nowhere ctx.old [] edits.now ctx.new (Err e)) }
    ensures erased { KeepsErased ctx.old.program ctx.new.program }
{
    for index in 0..edits.len() {
        match apply(ctx, &made[..index], &edits[index]) {
            Ok(entity) => made[index] = entity,
            Err(refusal) => return Err((index, refusal)),
        }
    }
    Ok(())
}
