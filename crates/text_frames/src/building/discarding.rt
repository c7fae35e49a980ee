//! Taking out again what was made.
ghost use Rattle.std.specs.Prelude.{◌≡◌, ◌∷◌, []};
ghost use Rattle.ir_program.specs.Edits.{KeepsErased};
ghost use Rattle.text_dialect.specs.Seen.{Seen, seen};
ghost use Rattle.text_frames.specs.building.Kept.{SameSeen};
ghost use Rattle.text_frames.specs.building.Inside.{AreLoose, AreUnused, AreUsedInside, CameSince, DropsUsesInNodes, ErasesNodes};
ghost use Rattle.text_frames.specs.building.Inside.{IsLoose, KeepsPayloadsOutside};

use ir_context::{BlockErasing, Context, OperationErasing};
use ir_program::IRNode;
use ir_types::DialectTables;

/// Takes the operands and successors of all operations inside these things away.
fn drop_uses<D: DialectTables>(ctx: &mut Context<D>, things: &[IRNode])
    requires loose { AreLoose (seen ctx.old) things.now }
    ensures dropped { DropsUsesInNodes (seen ctx.old) (seen ctx.new) things.now }
    ensures erased { KeepsErased ctx.old.program ctx.new.program }
    ensures payloads { KeepsPayloadsOutside (seen ctx.old) things.now ctx.old.program ctx.new.program }
    ensures types { ctx.new.types ≡ ctx.old.types }
{
    ctx.program().know_lists();
    for thing in things {
        ctx.program().know_lists();
        ctx.drop_all_uses(*thing);
    }
}

/// Erases an operation that is in no block, or a block that is in no region, with all that is inside it.
fn erase_thing<D: DialectTables>(ctx: &mut Context<D>, thing: IRNode)
    requires loose { IsLoose (seen ctx.old) thing }
    requires unused { AreUnused (seen ctx.old) (thing ∷ []) }
    ensures gone { ErasesNodes (seen ctx.old) (seen ctx.new) (thing ∷ []) }
    ensures erased { KeepsErased ctx.old.program ctx.new.program }
    ensures payloads { KeepsPayloadsOutside (seen ctx.old) (thing ∷ []) ctx.old.program ctx.new.program }
    ensures types { ctx.new.types ≡ ctx.old.types }
{
    ctx.program().know_lists();
    match thing {
        IRNode::Operation(op) => op.erase(ctx),
        IRNode::BasicBlock(block) => block.erase(ctx),
        IRNode::Region(_) => unreachable!(),
    }
}

/// Erases these things, one after the other.
fn erase_all<D: DialectTables>(ctx: &mut Context<D>, things: &[IRNode])
    requires loose { AreLoose (seen ctx.old) things.now }
    requires unused { AreUnused (seen ctx.old) things.now }
    ensures gone { ErasesNodes (seen ctx.old) (seen ctx.new) things.now }
    ensures erased { KeepsErased ctx.old.program ctx.new.program }
    ensures payloads { KeepsPayloadsOutside (seen ctx.old) things.now ctx.old.program ctx.new.program }
    ensures types { ctx.new.types ≡ ctx.old.types }
{
    ctx.program().know_lists();
    for thing in things {
        erase_thing(ctx, *thing);
    }
}

/// Takes these things out of the context with all that is inside them: operations that are in no block and blocks
/// that are in no region, of which what is inside is used inside alone. So a context gets back what it had before
/// they were made. Handles of what is taken out lead nowhere for good. No memory is asked for.
pub fn discard<D: DialectTables>(ctx: &mut Context<D>, things: &[IRNode])
    requires loose { AreLoose (seen ctx.old) things.now }
    requires used { AreUsedInside (seen ctx.old) things.now }
    ensures gone { ErasesNodes (seen ctx.old) (seen ctx.new) things.now }
    // Where all that came since the start is inside these things, all is as it was at the start.
    ensures undone { (start : Seen D.OpKind D.Attr D.TypeKey) → CameSince start (seen ctx.old) things.now
        → SameSeen start (seen ctx.new) }
    ensures erased { KeepsErased ctx.old.program ctx.new.program }
    // What is inside none of these keeps its payload, as its location.
    ensures payloads { KeepsPayloadsOutside (seen ctx.old) things.now ctx.old.program ctx.new.program }
    ensures types { ctx.new.types ≡ ctx.old.types }
{
    ctx.program().know_lists();
    drop_uses(ctx, things);
    erase_all(ctx, things);
}
