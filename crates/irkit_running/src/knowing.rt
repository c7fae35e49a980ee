//! What a driver knows of a module that a context holds.
ghost use Rattle.std.specs.Prelude.{ℕ, IsSome};
ghost use Rattle.ir_forest.specs.Closed.{IsClosedTree, IsNumbered};
ghost use Rattle.ir_print.specs.Pieces.{Entity};
ghost use Rattle.ir_program.specs.Program.{operation_at};
ghost use Rattle.kit_language.specs.Language.{kit_language};
ghost use Rattle.kit_ruled_passes.specs.Held.{HoldsModule};
ghost use Rattle.kit_optimiser.specs.Programs.{IsOrdinary};
ghost use Rattle.kit.specs.Says.{says};
ghost use Rattle.text_dialect.specs.Seen.{seen};
ghost use Rattle.text_dialect.specs.Standing.{StandsForTexts};
ghost use Rattle.text_rereading.specs.Rereading.{Numbering, Named};
ghost use Rattle.irkit_running.specs.Known.{CanBeWritten, HasOwnText, HaveDistinctNumbers};
ghost use Rattle.irkit_refusals.specs.Texts.{HoldsText};

use ir_context::Context;
use ir_program::{IRNode, Operation, Ptr};
use ir_trees::{know_handles, know_tree};
use kit::Kit;
use kit_pass_rules::know_handles_and_types;
use kit_ruled_passes::{know_edges, know_scopes};
use kit_written_trees::writable_trees_have_texts;

/// Tells of an operation that stands for a closed tree of texts, numbered in its order, that it holds it: its own tree is
/// there, whose blocks have the numbers of the text, names are distinct in it, each type has one handle, and values have
/// the types that are written. It does nothing.
pub(crate) fn know_holding(ctx: &Context<Kit>, root: Ptr<Operation>)
    requires { IsSome (operation_at ctx.now.program root) }
    ensures { (text : Entity ℕ) (numbering : Numbering) → HaveDistinctNumbers numbering.values
        → StandsForTexts says (Named numbering) (seen ctx.now) root text → IsClosedTree kit_language text
        → IsNumbered text → HoldsText text ctx.now root }
{
    know_ordinary(ctx, root);
    ctx.types().know_distinct();
    let program = ctx.program();
    program.know_values();
    know_tree(program, root);
    know_handles_and_types(ctx, root);
}

/// Tells of the tree of an operation that names are apart in it, and that values have the types that it says. It does
/// nothing.
pub(crate) fn know_ordinary(ctx: &Context<Kit>, root: Ptr<Operation>)
    requires { IsSome (operation_at ctx.now.program root) }
    ensures { IsOrdinary ctx.now root }
{
    know_handles_and_types(ctx, root);
    let program = ctx.program();
    program.know_lists();
    program.know_values();
    know_handles(program, root);
    let _inside = program.nodes_inside(IRNode::Operation(root));
}

/// Tells of a module that can be written that it has a closed tree of texts, numbered in the order of the text. It does
/// nothing.
pub(crate) fn know_own_text(ctx: &Context<Kit>, root: Ptr<Operation>)
    requires holds { HoldsModule ctx.now root }
    requires writable { CanBeWritten ctx.now root }
    ensures { HasOwnText ctx.now root }
{
    know_holding(ctx, root);
    know_ordinary(ctx, root);
    know_scopes(ctx, root);
    know_edges(ctx, root, root);
    let program = ctx.program();
    program.know_lists();
    program.know_values();
    know_tree(program, root);
    writable_trees_have_texts();
}
