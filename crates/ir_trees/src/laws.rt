//! Which trees operations stand for, and what edits of a program are on them.
ghost use Rattle.std.specs.Prelude.{◌↔◌, ℕ, Some, IsSome, slice_get, ◌≡◌};
ghost use Rattle.ir_program.specs.Edits.{EditsOperation, EditsBlock, EditsOperations};
ghost use Rattle.ir_program.specs.Lists.{StandsInside};
ghost use Rattle.ir_program.specs.Program.{operation_at};
ghost use Rattle.ir_program.specs.Rows.{operands_at, successors_at};
ghost use Rattle.ir_program.specs.declared.handles.IRNode.TheVariants.{Operation as OperationNode, BasicBlock as BlockNode};
ghost use Rattle.ir_program.specs.declared.handles.BasicBlock.{BasicBlock};
ghost use Rattle.ir_program.specs.declared.handles.Operation.{Operation};
ghost use Rattle.ir_program.specs.declared.handles.Ptr.{Ptr};
ghost use Rattle.ir_program.specs.declared.handles.Value.{Value};
ghost use Rattle.ir_trees.specs.Rewrites.{EditsHead, EditsLabel, IsOfHead, IsOfLabel, KeepsInside, Rewriting, RewritesInside, TurnsInto, rewritten_root, with_heads, with_labels};
ghost use Rattle.ir_trees.specs.Searched.{AreDistinct, Lists, operation_names, block_names, UsesValue, UsesBlock};
ghost use Rattle.ir_trees.specs.Stands.{ProgramTree, by_handle, in_program, StandsFor};

use ir_program::{IRNode, Operation, Program, Ptr};

/// Tells that an operation that is there stands for a tree. It does nothing.
pub fn know_tree<O, B>(program: &Program<O, B>, op: Ptr<Operation>)
    requires { IsSome (operation_at program.now op) }
    ensures { (t : ProgramTree O B) × StandsFor program.now op t }
{
    let _inside = program.nodes_inside(IRNode::Operation(op));
}

/// Tells that no operation stands for two trees. It does nothing.
pub fn know_one_tree<O, B>(_program: &Program<O, B>)
    ensures { (op : Ptr Operation) (t u : ProgramTree O B) → StandsFor _program.now op t → StandsFor _program.now op u
        → t ≡ u }
{}

/// Tells which handles are in the tree that an operation stands for: those of the operations and blocks inside it, each
/// once. It does nothing.
pub fn know_handles<O, B>(program: &Program<O, B>, op: Ptr<Operation>)
    requires { IsSome (operation_at program.now op) }
    ensures once { (t : ProgramTree O B) → StandsFor program.now op t → AreDistinct (operation_names t) }
    ensures blocks_once { (t : ProgramTree O B) → StandsFor program.now op t → AreDistinct (block_names t) }
    ensures inside { (t : ProgramTree O B) → StandsFor program.now op t → (p : Ptr Operation)
        → Lists (operation_names t) p ↔ StandsInside program.now (OperationNode op) (OperationNode p) }
    ensures blocks_inside { (t : ProgramTree O B) → StandsFor program.now op t → (b : Ptr BasicBlock)
        → Lists (block_names t) b ↔ StandsInside program.now (OperationNode op) (BlockNode b) }
{
    let _inside = program.nodes_inside(IRNode::Operation(op));
}

/// Tells that the uses that are found in the tree of an operation by search are those of the program whose user is inside
/// the operation. It does nothing.
pub fn know_uses<O, B>(program: &Program<O, B>, op: Ptr<Operation>)
    requires { IsSome (operation_at program.now op) }
    ensures operands { (t : ProgramTree O B) → StandsFor program.now op t → (x : Value) (p : Ptr Operation) (i : ℕ)
        → UsesValue t x p i ↔ (StandsInside program.now (OperationNode op) (OperationNode p)
        × (slice_get (operands_at program.now p) i ≡ Some x)) }
    ensures successors { (t : ProgramTree O B) → StandsFor program.now op t
        → (x : Ptr BasicBlock) (p : Ptr Operation) (i : ℕ)
        → UsesBlock t x p i ↔ (StandsInside program.now (OperationNode op) (OperationNode p)
        × (slice_get (successors_at program.now p) i ≡ Some x)) }
{
    let _inside = program.nodes_inside(IRNode::Operation(op));
}

/// Tells that an operation stands for the tree that it stood for, where all that is inside it leads to what it led to,
/// whatever has changed elsewhere. It does nothing.
pub fn know_unmoved<O, B>(_old: &Program<O, B>, _new: &Program<O, B>)
    ensures { (op : Ptr Operation) (t : ProgramTree O B) → KeepsInside _old.now _new.now op → StandsFor _old.now op t
        → StandsFor _new.now op t }
{}

/// Tells what edits of operations and of blocks that leave in place what these hold are on trees: the same tree with other
/// heads or labels. Of all operations at once, as where all uses of a value are replaced; of one operation; of one block. It
/// does nothing.
pub fn know_edited<O, B>(_old: &Program<O, B>, _new: &Program<O, B>)
    ensures all { (edit : _) (f : _) → EditsOperations _old.now _new.now edit
        → ((p : Ptr Operation) → EditsHead p (edit p) f) → TurnsInto _old.now _new.now (with_heads f) }
    ensures one { (p : Ptr Operation) (edit : _) (f : _) → EditsOperation _old.now _new.now p edit
        → EditsHead p edit f → IsOfHead p f → TurnsInto _old.now _new.now (with_heads f) }
    ensures block { (b : Ptr BasicBlock) (edit : _) (g : _) → EditsBlock _old.now _new.now b edit
        → EditsLabel b edit g → IsOfLabel b g → TurnsInto _old.now _new.now (with_labels g) }
{}

/// Tells what a whole pass makes of a tree: where each record of an operation or a block that stays is one rewriting of its
/// old record, the new tree is that rewriting of the old tree. It does nothing.
pub fn know_rewritten<O, B>(_old: &Program<O, B>, _new: &Program<O, B>)
    ensures { (op : Ptr Operation) (w : Rewriting by_handle (in_program O B)) (t : ProgramTree O B)
        → RewritesInside _old.now _new.now op w → StandsFor _old.now op t → StandsFor _new.now op (rewritten_root w t) }
{}
