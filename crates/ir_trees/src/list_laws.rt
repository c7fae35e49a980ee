//! What single edits of lists, and of all uses of a value or a block, are on trees.
ghost use Rattle.std.specs.Prelude.{Bool, ℕ, IsSome};
ghost use Rattle.ir_program.specs.Program.{block_at};
ghost use Rattle.ir_program.specs.ListEdits.{PutsOperationFirst, PutsOperationLast, PutsOperationBefore, PutsOperationAfter, TakesOutOperation, TakesOutBlock};
ghost use Rattle.ir_program.specs.Lists.{CanAppendOperations, IsLinkedBlock, IsLinkedOperation, operations_in};
ghost use Rattle.ir_program.specs.Edits.{AppendsBlock};
ghost use Rattle.ir_program.specs.Erased.{ErasesBlock, ErasesOperation};
ghost use Rattle.ir_program.specs.RowEdits.{ReplacesOperand, ReplacesSuccessor};
ghost use Rattle.ir_program.specs.UseEdits.{ReplacesChosen, ReplacesValue, RetargetsBlock, RetargetsChosen};
ghost use Rattle.ir_program.specs.declared.handles.IRNode.TheVariants.{Operation as OperationNode, BasicBlock as BlockNode};
ghost use Rattle.ir_program.specs.declared.handles.BasicBlock.{BasicBlock};
ghost use Rattle.ir_program.specs.declared.handles.Operation.{Operation};
ghost use Rattle.ir_program.specs.declared.handles.Ptr.{Ptr};
ghost use Rattle.ir_program.specs.declared.handles.Use.{Use};
ghost use Rattle.ir_program.specs.declared.handles.Value.{Value};
ghost use Rattle.ir_trees.specs.ListRewrites.{CanBePutAt, TurnsIntoOutside, leaves_out, leaves_out_block, moves_to, puts_after, puts_before, puts_first, puts_last, with_chosen_replaced, with_chosen_retargeted, with_operand, with_replaced, with_retargeted, with_successor};
ghost use Rattle.ir_trees.specs.Rewrites.{TurnsInto, rewritten_root, with_heads};
ghost use Rattle.ir_trees.specs.Stands.{AreTree, ProgramTree, StandsFor};
ghost use Rattle.ir_trees.specs.Trees.{Operations};

use ir_program::{BasicBlock, IRNode, Program, Ptr};

/// Tells what replacing uses of a value is on trees: each operation stands for its old tree with the other value in place of
/// the operands that are replaced: one operand, all that are the value, or those that are chosen. It does nothing.
pub fn know_replaced<O, B>(_old: &Program<O, B>, _new: &Program<O, B>)
    ensures one { (op : Ptr Operation) (i : ℕ) (x : Value) → ReplacesOperand _old.now _new.now op i x
        → TurnsInto _old.now _new.now (with_heads (with_operand op i x)) }
    ensures all { (value other : Value) → ReplacesValue _old.now _new.now value other
        → TurnsInto _old.now _new.now (with_heads (with_replaced value other)) }
    ensures chosen { (chosen : Use Value → Bool) (other : Value) → ReplacesChosen _old.now _new.now chosen other
        → TurnsInto _old.now _new.now (with_heads (with_chosen_replaced chosen other)) }
{}

/// Tells what retargeting edges is on trees: each operation stands for its old tree with the other block in place of the
/// successors that are retargeted: one successor, all that are the block, or those that are chosen. It does nothing.
pub fn know_retargeted<O, B>(_old: &Program<O, B>, _new: &Program<O, B>)
    ensures one { (op : Ptr Operation) (i : ℕ) (x : Ptr BasicBlock) → ReplacesSuccessor _old.now _new.now op i x
        → TurnsInto _old.now _new.now (with_heads (with_successor op i x)) }
    ensures all { (block other : Ptr BasicBlock) → RetargetsBlock _old.now _new.now block other
        → TurnsInto _old.now _new.now (with_heads (with_retargeted block other)) }
    ensures chosen { (chosen : Use (Ptr BasicBlock) → Bool) (other : Ptr BasicBlock)
        → RetargetsChosen _old.now _new.now chosen other
        → TurnsInto _old.now _new.now (with_heads (with_chosen_retargeted chosen other)) }
{}

/// Tells what putting an operation into a block is on trees: each operation stands for its old tree with the operation that
/// was put, and all that is in it, in that place. It does nothing.
pub fn know_put<O, B>(old: &Program<O, B>, _new: &Program<O, B>)
    ensures before { (mark p : Ptr Operation) (s : ProgramTree O B) → IsLinkedOperation old.now mark
        → CanBePutAt old.now (OperationNode mark) p s → PutsOperationBefore old.now _new.now mark p
        → TurnsInto old.now _new.now (rewritten_root (puts_before mark s)) }
    ensures after { (mark p : Ptr Operation) (s : ProgramTree O B) → IsLinkedOperation old.now mark
        → CanBePutAt old.now (OperationNode mark) p s → PutsOperationAfter old.now _new.now mark p
        → TurnsInto old.now _new.now (rewritten_root (puts_after mark s)) }
    ensures first { (block : Ptr BasicBlock) (p : Ptr Operation) (s : ProgramTree O B)
        → CanBePutAt old.now (BlockNode block) p s → PutsOperationFirst old.now _new.now block p
        → TurnsInto old.now _new.now (rewritten_root (puts_first block s)) }
    ensures last { (block : Ptr BasicBlock) (p : Ptr Operation) (s : ProgramTree O B)
        → CanBePutAt old.now (BlockNode block) p s → PutsOperationLast old.now _new.now block p
        → TurnsInto old.now _new.now (rewritten_root (puts_last block s)) }
{
    old.know_lists();
}

/// Tells what taking an operation out of its block is on trees: each operation stands for its old tree without the one that
/// was taken out and all that is in it, and that one for the tree that it stood for. It does nothing.
pub fn know_taken_out<O, B>(old: &Program<O, B>, _new: &Program<O, B>)
    ensures rest { (op : Ptr Operation) → IsLinkedOperation old.now op → TakesOutOperation old.now _new.now op
        → TurnsInto old.now _new.now (rewritten_root (leaves_out op)) }
    ensures taken { (op : Ptr Operation) (t : ProgramTree O B) → IsLinkedOperation old.now op
        → TakesOutOperation old.now _new.now op → StandsFor old.now op t → StandsFor _new.now op t }
{
    old.know_lists();
}

/// Tells what taking a block out of its region is on trees: each operation stands for its old tree without that block and
/// all that is in it. It does nothing.
pub fn know_block_taken_out<O, B>(old: &Program<O, B>, _new: &Program<O, B>)
    ensures { (block : Ptr BasicBlock) → IsLinkedBlock old.now block → TakesOutBlock old.now _new.now block
        → TurnsInto old.now _new.now (rewritten_root (leaves_out_block block)) }
{
    old.know_lists();
}

/// Tells that the operations of a block that is there are, with all that is in them, a list of a tree's operations. It does
/// nothing.
pub fn know_operations<O, B>(program: &Program<O, B>, block: Ptr<BasicBlock>)
    requires { IsSome (block_at program.now block) }
    ensures { (t : _) × AreTree program.now Operations (operations_in program.now block) t }
{
    let _inside = program.nodes_inside(IRNode::BasicBlock(block));
}

/// Tells what moving all operations of a block behind those of another is on trees: each operation stands for its old tree
/// with these operations, and all that is in them, left out where they were and put at the end of the other block. The block
/// that they were in stays, with no operations. It does nothing.
pub fn know_appended<O, B>(old: &Program<O, B>, _new: &Program<O, B>)
    ensures { (donee donor : Ptr BasicBlock) (moved : _) → CanAppendOperations old.now donee donor
        → AppendsBlock old.now _new.now donee donor → AreTree old.now Operations (operations_in old.now donor) moved
        → TurnsInto old.now _new.now (rewritten_root (moves_to donee moved)) }
{
    old.know_lists();
}

/// Tells what erasing an operation or a block is on trees: each operation that isn't inside it stands for its old tree without
/// what was erased and all that is in it. It does nothing.
pub fn know_erased<O, B>(old: &Program<O, B>, _new: &Program<O, B>)
    ensures operation { (op : Ptr Operation) → ErasesOperation old.now _new.now op
        → TurnsIntoOutside old.now _new.now (OperationNode op) (rewritten_root (leaves_out op)) }
    ensures block { (block : Ptr BasicBlock) → ErasesBlock old.now _new.now block
        → TurnsIntoOutside old.now _new.now (BlockNode block) (rewritten_root (leaves_out_block block)) }
{
    old.know_lists();
}
