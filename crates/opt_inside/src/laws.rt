//! What is found below the root of the tree that an operation stands for, and what is taken outside it.
ghost use Rattle.std.specs.Prelude.{IsSome};
ghost use Rattle.ir_program.specs.Program.{operation_at};
ghost use Rattle.ir_program.specs.declared.handles.BasicBlock.{BasicBlock};
ghost use Rattle.ir_program.specs.declared.handles.Operation.{Operation};
ghost use Rattle.ir_program.specs.declared.handles.Ptr.{Ptr};
ghost use Rattle.opt_trees.specs.Occurrences.{OperationsApart};
ghost use Rattle.opt_inside.specs.Around.{CanTellTaken};
ghost use Rattle.opt_inside.specs.Occurring.{BlockNamesApart, DefinesAllBelow, EachBlock, EachFound, IsBelowRoot, IsBlockBelow, IsBlockFound, IsBlockOccurrence, IsFound, IsNestedIn, IsOccurrence, SiteIsFound, OfItsTree, OperationsFound, RegionsTogether};

use ir_program::{IRNode, Operation, Program, Ptr};
use ir_trees::know_handles;

/// Tells what is found below the root of the tree that an operation stands for: the operations and blocks inside it, each
/// once and where it stands, and the values that these define. It does nothing.
pub fn know_occurrences<O, B>(program: &Program<O, B>, op: Ptr<Operation>)
    requires { IsSome (operation_at program.now op) }
    ensures sound { OfItsTree program.now op (λ t. EachFound t (IsOccurrence program.now op)) }
    ensures found { OfItsTree program.now op (λ t. (p : Ptr Operation) → IsBelowRoot program.now op p → IsFound t p) }
    ensures one { OfItsTree program.now op OperationsApart }
    ensures blocks_sound { OfItsTree program.now op (λ t. EachBlock t (IsBlockOccurrence program.now op)) }
    ensures blocks_found { OfItsTree program.now op (λ t. (b : Ptr BasicBlock) → IsBlockBelow program.now op b
        → IsBlockFound t b) }
    ensures blocks_one { OfItsTree program.now op (λ t. BlockNamesApart t) }
    ensures site { OfItsTree program.now op (λ t. EachFound t (SiteIsFound program.now t)) }
    ensures operations { OfItsTree program.now op (λ t. EachBlock t (OperationsFound program.now t)) }
    ensures beside { OfItsTree program.now op (RegionsTogether program.now) }
    ensures nested { OfItsTree program.now op (λ t. EachBlock t (λ x. IsNestedIn t x.spot)) }
    ensures defined { OfItsTree program.now op (λ t. DefinesAllBelow program.now op t.regions) }
    ensures defined_inside { OfItsTree program.now op
        (λ t. EachFound t (λ o. DefinesAllBelow program.now o.head.name o.regions)) }
{
    program.know_lists();
    know_handles(program, op);
}

/// Tells which values are taken by operations that aren't inside an operation. It does nothing.
pub fn know_taken<O, B>(program: &Program<O, B>, op: Ptr<Operation>)
    requires { IsSome (operation_at program.now op) }
    ensures { CanTellTaken program.now op }
{
    let _inside = program.nodes_inside(IRNode::Operation(op));
}
