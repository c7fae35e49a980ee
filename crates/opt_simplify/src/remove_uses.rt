//! Whether what stays takes a value of what goes.
ghost use Rattle.std.specs.Prelude.{◌≡◌, ◌↔◌, true, false, IfOk, OnOk, IsSome, IsTrue};
ghost use Rattle.ir_program.specs.Erased.{definer_node};
ghost use Rattle.ir_program.specs.Lists.{IsLiveNode, StandsInside};
ghost use Rattle.ir_program.specs.Program.{IsLiveValue, block_at};
ghost use Rattle.ir_program.specs.declared.handles.BasicBlock.{BasicBlock};
ghost use Rattle.ir_program.specs.declared.handles.IRNode.{IRNode};
ghost use Rattle.ir_program.specs.declared.handles.IRNode.TheVariants.{BasicBlock as BlockNode};
ghost use Rattle.ir_program.specs.declared.handles.Ptr.{Ptr};
ghost use Rattle.ir_program.specs.declared.handles.Value.{Value};
ghost use Rattle.ir_trees.specs.Searched.{Lists};
ghost use Rattle.opt_simplify.specs.Removed.{GainsMembers, IsTakenBy, IsTakenOutsideBlocks, IsWithinPickedBlocks, TakesListed, TakesWithin, is_listed};

use indexmap::IndexSet;
use ir_program::{BasicBlock, DefiningEntity, IRNode, Program, Ptr, Value};
use std::alloc::{AllocError, Global};

/// Puts an entity to others, if it isn't one of them.
fn add_node(nodes: &mut IndexSet<IRNode>, node: IRNode) -> Result<(), AllocError>
    ensures { OnOk result (GainsMembers nodes.old.keys nodes.new.keys (λ e. e ≡ node)) }
{
    nodes.insert(node)?;
    Ok(())
}

/// Whether the entity is one of these.
fn has_node(nodes: &IndexSet<IRNode>, node: IRNode) -> bool
    ensures { IsTrue result ↔ Lists nodes.now.keys node }
{
    nodes.contains(&node)
}

/// The entity that defines a value.
fn definer_of(value: Value) -> IRNode
    ensures { result ≡ definer_node value.definer }
{
    match value.definer() {
        DefiningEntity::Op(op) => IRNode::Operation(op),
        DefiningEntity::Block(block) => IRNode::BasicBlock(block),
    }
}

/// Puts a block, and all that is in it, to other entities.
fn add_block<O, B>(
    nodes: &mut IndexSet<IRNode>,
    program: &Program<O, B>,
    block: Ptr<BasicBlock>,
) -> Result<(), AllocError>
    requires { IsSome (block_at program.now block) }
    ensures { OnOk result (GainsMembers nodes.old.keys nodes.new.keys (StandsInside program.now (BlockNode block))) }
{
    for node in program.nodes_inside(IRNode::BasicBlock(block)) {
        add_node(nodes, node)?;
    }
    Ok(())
}

/// These blocks, and all that is in them.
fn nodes_in<O, B>(
    alloc: Global,
    program: &Program<O, B>,
    blocks: &[Ptr<BasicBlock>],
) -> Result<IndexSet<IRNode>, AllocError>
    requires { (b : Ptr BasicBlock) → is_listed blocks.now b ≡ true → IsLiveNode program.now (BlockNode b) }
    ensures { IfOk result (λ nodes. (e : IRNode) → Lists nodes.keys e
        ↔ IsWithinPickedBlocks program.now (is_listed blocks.now) e) }
{
    let mut nodes = IndexSet::new(alloc);
    for block in blocks {
        add_block(&mut nodes, program, *block)?;
    }
    Ok(nodes)
}

/// Whether an operation that isn't one of these entities takes the value.
fn is_taken_by_others<O, B>(program: &Program<O, B>, nodes: &IndexSet<IRNode>, value: Value) -> bool
    requires { IsLiveValue program.now value }
    ensures { IsTrue result ↔ IsTakenBy program.now nodes.now.keys value }
{
    for place in program.uses_of(value) {
        if !has_node(nodes, IRNode::Operation(place.user_op())) {
            return true;
        }
    }
    false
}

/// Whether an operation that isn't one of these entities takes one of these values, which one of the entities defines.
fn take_values<O, B>(program: &Program<O, B>, nodes: &IndexSet<IRNode>, values: &[Value]) -> bool
    requires { (v : Value) → Lists values.now v → IsLiveValue program.now v }
    ensures { IsTrue result ↔ TakesListed program.now nodes.now.keys values.now }
{
    for value in values {
        if has_node(nodes, definer_of(*value)) && is_taken_by_others(program, nodes, *value) {
            return true;
        }
    }
    false
}

/// Whether an operation that isn't in these blocks takes a value that is defined in them. These values are all that are
/// defined there, and maybe more. The time is linear in what is in the blocks, the uses of its values, and the values.
///
/// # Errors
/// There may be no memory.
pub(crate) fn is_taken_outside<O, B>(
    alloc: Global,
    program: &Program<O, B>,
    values: &[Value],
    blocks: &[Ptr<BasicBlock>],
) -> Result<bool, AllocError>
    requires there { (b : Ptr BasicBlock) → is_listed blocks.now b ≡ true → IsLiveNode program.now (BlockNode b) }
    requires values { (v : Value) → Lists values.now v → IsLiveValue program.now v }
    requires all { (v : Value) → IsLiveValue program.now v
        → IsWithinPickedBlocks program.now (is_listed blocks.now) (definer_node v.definer) → Lists values.now v }
    ensures taken { IfOk result (λ taken. taken ≡ true → IsTakenOutsideBlocks program.now (is_listed blocks.now)) }
    ensures within { IfOk result (λ taken. taken ≡ false → TakesWithin program.now (is_listed blocks.now)) }
{
    program.know_values();
    let nodes = nodes_in(alloc, program, blocks)?;
    Ok(take_values(program, &nodes, values))
}
