//! A module of three levels, whose operations and blocks are named by characters.
use crate::callers::Named;
use ir_program::{BasicBlock, IRNode, Operation, Ptr, Region};
use std::alloc::{AllocError, Global};

/// Some of the nodes of the module.
#[derive(Clone, Copy)]
pub struct Module {
    /// The operation `m`.
    pub module: Ptr<Operation>,
    /// The block `b` in its region.
    pub block: Ptr<BasicBlock>,
    /// The operation `x`, which has two regions.
    pub holder: Ptr<Operation>,
}

/// A region behind those of an operation.
fn put_region(program: &mut Named, op: Ptr<Operation>) -> Result<Ptr<Region>, AllocError> {
    if program.has_operation(op) {
        return program.add_region(op);
    }
    Err(AllocError)
}

/// A block behind those of a region.
fn put_block(
    alloc: Global,
    program: &mut Named,
    region: Ptr<Region>,
    name: char,
) -> Result<Ptr<BasicBlock>, AllocError> {
    let block = program.new_block(alloc, name)?;
    if program.has_region(region) {
        if !program.is_inside(IRNode::Region(region), IRNode::BasicBlock(block)) {
            program.insert_block_at_back(region, block);
            return Ok(block);
        }
    }
    Err(AllocError)
}

/// An operation behind those of a block.
fn put_operation(
    alloc: Global,
    program: &mut Named,
    block: Ptr<BasicBlock>,
    name: char,
) -> Result<Ptr<Operation>, AllocError> {
    let op = program.new_operation(alloc, name)?;
    if program.has_block(block) {
        if !program.is_inside(IRNode::BasicBlock(block), IRNode::Operation(op)) {
            program.insert_operation_at_back(block, op);
            return Ok(op);
        }
    }
    Err(AllocError)
}

/// Makes the module `m { b: x { c: p q } { }, y; d: z }`.
pub fn make(alloc: Global, program: &mut Named) -> Result<Module, AllocError> {
    let module = program.new_operation(alloc, 'm')?;
    let region = put_region(program, module)?;
    let block = put_block(alloc, program, region, 'b')?;
    let holder = put_operation(alloc, program, block, 'x')?;
    let first = put_region(program, holder)?;
    put_region(program, holder)?;
    put_operation(alloc, program, block, 'y')?;
    let second = put_block(alloc, program, region, 'd')?;
    put_operation(alloc, program, second, 'z')?;
    let third = put_block(alloc, program, first, 'c')?;
    put_operation(alloc, program, third, 'p')?;
    put_operation(alloc, program, third, 'q')?;
    Ok(Module {
        module,
        block,
        holder,
    })
}

/// The name of a node: of an operation or a block its own, and `r` of a region.
fn name_of(program: &Named, node: IRNode) -> char {
    match node {
        IRNode::Operation(op) if program.has_operation(op) => *program.payload(op),
        IRNode::BasicBlock(block) if program.has_block(block) => *program.block_payload(block),
        IRNode::Region(_) => 'r',
        _ => '?',
    }
}

/// The names of nodes, one after the other.
pub fn names(alloc: Global, program: &Named, nodes: &[IRNode]) -> Result<String, AllocError> {
    let mut text = String::new(alloc);
    for node in nodes {
        text.push(name_of(program, *node))?;
    }
    Ok(text)
}

/// Lets a program go. It stands in a function of its own so that it is proved once.
pub fn finish(_program: Named) {}
