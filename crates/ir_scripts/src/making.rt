//! Edits that have lists, from the words of a line.
use crate::argument::{Argument, block, place, value};
use crate::tiny::TinyOp;
use ir_core::{At, BasicBlock, Edit, Ptr, TypeHandle, ValueAt, ident};
use std::alloc::{AllocError, Global};

/// The edit that a command with arguments is, or none where it is none of these.
pub fn edit_with_lists(
    alloc: Global,
    command: &str,
    arguments: &[Argument],
) -> Result<Option<Edit<TinyOp>>, AllocError> {
    match command {
        "def" => Ok(Some(new_operation(alloc, TinyOp::Def, arguments)?)),
        "jump" => Ok(Some(new_operation(alloc, TinyOp::Jump, arguments)?)),
        "graph" => Ok(Some(new_operation(alloc, TinyOp::Graph, arguments)?)),
        "block" => Ok(Some(new_block(alloc, arguments)?)),
        "entry" => Ok(Some(new_entry(alloc, arguments)?)),
        "replace_some_uses_with" => replace_some_uses_with(alloc, arguments),
        "retarget_some_preds_to" => retarget_some_preds_to(alloc, arguments),
        _ => Ok(None),
    }
}

/// An operation with results of the types, the values as operands, the blocks as successors, and as many regions as the
/// number says.
fn new_operation(
    alloc: Global,
    kind: TinyOp,
    arguments: &[Argument],
) -> Result<Edit<TinyOp>, AllocError> {
    Ok(Edit::NewOperation {
        kind,
        result_types: types(alloc, arguments)?,
        operands: values(alloc, arguments)?,
        successors: blocks(alloc, arguments)?,
        num_regions: number_among(arguments),
    })
}

/// A block with arguments of the types.
fn new_block(alloc: Global, arguments: &[Argument]) -> Result<Edit<TinyOp>, AllocError> {
    Ok(Edit::NewBlock {
        label: None,
        argument_types: types(alloc, arguments)?,
    })
}

/// A block with the label `entry` and arguments of the types.
fn new_entry(alloc: Global, arguments: &[Argument]) -> Result<Edit<TinyOp>, AllocError> {
    Ok(Edit::NewBlock {
        label: Some(ident(alloc, "entry")?),
        argument_types: types(alloc, arguments)?,
    })
}

/// Another value in place of a value, at the place that stands behind both.
fn replace_some_uses_with(
    alloc: Global,
    arguments: &[Argument],
) -> Result<Option<Edit<TinyOp>>, AllocError> {
    let (Some(old), Some(new), Some(place)) = (
        value(arguments, 0),
        value(arguments, 1),
        place(arguments, 2),
    ) else {
        return Ok(None);
    };
    let places = vec![in alloc; place]?;
    Ok(Some(Edit::ReplaceSomeUsesWith(old, places, new)))
}

/// Another block in place of a block, at the place that stands behind both.
fn retarget_some_preds_to(
    alloc: Global,
    arguments: &[Argument],
) -> Result<Option<Edit<TinyOp>>, AllocError> {
    let (Some(old), Some(new), Some(place)) = (
        block(arguments, 0),
        block(arguments, 1),
        place(arguments, 2),
    ) else {
        return Ok(None);
    };
    let places = vec![in alloc; place]?;
    Ok(Some(Edit::RetargetSomePredsTo(old, places, new)))
}

/// The types among arguments.
fn types(alloc: Global, arguments: &[Argument]) -> Result<Vec<TypeHandle>, AllocError> {
    let mut types = Vec::new(alloc);
    for argument in arguments {
        if let Argument::Type(ty) = argument {
            types.push(*ty)?;
        }
    }
    Ok(types)
}

/// The values among arguments.
fn values(alloc: Global, arguments: &[Argument]) -> Result<Vec<ValueAt>, AllocError> {
    let mut values = Vec::new(alloc);
    for argument in arguments {
        if let Argument::Value(value) = argument {
            values.push(*value)?;
        }
    }
    Ok(values)
}

/// The blocks among arguments.
fn blocks(alloc: Global, arguments: &[Argument]) -> Result<Vec<At<Ptr<BasicBlock>>>, AllocError> {
    let mut blocks = Vec::new(alloc);
    for argument in arguments {
        if let Argument::Block(block) = argument {
            blocks.push(*block)?;
        }
    }
    Ok(blocks)
}

/// The last number among arguments, 0 where there is none.
fn number_among(arguments: &[Argument]) -> usize {
    let mut number = 0;
    for argument in arguments {
        if let Argument::Number(n) = argument {
            number = *n;
        }
    }
    number
}
