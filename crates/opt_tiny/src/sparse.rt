//! A dialect of the same operations that gives the optimisations little to go by.

use crate::tiny::{Bare, Kind, Payload, Tiny};
use ir_base::TypeHandle;
use opt_dialect::{
    BlockArgRemoval, BranchOpFoldInterface, ConstFoldInterface, Meanings, OptDialect, SideEffects,
};
use std::alloc::{AllocError, Global};

/// The dialect: nothing folds, no operand decides a branch, no operation is an unconditional branch, and `Pure` holds graph
/// regions.
pub struct Sparse;

impl Meanings for Sparse {
    ghost use Rattle.opt_tiny.specs.Sparse.{sparse};

    type Operation = Payload;

    type Block = Bare;

    type Constant = u64;

    ghost meaning = { sparse };

    fn is_terminator(op: &Payload) -> bool {
        Tiny::is_terminator(op)
    }

    fn has_ssa_dominance(op: &Payload, _region: usize) -> bool {
        op.kind != Kind::Pure
    }

    fn is_branch(op: &Payload) -> bool {
        Tiny::is_branch(op)
    }

    fn successor_operands(
        alloc: Global,
        op: &Payload,
        operands: usize,
        successor: usize,
    ) -> Result<Vec<usize>, AllocError> {
        Tiny::successor_operands(alloc, op, operands, successor)
    }

    fn remove_operands(op: &mut Payload, marks: &[bool]) {
        Tiny::remove_operands(op, marks);
    }

    fn remove_arguments(_block: &mut Bare, _marks: &[bool]) {}
}

impl SideEffects for Sparse {
    fn has_side_effects(op: &Payload) -> bool {
        Tiny::has_side_effects(op)
    }
}

impl BlockArgRemoval for Sparse {
    fn can_remove_block_args(_op: &Payload, _region: usize, _is_entry: bool) -> bool {
        false
    }
}

impl ConstFoldInterface for Sparse {
    fn is_foldable(_op: &Payload) -> bool {
        false
    }

    fn check_fold(
        alloc: Global,
        _op: &Payload,
        types: &[TypeHandle],
        _known: &[Option<u64>],
    ) -> Result<Vec<Option<u64>>, AllocError> {
        vec![in alloc; None; types.len()]
    }

    fn is_constant(_op: &Payload) -> bool {
        false
    }

    fn constant(_alloc: Global, _constant: u64) -> Result<Option<Payload>, AllocError> {
        Ok(None)
    }

    fn constant_type(_constant: u64) -> TypeHandle {
        TypeHandle::new(0)
    }
}

impl BranchOpFoldInterface for Sparse {
    fn is_feasible(_op: &Payload, _known: &[Option<u64>], _successor: usize) -> bool {
        true
    }

    fn fold_edge(_op: &Payload, _known: &[Option<u64>]) -> Option<usize> {
        None
    }

    fn unconditional(_alloc: Global) -> Result<Option<Payload>, AllocError> {
        Ok(None)
    }

    fn is_unconditional(_op: &Payload) -> bool {
        false
    }
}

impl OptDialect for Sparse {
    ghost use Rattle.opt_tiny.specs.Lawful.{same_numbers};
    ghost use Rattle.opt_tiny.specs.Sparse.{sparse_lawful};

    ghost lawful = { sparse_lawful };

    ghost same_constants = { same_numbers };
}
