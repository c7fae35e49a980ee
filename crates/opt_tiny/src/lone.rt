//! A dialect of one kind of operations, which hold graph regions and do nothing.

use crate::tiny::Bare;
use ir_base::TypeHandle;
use opt_dialect::{
    BlockArgRemoval, BranchOpFoldInterface, ConstFoldInterface, Meanings, OptDialect, SideEffects,
};
use std::alloc::{AllocError, Global};

/// The dialect.
pub struct Lone;

impl Meanings for Lone {
    ghost use Rattle.opt_tiny.specs.Lone.{lone};

    type Operation = Bare;

    type Block = Bare;

    type Constant = u64;

    ghost meaning = { lone };

    fn is_terminator(_op: &Bare) -> bool {
        false
    }

    fn has_ssa_dominance(_op: &Bare, _region: usize) -> bool {
        false
    }

    fn is_branch(_op: &Bare) -> bool {
        false
    }

    fn successor_operands(
        alloc: Global,
        _op: &Bare,
        _operands: usize,
        _successor: usize,
    ) -> Result<Vec<usize>, AllocError> {
        Ok(Vec::new(alloc))
    }

    fn remove_operands(_op: &mut Bare, _marks: &[bool]) {}

    fn remove_arguments(_block: &mut Bare, _marks: &[bool]) {}
}

impl SideEffects for Lone {
    fn has_side_effects(_op: &Bare) -> bool {
        false
    }
}

impl BlockArgRemoval for Lone {
    fn can_remove_block_args(_op: &Bare, _region: usize, _is_entry: bool) -> bool {
        true
    }
}

impl ConstFoldInterface for Lone {
    fn is_foldable(_op: &Bare) -> bool {
        false
    }

    fn check_fold(
        alloc: Global,
        _op: &Bare,
        types: &[TypeHandle],
        _known: &[Option<u64>],
    ) -> Result<Vec<Option<u64>>, AllocError> {
        vec![in alloc; None; types.len()]
    }

    fn is_constant(_op: &Bare) -> bool {
        false
    }

    fn constant(_alloc: Global, _constant: u64) -> Result<Option<Bare>, AllocError> {
        Ok(None)
    }

    fn constant_type(_constant: u64) -> TypeHandle {
        TypeHandle::new(0)
    }
}

impl BranchOpFoldInterface for Lone {
    fn is_feasible(_op: &Bare, _known: &[Option<u64>], _successor: usize) -> bool {
        true
    }

    fn fold_edge(_op: &Bare, _known: &[Option<u64>]) -> Option<usize> {
        None
    }

    fn unconditional(_alloc: Global) -> Result<Option<Bare>, AllocError> {
        Ok(None)
    }

    fn is_unconditional(_op: &Bare) -> bool {
        false
    }
}

impl OptDialect for Lone {
    ghost use Rattle.opt_tiny.specs.Lawful.{same_numbers};
    ghost use Rattle.opt_tiny.specs.Lone.{lone_lawful};

    ghost lawful = { lone_lawful };

    ghost same_constants = { same_numbers };
}
