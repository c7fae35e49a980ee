//! A dialect whose operations carry a number, which its verifiers want to be below 100.
ghost use Rattle.std.specs.Prelude.{◌≡◌};

use ir_base::TypeHandle;
use ir_context::TypedProgram;
use ir_program::{Operation, Ptr};
use opt_dialect::{
    BlockArgRemoval, BranchOpFoldInterface, ConstFoldInterface, Meanings, OptDialect, SideEffects,
};
use opt_tiny::{Bare, OneType};
use pass_analyses::{Verified, VerifiedContext};
use pass_managers::Guard;
use std::alloc::{AllocError, Global};

/// What an operation carries.
#[derive(Clone, Copy)]
pub struct Item {
    pub number: u64,
}

/// The dialect.
pub struct Items;

/// Programs of the dialect.
pub type ItemContext = TypedProgram<Item, Bare, OneType>;

impl Meanings for Items {
    ghost use Rattle.pass_managers_tests.specs.Items.{items};

    type Operation = Item;

    type Block = Bare;

    type Constant = u64;

    ghost meaning = { items };

    fn is_terminator(_op: &Item) -> bool {
        false
    }

    fn has_ssa_dominance(_op: &Item, _region: usize) -> bool {
        false
    }

    fn is_branch(_op: &Item) -> bool {
        false
    }

    fn successor_operands(
        alloc: Global,
        _op: &Item,
        _operands: usize,
        _successor: usize,
    ) -> Result<Vec<usize>, AllocError> {
        Ok(Vec::new(alloc))
    }

    fn remove_operands(_op: &mut Item, _marks: &[bool]) {}

    fn remove_arguments(_block: &mut Bare, _marks: &[bool]) {}
}

impl SideEffects for Items {
    fn has_side_effects(_op: &Item) -> bool {
        false
    }
}

impl BlockArgRemoval for Items {
    fn can_remove_block_args(_op: &Item, _region: usize, _is_entry: bool) -> bool {
        true
    }
}

impl ConstFoldInterface for Items {
    fn is_foldable(_op: &Item) -> bool {
        false
    }

    fn check_fold(
        alloc: Global,
        _op: &Item,
        types: &[TypeHandle],
        _known: &[Option<u64>],
    ) -> Result<Vec<Option<u64>>, AllocError> {
        vec![in alloc; None; types.len()]
    }

    fn is_constant(_op: &Item) -> bool {
        false
    }

    fn constant(_alloc: Global, _constant: u64) -> Result<Option<Item>, AllocError> {
        Ok(None)
    }

    fn constant_type(_constant: u64) -> TypeHandle {
        TypeHandle::new(0)
    }
}

impl BranchOpFoldInterface for Items {
    fn is_feasible(_op: &Item, _known: &[Option<u64>], _successor: usize) -> bool {
        true
    }

    fn fold_edge(_op: &Item, _known: &[Option<u64>]) -> Option<usize> {
        None
    }

    fn unconditional(_alloc: Global) -> Result<Option<Item>, AllocError> {
        Ok(None)
    }

    fn is_unconditional(_op: &Item) -> bool {
        false
    }
}

impl OptDialect for Items {
    ghost use Rattle.opt_tiny.specs.Lawful.{same_numbers};
    ghost use Rattle.pass_managers_tests.specs.Items.{items_lawful};

    ghost lawful = { items_lawful };

    ghost same_constants = { same_numbers };
}

/// The verifiers refuse an operation.
#[derive(Drop)]
pub struct TooLarge;

impl Verified for Items {
    ghost use Rattle.std.specs.Prelude.{false, true};
    ghost use Rattle.pass_managers_tests.specs.Items.{IsSmall, items_fit};

    type Types = OneType;

    type Fault = TooLarge;

    ghost accepts = { λ c op. IsSmall c.program op };

    ghost lacks_memory = { λ _. false };

    ghost fits = { λ c op accepted. items_fit c.program op };

    fn is_memory(_fault: &TooLarge) -> bool {
        false
    }

    fn verify(
        _alloc: Global,
        op: Ptr<Operation>,
        ctx: &VerifiedContext<Items>,
    ) -> Result<(), TooLarge> {
        if ctx.program().payload(op).number < 100 {
            Ok(())
        } else {
            Err(TooLarge)
        }
    }
}

/// Allows operations whose number is below another.
#[derive(Drop)]
pub struct Below {
    pub number: u64,
}

impl Guard<Items> for Below {
    ghost use Rattle.pass_managers_tests.specs.Items.{is_below};

    ghost allows = { λ g c op. is_below c.program op g.number };

    fn is_allowed(&self, op: Ptr<Operation>, ctx: &VerifiedContext<Items>) -> bool {
        ctx.program().payload(op).number < self.number
    }
}
