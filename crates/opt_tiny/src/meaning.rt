//! What the three optimisations ask of the small dialect.
ghost use Rattle.std.specs.Prelude.{◌≡◌, ◌+◌, ◌<◌, ◌^◌, IfOk, if◌then◌else◌, nat_eq};
ghost use Rattle.opt_dialect.specs.Masks.{marked};
ghost use Rattle.opt_tiny.specs.Meaning.{range, kept, one_unless, answers, sum_of, first_of, fold_of};

use crate::tiny::{Bare, Kind, Payload, Tiny};
use ir_base::TypeHandle;
use opt_dialect::{
    BlockArgRemoval, BranchOpFoldInterface, ConstFoldInterface, Meanings, OptDialect, SideEffects,
};
use std::alloc::{AllocError, Global};

/// So many indices from the first one on.
fn indices(alloc: Global, start: usize, count: usize) -> Result<Vec<usize>, AllocError>
    requires { start + count < 2 ^ 64 }
    ensures { IfOk result (λ found. found.items ≡ range start count) }
{
    let mut found = Vec::new(alloc);
    for i in 0..count {
        found.push(start + i)?;
    }
    Ok(found)
}

/// Whether an index is marked. Those past the end aren't.
fn is_marked(marks: &[bool], index: usize) -> bool
    ensures { result ≡ marked marks.now index }
{
    index < marks.len() && marks[index]
}

/// One, unless an index is marked.
fn one_unless_marked(marks: &[bool], index: usize) -> usize
    ensures { result ≡ one_unless (marked marks.now index) }
{
    if is_marked(marks, index) { 0 } else { 1 }
}

/// How many of so many indices from the second one on aren't marked.
fn unmarked(marks: &[bool], count: usize) -> usize
    ensures { result ≡ kept (marked marks.now) 1 count }
{
    let mut left = 0;
    for i in 0..count {
        left += one_unless_marked(marks, i + 1);
    }
    left
}

/// What the result of an operation is, by what its operands are.
fn folded(op: &Payload, known: &[Option<u64>]) -> Option<u64>
    ensures { result ≡ fold_of op.now.kind op.now.number known.now }
{
    match (op.kind, known) {
        (Kind::Constant, _) => Some(op.number),
        (Kind::Id, [x]) => *x,
        (Kind::Add, [Some(x), Some(y)]) => Some(x.wrapping_add(*y)),
        _ => None,
    }
}

/// One answer for each result, where there is one of the one type.
fn answered(
    alloc: Global,
    answer: Option<u64>,
    types: &[TypeHandle],
) -> Result<Vec<Option<u64>>, AllocError>
    ensures { IfOk result (λ found. found.items ≡ answers answer types.now) }
{
    let mut found = Vec::new(alloc);
    match types {
        [] => {}
        [ty] => found.push(if ty.number() == 0 { answer } else { None })?,
        _ => return vec![in alloc; None; types.len()],
    }
    Ok(found)
}

/// Which edge of a conditional branch a condition picks.
fn picked(condition: u64) -> usize
    ensures { result ≡ (if nat_eq condition 1 then 0 else 1) }
{
    if condition == 1 { 0 } else { 1 }
}

impl Meanings for Tiny {
    ghost use Rattle.opt_tiny.specs.Meaning.{tiny};

    type Operation = Payload;

    type Block = Bare;

    type Constant = u64;

    ghost meaning = { tiny };

    fn is_terminator(op: &Payload) -> bool {
        matches!(op.kind, Kind::Br | Kind::Cond | Kind::Ret)
    }

    fn has_ssa_dominance(_op: &Payload, _region: usize) -> bool {
        true
    }

    fn is_branch(op: &Payload) -> bool {
        matches!(op.kind, Kind::Br | Kind::Cond)
    }

    fn successor_operands(
        alloc: Global,
        op: &Payload,
        operands: usize,
        successor: usize,
    ) -> Result<Vec<usize>, AllocError> {
        match (op.kind, successor) {
            (Kind::Br, 0) => indices(alloc, 0, operands),
            (Kind::Cond, 0) => indices(alloc, 1, op.first.min(operands.saturating_sub(1))),
            (Kind::Cond, 1) if op.first < operands => {
                indices(alloc, 1 + op.first, operands - (1 + op.first))
            }
            _ => Ok(Vec::new(alloc)),
        }
    }

    fn remove_operands(op: &mut Payload, marks: &[bool]) {
        if op.kind == Kind::Cond {
            op.first = unmarked(marks, op.first);
        }
    }

    fn remove_arguments(_block: &mut Bare, _marks: &[bool]) {}
}

impl SideEffects for Tiny {
    fn has_side_effects(op: &Payload) -> bool {
        !matches!(op.kind, Kind::Pure | Kind::Constant | Kind::Id | Kind::Add)
    }
}

impl BlockArgRemoval for Tiny {
    fn can_remove_block_args(_op: &Payload, _region: usize, _is_entry: bool) -> bool {
        true
    }
}

impl ConstFoldInterface for Tiny {
    fn is_foldable(op: &Payload) -> bool {
        matches!(op.kind, Kind::Constant | Kind::Id | Kind::Add)
    }

    fn check_fold(
        alloc: Global,
        op: &Payload,
        types: &[TypeHandle],
        known: &[Option<u64>],
    ) -> Result<Vec<Option<u64>>, AllocError> {
        answered(alloc, folded(op, known), types)
    }

    fn is_constant(op: &Payload) -> bool {
        op.kind == Kind::Constant
    }

    fn constant(_alloc: Global, constant: u64) -> Result<Option<Payload>, AllocError> {
        Ok(Some(Payload {
            kind: Kind::Constant,
            number: constant,
            first: 0,
        }))
    }

    fn constant_type(_constant: u64) -> TypeHandle {
        TypeHandle::new(0)
    }
}

impl BranchOpFoldInterface for Tiny {
    fn is_feasible(op: &Payload, known: &[Option<u64>], successor: usize) -> bool {
        match (op.kind, known) {
            (Kind::Cond, [Some(condition), ..]) => successor == picked(*condition),
            _ => true,
        }
    }

    fn fold_edge(op: &Payload, known: &[Option<u64>]) -> Option<usize> {
        match (op.kind, known) {
            (Kind::Br, _) => Some(0),
            (Kind::Cond, [Some(condition), ..]) => Some(picked(*condition)),
            _ => None,
        }
    }

    fn unconditional(_alloc: Global) -> Result<Option<Payload>, AllocError> {
        Ok(Some(Payload {
            kind: Kind::Br,
            number: 0,
            first: 0,
        }))
    }

    fn is_unconditional(op: &Payload) -> bool {
        op.kind == Kind::Br
    }
}

impl OptDialect for Tiny {
    ghost use Rattle.opt_tiny.specs.Lawful.{tiny_lawful, same_numbers};

    ghost lawful = { tiny_lawful };

    ghost same_constants = { same_numbers };
}
