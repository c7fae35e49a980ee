//! What the three optimisations ask of a dialect.
ghost use Rattle.std.specs.Prelude.{◌≡◌, ℕ, true, List, Option, IfOk};
ghost use Rattle.ir_base.specs.declared.types.TypeHandle.{TypeHandle};
ghost use Rattle.ir_trees.specs.Renames.{holding};
ghost use Rattle.opt_trees.specs.Dialect.{Dialect, Lawful};
ghost use Rattle.opt_dialect.specs.Masks.{marked};

use ir_base::TypeHandle;
use std::alloc::{AllocError, Global};

/// What the operations and blocks of a dialect carry, and what their kinds mean to the optimisations.
pub trait Meanings {
    /// What an operation carries: its kind, its attributes.
    type Operation: Drop;

    /// What a block carries: its attributes.
    type Block: Drop;

    /// What a value can be known to be: an attribute, in the form in which folds hand it on. A dialect whose attributes
    /// are large keeps them once, and hands on their keys.
    type Constant: Copy + Eq;

    /// What is said of operations and blocks.
    ghost meaning: { Dialect (holding Self.Operation Self.Block TypeHandle) Self.Constant };

    /// Whether it ends a block.
    fn is_terminator(op: &Self::Operation) -> bool
        ensures { result ≡ meaning.is_terminator op.now };

    /// Whether in its region with this index what comes first runs first.
    fn has_ssa_dominance(op: &Self::Operation, region: usize) -> bool
        ensures { result ≡ meaning.is_ssa op.now region };

    /// Whether it is a branch, whose successors' arguments are given by operands.
    fn is_branch(op: &Self::Operation) -> bool
        ensures { result ≡ meaning.is_branch op.now };

    /// The indices of those of so many operands that a branch forwards to its successor with this index, in the order of
    /// the arguments there.
    ///
    /// # Errors
    /// There may be no memory.
    fn successor_operands(
        alloc: Global,
        op: &Self::Operation,
        operands: usize,
        successor: usize,
    ) -> Result<Vec<usize>, AllocError>
        ensures { IfOk result (λ indices. indices.items ≡ meaning.forwards op.now operands successor) };

    /// Takes the operands whose index is marked out of what the operation says of its operands.
    fn remove_operands(op: &mut Self::Operation, marks: &[bool])
        ensures { op.new ≡ meaning.drop_operands op.old (marked marks.now) };

    /// Takes the arguments whose index is marked out of what the block says of its arguments.
    fn remove_arguments(block: &mut Self::Block, marks: &[bool])
        ensures { block.new ≡ meaning.drop_names block.old (marked marks.now) };
}

/// Effects of operations besides their results.
pub trait SideEffects: Meanings {
    /// Whether the operation does more than give its results.
    fn has_side_effects(op: &Self::Operation) -> bool
        ensures { result ≡ Self.meaning.has_effects op.now };
}

/// Operations of whose blocks arguments may be removed.
pub trait BlockArgRemoval: Meanings {
    /// Whether arguments of a block of its region with this index may be removed, or of its entry.
    fn can_remove_block_args(op: &Self::Operation, region: usize, is_entry: bool) -> bool
        ensures { result ≡ Self.meaning.can_remove op.now region is_entry };
}

/// Operations that fold to constants.
pub trait ConstFoldInterface: Meanings {
    /// Whether the operation can be folded.
    fn is_foldable(op: &Self::Operation) -> bool
        ensures { result ≡ Self.meaning.is_foldable op.now };

    /// What each result of an operation with results of these types folds to, by what is known of its operands.
    ///
    /// # Errors
    /// There may be no memory.
    fn check_fold(
        alloc: Global,
        op: &Self::Operation,
        types: &[TypeHandle],
        known: &[Option<Self::Constant>],
    ) -> Result<Vec<Option<Self::Constant>>, AllocError>
        ensures { IfOk result (λ folds. folds.items ≡ Self.meaning.fold op.now types.now known.now) };

    /// Whether the operation makes a constant.
    fn is_constant(op: &Self::Operation) -> bool
        ensures { result ≡ Self.meaning.is_constant op.now };

    /// What an operation carries that makes the constant, if one does.
    ///
    /// # Errors
    /// There may be no memory.
    fn constant(
        alloc: Global,
        constant: Self::Constant,
    ) -> Result<Option<Self::Operation>, AllocError>
        ensures { IfOk result (λ made. made ≡ Self.meaning.constant constant) };

    /// The type of a constant.
    fn constant_type(constant: Self::Constant) -> TypeHandle
        ensures { result ≡ Self.meaning.constant_type constant };
}

/// Branches whose operands tell which way they go.
pub trait BranchOpFoldInterface: Meanings {
    /// Whether the successor with this index is feasible, by what is known of the operands; always, where the kind
    /// doesn't tell.
    fn is_feasible(op: &Self::Operation, known: &[Option<Self::Constant>], successor: usize) -> bool
        ensures { result ≡ Self.meaning.feasible op.now known.now successor };

    /// The index of the successor that known operands pick, if they pick one.
    fn fold_edge(op: &Self::Operation, known: &[Option<Self::Constant>]) -> Option<usize>
        ensures { result ≡ Self.meaning.edge op.now known.now };

    /// What the unconditional branch carries, if the dialect has one: a fresh one, without attributes.
    ///
    /// # Errors
    /// There may be no memory.
    fn unconditional(alloc: Global) -> Result<Option<Self::Operation>, AllocError>
        ensures { IfOk result (λ made. made ≡ Self.meaning.plain) };

    /// Whether the operation is of the kind of the unconditional branch.
    fn is_unconditional(op: &Self::Operation) -> bool
        ensures { result ≡ Self.meaning.is_plain op.now };
}

/// A dialect that can be optimised.
pub trait OptDialect: SideEffects + BlockArgRemoval + ConstFoldInterface + BranchOpFoldInterface {
    /// What its kinds mean is lawful.
    ghost lawful: { Lawful Self.meaning };

    /// Constants that compare equal are the same.
    ghost same_constants: { (x y : Self.Constant) → Self.Constant.eq x y ≡ true → x ≡ y };
}
