//! What the three optimisations ask of the dialect.
ghost use Rattle.std.specs.Prelude.{◌≡◌, ◌+◌, ◌<◌, ◌^◌, IfOk, if◌then◌else◌, nat_eq};
ghost use Rattle.ir_names.specs.Dictionary.{attribute_at};
ghost use Rattle.kit_ops.specs.Keys.{constant_value};
ghost use Rattle.kit.specs.Meaning.{range, first_size, integer_in, are_numbers, calculated, bit_of, compared};
ghost use Rattle.kit.specs.Meaning.{value_of, if_of_type, operation_of};

use crate::dialect::Kit;
use crate::dropping::{lessen_segments, lose_names};
use ir_context::{BlockNotes, OperationData, OperationNotes};
use ir_names::{AttributeDict, Identifier, OpInterface, Signedness, TypeHandle};
use kit_ops::{
    Arithmetic, Comparison, IntegerAttr, IntegerType, KitAttr, KitLocation, KitOp, keys,
};
use opt_dialect::{
    BlockArgRemoval, BranchOpFoldInterface, ConstFoldInterface, Meanings, OptDialect, SideEffects,
};
use std::alloc::{AllocError, Global};

/// So many indices from the first one on.
fn indices(alloc: Global, start: usize, count: usize) -> Result<Vec<usize>, AllocError>
    requires { start + count < 2 ^ 64 }
    ensures { IfOk result (λ found. found.items ≡ range start count) }
{
    let mut found = Vec::new(alloc);
    for i in 0..count {
        found.push(start + i)?;
    }
    Ok(found)
}

/// How many operands a conditional branch forwards to its first successor, by its attributes.
fn first_size(attributes: &AttributeDict<Kit>) -> usize
    ensures { result ≡ first_size attributes.now }
{
    match attributes.get(keys::SEGMENT_SIZES) {
        Some(KitAttr::SegmentSizes(sizes)) => match sizes.as_slice() {
            [_, first, ..] => *first as usize,
            _ => 0,
        },
        _ => 0,
    }
}

/// The value of a constant, by its attributes, if it is an integer.
fn integer_of(attributes: &AttributeDict<Kit>) -> Option<IntegerAttr>
    ensures { result ≡ integer_in (attribute_at attributes.now constant_value) }
{
    match attributes.get(keys::CONSTANT_VALUE) {
        Some(KitAttr::Integer(integer)) => Some(*integer),
        _ => None,
    }
}

/// Whether two integers are of one type, of 1 to 64 bits.
fn are_numbers(x: IntegerAttr, y: IntegerAttr) -> bool
    ensures { result ≡ are_numbers x y }
{
    x.ty == y.ty && 1 <= x.integer.width && x.integer.width <= 64
}

/// What arithmetic gives for two integers.
fn calculated(kind: Arithmetic, x: IntegerAttr, y: IntegerAttr) -> Option<IntegerAttr>
    ensures { result ≡ calculated kind x y }
{
    if !are_numbers(x, y) {
        return None;
    }
    let bits = kind.calculate(x.integer.width, x.bits, y.bits)?;
    Some(IntegerAttr { bits, ..x })
}

/// The bit of a type.
fn bit_of(ty: TypeHandle, holds: bool) -> IntegerAttr
    ensures { result ≡ bit_of ty holds }
{
    IntegerAttr {
        ty,
        integer: IntegerType {
            signedness: Signedness::Signless,
            width: 1,
        },
        bits: if holds { 1 } else { 0 },
    }
}

/// What a comparison whose result has this type gives for two integers.
fn compared(kind: Comparison, ty: TypeHandle, x: IntegerAttr, y: IntegerAttr) -> Option<IntegerAttr>
    ensures { result ≡ compared kind ty x y }
{
    if !are_numbers(x, y) {
        return None;
    }
    Some(bit_of(ty, kind.holds(x.bits, y.bits)))
}

/// What the result of an operation is, if its type is this one, by what is known of its operands.
fn value_of(
    op: &OperationData<Kit>,
    ty: TypeHandle,
    known: &[Option<IntegerAttr>],
) -> Option<IntegerAttr>
    ensures { result ≡ value_of op.now.kind op.now.notes.attributes ty known.now }
{
    match (op.kind(), known) {
        (KitOp::Constant, _) => integer_of(&op.notes.attributes),
        (KitOp::Arithmetic(kind), [Some(x), Some(y)]) => calculated(kind, *x, *y),
        (KitOp::Comparison(kind), [Some(x), Some(y)]) => compared(kind, ty, *x, *y),
        _ => None,
    }
}

/// The integer, if it has this type.
fn if_of_type(ty: TypeHandle, value: Option<IntegerAttr>) -> Option<IntegerAttr>
    ensures { result ≡ if_of_type ty value }
{
    match value {
        Some(integer) if integer.ty == ty => Some(integer),
        _ => None,
    }
}

/// Which edge a condition picks.
fn picked(condition: IntegerAttr) -> usize
    ensures { result ≡ (if nat_eq condition.bits 1 then 0 else 1) }
{
    if condition.bits == 1 { 0 } else { 1 }
}

/// What carries a kind and attributes, and comes from no source.
fn operation_of(kind: KitOp, attributes: AttributeDict<Kit>) -> OperationData<Kit>
    ensures { result ≡ operation_of kind attributes }
{
    let loc = KitLocation::Unknown;
    OperationData::new(kind, OperationNotes { attributes, loc })
}

impl Meanings for Kit {
    ghost use Rattle.kit.specs.Meaning.{kit};

    type Operation = OperationData<Kit>;

    type Block = BlockNotes<Kit>;

    type Constant = IntegerAttr;

    ghost meaning = { kit };

    fn is_terminator(op: &OperationData<Kit>) -> bool {
        op.kind().implements(OpInterface::IsTerminator)
    }

    fn has_ssa_dominance(op: &OperationData<Kit>, _region: usize) -> bool {
        !matches!(op.kind(), KitOp::Module)
    }

    fn is_branch(op: &OperationData<Kit>) -> bool {
        op.kind().implements(OpInterface::Branch)
    }

    fn successor_operands(
        alloc: Global,
        op: &OperationData<Kit>,
        operands: usize,
        successor: usize,
    ) -> Result<Vec<usize>, AllocError> {
        let first = first_size(&op.notes.attributes);
        match (op.kind(), successor) {
            (KitOp::Br, 0) => indices(alloc, 0, operands),
            (KitOp::CondBr, 0) => indices(alloc, 1, first.min(operands.saturating_sub(1))),
            (KitOp::CondBr, 1) if first < operands => {
                indices(alloc, 1 + first, operands - (1 + first))
            }
            _ => Ok(Vec::new(alloc)),
        }
    }

    fn remove_operands(op: &mut OperationData<Kit>, marks: &[bool]) {
        if matches!(op.kind(), KitOp::CondBr) {
            lessen_segments(&mut op.notes.attributes, marks);
        }
    }

    fn remove_arguments(block: &mut BlockNotes<Kit>, marks: &[bool]) {
        lose_names(&mut block.attributes, marks);
    }
}

impl SideEffects for Kit {
    fn has_side_effects(op: &OperationData<Kit>) -> bool {
        op.kind().row().has_effects
    }
}

impl BlockArgRemoval for Kit {
    fn can_remove_block_args(op: &OperationData<Kit>, _region: usize, is_entry: bool) -> bool {
        matches!(op.kind(), KitOp::Func) && !is_entry
    }
}

impl ConstFoldInterface for Kit {
    fn is_foldable(op: &OperationData<Kit>) -> bool {
        op.kind().implements(OpInterface::ConstFold)
    }

    fn check_fold(
        alloc: Global,
        op: &OperationData<Kit>,
        types: &[TypeHandle],
        known: &[Option<IntegerAttr>],
    ) -> Result<Vec<Option<IntegerAttr>>, AllocError> {
        let mut found = Vec::new(alloc);
        match types {
            [] => {}
            [ty] => found.push(if_of_type(*ty, value_of(op, *ty, known)))?,
            _ => return vec![in alloc; None; types.len()],
        }
        Ok(found)
    }

    fn is_constant(op: &OperationData<Kit>) -> bool {
        matches!(op.kind(), KitOp::Constant)
    }

    fn constant(
        alloc: Global,
        constant: IntegerAttr,
    ) -> Result<Option<OperationData<Kit>>, AllocError> {
        let mut attributes = AttributeDict::new(alloc);
        let key = Identifier::new(alloc, keys::CONSTANT_VALUE)?;
        attributes.set(key, KitAttr::Integer(constant))?;
        Ok(Some(operation_of(KitOp::Constant, attributes)))
    }

    fn constant_type(constant: IntegerAttr) -> TypeHandle {
        constant.ty
    }
}

impl BranchOpFoldInterface for Kit {
    fn is_feasible(
        op: &OperationData<Kit>,
        known: &[Option<IntegerAttr>],
        successor: usize,
    ) -> bool {
        match (op.kind(), known) {
            (KitOp::CondBr, [Some(condition), ..]) => successor == picked(*condition),
            _ => true,
        }
    }

    fn fold_edge(op: &OperationData<Kit>, known: &[Option<IntegerAttr>]) -> Option<usize> {
        match (op.kind(), known) {
            (KitOp::Br, _) => Some(0),
            (KitOp::CondBr, [Some(condition), ..]) => Some(picked(*condition)),
            _ => None,
        }
    }

    fn unconditional(alloc: Global) -> Result<Option<OperationData<Kit>>, AllocError> {
        Ok(Some(operation_of(KitOp::Br, AttributeDict::new(alloc))))
    }

    fn is_unconditional(op: &OperationData<Kit>) -> bool {
        matches!(op.kind(), KitOp::Br)
    }
}

impl OptDialect for Kit {
    ghost use Rattle.kit.specs.Lawful.{kit_lawful};
    ghost use Rattle.kit.specs.Same.{same_integer};

    ghost lawful = { kit_lawful };

    ghost same_constants = { same_integer };
}
