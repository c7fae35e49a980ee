//! Operations, made of parts and as parts.
ghost use Rattle.std.specs.Prelude.{◌≡◌, ℕ, true, option_and_then, List, [], ◌∷◌, length, Some, Err, IfOk, OnOk, IsSome, slice_get};
ghost use Rattle.ir_base.specs.declared.types.TypeHandle.{TypeHandle};
ghost use Rattle.ir_names.specs.Dictionary.{attribute_at, with_attribute};
ghost use Rattle.ir_names.specs.Text.{is_identifier};
ghost use Rattle.ir_names.specs.Tree.{Trees};
ghost use Rattle.ir_print.specs.declared.format.Part.TheVariants as part;
ghost use Rattle.ir_print.specs.Pieces.{Pieces};
ghost use Rattle.ir_print.specs.Shown.{Said, ShowsAll, ShowsParts};
ghost use Rattle.ir_program.specs.Program.{operation_at, results_at};
ghost use Rattle.text_dialect.specs.Making as made;
ghost use Rattle.text_dialect.specs.Seen.{SeenOperation, seen, types_of};
ghost use Rattle.text_dialect.specs.declared.dialect.MakeFault.TheVariants.{Refused};
ghost use Rattle.ir_types.specs.Interned.{KeepsTypes, key_at};
ghost use Rattle.kit_ops.specs.Keys.{symbol_name, function_type, constant_value, callee, callee_type, segment_sizes};
ghost use Rattle.kit_ops.specs.declared.attributes.IntegerAttr.{IntegerAttr};
ghost use Rattle.kit_ops.specs.declared.attributes.KitAttr.{KitAttr};
ghost use Rattle.kit_ops.specs.declared.attributes.KitAttr.TheVariants.{Integer};
ghost use Rattle.kit_ops.specs.declared.kinds.KitOp.{KitOp};
ghost use Rattle.kit_ops.specs.declared.types.KitType.{KitType};
ghost use Rattle.kit_ops.specs.declared.types.KitType.TheVariants.{Integer as IntegerKey};
ghost use Rattle.kit.specs.Forms.{NamedRegion, TypedRegion, Value, TwoOperands, OneOperand, AnyOperands, Empty, Called, Edge, ConditionEdges, read_ops};
ghost use Rattle.kit.specs.Making.{MakesForm, RefusesForm, results_of_constant, results_of_pair, returned_by, type_called};
ghost use Rattle.kit.specs.Parts.{AreNameParts, AreModuleParts, AreFunctionParts, AreCallParts, condition_parts};
ghost use Rattle.kit.specs.Says.{says, values};

use crate::dialect::Kit;
use crate::parts::{
    call_in, called_in, constant_in, edge_in, edges_in, function_in, module_in, operands_in,
    pair_in,
};
use ir_context::{Context, OperandCalls, OperationCalls, ResultCalls};
use ir_names::{AttributeDict, Identifier, TypeHandle};
use ir_print::{LeafValue, Part};
use ir_program::{Operation, Ptr};
use kit_ops::{IntegerAttr, KitAttr, KitOp, KitType, keys};
use std::alloc::{AllocError, Global};
use text_dialect::{MakeFault, OperationDraft};

/// The attributes of an operation have one more entry.
fn add_entry(
    alloc: Global,
    attributes: &mut AttributeDict<Kit>,
    key: &str,
    attr: KitAttr,
) -> Result<(), AllocError>
    requires { is_identifier key.now ≡ true }
    ensures { OnOk result (attributes.new ≡ with_attribute attributes.old key.now attr) }
{
    let _ = attributes.set(Identifier::new(alloc, key)?, attr)?;
    Ok(())
}

/// Attributes of one entry.
fn one_entry(alloc: Global, key: &str, attr: KitAttr) -> Result<AttributeDict<Kit>, AllocError>
    requires { is_identifier key.now ≡ true }
    ensures { IfOk result (λ attributes. attributes ≡ with_attribute [] key.now attr) }
{
    let mut attributes = AttributeDict::new(alloc);
    add_entry(alloc, &mut attributes, key, attr)?;
    Ok(attributes)
}

fn draft(attributes: AttributeDict<Kit>, result_types: Vec<TypeHandle>) -> OperationDraft<Kit>
    ensures attributes { result.attributes ≡ attributes }
    ensures types { result.result_types ≡ result_types }
{
    OperationDraft {
        result_types,
        attributes,
    }
}

/// What a module is made with: a name.
fn make_module(alloc: Global, parts: &[Part<Kit>]) -> Result<OperationDraft<Kit>, MakeFault>
    ensures made { IfOk result (λ draft. (types : List KitType)
        → MakesForm NamedRegion parts.now types types draft.attributes draft.result_types.items) }
    ensures refused { (i : ℕ) → result ≡ Err (Refused i) → (types : List KitType)
        → RefusesForm NamedRegion parts.now types i }
{
    let Some(name) = module_in(parts) else {
        return Err(MakeFault::Refused(0));
    };
    let name = KitAttr::Identifier(name.try_clone()?);
    let attributes = one_entry(alloc, keys::SYMBOL_NAME, name)?;
    Ok(draft(attributes, Vec::new(alloc)))
}

/// What a function is made with: a name and a type.
fn make_function(alloc: Global, parts: &[Part<Kit>]) -> Result<OperationDraft<Kit>, MakeFault>
    ensures made { IfOk result (λ draft. (types : List KitType)
        → MakesForm TypedRegion parts.now types types draft.attributes draft.result_types.items) }
    ensures refused { (i : ℕ) → result ≡ Err (Refused i) → (types : List KitType)
        → RefusesForm TypedRegion parts.now types i }
{
    let Some((name, ty)) = function_in(parts) else {
        return Err(MakeFault::Refused(0));
    };
    let name = KitAttr::Identifier(name.try_clone()?);
    let mut attributes = one_entry(alloc, keys::SYMBOL_NAME, name)?;
    add_entry(
        alloc,
        &mut attributes,
        keys::FUNCTION_TYPE,
        KitAttr::Type(ty),
    )?;
    Ok(draft(attributes, Vec::new(alloc)))
}

/// The handle that the type of an integer has in this context: the one that is kept with it, where that leads to it here.
fn type_of_integer(
    alloc: Global,
    ctx: &mut Context<Kit>,
    integer: &IntegerAttr,
) -> Result<TypeHandle, AllocError>
    ensures program { ctx.new.program ≡ ctx.old.program }
    ensures types { KeepsTypes ctx.old.types ctx.new.types }
    ensures handle { IfOk result (λ ty. slice_get ctx.new.types.keys ty.number ≡ Some
        (IntegerKey integer.now.integer)) }
{
    if let Some(KitType::Integer(kept)) = ctx.type_key(integer.ty) {
        if *kept == integer.integer {
            return Ok(integer.ty);
        }
    }
    ctx.instantiate_key(alloc, KitType::Integer(integer.integer))
}

/// What a constant is made with: its value, and the type of that as the type of its result. The value is kept under the
/// handle that its type has in this context.
fn make_constant(
    alloc: Global,
    ctx: &mut Context<Kit>,
    parts: &[Part<Kit>],
) -> Result<OperationDraft<Kit>, MakeFault>
    ensures program { ctx.new.program ≡ ctx.old.program }
    ensures types { KeepsTypes ctx.old.types ctx.new.types }
    ensures made { IfOk result
        (λ draft. MakesForm Value parts.now ctx.old.types.keys ctx.new.types.keys draft.attributes
        draft.result_types.items) }
    ensures refused { (i : ℕ) → result ≡ Err (Refused i) → RefusesForm Value parts.now ctx.old.types.keys i }
{
    let Some(integer) = constant_in(parts) else {
        return Err(MakeFault::Refused(0));
    };
    let ty = type_of_integer(alloc, ctx, &integer)?;
    let value = KitAttr::Integer(IntegerAttr {
        ty,
        integer: integer.integer,
        bits: integer.bits,
    });
    let result_types = vec![in alloc; ty]?;
    let attributes = one_entry(alloc, keys::CONSTANT_VALUE, value)?;
    Ok(draft(attributes, result_types))
}

/// What an operation with any number of operands is made with: nothing.
fn make_of_operands(alloc: Global, parts: &[Part<Kit>]) -> Result<OperationDraft<Kit>, MakeFault>
    ensures made { IfOk result (λ draft. (types : List KitType)
        → MakesForm AnyOperands parts.now types types draft.attributes draft.result_types.items) }
    ensures refused { (i : ℕ) → result ≡ Err (Refused i) → (types : List KitType)
        → RefusesForm AnyOperands parts.now types i }
{
    let Some(_count) = operands_in(parts) else {
        return Err(MakeFault::Refused(0));
    };
    Ok(draft(AttributeDict::new(alloc), Vec::new(alloc)))
}

/// What an operation with one operand is made with: nothing.
fn make_of_operand(alloc: Global, parts: &[Part<Kit>]) -> Result<OperationDraft<Kit>, MakeFault>
    ensures made { IfOk result (λ draft. (types : List KitType)
        → MakesForm OneOperand parts.now types types draft.attributes draft.result_types.items) }
    ensures refused { (i : ℕ) → result ≡ Err (Refused i) → (types : List KitType)
        → RefusesForm OneOperand parts.now types i }
{
    let Some(count) = operands_in(parts) else {
        return Err(MakeFault::Refused(0));
    };
    if count != 1 {
        return Err(MakeFault::Refused(0));
    }
    Ok(draft(AttributeDict::new(alloc), Vec::new(alloc)))
}

/// What an operation with two operands is made with: the type of its result.
fn make_of_pair(alloc: Global, parts: &[Part<Kit>]) -> Result<OperationDraft<Kit>, MakeFault>
    ensures made { IfOk result (λ draft. (types : List KitType)
        → MakesForm TwoOperands parts.now types types draft.attributes draft.result_types.items) }
    ensures refused { (i : ℕ) → result ≡ Err (Refused i) → (types : List KitType)
        → RefusesForm TwoOperands parts.now types i }
{
    let Some(ty) = pair_in(parts) else {
        return Err(MakeFault::Refused(0));
    };
    Ok(draft(AttributeDict::new(alloc), vec![in alloc; ty]?))
}

/// What an operation with nothing behind its name is made with: the unit type, as the type of its result.
fn make_of_nothing(
    alloc: Global,
    ctx: &mut Context<Kit>,
    parts: &[Part<Kit>],
) -> Result<OperationDraft<Kit>, MakeFault>
    ensures program { ctx.new.program ≡ ctx.old.program }
    ensures types { KeepsTypes ctx.old.types ctx.new.types }
    ensures made { IfOk result
        (λ draft. MakesForm Empty parts.now ctx.old.types.keys ctx.new.types.keys draft.attributes
        draft.result_types.items) }
    ensures refused { (i : ℕ) → result ≡ Err (Refused i) → RefusesForm Empty parts.now ctx.old.types.keys i }
{
    if !parts.is_empty() {
        return Err(MakeFault::Refused(0));
    }
    let ty = ctx.instantiate_key(alloc, KitType::Unit)?;
    let result_types = vec![in alloc; ty]?;
    Ok(draft(AttributeDict::new(alloc), result_types))
}

/// The types of the results of a function type; none of another type.
fn types_returned(
    alloc: Global,
    ctx: &Context<Kit>,
    ty: TypeHandle,
) -> Result<Vec<TypeHandle>, AllocError>
    ensures { IfOk result (λ types. types.items ≡ returned_by (key_at ctx.now.types ty)) }
{
    match ctx.type_key(ty) {
        Some(KitType::Function(function)) => Vec::from_slice(alloc, &function.results),
        _ => Ok(Vec::new(alloc)),
    }
}

/// What a call is made with: the name and the type of its function, and the types of the results of that.
fn make_call(
    alloc: Global,
    ctx: &Context<Kit>,
    parts: &[Part<Kit>],
) -> Result<OperationDraft<Kit>, MakeFault>
    ensures made { IfOk result (λ draft. MakesForm Called parts.now ctx.now.types.keys ctx.now.types.keys
        draft.attributes draft.result_types.items) }
    ensures refused { (i : ℕ) → result ≡ Err (Refused i) → RefusesForm Called parts.now ctx.now.types.keys i }
{
    let Some((name, ty)) = call_in(parts) else {
        return Err(MakeFault::Refused(0));
    };
    let name = KitAttr::Identifier(name.try_clone()?);
    let mut attributes = one_entry(alloc, keys::CALLEE, name)?;
    add_entry(alloc, &mut attributes, keys::CALLEE_TYPE, KitAttr::Type(ty))?;
    let result_types = types_returned(alloc, ctx, ty)?;
    Ok(draft(attributes, result_types))
}

/// What an operation with one edge is made with: nothing.
fn make_br(alloc: Global, parts: &[Part<Kit>]) -> Result<OperationDraft<Kit>, MakeFault>
    ensures made { IfOk result (λ draft. (types : List KitType)
        → MakesForm Edge parts.now types types draft.attributes draft.result_types.items) }
    ensures refused { (i : ℕ) → result ≡ Err (Refused i) → (types : List KitType)
        → RefusesForm Edge parts.now types i }
{
    let Some(_count) = edge_in(parts) else {
        return Err(MakeFault::Refused(0));
    };
    Ok(draft(AttributeDict::new(alloc), Vec::new(alloc)))
}

/// Sizes of segments: one operand, and then these. There is no memory for sizes past 32 bits.
fn sizes_of(alloc: Global, first: usize, second: usize) -> Result<Vec<u32>, AllocError>
    ensures { IfOk result (λ sizes. sizes.items ≡ 1 ∷ first ∷ second ∷ []) }
{
    let most = u32::MAX as usize;
    if first > most || second > most {
        return Err(AllocError);
    }
    Ok(vec![in alloc; 1, first as u32, second as u32]?)
}

/// What a conditional branch is made with: the sizes of its segments, which are the condition and what each edge hands on.
fn make_cond_br(alloc: Global, parts: &[Part<Kit>]) -> Result<OperationDraft<Kit>, MakeFault>
    ensures made { IfOk result (λ draft. (types : List KitType)
        → MakesForm ConditionEdges parts.now types types draft.attributes draft.result_types.items) }
    ensures refused { (i : ℕ) → result ≡ Err (Refused i) → (types : List KitType)
        → RefusesForm ConditionEdges parts.now types i }
{
    let Some((first, second)) = edges_in(parts) else {
        return Err(MakeFault::Refused(0));
    };
    let sizes = sizes_of(alloc, first, second)?;
    let attributes = one_entry(alloc, keys::SEGMENT_SIZES, KitAttr::SegmentSizes(sizes))?;
    Ok(draft(attributes, Vec::new(alloc)))
}

/// How many results a constant has: one, where it says an attribute, of whatever kind.
fn results_of_constant(parts: &[Part<Kit>]) -> usize
    ensures { result ≡ results_of_constant parts.now }
{
    match parts {
        [Part::Attribute(_)] => 1,
        _ => 0,
    }
}

/// How many results an operation with two operands has: one, where it says a type behind them.
fn results_of_pair(parts: &[Part<Kit>]) -> usize
    ensures { result ≡ results_of_pair parts.now }
{
    match parts {
        [_, _, _] => 1,
        _ => 0,
    }
}

/// How many results a call has: as many as the type of its function.
fn results_of_call(ctx: &Context<Kit>, parts: &[Part<Kit>]) -> usize
    ensures { result ≡ length (returned_by (option_and_then (key_at ctx.now.types) (type_called parts.now))) }
{
    let Some(ty) = called_in(parts) else {
        return 0;
    };
    match ctx.type_key(ty) {
        Some(KitType::Function(function)) => function.results.len(),
        _ => 0,
    }
}

/// How many results an operation of these parts has, whether or not it can be made of them.
pub(crate) fn num_results(ctx: &Context<Kit>, kind: KitOp, parts: &[Part<Kit>]) -> usize
    ensures { (n : ℕ) → (ps : Pieces) → slice_get read_ops n ≡ Some kind
        → ShowsParts says ctx.now.types.keys parts.now ps → result ≡ length (values.result_types n ps) }
{
    match kind {
        KitOp::Constant => results_of_constant(parts),
        KitOp::Arithmetic(_) => results_of_pair(parts),
        KitOp::Comparison(_) => results_of_pair(parts),
        KitOp::ForwardRef => 1,
        KitOp::Call => results_of_call(ctx, parts),
        KitOp::Module | KitOp::Func | KitOp::Emit | KitOp::Return | KitOp::Br | KitOp::CondBr => 0,
    }
}

/// What an operation of these parts is made with, or the first part that is refused. The type of a constant is interned, and
/// the unit type where an operation has nothing behind its name.
///
/// # Errors
/// `Refused` with the number of the part, and `Memory`.
pub(crate) fn make_operation(
    alloc: Global,
    ctx: &mut Context<Kit>,
    kind: KitOp,
    parts: &[Part<Kit>],
) -> Result<OperationDraft<Kit>, MakeFault>
    ensures program { ctx.new.program ≡ ctx.old.program }
    ensures types { KeepsTypes ctx.old.types ctx.new.types }
    ensures made { IfOk result (λ d. made.MakesOperation says values
        (slice_get read_ops) kind ctx.old.types.keys ctx.new.types.keys parts.now d.attributes d.result_types.items) }
    ensures refused { (i : ℕ) → result ≡ Err (Refused i)
        → made.RefusesOperation says values (slice_get read_ops) kind ctx.old.types.keys parts.now i }
{
    match kind {
        KitOp::Module => make_module(alloc, parts),
        KitOp::Func => make_function(alloc, parts),
        KitOp::Constant => make_constant(alloc, ctx, parts),
        KitOp::Arithmetic(_) => make_of_pair(alloc, parts),
        KitOp::Comparison(_) => make_of_pair(alloc, parts),
        KitOp::Emit => make_of_operand(alloc, parts),
        KitOp::Return => make_of_operands(alloc, parts),
        KitOp::ForwardRef => make_of_nothing(alloc, ctx, parts),
        KitOp::Call => make_call(alloc, ctx, parts),
        KitOp::Br => make_br(alloc, parts),
        KitOp::CondBr => make_cond_br(alloc, parts),
    }
}

/// The name that an operation has under a key, as parts: none where it has none.
fn name_parts(
    alloc: Global,
    attributes: &AttributeDict<Kit>,
    key: &str,
) -> Result<Vec<Part<Kit>>, AllocError>
    ensures { IfOk result (λ parts. AreNameParts (attribute_at attributes.now key.now) parts.items) }
{
    match attributes.get(key) {
        Some(KitAttr::Identifier(name)) => Ok(vec![in alloc;
            Part::Leaf(LeafValue::Name(name.try_clone()?)),
        ]?),
        _ => Ok(Vec::new(alloc)),
    }
}

/// The parts of a module: its name and its region.
fn module_parts(
    alloc: Global,
    attributes: &AttributeDict<Kit>,
) -> Result<Vec<Part<Kit>>, AllocError>
    ensures { IfOk result (λ parts. AreModuleParts (attribute_at attributes.now symbol_name) parts.items) }
{
    let mut parts = name_parts(alloc, attributes, keys::SYMBOL_NAME)?;
    parts.push(Part::Region)?;
    Ok(parts)
}

/// The parts of a function: its name, its type and its region.
fn function_parts(
    alloc: Global,
    attributes: &AttributeDict<Kit>,
) -> Result<Vec<Part<Kit>>, AllocError>
    ensures { IfOk result (λ parts. AreFunctionParts (attribute_at attributes.now symbol_name)
        (attribute_at attributes.now function_type) parts.items) }
{
    let mut parts = name_parts(alloc, attributes, keys::SYMBOL_NAME)?;
    if let Some(KitAttr::Type(ty)) = attributes.get(keys::FUNCTION_TYPE) {
        parts.push(Part::Type(*ty))?;
    }
    parts.push(Part::Region)?;
    Ok(parts)
}

/// The parts of a call: the name of its function, so many operands, and the type of the function.
fn call_parts(
    alloc: Global,
    attributes: &AttributeDict<Kit>,
    operands: usize,
) -> Result<Vec<Part<Kit>>, AllocError>
    ensures { IfOk result (λ parts. AreCallParts (attribute_at attributes.now callee)
        (attribute_at attributes.now callee_type) operands parts.items) }
{
    let mut parts = name_parts(alloc, attributes, keys::CALLEE)?;
    parts.push(Part::Operands(operands))?;
    if let Some(KitAttr::Type(ty)) = attributes.get(keys::CALLEE_TYPE) {
        parts.push(Part::Type(*ty))?;
    }
    Ok(parts)
}

/// The parts of a conditional branch: its condition, and an edge for each of the sizes behind that of the condition.
fn edge_parts(alloc: Global, attributes: &AttributeDict<Kit>) -> Result<Vec<Part<Kit>>, AllocError>
    ensures { IfOk result (λ parts. parts.items ≡ condition_parts (attribute_at attributes.now segment_sizes)) }
{
    match attributes.get(keys::SEGMENT_SIZES) {
        Some(KitAttr::SegmentSizes(sizes)) => match sizes.as_slice() {
            [_, first, second] => {
                let first = Part::Successor(*first as usize);
                let second = Part::Successor(*second as usize);
                Ok(vec![in alloc; Part::Operands(1), first, second]?)
            }
            _ => Ok(Vec::new(alloc)),
        },
        _ => Ok(Vec::new(alloc)),
    }
}

/// The parts of a constant: its value, where that is an integer.
fn constant_parts(
    alloc: Global,
    attributes: &AttributeDict<Kit>,
) -> Result<Vec<Part<Kit>>, AllocError>
    ensures { (a : IntegerAttr) → attribute_at attributes.now constant_value ≡ Some (Integer a)
        → IfOk result (λ parts. parts.items ≡ part.Attribute (Integer a) ∷ []) }
{
    match attributes.get(keys::CONSTANT_VALUE) {
        Some(KitAttr::Integer(integer)) => {
            Ok(vec![in alloc; Part::Attribute(KitAttr::Integer(*integer))]?)
        }
        _ => Ok(Vec::new(alloc)),
    }
}

/// The parts of an operation with two operands: these, and the type of its result.
fn pair_parts(
    alloc: Global,
    ctx: &Context<Kit>,
    op: Ptr<Operation>,
) -> Result<Vec<Part<Kit>>, AllocError>
    requires { IsSome (operation_at ctx.now.program op) }
    ensures { (ty : TypeHandle) → types_of (results_at ctx.now.program op) ≡ ty ∷ []
        → IfOk result (λ parts. parts.items ≡ part.Operands 1 ∷ part.Operands 1 ∷ part.Type ty ∷ []) }
{
    if op.get_num_results(ctx) == 0 {
        return Ok(Vec::new(alloc));
    }
    let ty = op.get_type(ctx, 0);
    Ok(vec![in alloc; Part::Operands(1), Part::Operands(1), Part::Type(ty)]?)
}

/// The parts of an operation. Operands, edges and regions are given by how many there are of them. An operation that can't be
/// read has none.
pub(crate) fn operation_parts(
    alloc: Global,
    ctx: &Context<Kit>,
    op: Ptr<Operation>,
) -> Result<Vec<Part<Kit>>, AllocError>
    requires live { IsSome (operation_at ctx.now.program op) }
    ensures { (types : List KitType) → (o : SeenOperation KitOp KitAttr) → (n : ℕ) → (us : Trees (Said KitAttr))
        → (ps : Pieces) → (seen ctx.now).operation op ≡ Some o
        → says.of_operation o.kind o.attributes (length o.operands) (types_of o.results) ≡ Some (n, us)
        → ShowsAll says types us ps → IfOk result (λ parts. ShowsParts says types parts.items ps) }
{
    let attributes = &op.deref(ctx).attributes;
    match op.kind(ctx) {
        KitOp::Module => module_parts(alloc, attributes),
        KitOp::Func => function_parts(alloc, attributes),
        KitOp::Constant => constant_parts(alloc, attributes),
        KitOp::Arithmetic(_) => pair_parts(alloc, ctx, op),
        KitOp::Comparison(_) => pair_parts(alloc, ctx, op),
        KitOp::Emit => Ok(vec![in alloc; Part::Operands(op.get_num_operands(ctx))]?),
        KitOp::Return => Ok(vec![in alloc; Part::Operands(op.get_num_operands(ctx))]?),
        KitOp::Call => call_parts(alloc, attributes, op.get_num_operands(ctx)),
        KitOp::ForwardRef => Ok(Vec::new(alloc)),
        KitOp::Br => Ok(vec![in alloc; Part::Successor(op.get_num_operands(ctx))]?),
        KitOp::CondBr => edge_parts(alloc, attributes),
    }
}
