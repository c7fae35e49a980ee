//! Types, made of parts and as parts.
ghost use Rattle.std.specs.Prelude.{◌≡◌, ℕ, List, Err, IfOk};
ghost use Rattle.ir_print.specs.Pieces.{Pieces};
ghost use Rattle.ir_print.specs.Shown.{ShowsParts, ShowsKey};
ghost use Rattle.text_dialect.specs.Making as made;
ghost use Rattle.text_dialect.specs.declared.dialect.MakeFault.TheVariants.{Refused};
ghost use Rattle.kit_ops.specs.declared.types.KitType.{KitType};
ghost use Rattle.kit.specs.Forms.{read_types};
ghost use Rattle.kit.specs.Making.{MakesTypeOfKind, RefusesTypeOfKind};
ghost use Rattle.kit.specs.Says.{says, values};

use crate::dialect::Kit;
use crate::parts::{integer_type_in, list_in, list_of, types_of};
use ir_print::{LeafValue, Part};
use kit_ops::{FunctionType, KitType, KitTypeKind};
use std::alloc::{AllocError, Global};
use text_dialect::MakeFault;

/// An integer type of its width.
fn make_integer_type(parts: &[Part<Kit>]) -> Result<KitType, MakeFault>
    ensures made { IfOk result (λ key. MakesTypeOfKind 0 parts.now key) }
    ensures refused { (i : ℕ) → result ≡ Err (Refused i) → RefusesTypeOfKind 0 parts.now i }
{
    let Some(integer) = integer_type_in(parts) else {
        return Err(MakeFault::Refused(0));
    };
    Ok(KitType::Integer(integer))
}

/// A function type of its inputs and its results.
fn make_function_type(alloc: Global, parts: &[Part<Kit>]) -> Result<KitType, MakeFault>
    ensures made { IfOk result (λ key. MakesTypeOfKind 1 parts.now key) }
    ensures refused { (i : ℕ) → result ≡ Err (Refused i) → RefusesTypeOfKind 1 parts.now i }
{
    let [first, second] = parts else {
        return Err(MakeFault::Refused(0));
    };
    let Some(inputs) = list_in(first) else {
        return Err(MakeFault::Refused(0));
    };
    let Some(results) = list_in(second) else {
        return Err(MakeFault::Refused(0));
    };
    let Some(inputs) = types_of(alloc, inputs)? else {
        return Err(MakeFault::Refused(0));
    };
    let Some(results) = types_of(alloc, results)? else {
        return Err(MakeFault::Refused(0));
    };
    Ok(KitType::Function(FunctionType { inputs, results }))
}

/// The unit type, of no part.
fn make_unit_type(parts: &[Part<Kit>]) -> Result<KitType, MakeFault>
    ensures made { IfOk result (λ key. MakesTypeOfKind 2 parts.now key) }
    ensures refused { (i : ℕ) → result ≡ Err (Refused i) → RefusesTypeOfKind 2 parts.now i }
{
    if parts.is_empty() {
        Ok(KitType::Unit)
    } else {
        Err(MakeFault::Refused(0))
    }
}

/// The type of these parts, or the first part that is refused.
///
/// # Errors
/// `Refused` with the number of the part, and `Memory`.
pub(crate) fn make_type(
    alloc: Global,
    kind: KitTypeKind,
    parts: &[Part<Kit>],
) -> Result<KitType, MakeFault>
    ensures made { IfOk result (made.MakesType says values read_types kind parts.now) }
    ensures refused { (i : ℕ) → result ≡ Err (Refused i) → made.RefusesType says values read_types kind parts.now i }
{
    match kind {
        KitTypeKind::Integer => make_integer_type(parts),
        KitTypeKind::Function => make_function_type(alloc, parts),
        KitTypeKind::Unit => make_unit_type(parts),
    }
}

/// The parts of a type, as reading its text gives them.
pub(crate) fn type_parts(alloc: Global, key: &KitType) -> Result<Vec<Part<Kit>>, AllocError>
    ensures { (types : List KitType) → (n : ℕ) → (ps : Pieces) → ShowsKey says types key.now n ps
        → IfOk result (λ parts. ShowsParts says types parts.items ps) }
{
    match key {
        KitType::Integer(integer) => {
            Ok(vec![in alloc;
                Part::Leaf(LeafValue::Width(integer.signedness, Some(integer.width))),
            ]?)
        }
        KitType::Function(function) => {
            let inputs = list_of(alloc, &function.inputs)?;
            let results = list_of(alloc, &function.results)?;
            Ok(vec![in alloc; inputs, results]?)
        }
        KitType::Unit => Ok(Vec::new(alloc)),
    }
}
