//! What parts that were read are.
ghost use Rattle.std.specs.Prelude.{◌≡◌, ℕ, Some, Err, IfOk, map, option_copied, option_map, string_bytes};
ghost use Rattle.ir_names.specs.Identifier.{text_of};
ghost use Rattle.text_dialect.specs.declared.dialect.MakeFault.TheVariants.{Refused};
ghost use Rattle.kit.specs.Making.{one_name, one_size, one_text, one_list, one_given_name, given_name_of, each_member, first_unread};
ghost use Rattle.kit.specs.Making.{one_type, one_integer_type, module_name, function_header, one_integer, one_operands, pair_type, type_called, call_header, one_edge, edge_counts, each_type};
ghost use Rattle.kit.specs.Parts.{number_part, integer_part, list_part, choice_part, is_one_operand, IsTypeList, IsListOf, AreSizeParts, AreGivenNameParts};

use crate::dialect::Kit;
use ir_names::{Identifier, TypeHandle};
use ir_print::{LeafValue, Number, Part};
use kit_ops::{IntegerAttr, IntegerType, KitAttr};
use std::alloc::{AllocError, Global};
use text_dialect::MakeFault;

/// The type that parts are, if they are one.
pub(crate) fn type_in(parts: &[Part<Kit>]) -> Option<TypeHandle>
    ensures { result ≡ one_type parts.now }
{
    match parts {
        [Part::Type(ty)] => Some(*ty),
        _ => None,
    }
}

/// The types in a list of types, if each member is one.
pub(crate) fn types_of(
    alloc: Global,
    members: &[Vec<Part<Kit>>],
) -> Result<Option<Vec<TypeHandle>>, AllocError>
    ensures { IfOk result (λ types. option_map (λ v. v.items) types ≡ each_type members.now) }
{
    let mut types = Vec::with_capacity(alloc, members.len())?;
    for member in members {
        let Some(ty) = type_in(member.as_slice()) else {
            return Ok(None);
        };
        types.push(ty)?;
    }
    Ok(Some(types))
}

/// A list of types, as a part.
pub(crate) fn list_of(alloc: Global, types: &[TypeHandle]) -> Result<Part<Kit>, AllocError>
    ensures { IfOk result (λ part. IsTypeList types.now part) }
{
    let mut members = Vec::with_capacity(alloc, types.len())?;
    for ty in types {
        members.push(vec![in alloc; Part::Type(*ty)]?)?;
    }
    Ok(Part::List(members))
}

/// The name that parts are, if they are one.
pub(crate) fn name_in(parts: &[Part<Kit>]) -> Option<&Identifier>
    ensures { option_copied result ≡ one_name parts.now }
{
    match parts {
        [Part::Leaf(LeafValue::Name(name))] => Some(name),
        _ => None,
    }
}

/// The text in quotes that parts are, if they are one.
pub(crate) fn text_in(parts: &[Part<Kit>]) -> Option<&String>
    ensures { option_map (λ text. string_bytes text.now) result ≡ one_text parts.now }
{
    match parts {
        [Part::Leaf(LeafValue::Text(text))] => Some(text),
        _ => None,
    }
}

/// The members of the list that parts are, if they are one.
pub(crate) fn members_in(parts: &[Part<Kit>]) -> Option<&Vec<Vec<Part<Kit>>>>
    ensures { option_copied result ≡ one_list parts.now }
{
    match parts {
        [part] => list_in(part),
        _ => None,
    }
}

/// The number of at most 32 bits that parts are, if they are one.
fn size_in(parts: &[Part<Kit>]) -> Option<u32>
    ensures { result ≡ one_size parts.now }
{
    match parts {
        [Part::Leaf(LeafValue::Digits(Some(number)))] if *number <= u32::MAX as u64 => {
            Some(*number as u32)
        }
        _ => None,
    }
}

/// The numbers in a list of numbers.
///
/// # Errors
/// `Refused` with the number of the first member that is no number of at most 32 bits.
pub(crate) fn sizes_in(alloc: Global, members: &[Vec<Part<Kit>>]) -> Result<Vec<u32>, MakeFault>
    ensures read { IfOk result (λ sizes. each_member one_size members.now ≡ Some sizes.items) }
    ensures refused { (i : ℕ) → result ≡ Err (Refused i) → first_unread one_size 0 members.now ≡ Some i }
{
    let mut sizes = Vec::with_capacity(alloc, members.len())?;
    for (number, member) in members.iter().enumerate() {
        let Some(size) = size_in(member.as_slice()) else {
            return Err(MakeFault::Refused(number));
        };
        sizes.push(size)?;
    }
    Ok(sizes)
}

/// The choice that a part is: the number of the format, and what it says.
fn choice_in(part: &Part<Kit>) -> Option<(usize, &Vec<Part<Kit>>)>
    ensures { option_map (λ e. (e.0, e.1.now)) result ≡ choice_part part.now }
{
    match part {
        Part::Choice(number, parts) => Some((*number, parts)),
        _ => None,
    }
}

/// The name that the format with this number says, or that there is none.
fn name_or_none_in(number: usize, parts: &[Part<Kit>]) -> Option<Option<&Identifier>>
    ensures { option_map (option_map (λ name. text_of name.now)) result ≡ given_name_of number parts.now }
{
    match (number, parts) {
        (0, [Part::Leaf(LeafValue::Name(name))]) => Some(Some(name)),
        (1, []) => Some(None),
        _ => None,
    }
}

/// The same of parts that are one choice.
fn given_name_in(parts: &[Part<Kit>]) -> Option<Option<&Identifier>>
    ensures { option_map (option_map (λ name. text_of name.now)) result ≡ one_given_name parts.now }
{
    match parts {
        [part] => match choice_in(part) {
            Some((number, inner)) => name_or_none_in(number, inner.as_slice()),
            None => None,
        },
        _ => None,
    }
}

/// The same name, if there is one.
fn copy_of(name: Option<&Identifier>) -> Result<Option<Identifier>, AllocError>
    ensures { IfOk result (λ copy. option_map text_of copy ≡ option_map (λ id. text_of id.now) name.entry) }
{
    match name {
        Some(name) => Ok(Some(name.try_clone()?)),
        None => Ok(None),
    }
}

/// The names in a list of names, some of which aren't given.
///
/// # Errors
/// `Refused` with the number of the first member that is no name and doesn't say that there is none.
pub(crate) fn names_in(
    alloc: Global,
    members: &[Vec<Part<Kit>>],
) -> Result<Vec<Option<Identifier>>, MakeFault>
    ensures read { IfOk result
        (λ names. each_member one_given_name members.now ≡ Some (map (option_map text_of) names.items)) }
    ensures refused { (i : ℕ) → result ≡ Err (Refused i) → first_unread one_given_name 0 members.now ≡ Some i }
{
    let mut names = Vec::with_capacity(alloc, members.len())?;
    for (number, member) in members.iter().enumerate() {
        let Some(name) = given_name_in(member.as_slice()) else {
            return Err(MakeFault::Refused(number));
        };
        names.push(copy_of(name)?)?;
    }
    Ok(names)
}

/// A list of numbers, as a part.
pub(crate) fn size_list(alloc: Global, sizes: &[u32]) -> Result<Part<Kit>, AllocError>
    ensures { IfOk result (λ part. IsListOf AreSizeParts sizes.now part) }
{
    let mut members = Vec::with_capacity(alloc, sizes.len())?;
    for size in sizes {
        let digits = Part::Leaf(LeafValue::Digits(Some(*size as u64)));
        members.push(vec![in alloc; digits]?)?;
    }
    Ok(Part::List(members))
}

/// A name, or that there is none, as parts.
fn given_name_parts(alloc: Global, name: &Option<Identifier>) -> Result<Vec<Part<Kit>>, AllocError>
    ensures { IfOk result (λ parts. AreGivenNameParts parts.items (option_map text_of name.now)) }
{
    match name {
        Some(name) => {
            let name = Part::Leaf(LeafValue::Name(name.try_clone()?));
            let inner = vec![in alloc; name]?;
            Ok(vec![in alloc; Part::Choice(0, inner)]?)
        }
        None => Ok(vec![in alloc; Part::Choice(1, Vec::new(alloc))]?),
    }
}

/// A list of names, as a part.
pub(crate) fn name_list(
    alloc: Global,
    names: &[Option<Identifier>],
) -> Result<Part<Kit>, AllocError>
    ensures { IfOk result (λ part. IsListOf AreGivenNameParts (map (option_map text_of) names.now) part) }
{
    let mut members = Vec::with_capacity(alloc, names.len())?;
    for name in names {
        members.push(given_name_parts(alloc, name)?)?;
    }
    Ok(Part::List(members))
}

/// The number that a part is.
pub(crate) fn number_in(part: &Part<Kit>) -> Option<Number>
    ensures { result ≡ number_part part.now }
{
    match part {
        Part::Leaf(LeafValue::Number(number)) => *number,
        _ => None,
    }
}

/// The integer type that a part is.
pub(crate) fn integer_in(part: &Part<Kit>) -> Option<IntegerType>
    ensures { result ≡ integer_part part.now }
{
    match part {
        Part::Leaf(LeafValue::Width(signedness, Some(width))) => Some(IntegerType {
            signedness: *signedness,
            width: *width,
        }),
        _ => None,
    }
}

/// The integer type that parts are, if they are one.
pub(crate) fn integer_type_in(parts: &[Part<Kit>]) -> Option<IntegerType>
    ensures { result ≡ one_integer_type parts.now }
{
    match parts {
        [part] => integer_in(part),
        _ => None,
    }
}

/// The list that a part is.
pub(crate) fn list_in(part: &Part<Kit>) -> Option<&Vec<Vec<Part<Kit>>>>
    ensures { option_copied result ≡ list_part part.now }
{
    match part {
        Part::List(members) => Some(members),
        _ => None,
    }
}

/// The name of parts that are a name and a region.
pub(crate) fn module_in(parts: &[Part<Kit>]) -> Option<&Identifier>
    ensures { option_copied result ≡ module_name parts.now }
{
    match parts {
        [Part::Leaf(LeafValue::Name(name)), Part::Region] => Some(name),
        _ => None,
    }
}

/// The name and the type of parts that are a name, a type and a region.
pub(crate) fn function_in(parts: &[Part<Kit>]) -> Option<(&Identifier, TypeHandle)>
    ensures { option_map (λ e. (e.0.now, e.1)) result ≡ function_header parts.now }
{
    match parts {
        [
            Part::Leaf(LeafValue::Name(name)),
            Part::Type(ty),
            Part::Region,
        ] => Some((name, *ty)),
        _ => None,
    }
}

/// The integer that parts are, if they are one.
pub(crate) fn constant_in(parts: &[Part<Kit>]) -> Option<IntegerAttr>
    ensures { result ≡ one_integer parts.now }
{
    match parts {
        [Part::Attribute(KitAttr::Integer(integer))] => Some(*integer),
        _ => None,
    }
}

/// The number of operands that parts are, if they are operands.
pub(crate) fn operands_in(parts: &[Part<Kit>]) -> Option<usize>
    ensures { result ≡ one_operands parts.now }
{
    match parts {
        [Part::Operands(count)] => Some(*count),
        _ => None,
    }
}

/// The number of operands that parts hand on, if they are an edge.
pub(crate) fn edge_in(parts: &[Part<Kit>]) -> Option<usize>
    ensures { result ≡ one_edge parts.now }
{
    match parts {
        [Part::Successor(count)] => Some(*count),
        _ => None,
    }
}

/// The name and the type of parts that are a name, operands and a type.
pub(crate) fn call_in(parts: &[Part<Kit>]) -> Option<(&Identifier, TypeHandle)>
    ensures { option_map (λ e. (e.0.now, e.1)) result ≡ call_header parts.now }
{
    match parts {
        [
            Part::Leaf(LeafValue::Name(name)),
            Part::Operands(_),
            Part::Type(ty),
        ] => Some((name, *ty)),
        _ => None,
    }
}

/// The type behind two parts, as that of the function of a call.
pub(crate) fn called_in(parts: &[Part<Kit>]) -> Option<TypeHandle>
    ensures { result ≡ type_called parts.now }
{
    match parts {
        [_, _, Part::Type(ty)] => Some(*ty),
        _ => None,
    }
}

/// Whether a part is one operand.
fn is_operand(part: &Part<Kit>) -> bool
    ensures { result ≡ is_one_operand part.now }
{
    match part {
        Part::Operands(count) => *count == 1,
        _ => false,
    }
}

/// The type of parts that are two operands and a type.
pub(crate) fn pair_in(parts: &[Part<Kit>]) -> Option<TypeHandle>
    ensures { result ≡ pair_type parts.now }
{
    match parts {
        [left, right, Part::Type(ty)] => {
            if is_operand(left) && is_operand(right) {
                Some(*ty)
            } else {
                None
            }
        }
        _ => None,
    }
}

/// The numbers of operands that the edges hand on, of parts that are one operand and two edges.
pub(crate) fn edges_in(parts: &[Part<Kit>]) -> Option<(usize, usize)>
    ensures { result ≡ edge_counts parts.now }
{
    match parts {
        [condition, Part::Successor(first), Part::Successor(second)] => {
            if is_operand(condition) {
                Some((*first, *second))
            } else {
                None
            }
        }
        _ => None,
    }
}
