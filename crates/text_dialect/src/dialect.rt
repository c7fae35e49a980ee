//! What a dialect says of its texts.
ghost use Rattle.std.specs.Prelude.{◌≡◌, ℕ, List, [], Option, Some, None, Err, true, length, slice_get, option_map, IfOk, IsSome};
ghost use Rattle.ir_base.specs.declared.types.TypeHandle.{TypeHandle};
ghost use Rattle.ir_names.specs.Tree.{Trees, node};
ghost use Rattle.ir_print.specs.Formats.{Formats, Kind, is_small, steps_of};
ghost use Rattle.ir_print.specs.Nested.{is_nested_little};
ghost use Rattle.ir_print.specs.Pieces.{Pieces, Values, value_of_kind};
ghost use Rattle.ir_print.specs.declared.format.ValueSort.TheVariants as sorts;
ghost use Rattle.ir_print.specs.Shapes.{SaysTypes, SaysAttributes, SaysOperations};
ghost use Rattle.ir_print.specs.Shown.{Said, Saying, ShowsAll, ShowsParts, ShowsKey, ShowsAttribute, Drafts};
ghost use Rattle.ir_program.specs.Program.{operation_at};
ghost use Rattle.ir_types.specs.Interned.{KeepsTypes};
ghost use Rattle.text_dialect.specs.Ids.{dotted};
ghost use Rattle.text_dialect.specs.Making.{MakesType, RefusesType, MakesAttribute, RefusesAttribute, MakesOperation, RefusesOperation};
ghost use Rattle.text_dialect.specs.Seen.{SeenOperation, seen, types_of};
ghost use Rattle.text_dialect.specs.declared.dialect.MakeFault.TheVariants.{Refused};

use ir_context::Context;
use ir_names::{AttributeDict, TypeHandle};
use ir_print::{Directive, Part};
use ir_program::{Operation, Ptr};
use ir_types::DialectTables;
use std::alloc::{AllocError, AllocFailed, Global};

/// Why a value isn't made of the parts that were read.
#[derive(Clone, Copy, Debug, PartialEq, Eq)]
pub enum MakeFault {
    /// The part with this number, from 0 on in the order of the text, is refused. Of lists and choices what is in them counts.
    Refused(usize),
    Memory,
}

impl From<AllocError> for MakeFault {
    ghost use Rattle.text_dialect.specs.declared.dialect.MakeFault.TheVariants.{Memory};

    ghost from_gives = { λ _ e. e ≡ Memory };

    fn from(_error: AllocError) -> MakeFault {
        MakeFault::Memory
    }
}

impl<T: Drop> From<AllocFailed<T>> for MakeFault {
    ghost use Rattle.text_dialect.specs.declared.dialect.MakeFault.TheVariants.{Memory};

    ghost from_gives = { λ _ e. e ≡ Memory };

    fn from(_error: AllocFailed<T>) -> MakeFault {
        MakeFault::Memory
    }
}

/// What an operation is made with beside its operands and regions.
#[derive(Drop)]
pub struct OperationDraft<D: DialectTables> {
    pub result_types: Vec<TypeHandle>,
    pub attributes: AttributeDict<D>,
}

/// A dialect whose operations, types and attributes have texts.
///
/// Kinds that can be read have numbers, those of each sort from 0 on. What is made of a value's parts is the value.
pub trait TextDialect: DialectTables {
    /// The kind of operations with a number.
    ghost kind_at: { ℕ → Option Self.OpKind };

    /// The kinds of types with their numbers.
    ghost type_kinds: { List Self.TypeKind };

    /// The kinds of attributes with their numbers.
    ghost attr_kinds: { List Self.AttrKind };

    /// The id and the format of each kind that can be read, by its number.
    ghost formats: { Formats };

    /// The id and the format of a kind of operations.
    ghost op_kind: { Self.OpKind → Kind };

    /// The same of a kind of types.
    ghost type_form: { Self.TypeKind → Kind };

    /// The same of a kind of attributes.
    ghost attr_form: { Self.AttrKind → Kind };

    /// What types, attributes and operations say.
    ghost says: { Saying Self.OpKind Self.Attr Self.TypeKey };

    /// What is made of the pieces that were read, and what is refused.
    ghost values: { Values };

    /// The kind with this number, from 0 on, of those that can be read. None stands behind the last.
    fn op_kind_at(number: usize) -> Option<Self::OpKind>
        ensures kind { result ≡ kind_at number };

    fn type_kind_at(number: usize) -> Option<Self::TypeKind>
        ensures kind { result ≡ slice_get type_kinds number };

    fn attr_kind_at(number: usize) -> Option<Self::AttrKind>
        ensures kind { result ≡ slice_get attr_kinds number };

    /// The dotted name with which an operation of the kind is printed and read.
    fn op_name(kind: Self::OpKind) -> &'static str
        ensures { result.now ≡ (op_kind kind).id };

    fn type_name(kind: Self::TypeKind) -> &'static str
        ensures { result.now ≡ (type_form kind).id };

    fn attr_name(kind: Self::AttrKind) -> &'static str
        ensures { result.now ≡ (attr_form kind).id };

    /// What follows the name.
    fn op_format(kind: Self::OpKind) -> &'static [Directive]
        ensures { steps_of result.now ≡ (op_kind kind).format };

    fn type_format(kind: Self::TypeKind) -> &'static [Directive]
        ensures { steps_of result.now ≡ (type_form kind).format };

    fn attr_format(kind: Self::AttrKind) -> &'static [Directive]
        ensures { steps_of result.now ≡ (attr_form kind).format };

    /// The type of these parts, or the first part that is refused.
    fn make_type(
        alloc: Global,
        kind: Self::TypeKind,
        parts: &[Part<Self>],
    ) -> Result<Self::TypeKey, MakeFault>
        ensures made { IfOk result (MakesType says values type_kinds kind parts.now) }
        ensures refused { (i : ℕ) → result ≡ Err (Refused i) → RefusesType says values type_kinds kind parts.now i };

    /// The attribute of these parts, or the first part that is refused. Types may be interned.
    fn make_attr(
        alloc: Global,
        ctx: &mut Context<Self>,
        kind: Self::AttrKind,
        parts: &[Part<Self>],
    ) -> Result<Self::Attr, MakeFault>
        ensures program { ctx.new.program ≡ ctx.old.program }
        ensures types { KeepsTypes ctx.old.types ctx.new.types }
        ensures made { IfOk result (MakesAttribute says values attr_kinds kind
            ctx.old.types.keys ctx.new.types.keys parts.now) }
        ensures refused { (i : ℕ) → result ≡ Err (Refused i) →
            RefusesAttribute says values attr_kinds kind ctx.old.types.keys parts.now i };

    /// How many results an operation of these parts has, whether or not it can be made of them.
    fn num_results(ctx: &Context<Self>, kind: Self::OpKind, parts: &[Part<Self>]) -> usize
        ensures { (n : ℕ) → (ps : Pieces) → kind_at n ≡ Some kind →
            ShowsParts says ctx.now.types.keys parts.now ps → result ≡ length (values.result_types n ps) };

    /// What an operation of these parts is made with, or the first part that is refused. Types may be interned.
    fn make_operation(
        alloc: Global,
        ctx: &mut Context<Self>,
        kind: Self::OpKind,
        parts: &[Part<Self>],
    ) -> Result<OperationDraft<Self>, MakeFault>
        ensures program { ctx.new.program ≡ ctx.old.program }
        ensures types { KeepsTypes ctx.old.types ctx.new.types }
        ensures made { IfOk result (λ d. MakesOperation says values kind_at kind
            ctx.old.types.keys ctx.new.types.keys parts.now d.attributes d.result_types.items) }
        ensures refused { (i : ℕ) → result ≡ Err (Refused i) →
            RefusesOperation says values kind_at kind ctx.old.types.keys parts.now i };

    /// The parts of a type, as reading its text gives them.
    fn type_parts(alloc: Global, key: &Self::TypeKey) -> Result<Vec<Part<Self>>, AllocError>
        ensures { (types : List Self.TypeKey) → (n : ℕ) → (ps : Pieces) → ShowsKey says types key.now n ps →
            IfOk result (λ parts. ShowsParts says types parts.items ps) };

    /// The parts of an attribute.
    fn attr_parts(alloc: Global, attr: &Self::Attr) -> Result<Vec<Part<Self>>, AllocError>
        ensures { (types : List Self.TypeKey) → (n : ℕ) → (ps : Pieces) →
            ShowsAttribute says types attr.now (node (value_of_kind sorts.Attribute n) ps) →
            IfOk result (λ parts. ShowsParts says types parts.items ps) };

    /// The parts of an operation. Operands and regions are given by how many there are of them.
    fn operation_parts(
        alloc: Global,
        ctx: &Context<Self>,
        op: Ptr<Operation>,
    ) -> Result<Vec<Part<Self>>, AllocError>
        requires live { IsSome (operation_at ctx.now.program op) }
        ensures { (types : List Self.TypeKey) → (o : SeenOperation Self.OpKind Self.Attr) → (n : ℕ) →
            (us : Trees (Said Self.Attr)) → (ps : Pieces) → (seen ctx.now).operation op ≡ Some o →
            says.of_operation o.kind o.attributes (length o.operands) (types_of o.results) ≡ Some (n, us) →
            ShowsAll says types us ps → IfOk result (λ parts. ShowsParts says types parts.items ps) };

    /// Kinds are printed and read by their ids.
    ghost op_ids_printed: { (kind : Self.OpKind) → (op_kind kind).id ≡ dotted (Self.DialectTables.op_text kind) };

    ghost few: { is_small formats ≡ true };

    /// Lists and choices stand in one another at most 64 deep in formats.
    ghost nested: { is_nested_little formats ≡ true };

    /// Equal keys say the same.
    ghost same: { (x y : Self.TypeKey) → Self.TypeKey.eq x y ≡ true → says.of_type x ≡ says.of_type y };

    /// The kinds of operations with numbers have the formats with these numbers.
    ghost operations: { (n : ℕ) → slice_get formats.operations n ≡ option_map op_kind (kind_at n) };

    ghost types: { (n : ℕ) → slice_get formats.types n ≡ option_map type_form (slice_get type_kinds n) };

    ghost attributes: { (n : ℕ) → slice_get formats.attributes n ≡ option_map attr_form (slice_get attr_kinds n) };

    /// What types say has the shape of their formats, and can be read.
    ghost says_types: { SaysTypes says formats values };

    ghost says_attributes: { SaysAttributes says formats values };

    ghost says_operations: { SaysOperations says formats values };

    /// An operation says the number of its own kind.
    ghost says_kinds: { (kind : Self.OpKind) (entries : List (List ℕ × Self.Attr)) (count : ℕ) (tys : List TypeHandle)
        (n : ℕ) (us : Trees (Said Self.Attr)) →
        says.of_operation kind entries count tys ≡ Some (n, us) → kind_at n ≡ Some kind };

    /// So does a type.
    ghost says_type_kinds: { (key : Self.TypeKey) (n : ℕ) (us : Trees (Said Self.Attr)) →
        says.of_type key ≡ Some (n, us) → slice_get type_kinds n ≡ Some (Self.DialectTables.kind_of_type key) };

    /// So does an attribute.
    ghost says_attr_kinds: { (attr : Self.Attr) (n : ℕ) (us : Trees (Said Self.Attr)) →
        says.of_attribute attr ≡ Some (n, us) → slice_get attr_kinds n ≡ Some (Self.DialectTables.kind_of_attr attr) };

    /// Where no kind of types has a number, the first piece is refused.
    ghost unknown_type: { (n : ℕ) (ps : Pieces) → slice_get type_kinds n ≡ None → values.refused_type n ps ≡ Some 0 };

    /// Where no kind of attributes has a number, the first piece is refused.
    ghost unknown_attribute: { (n : ℕ) (ps : Pieces) → slice_get attr_kinds n ≡ None →
        values.refused_attribute n ps ≡ Some 0 };

    /// Where no kind of operations has a number, the first piece is refused, and there are no results.
    ghost unknown_operation: { (n : ℕ) (ps : Pieces) → kind_at n ≡ None →
        (values.refused_operation n ps ≡ Some 0) × (values.result_types n ps ≡ []) };
}
