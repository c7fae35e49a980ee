//! What a dialect says of its kinds.
ghost use Rattle.std.specs.Prelude.{◌≡◌, ◌↔◌, ℕ, Bool, true, List, Option, IfOk, map, option_map};
ghost use Rattle.ir_names.specs.declared.interfaces.AttrInterface.{AttrInterface};
ghost use Rattle.ir_names.specs.declared.interfaces.OpInterface.{OpInterface};
ghost use Rattle.ir_names.specs.declared.interfaces.RegionKind.{RegionKind};
ghost use Rattle.ir_names.specs.declared.interfaces.TypeInterface.{TypeInterface};
ghost use Rattle.ir_base.specs.declared.types.TypeHandle.{TypeHandle};
ghost use Rattle.ir_names.specs.Interfaces.{ImplementsParents, ImplementsParentsOfAttr};
ghost use Rattle.ir_names.specs.Identifier.{text_of};
ghost use Rattle.ir_names.specs.Names.{op_id_text, type_id_text, attr_id_text};
ghost use Rattle.ir_names.specs.Text.{is_identifier};

use ir_names::{
    AttrId, AttrInterface, Dialects, Identifier, OpId, OpInterface, RegionKind, TypeHandle, TypeId,
    TypeInterface,
};
use std::alloc::{AllocError, Global};
use std::hash::Hash;

/// A dialect that says what its kinds are called and which interfaces they implement.
///
/// Kinds of one sort have different ids. What is said of a type or an attribute is said of each
/// that equals it, and what implements an interface implements those that it stands on.
pub trait DialectTables: Dialects {
    /// The kinds of types.
    type TypeKind: Copy + Eq;

    /// The kinds of attributes.
    type AttrKind: Copy + Eq;

    /// What a type may get once it is interned, as the fields of a named struct. Types are equal
    /// whatever their bodies are.
    type TypeBody: Drop;

    /// What a context keeps once, however often it is saved.
    type Saved: Eq + Hash + Drop;

    /// Where in a source an operation comes from.
    type Location: Eq + Drop;

    /// The names of the dialect and of the kind, of which the id of a kind of operations is made.
    ghost op_text: { Self.OpKind → List ℕ × List ℕ };

    /// The same of an id of a kind of types.
    ghost type_text: { Self.TypeKind → List ℕ × List ℕ };

    /// The same of an id of a kind of attributes.
    ghost attr_text: { Self.AttrKind → List ℕ × List ℕ };

    /// The kind of a type.
    ghost kind_of_type: { Self.TypeKey → Self.TypeKind };

    /// The kind of an attribute.
    ghost kind_of_attr: { Self.Attr → Self.AttrKind };

    /// The type that an attribute says it has.
    ghost type_of_attr: { Self.Attr → Option TypeHandle };

    /// Whether operations of a kind implement an interface.
    ghost op_has: { Self.OpKind → OpInterface → Bool };

    /// Whether a type implements an interface.
    ghost type_has: { Self.TypeKey → TypeInterface → Bool };

    /// Whether an attribute implements an interface.
    ghost attr_has: { Self.Attr → AttrInterface → Bool };

    /// How the blocks of the region with a number are ordered, in operations of a kind.
    ghost order: { Self.OpKind → ℕ → RegionKind };

    /// The location of what comes from no source.
    ghost nowhere: { Self.Location };

    /// The name of the attribute that holds the names of results and arguments.
    ghost names: { List ℕ };

    /// The names that an attribute holds, if it holds names: the text of each, and `None` in the place of one that was
    /// not given.
    ghost names_in: { Self.Attr → Option (List (Option (List ℕ))) };

    /// The location of what comes from no source.
    fn unknown_location() -> Self::Location
        ensures { result ≡ nowhere };

    /// What a kind of operations is called.
    fn op_id(kind: Self::OpKind) -> OpId
        ensures { op_id_text result ≡ op_text kind };

    /// What a kind of types is called.
    fn type_id(kind: Self::TypeKind) -> TypeId
        ensures { type_id_text result ≡ type_text kind };

    /// What a kind of attributes is called.
    fn attr_id(kind: Self::AttrKind) -> AttrId
        ensures { attr_id_text result ≡ attr_text kind };

    /// The kind of a type.
    fn type_kind(key: &Self::TypeKey) -> Self::TypeKind
        ensures { result ≡ kind_of_type key.now };

    /// The kind of an attribute.
    fn attr_kind(attr: &Self::Attr) -> Self::AttrKind
        ensures { result ≡ kind_of_attr attr.now };

    /// The type that an attribute says it has, as `attr_type` says too.
    fn type_of(attr: &Self::Attr) -> Option<TypeHandle>
        ensures { result ≡ type_of_attr attr.now };

    /// Whether operations of a kind implement an interface.
    fn op_implements(kind: Self::OpKind, interface: OpInterface) -> bool
        ensures { result ≡ op_has kind interface };

    /// Whether a type implements an interface.
    fn type_implements(key: &Self::TypeKey, interface: TypeInterface) -> bool
        ensures { result ≡ type_has key.now interface };

    /// Whether an attribute implements an interface.
    fn attr_implements(attr: &Self::Attr, interface: AttrInterface) -> bool
        ensures { result ≡ attr_has attr.now interface };

    /// How the blocks of the region with this number are ordered, in operations of a kind.
    fn region_kind(kind: Self::OpKind, index: usize) -> RegionKind
        ensures { result ≡ order kind index };

    /// The name of the attribute that holds the names of results and arguments.
    fn names_key() -> &'static str
        ensures { result.now ≡ names };

    /// The names that an attribute holds for results and arguments, in their order, if it holds names.
    fn names_of(attr: &Self::Attr) -> Option<&[Option<Identifier>]>
        ensures { option_map (λ held. map (option_map text_of) held.now) result ≡ names_in attr.now };

    /// A key that equals the given one.
    fn clone_type_key(alloc: Global, key: &Self::TypeKey) -> Result<Self::TypeKey, AllocError>
        ensures { IfOk result (λ copy. Self.TypeKey.eq copy key.now ≡ true) };

    /// A location that equals the given one.
    fn clone_location(
        alloc: Global,
        location: &Self::Location,
    ) -> Result<Self::Location, AllocError>
        ensures { IfOk result (λ copy. Self.Location.eq copy location.now ≡ true) };

    /// Kinds of operations have one id exactly where they are equal.
    ghost op_ids: { (x y : Self.OpKind) → ((op_text x ≡ op_text y) ↔ (Self.OpKind.eq x y ≡ true)) };

    /// Kinds of types have one id exactly where they are equal.
    ghost type_ids: { (x y : Self.TypeKind) → ((type_text x ≡ type_text y) ↔ (Self.TypeKind.eq x y ≡ true)) };

    /// Kinds of attributes have one id exactly where they are equal.
    ghost attr_ids: { (x y : Self.AttrKind) → ((attr_text x ≡ attr_text y) ↔ (Self.AttrKind.eq x y ≡ true)) };

    /// Equal types have one kind.
    ghost same_type_kind: { (x y : Self.TypeKey) → Self.TypeKey.eq x y ≡ true → kind_of_type x ≡ kind_of_type y };

    /// Equal types implement the same interfaces.
    ghost same_type_interfaces: { (x y : Self.TypeKey) → Self.TypeKey.eq x y ≡ true → (interface : TypeInterface)
        → type_has x interface ≡ type_has y interface };

    /// Equal attributes have one kind.
    ghost same_attr_kind: { (x y : Self.Attr) → Self.Attr.eq x y ≡ true → kind_of_attr x ≡ kind_of_attr y };

    /// Equal attributes have one type, or none has one.
    ghost same_attr_type: { (x y : Self.Attr) → Self.Attr.eq x y ≡ true → type_of_attr x ≡ type_of_attr y };

    /// Equal attributes implement the same interfaces.
    ghost same_attr_interfaces: { (x y : Self.Attr) → Self.Attr.eq x y ≡ true → (interface : AttrInterface)
        → attr_has x interface ≡ attr_has y interface };

    /// Equal attributes hold the same names.
    ghost same_attr_names: { (x y : Self.Attr) → Self.Attr.eq x y ≡ true → names_in x ≡ names_in y };

    /// Operations that implement an interface implement those that it stands on.
    ghost op_parents: { (kind : Self.OpKind) → ImplementsParents (op_has kind) };

    /// Attributes that implement an interface implement those that it stands on.
    ghost attr_parents: { (attr : Self.Attr) → ImplementsParentsOfAttr (attr_has attr) };

    /// The name for names is an identifier.
    ghost names_valid: { is_identifier names ≡ true };
}
