//! What interfaces ask of a dialect: what its attributes and types hold, and where its operations keep what.
ghost use Rattle.std.specs.Prelude.{◌≡◌, ◌↔◌, ℕ, true, List, Option, Some, IsSome, option_map};
ghost use Rattle.ir_base.specs.declared.types.TypeHandle.{TypeHandle};
ghost use Rattle.ir_names.specs.Identifier.{text_of};
ghost use Rattle.ir_names.specs.declared.interfaces.OpInterface.{OpInterface};
ghost use Rattle.ir_names.specs.declared.interfaces.TypeInterface.TheVariants.{FunctionType};
ghost use Rattle.builtin_tables.specs.Listed.{lists_interface};

use ir_names::{AttributeDict, Identifier, OpInterface, TypeHandle};
use ir_types::DialectTables;

/// Which operands a branch forwards along its edges.
#[derive(Clone, Copy, Debug, PartialEq, Eq)]
pub enum SuccessorLayout {
    /// Along each edge all operands from this one on.
    Trailing {
        /// The index of the first that is forwarded.
        from: usize,
    },
    /// The operands are in segments, and along each edge a segment of its own is forwarded.
    Segments {
        /// The number of the segment of the first edge. Those of the others come behind it, in order.
        first: usize,
    },
}

/// Where a call has what it calls.
#[derive(Clone, Copy, Debug, PartialEq, Eq)]
pub enum CalleePlace {
    /// The attribute under the key for callees names the function.
    Attribute,
    /// The operand at this index is called.
    Operand(usize),
}

/// A dialect that says what its attributes and types hold, and where its operations keep what interfaces ask for.
///
/// Of a kind of operations only that is asked which its interfaces need: `successor_layout` of branches, `callee_place` and
/// its keys of calls, and so on. What is said of other kinds is never looked at.
pub trait BuiltinDialect: DialectTables + Sized {
    ghost use Rattle.builtin_tables.specs.declared.dialect.CalleePlace.{CalleePlace};
    ghost use Rattle.builtin_tables.specs.declared.dialect.SuccessorLayout.{SuccessorLayout};

    /// The text of the identifier that an attribute holds, if it holds one.
    ghost held_identifier: { Self.Attr → Option (List ℕ) };

    /// The type that an attribute holds, if it holds one.
    ghost held_type: { Self.Attr → Option TypeHandle };

    /// The sizes of segments that an attribute holds, if it holds sizes.
    ghost held_sizes: { Self.Attr → Option (List ℕ) };

    /// The types of what a function takes and of what it gives back, if the type is that of a function.
    ghost signature: { Self.TypeKey → Option (List TypeHandle × List TypeHandle) };

    /// The interfaces of a kind of operations.
    ghost table: { Self.OpKind → List OpInterface };

    /// How many segments the operands are in, of an operation of this kind with these attributes.
    ghost segment_count: { Self.OpKind → List (List ℕ × Self.Attr) → ℕ };

    /// Which operands a branch of a kind forwards.
    ghost layout: { Self.OpKind → SuccessorLayout };

    /// Where a call of a kind has what it calls.
    ghost place_of_callee: { Self.OpKind → CalleePlace };

    /// The key of the attribute that names what a call of a kind calls.
    ghost key_of_callee: { Self.OpKind → List ℕ };

    /// The key of the attribute that holds the type of what a call of a kind calls.
    ghost key_of_callee_type: { Self.OpKind → List ℕ };

    /// The index of the first operand that a call of a kind hands to what it calls.
    ghost arguments_from: { Self.OpKind → ℕ };

    /// The identifier that an attribute holds, if it holds one.
    fn as_identifier(attr: &Self::Attr) -> Option<&Identifier>
        ensures { option_map (λ name. text_of name.now) result ≡ held_identifier attr.now };

    /// An attribute that holds the identifier.
    fn from_identifier(name: Identifier) -> Self::Attr
        ensures { held_identifier result ≡ Some (text_of name) };

    /// The type that an attribute holds, if it holds one.
    fn as_type(attr: &Self::Attr) -> Option<TypeHandle>
        ensures { result ≡ held_type attr.now };

    /// An attribute that holds the type.
    fn from_type(ty: TypeHandle) -> Self::Attr
        ensures { held_type result ≡ Some ty };

    /// The sizes of segments that an attribute holds, if it holds sizes.
    fn as_segment_sizes(attr: &Self::Attr) -> Option<&[u32]>
        ensures { option_map (λ sizes. sizes.now) result ≡ held_sizes attr.now };

    /// An attribute that holds the sizes.
    fn from_segment_sizes(sizes: Vec<u32>) -> Self::Attr
        ensures { held_sizes result ≡ Some sizes.items };

    /// The types of what a function takes and of what it gives back, if the type is that of a function.
    fn function_type(key: &Self::TypeKey) -> Option<(&[TypeHandle], &[TypeHandle])>
        ensures { option_map (λ sides. (sides.0.now, sides.1.now)) result ≡ signature key.now };

    /// The interfaces of a kind of operations, each once.
    fn interfaces(kind: Self::OpKind) -> &'static [OpInterface]
        ensures { result.now ≡ table kind };

    /// How many segments the operands are in, of an operation of this kind with these attributes.
    fn expected_num_segments(kind: Self::OpKind, attributes: &AttributeDict<Self>) -> usize
        ensures { result ≡ segment_count kind attributes.now };

    /// Which operands a branch of this kind forwards.
    fn successor_layout(kind: Self::OpKind) -> SuccessorLayout
        ensures { result ≡ layout kind };

    /// Where a call of this kind has what it calls.
    fn callee_place(kind: Self::OpKind) -> CalleePlace
        ensures { result ≡ place_of_callee kind };

    /// The key of the attribute that names what a call of this kind calls.
    fn callee_key(kind: Self::OpKind) -> &'static str
        ensures { result.now ≡ key_of_callee kind };

    /// The key of the attribute that holds the type of what a call of this kind calls.
    fn callee_type_key(kind: Self::OpKind) -> &'static str
        ensures { result.now ≡ key_of_callee_type kind };

    /// The index of the first operand that a call of this kind hands to what it calls. All behind it are handed over too.
    fn first_argument(kind: Self::OpKind) -> usize
        ensures { result ≡ arguments_from kind };

    /// A kind implements exactly what its table lists.
    ghost listed: { (kind : Self.OpKind) (i : OpInterface) → Self.op_has kind i ≡ lists_interface (table kind) i };

    /// Exactly those types are functions' that implement `FunctionType`.
    ghost function_types: { (key : Self.TypeKey) → (IsSome (signature key) ↔ (Self.type_has key FunctionType ≡ true)) };

    /// Equal attributes hold the same identifier, or none of them holds one.
    ghost same_identifier: { (x y : Self.Attr) → Self.Attr.eq x y ≡ true → held_identifier x ≡ held_identifier y };

    /// Equal attributes hold the same type, or none of them holds one.
    ghost same_type: { (x y : Self.Attr) → Self.Attr.eq x y ≡ true → held_type x ≡ held_type y };

    /// Equal attributes hold the same sizes, or none of them holds sizes.
    ghost same_sizes: { (x y : Self.Attr) → Self.Attr.eq x y ≡ true → held_sizes x ≡ held_sizes y };
}
