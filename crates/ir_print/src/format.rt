//! Formats as data, and the parts of a value that a format's text holds.

use ir_names::{Dialects, Identifier, Signedness, TypeHandle};

/// What a value is.
#[derive(Clone, Copy, PartialEq, Eq)]
pub enum ValueSort {
    Type,
    Attribute,
}

/// What a leaf is: a part of a value that is one token.
#[derive(Clone, Copy, PartialEq, Eq)]
pub enum LeafSort {
    Name,
    Number,
    Digits,
    Width,
    Text,
    Mark,
}

/// One step of a format.
#[derive(Clone, Copy)]
pub enum Directive {
    /// This text, as printed. Reading takes it without its spaces, as one token.
    Literal(&'static str),
    /// Names of values, none or more, with commas between them.
    Operands,
    /// The name of one value.
    Operand,
    /// An attribute with its id.
    Attribute,
    /// A type with its id.
    Type,
    /// An edge: `^`, the label of a block, and in parentheses the names of the values that it hands on.
    Successor,
    /// Blocks in braces.
    Region,
    /// `@` and the name of a symbol.
    SymbolHeader,
    /// A name.
    Name,
    /// A decimal number, which may begin with `-`.
    Number,
    /// A decimal number without a sign.
    Digits,
    /// `i`, `si` or `ui` and a number of bits.
    Width,
    /// Characters in quotes, where `\"` and `\\` stand for `"` and `\`.
    Text,
    /// `!` and a decimal number.
    Mark,
    /// What the directives say, none or more times, with this literal between two members.
    List(&'static [Directive], &'static str),
    /// What one of these formats says. No two begin alike.
    Choice(&'static [&'static [Directive]]),
}

/// A number as a text writes it.
#[derive(Clone, Copy, Debug, PartialEq, Eq)]
pub struct Number {
    pub is_negative: bool,
    pub magnitude: u64,
}

/// What a leaf says.
#[derive(Drop)]
pub enum LeafValue {
    Name(Identifier),
    /// None stands for a number past 64 bits.
    Number(Option<Number>),
    /// None stands for a number past 64 bits.
    Digits(Option<u64>),
    /// None stands for a width past 32 bits.
    Width(Signedness, Option<u32>),
    /// What a text in quotes says.
    Text(String),
    /// None stands for a mark past 64 bits.
    Mark(Option<u64>),
}

/// A part of a value, one for each directive of its format that is no literal.
///
/// Operands, edges and regions stay with the operation, in the order of the text: a part gives the number of operands.
#[derive(Drop)]
pub enum Part<D: Dialects> {
    /// So many operands.
    Operands(usize),
    /// An edge that hands on so many operands.
    Successor(usize),
    Attribute(D::Attr),
    Type(TypeHandle),
    Region,
    Leaf(LeafValue),
    List(Vec<Vec<Part<D>>>),
    /// What the format with this number, from 0 on, says.
    Choice(usize, Vec<Part<D>>),
}
