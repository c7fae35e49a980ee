//! The ids and the formats of kinds.
ghost use Rattle.std.specs.Prelude.{◌≡◌, slice_get};
ghost use Rattle.ir_print.specs.Formats.{steps_of};
ghost use Rattle.kit.specs.Forms.{read_ops, read_types, read_attrs, op_kind, type_form, attr_form};

use ir_print::Directive;
use kit_ops::{KitAttrKind, KitOp, KitTypeKind};

const NAMED_REGION: &[Directive] = &[Directive::SymbolHeader, Directive::Region];

const TYPED_REGION: &[Directive] = &[
    Directive::SymbolHeader,
    Directive::Literal(": "),
    Directive::Type,
    Directive::Region,
];

const VALUE: &[Directive] = &[Directive::Attribute];

const TWO_OPERANDS: &[Directive] = &[
    Directive::Operand,
    Directive::Literal(", "),
    Directive::Operand,
    Directive::Literal(": "),
    Directive::Type,
];

const ONE_OPERAND: &[Directive] = &[Directive::Operand];

const ANY_OPERANDS: &[Directive] = &[Directive::Operands];

const CALL: &[Directive] = &[
    Directive::SymbolHeader,
    Directive::Literal("("),
    Directive::Operands,
    Directive::Literal(")"),
    Directive::Literal(": "),
    Directive::Type,
];

const EDGE: &[Directive] = &[Directive::Successor];

const CONDITION_EDGES: &[Directive] = &[
    Directive::Operand,
    Directive::Literal(", "),
    Directive::Successor,
    Directive::Literal(", "),
    Directive::Successor,
];

const WIDTH: &[Directive] = &[Directive::Width];

const TYPE: &[Directive] = &[Directive::Type];

const FUNCTION: &[Directive] = &[
    Directive::Literal("<"),
    Directive::Literal("("),
    Directive::List(TYPE, ", "),
    Directive::Literal(")"),
    Directive::Literal("->"),
    Directive::Literal("("),
    Directive::List(TYPE, ", "),
    Directive::Literal(")"),
    Directive::Literal(">"),
];

const INTEGER: &[Directive] = &[
    Directive::Literal("<"),
    Directive::Number,
    Directive::Literal(": "),
    Directive::Width,
    Directive::Literal(">"),
];

const NAME: &[Directive] = &[Directive::Name];

const SIZES: &[Directive] = &[
    Directive::Literal("["),
    Directive::List(&[Directive::Digits], ", "),
    Directive::Literal("]"),
];

/// A name, or `?` where there is none.
const NAME_OR_NONE: &[Directive] = &[Directive::Choice(&[NAME, &[Directive::Literal("?")]])];

const NAMES: &[Directive] = &[
    Directive::Literal("["),
    Directive::List(NAME_OR_NONE, ", "),
    Directive::Literal("]"),
];

const TEXT: &[Directive] = &[Directive::Text];

/// The kind of operations with this number, of those that can be read.
pub(crate) fn operation_kind_at(number: usize) -> Option<KitOp>
    ensures { result ≡ slice_get read_ops number }
{
    match number {
        0 => Some(KitOp::Module),
        1 => Some(KitOp::Func),
        2 => Some(KitOp::Constant),
        3 => Some(KitOp::Return),
        4 => Some(KitOp::Emit),
        5 => Some(KitOp::ForwardRef),
        6 => Some(KitOp::Call),
        7 => Some(KitOp::Br),
        8 => Some(KitOp::CondBr),
        _ => KitOp::operator_at(number - 9),
    }
}

/// The kind of types with this number, of those that can be read.
pub(crate) fn type_kind_at(number: usize) -> Option<KitTypeKind>
    ensures { result ≡ slice_get read_types number }
{
    match number {
        0 => Some(KitTypeKind::Integer),
        1 => Some(KitTypeKind::Function),
        2 => Some(KitTypeKind::Unit),
        _ => None,
    }
}

/// The kind of attributes with this number, of those that can be read.
pub(crate) fn attribute_kind_at(number: usize) -> Option<KitAttrKind>
    ensures { result ≡ slice_get read_attrs number }
{
    match number {
        0 => Some(KitAttrKind::Integer),
        1 => Some(KitAttrKind::Identifier),
        2 => Some(KitAttrKind::Type),
        3 => Some(KitAttrKind::SegmentSizes),
        4 => Some(KitAttrKind::GivenNames),
        5 => Some(KitAttrKind::Note),
        6 => Some(KitAttrKind::Origin),
        _ => None,
    }
}

/// The dotted name of a kind of operations.
pub(crate) fn operation_name(kind: KitOp) -> &'static str
    ensures { result.now ≡ (op_kind kind).id }
{
    match kind {
        KitOp::Module => "builtin.module",
        KitOp::Func => "builtin.func",
        KitOp::Constant => "builtin.constant",
        KitOp::ForwardRef => "builtin.forward_ref",
        KitOp::Arithmetic(arithmetic) => arithmetic.dotted_name(),
        KitOp::Comparison(comparison) => comparison.dotted_name(),
        KitOp::Br => "kit.br",
        KitOp::CondBr => "kit.cond_br",
        KitOp::Call => "kit.call",
        KitOp::Emit => "kit.emit",
        KitOp::Return => "kit.return",
    }
}

/// The dotted name of a kind of types.
pub(crate) fn type_name(kind: KitTypeKind) -> &'static str
    ensures { result.now ≡ (type_form kind).id }
{
    match kind {
        KitTypeKind::Integer => "builtin.integer",
        KitTypeKind::Function => "builtin.function",
        KitTypeKind::Unit => "builtin.unit",
    }
}

/// The dotted name of a kind of attributes.
pub(crate) fn attribute_name(kind: KitAttrKind) -> &'static str
    ensures { result.now ≡ (attr_form kind).id }
{
    match kind {
        KitAttrKind::Integer => "builtin.integer",
        KitAttrKind::Identifier => "builtin.identifier",
        KitAttrKind::Type => "builtin.type",
        KitAttrKind::SegmentSizes => "builtin.operand_segment_sizes",
        KitAttrKind::GivenNames => "builtin.given_names",
        KitAttrKind::Note => "kit.note",
        KitAttrKind::Origin => "kit.origin",
    }
}

/// What follows the name of an operation; nothing where nothing does.
pub(crate) fn operation_format(kind: KitOp) -> &'static [Directive]
    ensures { steps_of result.now ≡ (op_kind kind).format }
{
    match kind {
        KitOp::Module => NAMED_REGION,
        KitOp::Func => TYPED_REGION,
        KitOp::Constant => VALUE,
        KitOp::Arithmetic(_) => TWO_OPERANDS,
        KitOp::Comparison(_) => TWO_OPERANDS,
        KitOp::Emit => ONE_OPERAND,
        KitOp::Return => ANY_OPERANDS,
        KitOp::Call => CALL,
        KitOp::Br => EDGE,
        KitOp::CondBr => CONDITION_EDGES,
        KitOp::ForwardRef => &[],
    }
}

/// What follows the name of a type.
pub(crate) fn type_format(kind: KitTypeKind) -> &'static [Directive]
    ensures { steps_of result.now ≡ (type_form kind).format }
{
    match kind {
        KitTypeKind::Integer => WIDTH,
        KitTypeKind::Function => FUNCTION,
        KitTypeKind::Unit => &[],
    }
}

/// What follows the name of an attribute.
pub(crate) fn attribute_format(kind: KitAttrKind) -> &'static [Directive]
    ensures { steps_of result.now ≡ (attr_form kind).format }
{
    match kind {
        KitAttrKind::Integer => INTEGER,
        KitAttrKind::Identifier => NAME,
        KitAttrKind::Type => TYPE,
        KitAttrKind::SegmentSizes => SIZES,
        KitAttrKind::GivenNames => NAMES,
        KitAttrKind::Note => TEXT,
        KitAttrKind::Origin => TEXT,
    }
}
