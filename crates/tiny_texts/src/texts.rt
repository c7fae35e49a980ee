//! What reading and printing ask of the dialect.
ghost use Rattle.std.specs.Prelude.{◌≡◌};
ghost use Rattle.tiny_texts.specs.Making.{constant_of, one_part};
ghost use Rattle.tiny_texts.specs.Says.{number_in};

use crate::dialect::{Constant, Int, Single, TinyAttr, TinyOp, TinyText};
use crate::operations::{Form, make_operation, operation_parts};
use ir_context::Context;
use ir_print::{Directive, LeafValue, Part};
use ir_program::{Operation, Ptr};
use std::alloc::{AllocError, Global};
use text_dialect::{MakeFault, OperationDraft, TextDialect};

const REGION: &[Directive] = &[Directive::Region];

const VALUE: &[Directive] = &[Directive::Attribute];

const OPERAND: &[Directive] = &[Directive::Operand];

const EDGE: &[Directive] = &[Directive::Successor];

const NUMBER: &[Directive] = &[Directive::Digits];

const MARK: &[Directive] = &[Directive::Mark];

/// The number that parts are which an attribute of a kind is made of, if they are one.
fn number_in(kind: TinyAttr, parts: &[Part<TinyText>]) -> Option<u64>
    ensures { result ≡ number_in kind (one_part parts.now) }
{
    match (kind, parts) {
        (TinyAttr::Num, [Part::Leaf(LeafValue::Digits(Some(number)))]) => Some(*number),
        (TinyAttr::Ref, [Part::Leaf(LeafValue::Mark(Some(number)))]) => Some(*number),
        _ => None,
    }
}

/// The attribute of a kind with a number.
fn constant_of(kind: TinyAttr, number: u64) -> Constant
    ensures { result ≡ constant_of kind number }
{
    match kind {
        TinyAttr::Num => Constant::Num(number),
        TinyAttr::Ref => Constant::Ref(number),
    }
}

impl TextDialect for TinyText {
    ghost use Rattle.std.specs.Prelude.{refl, slice_get};
    ghost use Rattle.tiny_texts.specs.Forms as forms;
    ghost use Rattle.tiny_texts.specs.Says as said;
    ghost use Rattle.tiny_texts.specs.Readable as readable;

    ghost kind_at = { slice_get forms.read_ops };

    ghost type_kinds = { forms.read_single };

    ghost attr_kinds = { forms.read_attrs };

    ghost formats = { forms.formats };

    ghost op_kind = { forms.op_kind };

    ghost type_form = { forms.type_form };

    ghost attr_form = { forms.attr_form };

    ghost says = { said.says };

    ghost values = { said.values };

    fn op_kind_at(number: usize) -> Option<TinyOp> {
        match number {
            0 => Some(TinyOp::Box),
            1 => Some(TinyOp::Loop),
            2 => Some(TinyOp::Pure),
            3 => Some(TinyOp::Def),
            4 => Some(TinyOp::Id),
            5 => Some(TinyOp::Use),
            6 => Some(TinyOp::Br),
            7 => Some(TinyOp::Ret),
            _ => None,
        }
    }

    fn type_kind_at(number: usize) -> Option<Single> {
        match number {
            0 => Some(Single),
            _ => None,
        }
    }

    fn attr_kind_at(number: usize) -> Option<TinyAttr> {
        match number {
            0 => Some(TinyAttr::Num),
            1 => Some(TinyAttr::Ref),
            _ => None,
        }
    }

    fn op_name(kind: TinyOp) -> &'static str {
        match kind {
            TinyOp::Box => "t.box",
            TinyOp::Loop => "t.loop",
            TinyOp::Pure => "t.pure",
            TinyOp::Def => "t.def",
            TinyOp::Id => "t.id",
            TinyOp::Use => "t.use",
            TinyOp::Br => "t.br",
            TinyOp::Ret => "t.ret",
        }
    }

    fn type_name(_kind: Single) -> &'static str {
        "t.int"
    }

    fn attr_name(kind: TinyAttr) -> &'static str {
        match kind {
            TinyAttr::Num => "t.num",
            TinyAttr::Ref => "t.ref",
        }
    }

    fn op_format(kind: TinyOp) -> &'static [Directive] {
        match kind.form() {
            Form::Region => REGION,
            Form::Value => VALUE,
            Form::Operand => OPERAND,
            Form::Edge => EDGE,
            Form::Nothing => &[],
        }
    }

    fn type_format(_kind: Single) -> &'static [Directive] {
        &[]
    }

    fn attr_format(kind: TinyAttr) -> &'static [Directive] {
        match kind {
            TinyAttr::Num => NUMBER,
            TinyAttr::Ref => MARK,
        }
    }

    fn make_type(
        _alloc: Global,
        _kind: Single,
        parts: &[Part<TinyText>],
    ) -> Result<Int, MakeFault> {
        if parts.is_empty() {
            Ok(Int)
        } else {
            Err(MakeFault::Refused(0))
        }
    }

    fn make_attr(
        _alloc: Global,
        _ctx: &mut Context<TinyText>,
        kind: TinyAttr,
        parts: &[Part<TinyText>],
    ) -> Result<Constant, MakeFault> {
        match number_in(kind, parts) {
            Some(number) => Ok(constant_of(kind, number)),
            None => Err(MakeFault::Refused(0)),
        }
    }

    fn num_results(_ctx: &Context<TinyText>, kind: TinyOp, _parts: &[Part<TinyText>]) -> usize {
        match kind {
            TinyOp::Def | TinyOp::Id => 1,
            _ => 0,
        }
    }

    fn make_operation(
        alloc: Global,
        ctx: &mut Context<TinyText>,
        kind: TinyOp,
        parts: &[Part<TinyText>],
    ) -> Result<OperationDraft<TinyText>, MakeFault> {
        make_operation(alloc, ctx, kind, parts)
    }

    fn type_parts(alloc: Global, _key: &Int) -> Result<Vec<Part<TinyText>>, AllocError> {
        Ok(Vec::new(alloc))
    }

    fn attr_parts(alloc: Global, attr: &Constant) -> Result<Vec<Part<TinyText>>, AllocError> {
        let leaf = match attr {
            Constant::Num(number) => LeafValue::Digits(Some(*number)),
            Constant::Ref(number) => LeafValue::Mark(Some(*number)),
        };
        Ok(vec![in alloc; Part::Leaf(leaf)]?)
    }

    fn operation_parts(
        alloc: Global,
        ctx: &Context<TinyText>,
        op: Ptr<Operation>,
    ) -> Result<Vec<Part<TinyText>>, AllocError> {
        operation_parts(alloc, ctx, op)
    }

    ghost op_ids_printed = { λ kind. refl };

    ghost few = { refl };

    ghost nested = { refl };

    ghost same = { λ _ _ _. refl };

    ghost operations = { readable.operation_formats };

    ghost types = { readable.type_formats };

    ghost attributes = { readable.attribute_formats };

    ghost says_types = { readable.says_types };

    ghost says_attributes = { readable.says_attributes };

    ghost says_operations = { readable.says_operations };

    ghost says_kinds = { readable.says_kinds };

    ghost says_type_kinds = { readable.says_type_kinds };

    ghost says_attr_kinds = { readable.says_attr_kinds };

    ghost unknown_type = { readable.unknown_type };

    ghost unknown_attribute = { readable.unknown_attribute };

    ghost unknown_operation = { readable.unknown_operation };
}
