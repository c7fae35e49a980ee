//! What reading and printing ask of the dialect.
ghost use Rattle.std.specs.Prelude.{◌≡◌, ℕ, List, Some, Err, IfOk, IsSome, length, slice_get, refl};
ghost use Rattle.ir_names.specs.Tree.{Trees, node};
ghost use Rattle.ir_print.specs.Formats.{steps_of};
ghost use Rattle.ir_print.specs.Pieces.{Pieces, value_of_kind};
ghost use Rattle.ir_print.specs.declared.format.ValueSort.TheVariants as sorts;
ghost use Rattle.ir_print.specs.Shown.{Said, ShowsAll, ShowsParts, ShowsKey, ShowsAttribute};
ghost use Rattle.ir_program.specs.Program.{operation_at};
ghost use Rattle.ir_types.specs.Interned.{KeepsTypes};
ghost use Rattle.kit_ops.specs.declared.attributes.KitAttr.{KitAttr};
ghost use Rattle.kit_ops.specs.declared.kinds.KitOp.{KitOp};
ghost use Rattle.kit_ops.specs.declared.types.KitType.{KitType};
ghost use Rattle.kit.specs.Forms.{read_ops, read_types, read_attrs, op_kind, type_form, attr_form};
ghost use Rattle.kit.specs.Says.{says, values};
ghost use Rattle.text_dialect.specs.Making as made;
ghost use Rattle.text_dialect.specs.Seen.{SeenOperation, seen, types_of};
ghost use Rattle.text_dialect.specs.declared.dialect.MakeFault.TheVariants.{Refused};

use crate::attributes::{attribute_parts, make_attribute};
use crate::dialect::Kit;
use crate::formats::{
    attribute_format, attribute_kind_at, attribute_name, operation_format, operation_kind_at,
    operation_name, type_format, type_kind_at, type_name,
};
use crate::operations::{make_operation, num_results, operation_parts};
use crate::types::{make_type, type_parts};
use ir_context::Context;
use ir_print::{Directive, Part};
use ir_program::{Operation, Ptr};
use kit_ops::{KitAttr, KitAttrKind, KitOp, KitType, KitTypeKind};
use std::alloc::{AllocError, Global};
use text_dialect::{MakeFault, OperationDraft, TextDialect};

impl TextDialect for Kit {
    ghost use Rattle.kit.specs.Forms as forms;
    ghost use Rattle.kit.specs.Says as said;
    ghost use Rattle.kit.specs.Agree as agree;
    ghost use Rattle.kit.specs.Readable as readable;

    ghost kind_at = { slice_get forms.read_ops };

    ghost type_kinds = { forms.read_types };

    ghost attr_kinds = { forms.read_attrs };

    ghost formats = { forms.formats };

    ghost op_kind = { forms.op_kind };

    ghost type_form = { forms.type_form };

    ghost attr_form = { forms.attr_form };

    ghost says = { said.says };

    ghost values = { said.values };

    fn op_kind_at(number: usize) -> Option<KitOp>
        ensures { result ≡ slice_get read_ops number }
    {
        operation_kind_at(number)
    }

    fn type_kind_at(number: usize) -> Option<KitTypeKind>
        ensures { result ≡ slice_get read_types number }
    {
        type_kind_at(number)
    }

    fn attr_kind_at(number: usize) -> Option<KitAttrKind>
        ensures { result ≡ slice_get read_attrs number }
    {
        attribute_kind_at(number)
    }

    fn op_name(kind: KitOp) -> &'static str {
        operation_name(kind)
    }

    fn type_name(kind: KitTypeKind) -> &'static str {
        type_name(kind)
    }

    fn attr_name(kind: KitAttrKind) -> &'static str {
        attribute_name(kind)
    }

    fn op_format(kind: KitOp) -> &'static [Directive] {
        operation_format(kind)
    }

    fn type_format(kind: KitTypeKind) -> &'static [Directive] {
        type_format(kind)
    }

    fn attr_format(kind: KitAttrKind) -> &'static [Directive] {
        attribute_format(kind)
    }

    fn make_type(
        alloc: Global,
        kind: KitTypeKind,
        parts: &[Part<Kit>],
    ) -> Result<KitType, MakeFault> {
        make_type(alloc, kind, parts)
    }

    fn make_attr(
        alloc: Global,
        ctx: &mut Context<Kit>,
        kind: KitAttrKind,
        parts: &[Part<Kit>],
    ) -> Result<KitAttr, MakeFault> {
        make_attribute(alloc, ctx, kind, parts)
    }

    fn num_results(ctx: &Context<Kit>, kind: KitOp, parts: &[Part<Kit>]) -> usize {
        num_results(ctx, kind, parts)
    }

    fn make_operation(
        alloc: Global,
        ctx: &mut Context<Kit>,
        kind: KitOp,
        parts: &[Part<Kit>],
    ) -> Result<OperationDraft<Kit>, MakeFault> {
        make_operation(alloc, ctx, kind, parts)
    }

    fn type_parts(alloc: Global, key: &KitType) -> Result<Vec<Part<Kit>>, AllocError> {
        type_parts(alloc, key)
    }

    fn attr_parts(alloc: Global, attr: &KitAttr) -> Result<Vec<Part<Kit>>, AllocError> {
        attribute_parts(alloc, attr)
    }

    fn operation_parts(
        alloc: Global,
        ctx: &Context<Kit>,
        op: Ptr<Operation>,
    ) -> Result<Vec<Part<Kit>>, AllocError> {
        operation_parts(alloc, ctx, op)
    }

    ghost op_ids_printed = { λ kind. refl };

    ghost few = { refl };

    ghost nested = { refl };

    ghost same = { agree.same_says };

    ghost operations = { readable.operations };

    ghost types = { readable.type_formats };

    ghost attributes = { readable.attribute_formats };

    ghost says_types = { readable.says_types };

    ghost says_attributes = { readable.says_attributes };

    ghost says_operations = { readable.says_operations };

    ghost says_kinds = { readable.says_kinds };

    ghost says_type_kinds = { readable.says_type_kinds };

    ghost says_attr_kinds = { readable.says_attr_kinds };

    ghost unknown_type = { agree.unknown_type };

    ghost unknown_attribute = { agree.unknown_attribute };

    ghost unknown_operation = { agree.unknown_operation };
}
