//! What interfaces ask of `kit`.
use crate::dialect::Kit;
use builtin_tables::{BuiltinDialect, CalleePlace, SuccessorLayout};
use ir_names::{AttributeDict, Identifier, OpInterface, TypeHandle};
use kit_ops::{KitAttr, KitOp, KitType, keys};

impl BuiltinDialect for Kit {
    ghost use Rattle.std.specs.Prelude.{refl};
    ghost use Rattle.builtin_tables.specs.declared.dialect.CalleePlace.TheVariants.{Attribute};
    ghost use Rattle.kit_ops.specs.Keys.{callee, callee_type};
    ghost use Rattle.kit_ops.specs.Table.{row_of};
    ghost use Rattle.kit.specs.Builtin as builtin;

    ghost held_identifier = { builtin.held_identifier };

    ghost held_type = { builtin.held_type };

    ghost held_sizes = { builtin.held_sizes };

    ghost signature = { builtin.signature };

    ghost table = { λ kind. (row_of kind).interfaces };

    ghost segment_count = { λ kind _. builtin.segment_count kind };

    ghost layout = { builtin.layout };

    ghost place_of_callee = { λ _. Attribute };

    ghost key_of_callee = { λ _. callee };

    ghost key_of_callee_type = { λ _. callee_type };

    ghost arguments_from = { λ _. 0 };

    fn as_identifier(attr: &KitAttr) -> Option<&Identifier> {
        match attr {
            KitAttr::Identifier(name) => Some(name),
            _ => None,
        }
    }

    fn from_identifier(name: Identifier) -> KitAttr {
        KitAttr::Identifier(name)
    }

    fn as_type(attr: &KitAttr) -> Option<TypeHandle> {
        match attr {
            KitAttr::Type(ty) => Some(*ty),
            _ => None,
        }
    }

    fn from_type(ty: TypeHandle) -> KitAttr {
        KitAttr::Type(ty)
    }

    fn as_segment_sizes(attr: &KitAttr) -> Option<&[u32]> {
        match attr {
            KitAttr::SegmentSizes(sizes) => Some(sizes.as_slice()),
            _ => None,
        }
    }

    fn from_segment_sizes(sizes: Vec<u32>) -> KitAttr {
        KitAttr::SegmentSizes(sizes)
    }

    fn function_type(key: &KitType) -> Option<(&[TypeHandle], &[TypeHandle])> {
        match key {
            KitType::Function(function) => {
                Some((function.inputs.as_slice(), function.results.as_slice()))
            }
            _ => None,
        }
    }

    fn interfaces(kind: KitOp) -> &'static [OpInterface] {
        kind.row().interfaces
    }

    fn expected_num_segments(kind: KitOp, _attributes: &AttributeDict<Kit>) -> usize {
        match kind {
            KitOp::CondBr => 3,
            _ => 0,
        }
    }

    fn successor_layout(kind: KitOp) -> SuccessorLayout {
        match kind {
            KitOp::CondBr => SuccessorLayout::Segments { first: 1 },
            _ => SuccessorLayout::Trailing { from: 0 },
        }
    }

    fn callee_place(_kind: KitOp) -> CalleePlace {
        CalleePlace::Attribute
    }

    fn callee_key(_kind: KitOp) -> &'static str {
        keys::CALLEE
    }

    fn callee_type_key(_kind: KitOp) -> &'static str {
        keys::CALLEE_TYPE
    }

    fn first_argument(_kind: KitOp) -> usize {
        0
    }

    ghost listed = { λ _ _. refl };

    ghost function_types = { builtin.function_types };

    ghost same_identifier = { builtin.same_identifier };

    ghost same_type = { builtin.same_type };

    ghost same_sizes = { builtin.same_sizes };
}
