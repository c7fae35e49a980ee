//! What stands for the interfaces and kinds of the small dialect.
use crate::tiny::{IntegerType, Tiny, TinyOp, TinyType, TinyTypeKind};
use ir_core::{
    AttrInterface, AttrInterfaceMarker, OpInterface, OpInterfaceMarker, OpMarker, Type,
    TypeInterface, TypeInterfaceMarker, TypeMarker,
};

/// What ends a block.
pub struct Terminator;

impl OpInterfaceMarker for Terminator {
    ghost use Rattle.ir_names.specs.declared.interfaces.OpInterface.TheVariants.{IsTerminator};

    ghost INTERFACE = { IsTerminator };

    const INTERFACE: OpInterface = OpInterface::IsTerminator;
}

/// What is a type of functions.
pub struct Function;

impl TypeInterfaceMarker for Function {
    ghost use Rattle.ir_names.specs.declared.interfaces.TypeInterface.TheVariants.{FunctionType};

    ghost INTERFACE = { FunctionType };

    const INTERFACE: TypeInterface = TypeInterface::FunctionType;
}

/// What says its type.
pub struct TypedAttribute;

impl AttrInterfaceMarker for TypedAttribute {
    ghost use Rattle.ir_names.specs.declared.interfaces.AttrInterface.TheVariants.{TypedAttr};

    ghost INTERFACE = { TypedAttr };

    const INTERFACE: AttrInterface = AttrInterface::TypedAttr;
}

/// The kind of terminators.
pub struct Jump;

impl OpMarker<Tiny> for Jump {
    ghost use Rattle.ir_scripts.specs.declared.tiny.TinyOp.TheVariants as ops;

    ghost KIND = { ops.Jump };

    const KIND: TinyOp = TinyOp::Jump;
}

/// The kind of plain operations whose regions are graphs.
pub struct Graph;

impl OpMarker<Tiny> for Graph {
    ghost use Rattle.ir_scripts.specs.declared.tiny.TinyOp.TheVariants as ops;

    ghost KIND = { ops.Graph };

    const KIND: TinyOp = TinyOp::Graph;
}

impl TypeMarker<Tiny> for IntegerType {
    ghost use Rattle.std.specs.Prelude.{None, Some, refl};
    ghost use Rattle.std.proofs.Common.{sym, true≢false};
    ghost use Rattle.ir_scripts.specs.declared.tiny.TinyType.TheVariants as types;
    ghost use Rattle.ir_scripts.specs.declared.tiny.TinyTypeKind.TheVariants as kinds;

    ghost KIND = { kinds.Integer };

    const KIND: TinyTypeKind = TinyTypeKind::Integer;

    ghost part = { elim [ types.Integer t ↦ Some t | types.Named t ↦ None ] };

    fn of(key: &TinyType) -> Option<&IntegerType> {
        match key {
            TinyType::Integer(t) => Some(t),
            TinyType::Named(_) => None,
        }
    }

    ghost of_kind = { elim [
      | types.Integer t ↦ (λ _. refl, λ _. refl)
      | types.Named t ↦ (λ e. absurd (true≢false (sym e)), λ e. absurd (true≢false (sym e)))
    ] };
}

impl Type<Tiny> for IntegerType {
    ghost use Rattle.std.specs.Prelude.{refl};
    ghost use Rattle.ir_scripts.specs.declared.tiny.TinyType.TheVariants as types;

    ghost key = { types.Integer };

    fn into_key(self) -> TinyType {
        TinyType::Integer(self)
    }

    ghost part_of_key = { λ _. refl };
}
