//! Changing what operations and blocks carry, and the bodies of types.
ghost use Rattle.std.specs.Prelude.{◌≡◌, ◌↔◌, Some, None, IsSome, IsErr, IfOk, OnOk};
ghost use Rattle.std.specs.Borrow.{sem};
ghost use Rattle.ir_program.specs.Program.{operation_at, block_at, type_at};
ghost use Rattle.ir_program.specs.Edits.{EditsOperation, EditsBlock};
ghost use Rattle.ir_program.specs.Lent.{payload_at, block_payload_at, with_payload, with_block_payload};
ghost use Rattle.ir_program.specs.declared.handles.Value.{Value};

use crate::notes::{BlockNotes, OperationData};
use crate::{DanglingPtrDerefError, TypeTable, TypedProgram};
use ir_names::TypeHandle;
use ir_program::{BasicBlock, Operation, Ptr};
use ir_types::{DialectTables, Types};

impl<O, B, T: TypeTable> TypedProgram<O, B, T> {
    ghost use Rattle.ir_context.specs.Lends.{lends_payload, lends_block_payload, may_lend_payload, may_lend_block_payload};

    /// Lends what a block carries, to be changed: in a dialect's context its attributes, its location and its label.
    pub fn block_payload_mut(&mut self, block: Ptr<BasicBlock>) -> &mut B
        requires { IsSome (block_at self.old.program block) }
        ensures* lends { sem 𝓛 (lends_block_payload O.row B.row T.row T.TypeTable.own self.entry block result) }
        ensures value { block_payload_at self.old.program block ≡ Some result.now }
        // Nothing changes but the payload.
        ensures edits { (w : _)
            → EditsBlock self.old.program (with_block_payload self.old.program block w) block
            (λ b. record b { payload = w }) }
        ensures values { (w : _) (v : Value)
            → type_at (with_block_payload self.old.program block w) v ≡ type_at self.old.program v }
        ensures counter { (w : _) → (with_block_payload self.old.program block w).counter ≡ self.old.program.counter }
    {
        self.program.block_payload_mut(block)
    }

    /// Lends what an operation carries, to be changed: in a dialect's context its attributes and its location.
    pub fn payload_mut(&mut self, op: Ptr<Operation>) -> &mut O
        requires { IsSome (operation_at self.old.program op) }
        ensures* lends { sem 𝓛 (lends_payload O.row B.row T.row T.TypeTable.own self.entry op result) }
        ensures value { payload_at self.old.program op ≡ Some result.now }
        // Nothing changes but the payload.
        ensures edits { (w : _)
            → EditsOperation self.old.program (with_payload self.old.program op w) op (λ o. record o { payload = w }) }
        ensures values { (w : _) (v : Value)
            → type_at (with_payload self.old.program op w) v ≡ type_at self.old.program v }
        ensures counter { (w : _) → (with_payload self.old.program op w).counter ≡ self.old.program.counter }
    {
        self.program.payload_mut(op)
    }

    /// Lends what a block carries, to be changed.
    ///
    /// # Errors
    /// Where the handle leads to no block. Nothing is changed then.
    pub fn try_block_payload_mut(
        &mut self,
        block: Ptr<BasicBlock>,
    ) -> Result<&mut B, DanglingPtrDerefError>
        ensures* lends { sem 𝓛 (may_lend_block_payload O.row B.row T.row T.TypeTable.own self.entry block result) }
        ensures refused { IsErr result ↔ (block_at self.old.program block ≡ None) }
        ensures value { IfOk result (λ payload. block_payload_at self.old.program block ≡ Some payload.now) }
        // Nothing changes but the payload.
        ensures edits { OnOk result ((w : _)
            → EditsBlock self.old.program (with_block_payload self.old.program block w) block
            (λ b. record b { payload = w })) }
        ensures values { OnOk result ((w : _) (v : Value)
            → type_at (with_block_payload self.old.program block w) v ≡ type_at self.old.program v) }
        ensures counter { OnOk result ((w : _)
            → (with_block_payload self.old.program block w).counter ≡ self.old.program.counter) }
    {
        if self.program.has_block(block) {
            Ok(self.block_payload_mut(block))
        } else {
            Err(DanglingPtrDerefError)
        }
    }

    /// Lends what an operation carries, to be changed.
    ///
    /// # Errors
    /// Where the handle leads to no operation. Nothing is changed then.
    pub fn try_payload_mut(&mut self, op: Ptr<Operation>) -> Result<&mut O, DanglingPtrDerefError>
        ensures* lends { sem 𝓛 (may_lend_payload O.row B.row T.row T.TypeTable.own self.entry op result) }
        ensures refused { IsErr result ↔ (operation_at self.old.program op ≡ None) }
        ensures value { IfOk result (λ payload. payload_at self.old.program op ≡ Some payload.now) }
        // Nothing changes but the payload.
        ensures edits { OnOk result ((w : _)
            → EditsOperation self.old.program (with_payload self.old.program op w) op (λ o. record o { payload = w })) }
        ensures values { OnOk result ((w : _) (v : Value)
            → type_at (with_payload self.old.program op w) v ≡ type_at self.old.program v) }
        ensures counter { OnOk result ((w : _)
            → (with_payload self.old.program op w).counter ≡ self.old.program.counter) }
    {
        if self.program.has_operation(op) {
            Ok(self.payload_mut(op))
        } else {
            Err(DanglingPtrDerefError)
        }
    }
}

impl<D: DialectTables> TypedProgram<OperationData<D>, BlockNotes<D>, Types<D>> {
    ghost use Rattle.ir_types.specs.Interned.{IsKnown, body_at};
    ghost use Rattle.ir_context.specs.Lends.{lends_type_body};

    /// Lends the body of a type, to be given to it, changed or taken.
    pub fn type_body_mut(&mut self, ty: TypeHandle) -> &mut Option<D::TypeBody>
        requires { IsKnown self.old.types ty }

        // The first three lines name the type of `self`: by the dialect, its types, and what its traits say of them.
        ensures* lends { sem 𝓛
            (lends_type_body D.row D.TypeKind.row D.AttrKind.row D.TypeBody.row D.Saved.row D.Location.row D.OpKind.row D.Attr.row D.TypeKey.row
            D.DialectTables.own D.OpKind.PartialEq D.Attr.PartialEq D.Attr.Hash.own D.TypeKey.PartialEq D.TypeKey.Hash.own
            D.TypeKind.PartialEq D.AttrKind.PartialEq D.Saved.PartialEq D.Saved.Hash.own D.Location.PartialEq
            ⟦<Types<D> as TypeTable>⟧ self.entry ty result) }
        ensures value { result.now ≡ body_at self.old.types ty }
    {
        self.types.body_mut(ty)
    }
}
