//! Which attributes operations and blocks have.
ghost use Rattle.std.specs.Prelude.{◌≡◌, ◌↔◌, ◌⊎◌, ℕ, IsSome, IsTrue, List, Some, slice_get};
ghost use Rattle.ir_program.specs.Program.{block_at, operation_at};
ghost use Rattle.kit_checks.specs.Passing.{OfBody};
ghost use Rattle.kit_checks.specs.Reading.{OfTree};
ghost use Rattle.kit_checks.specs.Rules.{IsCommon, IsOwnKey, MayHave};
ghost use Rattle.kit_checks.specs.Words.{Every, kind_of};
ghost use Rattle.kit_checks.specs.World.{world_of};
ghost use Rattle.kit_ops.specs.declared.attributes.KitAttr.{KitAttr};
ghost use Rattle.kit_ops.specs.declared.kinds.KitOp.TheVariants.{ForwardRef};

use crate::reading::kind_of;
use ir_context::{BlockCalls, Context, OperationCalls};
use ir_names::AttributeDict;
use ir_program::{BasicBlock, Operation, Ptr};
use kit::Kit;
use kit_ops::{KitAttr, KitOp, keys};

/// Whether two keys are the same.
fn is_key(key: &str, other: &str) -> bool
    ensures { IsTrue result ↔ (key.now ≡ other.now) }
{
    key == other
}

/// Whether one of two keys is this.
fn is_either(key: &str, one: &str, other: &str) -> bool
    ensures { IsTrue result ↔ ((key.now ≡ one.now) ⊎ (key.now ≡ other.now)) }
{
    if is_key(key, one) {
        return true;
    }
    is_key(key, other)
}

/// Whether every operation and every block may have an attribute.
fn is_common(key: &str, attr: &KitAttr) -> bool
    ensures { IsTrue result ↔ IsCommon (key.now, attr.now) }
{
    match attr {
        KitAttr::GivenNames(_) => is_key(key, keys::GIVEN_NAMES),
        KitAttr::Note(_) => is_key(key, keys::NOTE),
        KitAttr::Origin(_) => is_key(key, keys::ORIGIN),
        _ => false,
    }
}

/// Whether a key is one of a kind's own.
fn is_own_key(kind: KitOp, key: &str) -> bool
    ensures { IsTrue result ↔ IsOwnKey kind key.now }
{
    match kind {
        KitOp::Module => is_key(key, keys::SYMBOL_NAME),
        KitOp::Func => is_either(key, keys::SYMBOL_NAME, keys::FUNCTION_TYPE),
        KitOp::Constant => is_key(key, keys::CONSTANT_VALUE),
        KitOp::CondBr => is_key(key, keys::SEGMENT_SIZES),
        KitOp::Call => is_either(key, keys::CALLEE, keys::CALLEE_TYPE),
        _ => false,
    }
}

/// Whether an operation of a kind may have an attribute.
fn may_have(kind: KitOp, key: &str, attr: &KitAttr) -> bool
    ensures { IsTrue result ↔ MayHave kind (key.now, attr.now) }
{
    if is_own_key(kind, key) {
        return true;
    }
    is_common(key, attr)
}

/// Whether an operation of a kind may have the attribute at an index.
fn may_have_at(attributes: &AttributeDict<Kit>, index: usize, kind: KitOp) -> bool
    ensures { (e : List ℕ × KitAttr) → slice_get attributes.now index ≡ Some e → IsTrue result ↔ MayHave kind e }
{
    match attributes.entry(index) {
        Some((key, attr)) => may_have(kind, key, attr),
        None => false,
    }
}

/// Whether every block may have the attribute at an index.
fn is_common_at(attributes: &AttributeDict<Kit>, index: usize) -> bool
    ensures { (e : List ℕ × KitAttr) → slice_get attributes.now index ≡ Some e → IsTrue result ↔ IsCommon e }
{
    match attributes.entry(index) {
        Some((key, attr)) => is_common(key, attr),
        None => false,
    }
}

/// Whether an operation of a kind may have all these attributes.
fn may_have_all(attributes: &AttributeDict<Kit>, kind: KitOp) -> bool
    ensures { IsTrue result ↔ Every (MayHave kind) attributes.now }
{
    for index in 0..attributes.len() {
        if !may_have_at(attributes, index, kind) {
            return false;
        }
    }
    true
}

/// Whether every block may have all these attributes.
fn are_common(attributes: &AttributeDict<Kit>) -> bool
    ensures { IsTrue result ↔ Every IsCommon attributes.now }
{
    for index in 0..attributes.len() {
        if !is_common_at(attributes, index) {
            return false;
        }
    }
    true
}

/// Whether an operation may have its attributes.
pub(crate) fn has_known_attributes(ctx: &Context<Kit>, op: Ptr<Operation>) -> bool
    requires { IsSome (operation_at ctx.now.program op) }
    ensures { OfTree ctx.now.program op (λ u. IsTrue result ↔ Every (MayHave (kind_of (world_of ctx.now) u))
        ((world_of ctx.now).attributes u.head.content)) }
{
    let notes = op.deref(ctx);
    may_have_all(&notes.attributes, kind_of(ctx, op))
}

/// Whether a block may have its attributes.
pub(crate) fn has_common_attributes(ctx: &Context<Kit>, block: Ptr<BasicBlock>) -> bool
    requires { IsSome (block_at ctx.now.program block) }
    ensures { OfBody ctx.now.program block (λ b. IsTrue result ↔ Every IsCommon
        ((world_of ctx.now).block_attributes b.label.content)) }
{
    let notes = block.deref(ctx);
    are_common(&notes.attributes)
}

/// Whether an operation is one that stands for a value that isn't defined yet.
pub(crate) fn is_forward_ref(kind: KitOp) -> bool
    ensures { IsTrue result ↔ (kind ≡ ForwardRef) }
{
    match kind {
        KitOp::ForwardRef => true,
        _ => false,
    }
}
