//! Types and saved values of a small dialect.
ghost use Rattle.std.specs.Prelude.{◌≡◌, Some};
ghost use Rattle.ir_types.specs.Interned.{IsKnown};
ghost use Rattle.ir_types.specs.Lends.{with_body};

use crate::asserting::same;
use ir_names::{AttrInterface, OpInterface, TypeHandle, TypeInterface};
use ir_scripts::tiny::{
    IntegerType, NamedType, Tiny, TinyAttr, TinyLocation, TinyOp, TinyType, TinyTypeKind,
};
use ir_types::{DialectTables, TypeInterfaceHandleErr, TypedHandleErr, Types};
use std::alloc::{AllocError, Global};
use std::process::Abort;
use std::test::Fail;

/// Lets a table go. It stands in a function of its own so that it is proved once.
fn finish_types(_types: Types<Tiny>) {}

/// The test of the same name, in a new table.
fn interns_types_in(rt: &impl Abort, types: &mut Types<Tiny>) -> Result<(), Fail> {
    assert!(rt; types.is_empty());
    let first = types.intern(TinyType::Integer(IntegerType { width: 7 }))?;
    let second = types.intern(TinyType::Named(NamedType { name: 7 }))?;
    same(
        rt,
        types.intern(TinyType::Integer(IntegerType { width: 7 }))?,
        first,
    );
    assert!(rt; first != second);
    same(rt, types.len(), 2);
    same(
        rt,
        types.key(second),
        Some(&TinyType::Named(NamedType { name: 7 })),
    );
    same(rt, types.key(TypeHandle::new(2)), None);
    assert!(rt; types.is_known(second) && !types.is_known(TypeHandle::new(2)));
    same(rt, types.body(second), None);
    types.know_distinct();
    Ok(())
}

#[test]
fn interns_types(rt: HostRuntime) -> Result<(), Fail> {
    let mut types: Types<Tiny> = Types::new(rt.alloc());
    let outcome = interns_types_in(&rt, &mut types);
    finish_types(types);
    outcome
}

/// Gives a type of any dialect a body.
fn give_body<D: DialectTables>(types: &mut Types<D>, ty: TypeHandle, body: D::TypeBody)
    requires { IsKnown types.old ty }
    ensures { types.new ≡ with_body types.old ty (Some body) }
{
    *types.body_mut(ty) = Some(body);
}

/// The same of the small one.
fn give_tiny_body(types: &mut Types<Tiny>, ty: TypeHandle, body: u64)
    requires { IsKnown types.old ty }
    ensures { types.new ≡ with_body types.old ty (Some body) }
{
    *types.body_mut(ty) = Some(body);
}

/// The test of the same name, in a new table.
fn gives_bodies_in(rt: &impl Abort, types: &mut Types<Tiny>) -> Result<(), Fail> {
    let first = types.intern(TinyType::Named(NamedType { name: 1 }))?;
    let second = types.intern(TinyType::Named(NamedType { name: 2 }))?;
    assert!(rt; types.is_known(first) && types.is_known(second));
    give_body(types, first, 10);
    give_tiny_body(types, second, 20);
    same(rt, types.body(first), Some(&10));
    same(rt, types.body(second), Some(&20));
    same(
        rt,
        types.intern(TinyType::Named(NamedType { name: 1 }))?,
        first,
    );
    same(rt, types.body(first), Some(&10));
    *types.body_mut(second) = None;
    same(rt, types.body(second), None);
    Ok(())
}

#[test]
fn gives_bodies(rt: HostRuntime) -> Result<(), Fail> {
    let mut types: Types<Tiny> = Types::new(rt.alloc());
    let outcome = gives_bodies_in(&rt, &mut types);
    finish_types(types);
    outcome
}

/// The test of the same name, in a new table.
fn tells_kinds_and_interfaces_in(rt: &impl Abort, types: &mut Types<Tiny>) -> Result<(), Fail> {
    let named = types.intern(TinyType::Named(NamedType { name: 1 }))?;
    assert!(rt; types.has_kind(named, TinyTypeKind::Named));
    assert!(rt; !types.has_kind(named, TinyTypeKind::Integer));
    assert!(rt; types.implements(named, TypeInterface::FunctionType));
    assert!(rt; !types.implements(named, TypeInterface::Other("sized")));
    let unknown = TypeHandle::new(1);
    assert!(rt; !types.has_kind(unknown, TinyTypeKind::Named));
    assert!(rt; !types.implements(unknown, TypeInterface::FunctionType));
    Ok(())
}

#[test]
fn tells_kinds_and_interfaces(rt: HostRuntime) -> Result<(), Fail> {
    let mut types: Types<Tiny> = Types::new(rt.alloc());
    let outcome = tells_kinds_and_interfaces_in(&rt, &mut types);
    finish_types(types);
    outcome
}

/// The test of the same name, in a new table.
fn saves_values_in(rt: &impl Abort, types: &mut Types<Tiny>) -> Result<(), Fail> {
    let first = types.save(70)?;
    let second = types.save(80)?;
    same(rt, types.save(70)?, first);
    assert!(rt; first != second);
    assert!(rt; types.is_saved(first) && types.is_saved(second));
    same(rt, *types.saved(first), 70);
    same(rt, *types.saved(second), 80);
    types.know_saved_distinct();
    Ok(())
}

#[test]
fn saves_values(rt: HostRuntime) -> Result<(), Fail> {
    let mut types: Types<Tiny> = Types::new(rt.alloc());
    let outcome = saves_values_in(&rt, &mut types);
    finish_types(types);
    outcome
}

/// Asserts whether a kind implements an interface.
fn assert_implements(rt: &impl Abort, kind: TinyOp, interface: OpInterface, answer: bool) {
    same(rt, Tiny::op_implements(kind, interface), answer);
}

/// Asserts what copies of a key of types and of a location are.
fn assert_copies(
    rt: &impl Abort,
    alloc: Global,
    key: &TinyType,
    location: &TinyLocation,
) -> Result<(), AllocError> {
    same(rt, &Tiny::clone_type_key(alloc, key)?, key);
    assert!(rt; Tiny::clone_location(alloc, location)? == *location);
    Ok(())
}

/// Asserts that an attribute has no type and implements nothing that has one.
fn assert_untyped(rt: &impl Abort, attr: &TinyAttr) {
    same(rt, Tiny::type_of(attr), None);
    assert!(rt; !Tiny::attr_implements(attr, AttrInterface::TypedAttr));
}

#[test]
fn asks_a_dialect(rt: HostRuntime) -> Result<(), Fail> {
    assert_implements(&rt, TinyOp::Jump, OpInterface::IsTerminator, true);
    assert_implements(&rt, TinyOp::Graph, OpInterface::IsTerminator, false);
    assert_untyped(&rt, &TinyAttr::Number(3));
    let key = TinyType::Integer(IntegerType { width: 3 });
    assert_copies(&rt, rt.alloc(), &key, &TinyLocation::Line(4))?;
    Ok(())
}

/// Asserts how the id of a kind of operations is shown.
fn assert_shown(
    rt: &impl Abort,
    alloc: Global,
    kind: TinyOp,
    text: &str,
) -> Result<(), AllocError> {
    let id = Tiny::op_id(kind);
    same(rt, format!(in alloc; "{id}")?.as_str(), text);
    Ok(())
}

/// Asserts how it is shown that a type is of another kind.
fn assert_other_kind(
    rt: &impl Abort,
    alloc: Global,
    expected: TinyTypeKind,
    found: TinyTypeKind,
    text: &str,
) -> Result<(), AllocError> {
    let expected = Tiny::type_id(expected);
    let found = Tiny::type_id(found);
    let error = TypedHandleErr { expected, found };
    same(rt, format!(in alloc; "{error}")?.as_str(), text);
    Ok(())
}

/// Asserts how it is shown that a type lacks an interface.
fn assert_lacks(
    rt: &impl Abort,
    alloc: Global,
    interface: TypeInterface,
    found: TinyTypeKind,
    text: &str,
) -> Result<(), AllocError> {
    let found = Tiny::type_id(found);
    let error = TypeInterfaceHandleErr { interface, found };
    same(rt, format!(in alloc; "{error}")?.as_str(), text);
    Ok(())
}

#[test]
fn shows_kinds_and_refusals(rt: HostRuntime) -> Result<(), Fail> {
    let alloc = rt.alloc();
    assert_shown(&rt, alloc, TinyOp::Graph, "tiny.graph")?;
    let (integer, named) = (TinyTypeKind::Integer, TinyTypeKind::Named);
    let text = "expected a type tiny.integer, found tiny.named";
    assert_other_kind(&rt, alloc, integer, named, text)?;
    let text = "type tiny.named does not implement FunctionType";
    assert_lacks(&rt, alloc, TypeInterface::FunctionType, named, text)?;
    Ok(())
}
