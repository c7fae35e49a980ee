//! Types, saved values, and what their markers say.
use crate::asserting::same;
use ir_core::{
    AttributeDict, AttributeLookups, Context, CoreError, Identifier, IdentifierError, Instantiate,
    InvalidIdentifier, TypeCalls, TypeHandle, TypeInterfaceHandle, TypedHandle, Uniqued,
    attr_impls, attr_type, ident, op_impls, op_impls_static, type_impls,
};
use ir_scripts::finish;
use ir_scripts::markers::{Function, Jump, Terminator, TypedAttribute};
use ir_scripts::tiny::{IntegerType, NamedType, Tiny, TinyAttr, TinyOp, TinyType};
use std::alloc::{AllocError, Global};
use std::process::Abort;
use std::test::Fail;

/// The type of integers of 32 bits.
fn integer(alloc: Global, ctx: &mut Context<Tiny>) -> Result<TypeHandle, AllocError> {
    ctx.instantiate_key(alloc, TinyType::Integer(IntegerType { width: 32 }))
}

/// The type with a name, one of functions.
fn named(alloc: Global, ctx: &mut Context<Tiny>) -> Result<TypeHandle, AllocError> {
    ctx.instantiate_key(alloc, TinyType::Named(NamedType { name: 1 }))
}

/// The type of integers of a width, and the width that it has.
fn instantiated(
    alloc: Global,
    ctx: &mut Context<Tiny>,
    width: u32,
) -> Result<(TypeHandle, u32), AllocError> {
    let typed = IntegerType { width }.instantiate(alloc, ctx)?;
    Ok((typed.to_handle(), typed.deref(ctx).width))
}

/// The test of the same name, in a new context.
fn a_type_that_is_there_keeps_its_handle_in(
    rt: &impl Abort,
    alloc: Global,
    ctx: &mut Context<Tiny>,
) -> Result<(), Fail> {
    let first = integer(alloc, ctx)?;
    let other = named(alloc, ctx)?;
    same(rt, integer(alloc, ctx)?, first);
    assert!(rt; other != first);
    let key = TinyType::Integer(IntegerType { width: 32 });
    same(rt, ctx.type_key(first), Some(&key));
    same(rt, instantiated(alloc, ctx, 32)?, (first, 32));
    Ok(())
}

#[test]
fn a_type_that_is_there_keeps_its_handle(rt: HostRuntime) -> Result<(), Fail> {
    let mut ctx: Context<Tiny> = Context::new(rt.alloc());
    let outcome = a_type_that_is_there_keeps_its_handle_in(&rt, rt.alloc(), &mut ctx);
    finish(ctx);
    outcome
}

/// Keeps a number.
fn keep(alloc: Global, ctx: &mut Context<Tiny>, number: u64) -> Result<Uniqued<u64>, AllocError> {
    Uniqued::new(alloc, ctx, number)
}

/// Keeps a number, and answers it as it is kept.
fn kept_number(alloc: Global, ctx: &mut Context<Tiny>, number: u64) -> Result<u64, AllocError> {
    let kept = Uniqued::new(alloc, ctx, number)?;
    Ok(*kept.get(ctx))
}

/// The test of the same name, in a new context.
fn a_value_that_is_kept_keeps_its_key_in(
    rt: &impl Abort,
    alloc: Global,
    ctx: &mut Context<Tiny>,
) -> Result<(), Fail> {
    let first = keep(alloc, ctx, 5)?;
    let other = keep(alloc, ctx, 6)?;
    let again = keep(alloc, ctx, 5)?;
    same(rt, again, first);
    assert!(rt; other != first);
    same(rt, again.key(), first.key());
    same(rt, kept_number(alloc, ctx, 6)?, 6);
    Ok(())
}

#[test]
fn a_value_that_is_kept_keeps_its_key(rt: HostRuntime) -> Result<(), Fail> {
    let mut ctx: Context<Tiny> = Context::new(rt.alloc());
    let outcome = a_value_that_is_kept_keeps_its_key_in(&rt, rt.alloc(), &mut ctx);
    finish(ctx);
    outcome
}

/// Saves a number, and answers it as it is saved.
fn saved_number(alloc: Global, ctx: &mut Context<Tiny>, number: u64) -> Result<u64, AllocError> {
    let key = ctx.save(alloc, number)?;
    Ok(*ctx.saved(key))
}

/// The test of the same name, in a new context.
fn a_saved_value_is_found_by_its_key_in(
    rt: &impl Abort,
    alloc: Global,
    ctx: &mut Context<Tiny>,
) -> Result<(), Fail> {
    same(rt, saved_number(alloc, ctx, 5)?, 5);
    same(rt, saved_number(alloc, ctx, 6)?, 6);
    same(rt, saved_number(alloc, ctx, 5)?, 5);
    Ok(())
}

#[test]
fn a_saved_value_is_found_by_its_key(rt: HostRuntime) -> Result<(), Fail> {
    let mut ctx: Context<Tiny> = Context::new(rt.alloc());
    let outcome = a_saved_value_is_found_by_its_key_in(&rt, rt.alloc(), &mut ctx);
    finish(ctx);
    outcome
}

/// The test of the same name, in a new context.
fn a_type_of_another_kind_is_refused_in(
    rt: &impl Abort,
    alloc: Global,
    ctx: &mut Context<Tiny>,
) -> Result<(), Fail> {
    let ty = named(alloc, ctx)?;
    let Err(error) = TypedHandle::<IntegerType>::from_handle(ty, ctx) else {
        panic!(rt; "the type is one of integers");
    };
    same(
        rt,
        format!(in alloc; "{error}")?.as_str(),
        "expected a type tiny.integer, found tiny.named",
    );
    same(rt, CoreError::from(error), CoreError::TypedHandle);
    same(rt, CoreError::from(error).number(), 4);
    let ty = integer(alloc, ctx)?;
    assert!(rt; TypedHandle::<IntegerType>::from_handle(ty, ctx).is_ok());
    Ok(())
}

#[test]
fn a_type_of_another_kind_is_refused(rt: HostRuntime) -> Result<(), Fail> {
    let mut ctx: Context<Tiny> = Context::new(rt.alloc());
    let outcome = a_type_of_another_kind_is_refused_in(&rt, rt.alloc(), &mut ctx);
    finish(ctx);
    outcome
}

/// The test of the same name, in a new context.
fn a_type_without_the_interface_is_refused_in(
    rt: &impl Abort,
    alloc: Global,
    ctx: &mut Context<Tiny>,
) -> Result<(), Fail> {
    let ty = integer(alloc, ctx)?;
    let Err(error) = TypeInterfaceHandle::<Function>::from_handle(ty, ctx) else {
        panic!(rt; "integers are functions");
    };
    same(rt, CoreError::from(error), CoreError::TypeInterfaceHandle);
    same(rt, CoreError::from(error).number(), 5);
    assert!(rt; !type_impls::<Tiny, Function>(ty, ctx));
    let ty = named(alloc, ctx)?;
    let handle = TypeInterfaceHandle::<Function>::from_handle(ty, ctx)?;
    same(rt, handle.to_handle(), ty);
    Ok(())
}

#[test]
fn a_type_without_the_interface_is_refused(rt: HostRuntime) -> Result<(), Fail> {
    let mut ctx: Context<Tiny> = Context::new(rt.alloc());
    let outcome = a_type_without_the_interface_is_refused_in(&rt, rt.alloc(), &mut ctx);
    finish(ctx);
    outcome
}

/// The test of the same name, in a new context.
fn an_attribute_without_the_interface_is_refused_in(
    rt: &impl Abort,
    alloc: Global,
    ctx: &mut Context<Tiny>,
) -> Result<(), Fail> {
    let ty = integer(alloc, ctx)?;
    let mut attributes: AttributeDict<Tiny> = AttributeDict::new(alloc);
    attributes.set(ident(alloc, "number")?, TinyAttr::Number(7))?;
    attributes.set(ident(alloc, "type")?, TinyAttr::Type(ty))?;
    let found = attributes.try_get_as::<TypedAttribute>("type")?;
    same(rt, attr_type::<Tiny>(found), Some(ty));
    for key in ["number", "absent"] {
        let Err(error) = attributes.try_get_as::<TypedAttribute>(key) else {
            panic!(rt; "{key} says its type");
        };
        same(rt, CoreError::from(error), CoreError::AttrInterfaceCast);
        same(rt, CoreError::from(error).number(), 6);
    }
    Ok(())
}

#[test]
fn an_attribute_without_the_interface_is_refused(rt: HostRuntime) -> Result<(), Fail> {
    let mut ctx: Context<Tiny> = Context::new(rt.alloc());
    let outcome = an_attribute_without_the_interface_is_refused_in(&rt, rt.alloc(), &mut ctx);
    finish(ctx);
    outcome
}

#[test]
fn a_copy_has_the_attributes_that_are_not_printed_behind(rt: HostRuntime) -> Result<(), Fail> {
    let mut attributes: AttributeDict<Tiny> = AttributeDict::new(rt.alloc());
    attributes.set(ident(rt.alloc(), "first")?, TinyAttr::Number(7))?;
    attributes.set(ident(rt.alloc(), "second")?, TinyAttr::Number(8))?;
    let copy = attributes.clone_skip_outlined(rt.alloc())?;
    same(&rt, copy.len(), 2);
    same(&rt, copy.entry(0), Some(("first", &TinyAttr::Number(7))));
    same(&rt, copy.entry(1), Some(("second", &TinyAttr::Number(8))));
    Ok(())
}

#[test]
fn a_text_that_is_no_identifier_is_refused(rt: HostRuntime) -> Result<(), Fail> {
    let Err(error) = Identifier::try_new(rt.alloc(), "a-b") else {
        panic!(rt; "a-b is an identifier");
    };
    same(&rt, error, IdentifierError::Invalid(InvalidIdentifier));
    same(&rt, CoreError::from(InvalidIdentifier).number(), 13);
    same(&rt, Identifier::try_new(rt.alloc(), "a_b")?.as_str(), "a_b");
    Ok(())
}

#[test]
fn tables_tell_what_kinds_implement(rt: HostRuntime) -> Result<(), Fail> {
    assert!(rt; op_impls::<Tiny, Terminator>(TinyOp::Jump));
    assert!(rt; !op_impls::<Tiny, Terminator>(TinyOp::Def));
    assert!(rt; op_impls_static::<Tiny, Jump, Terminator>());
    assert!(rt; !attr_impls::<Tiny, TypedAttribute>(&TinyAttr::Number(1)));
    Ok(())
}
