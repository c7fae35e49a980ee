//! The first fault of a module.
ghost use Rattle.std.specs.Prelude.{◌↔◌, IfOk, IsSome, IsTrue, None};
ghost use Rattle.ir_program.specs.Program.{operation_at};
ghost use Rattle.kit_checks.specs.Faults.{IsVerdict};
ghost use Rattle.kit_checks.specs.Reading.{OfTree};
ghost use Rattle.kit_checks.specs.Searching.{IsFirstBreakIn, IsTested};
ghost use Rattle.kit_checks.specs.World.{world_of};
ghost use Rattle.kit_checks.specs.declared.rule.Rule.{Rule};
ghost use Rattle.kit_checks.specs.declared.rule.Rule.TheVariants.{ModuleHolds, CallsFit};

use crate::callees::callees_inside;
use crate::names::keeps_names;
use crate::repeats::repeats_inside;
use crate::search::first_place_by;
use crate::table::Table;
use ir_context::Context;
use ir_names::Place;
use ir_program::{Operation, Ptr};
use kit::Kit;
use kit_checks::{Rule, RuleFault, first_place, keeps_local_rules};
use std::alloc::{AllocError, Global};

/// All rules, in the order of their numbers.
const RULES: [Rule; 14] = [
    Rule::RootIsModule,
    Rule::ModuleHolds,
    Rule::FunctionHasType,
    Rule::FunctionHolds,
    Rule::ValuesAreIntegers,
    Rule::BlocksEnd,
    Rule::OperandsAreVisible,
    Rule::TypesAgree,
    Rule::EdgesFit,
    Rule::CallsFit,
    Rule::ReturnsFit,
    Rule::ConstantsFit,
    Rule::AttributesAreKnown,
    Rule::FitsFormat,
];

/// The first place where a module in the tree of the root holds what it may not.
fn first_module_fault(
    alloc: Global,
    ctx: &Context<Kit>,
    root: Ptr<Operation>,
) -> Result<Option<Place>, AllocError>
    requires { IsSome (operation_at ctx.now.program root) }
    ensures { IfOk result (IsFirstBreakIn (world_of ctx.now) ctx.now.program root ModuleHolds) }
{
    let table = Table::Repeats(repeats_inside(alloc, ctx, root)?);
    first_place_by(alloc, ctx, root, &table)
}

/// The first place where a call in the tree of the root calls no function that is there.
fn first_call_fault(
    alloc: Global,
    ctx: &Context<Kit>,
    root: Ptr<Operation>,
) -> Result<Option<Place>, AllocError>
    requires { IsSome (operation_at ctx.now.program root) }
    ensures { IfOk result (IsFirstBreakIn (world_of ctx.now) ctx.now.program root CallsFit) }
{
    let table = Table::Callees(callees_inside(alloc, ctx, root)?);
    first_place_by(alloc, ctx, root, &table)
}

/// The first place where a rule is broken that asks for no table of names.
fn first_local_fault(
    alloc: Global,
    ctx: &Context<Kit>,
    root: Ptr<Operation>,
    rule: Rule,
) -> Result<Option<Place>, AllocError>
    requires tested { IsTested rule }
    requires root { IsSome (operation_at ctx.now.program root) }
    ensures { IfOk result (IsFirstBreakIn (world_of ctx.now) ctx.now.program root rule) }
{
    match first_place(alloc, ctx, root, rule) {
        Ok(found) => Ok(found),
        Err(_) => Err(AllocError),
    }
}

/// The first place where a rule is broken in the tree that the root stands for, if it is broken at all.
///
/// # Errors
/// No memory to find out.
pub fn first_broken(
    alloc: Global,
    ctx: &Context<Kit>,
    root: Ptr<Operation>,
    rule: Rule,
) -> Result<Option<Place>, AllocError>
    requires { IsSome (operation_at ctx.now.program root) }
    ensures { IfOk result (IsFirstBreakIn (world_of ctx.now) ctx.now.program root rule) }
{
    match rule {
        Rule::ModuleHolds => first_module_fault(alloc, ctx, root),
        Rule::CallsFit => first_call_fault(alloc, ctx, root),
        _ => first_local_fault(alloc, ctx, root, rule),
    }
}

/// Whether all rules are kept in the tree that the root stands for, without the place of a fault. One walk tests all
/// rules that ask for no table of names, and one those that do.
///
/// # Errors
/// No memory to find out.
fn keeps_all_rules(
    alloc: Global,
    ctx: &Context<Kit>,
    root: Ptr<Operation>,
) -> Result<bool, AllocError>
    requires { IsSome (operation_at ctx.now.program root) }
    ensures { IfOk result (λ kept.
        IsTrue kept ↔ ((r : Rule) → IsFirstBreakIn (world_of ctx.now) ctx.now.program root r None)) }
{
    let keeps_local = keeps_local_rules(alloc, ctx, root)?;
    if !keeps_local {
        return Ok(false);
    }
    keeps_names(alloc, ctx, root)
}

/// Tests the rules one by one in the tree that the root stands for, in the order of their numbers, up to the first one
/// that is broken.
///
/// # Errors
/// The rule with the smallest number that is broken anywhere, at the first place where it is; `Memory` where there is
/// no memory to find out.
fn test_rules_in_order(
    alloc: Global,
    ctx: &Context<Kit>,
    root: Ptr<Operation>,
) -> Result<(), RuleFault>
    requires { IsSome (operation_at ctx.now.program root) }
    ensures { OfTree ctx.now.program root (λ t. IsVerdict (world_of ctx.now) t result) }
{
    for rule in RULES {
        match first_broken(alloc, ctx, root, rule)? {
            Some(place) => return Err(RuleFault::Broken(rule, place)),
            None => {}
        }
    }
    Ok(())
}

/// Tests all rules in the tree that the root stands for. A module is good where each operation in it keeps each rule.
/// Most modules are good, so whether this one is comes first, by few walks; only else the rules are tested one by one.
///
/// # Errors
/// The rule with the smallest number that is broken anywhere, at the first place where it is; `Memory` where there is
/// no memory to find out.
pub fn verify_module(
    alloc: Global,
    ctx: &Context<Kit>,
    root: Ptr<Operation>,
) -> Result<(), RuleFault>
    requires { IsSome (operation_at ctx.now.program root) }
    ensures { OfTree ctx.now.program root (λ t. IsVerdict (world_of ctx.now) t result) }
{
    let keeps_all = keeps_all_rules(alloc, ctx, root)?;
    if keeps_all {
        return Ok(());
    }
    test_rules_in_order(alloc, ctx, root)
}
