//! The names that values and blocks were given.
ghost use Rattle.std.specs.Prelude.{◌≡◌, IsSome, map, option_map};
ghost use Rattle.ir_names.specs.Identifier.{text_of};
ghost use Rattle.ir_program.specs.Program.{IsLiveValue, block_at};
ghost use Rattle.ir_program.specs.Lists.{IsLiveNode};
ghost use Rattle.ir_program.specs.Erased.{definer_node};
ghost use Rattle.ir_queries.specs.Naming.{attributes_of, names_under, name_at, value as ValueName, block as BlockName, IsGivenName};

use crate::ValueUses;
use ir_context::{BlockCalls, Context, OperationCalls};
use ir_names::{AttributeDict, Identifier};
use ir_program::{BasicBlock, DefiningEntity, Ptr, Value};
use ir_types::DialectTables;

/// The attributes of the operation or block that defines values.
fn attributes_of<D: DialectTables>(ctx: &Context<D>, definer: DefiningEntity) -> &AttributeDict<D>
    requires { IsLiveNode ctx.now.program (definer_node definer) }
    ensures { result.now ≡ attributes_of ctx.now.program definer }
{
    match definer {
        DefiningEntity::Op(op) => &op.deref(ctx).attributes,
        DefiningEntity::Block(block) => &block.deref(ctx).attributes,
    }
}

/// The names that the attribute under the key for names holds; none where there is no such attribute.
fn names_under<D: DialectTables>(attributes: &AttributeDict<D>) -> &[Option<Identifier>]
    ensures { map (option_map text_of) result.now ≡ names_under D.names D.names_in attributes.now }
{
    match attributes.get(D::names_key()) {
        Some(attr) => match D::names_of(attr) {
            Some(names) => names,
            None => &[],
        },
        None => &[],
    }
}

/// The name at an index, if there is one.
fn name_at(names: &[Option<Identifier>], index: usize) -> Option<&Identifier>
    ensures { option_map (λ id. text_of id.now) result ≡ name_at (map (option_map text_of) names.now) index }
{
    match names.get(index) {
        Some(name) => name.as_ref(),
        None => None,
    }
}

/// The name that a value was given, if it was given one.
#[tactic(auto, using(crate::proofs::DefinerLemmas::definer_live))]
pub(crate) fn value_name<D: DialectTables>(ctx: &Context<D>, value: Value) -> Option<&Identifier>
    requires { IsLiveValue ctx.now.program value }
    ensures { IsGivenName D.names D.names_in ctx.now.program (ValueName value)
        (option_map (λ id. text_of id.now) result) }
{
    ctx.program().know_values();
    let index = value.find_index(ctx);
    name_at(names_under(attributes_of(ctx, value.definer())), index)
}

/// The name that a block was given, if it was given one: its label.
pub(crate) fn block_name<D: DialectTables>(
    ctx: &Context<D>,
    block: Ptr<BasicBlock>,
) -> Option<&Identifier>
    requires { IsSome (block_at ctx.now.program block) }
    ensures { IsGivenName D.names D.names_in ctx.now.program (BlockName block)
        (option_map (λ id. text_of id.now) result) }
{
    block.label(ctx)
}
