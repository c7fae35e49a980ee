//! Whether all that use what stands inside an entity stand in it too.
ghost use Rattle.std.specs.Prelude.{◌≡◌, ◌↔◌, ℕ, true, IsTrue};
ghost use Rattle.ir_entities.specs.Forest.{HoldsInUse, shape_of};
ghost use Rattle.ir_entities.specs.Links.{has};
ghost use Rattle.ir_entities.specs.Shape.{IsInside};
ghost use Rattle.ir_entities.specs.Uses.{IsDefined};
ghost use Rattle.ir_entities.specs.declared.forest.Place.{Place};
ghost use Rattle.ir_program.specs.Erases.{MakeProgram};
ghost use Rattle.ir_program.specs.Forgets.{threads_of};
ghost use Rattle.ir_program.specs.UsersInside.{AreUsersInside, HaveUsers, IsApartAt};

use crate::records::RegionRecord;
use crate::{BasicBlock, BlockRecord, Definition, OperationRecord, Ptr, Value};
use ir_entities::{Forest, Place, Uses};

/// Whether each place that names a definition belongs to an operation inside `x`.
fn users_inside<O, B, K: Copy>(
    forest: &Forest<OperationRecord<O>, BlockRecord<B>, RegionRecord>,
    uses: &Uses<K>,
    thread: usize,
    x: Place,
) -> bool
    requires defined { IsDefined uses.now thread }
    requires users { HaveUsers forest.now uses.now }
    ensures { IsTrue result ↔ AreUsersInside (shape_of forest.now) x uses.now thread }
{
    for place in uses.iter(thread) {
        let spot = uses.spot(place);
        if !forest.is_inside(x, Place::Op(spot.user)) {
            return false;
        }
    }
    true
}

/// Whether each place that names one of these values belongs to an operation inside `x`.
fn all_users_inside<O, B>(
    forest: &Forest<OperationRecord<O>, BlockRecord<B>, RegionRecord>,
    values: &Uses<Value>,
    definitions: &[Definition],
    x: Place,
) -> bool
    requires defined { (t : ℕ) → has t (threads_of definitions.now) ≡ true → IsDefined values.now t }
    requires users { HaveUsers forest.now values.now }
    ensures { IsTrue result ↔ ((t : ℕ) → has t (threads_of definitions.now) ≡ true
        → AreUsersInside (shape_of forest.now) x values.now t) }
{
    for definition in definitions {
        if !users_inside(forest, values, definition.thread, x) {
            return false;
        }
    }
    true
}

/// Whether those that use what stands at `place` are inside `x`: the results of an operation, or a block
/// and its arguments.
fn is_apart_at<O, B>(
    forest: &Forest<OperationRecord<O>, BlockRecord<B>, RegionRecord>,
    values: &Uses<Value>,
    targets: &Uses<Ptr<BasicBlock>>,
    x: Place,
    place: Place,
) -> bool
    requires used { HoldsInUse forest.now place }
    requires sound { MakeProgram forest.now values.now targets.now }
    ensures { IsTrue result ↔ IsApartAt forest.now values.now targets.now x place }
{
    match place {
        Place::Op(slot) => {
            let record = forest.op(forest.op_key(slot));
            all_users_inside(forest, values, &record.results, x)
        }
        Place::Block(slot) => {
            let record = forest.block(forest.block_key(slot));
            users_inside(forest, targets, record.thread, x)
                && all_users_inside(forest, values, &record.arguments, x)
        }
        Place::Region(_) => true,
    }
}

/// Whether those that use what stands inside `x` are inside it too. No memory is asked for.
pub(crate) fn is_apart<O, B>(
    forest: &Forest<OperationRecord<O>, BlockRecord<B>, RegionRecord>,
    values: &Uses<Value>,
    targets: &Uses<Ptr<BasicBlock>>,
    x: Place,
) -> bool
    requires used { HoldsInUse forest.now x }
    requires sound { MakeProgram forest.now values.now targets.now }
    ensures { IsTrue result ↔ ((at : Place) → IsInside (shape_of forest.now) x at
        → IsApartAt forest.now values.now targets.now x at) }
{
    forest.know_walk(x);
    let mut at = Some(x);
    'places: while let Some(place) = at {
        if !is_apart_at(forest, values, targets, x, place) {
            return false;
        }
        at = forest.next_inside(x, place);
    }
    true
}
