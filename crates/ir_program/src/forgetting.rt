//! Taking what stands inside an entity out of the uses of values and of blocks.
ghost use Rattle.ir_entities.specs.Forest.{HoldsInUse, shape_of};
ghost use Rattle.ir_program.specs.Erases.{MakeProgram, NoneNames, ForgetsInside, value_place, block_place};
ghost use Rattle.ir_program.specs.Forgets.{AreUnnamed, ForgetsThreads, threads_of, value_threads_in, block_threads_in};

use crate::records::RegionRecord;
use crate::{BasicBlock, BlockRecord, Definition, OperationRecord, Ptr, Value};
use ir_entities::{Forest, Place, Uses};

/// Takes the threads of definitions out of use.
fn forget_all(values: &mut Uses<Value>, definitions: &[Definition])
    requires { AreUnnamed values.old (threads_of definitions.now) }
    ensures { ForgetsThreads values.old values.new (threads_of definitions.now) }
{
    for definition in definitions {
        values.forget(definition.thread);
    }
}

/// Takes the threads of what stands at `place` out of use: those of an operation's results, or those
/// of a block and of its arguments.
fn forget_at<O, B>(
    forest: &Forest<OperationRecord<O>, BlockRecord<B>, RegionRecord>,
    values: &mut Uses<Value>,
    targets: &mut Uses<Ptr<BasicBlock>>,
    place: Place,
)
    requires used { HoldsInUse forest.now place }
    requires values { AreUnnamed values.old (value_threads_in forest.now place) }
    requires targets { AreUnnamed targets.old (block_threads_in forest.now place) }
    ensures values { ForgetsThreads values.old values.new (value_threads_in forest.now place) }
    ensures targets { ForgetsThreads targets.old targets.new (block_threads_in forest.now place) }
{
    match place {
        Place::Op(slot) => {
            let record = forest.op(forest.op_key(slot));
            forget_all(values, &record.results);
        }
        Place::Block(slot) => {
            let record = forest.block(forest.block_key(slot));
            forget_all(values, &record.arguments);
            targets.forget(record.thread);
        }
        Place::Region(_) => {}
    }
}

/// Takes the threads of all values and blocks that stand inside `x` out of use. No place names one of
/// them. No memory is asked for.
pub(crate) fn forget_inside<O, B>(
    forest: &Forest<OperationRecord<O>, BlockRecord<B>, RegionRecord>,
    values: &mut Uses<Value>,
    targets: &mut Uses<Ptr<BasicBlock>>,
    x: Place,
)
    requires used { HoldsInUse forest.now x }
    requires sound { MakeProgram forest.now values.old targets.old }
    requires values { NoneNames (shape_of forest.now) x value_place values.old }
    requires blocks { NoneNames (shape_of forest.now) x block_place targets.old }
    ensures values { ForgetsInside (shape_of forest.now) x value_place values.old values.new }
    ensures targets { ForgetsInside (shape_of forest.now) x block_place targets.old targets.new }
{
    forest.know_walk(x);
    let mut at = Some(x);
    'places: while let Some(place) = at {
        let next = forest.next_inside(x, place);
        forget_at(forest, values, targets, place);
        at = next;
    }
}
