//! What a program keeps of an operation and of a block, besides what stands where.
ghost use Rattle.std.specs.Prelude.{◌≡◌};

use ir_base::TypeHandle;
use smallvec::SmallVec;

/// A result or an argument: its number at its definer, its type, and the number of its thread among
/// the uses of values.
#[derive(Clone, Copy, Debug, PartialEq, Eq)]
pub struct Definition {
    pub(crate) number: u64,
    pub(crate) ty: TypeHandle,
    pub(crate) thread: usize,
}

// What stands where a record has room for a definition and no definition.
impl Default for Definition {
    fn default() -> Definition {
        Definition {
            number: 0,
            ty: TypeHandle::new(0),
            thread: 0,
        }
    }
}

/// An operation: its payload, its results, and the places of its operands and of its successors among
/// the uses. Most operations have one result and two operands at most, which stand in the record itself.
#[derive(Drop)]
pub struct OperationRecord<O> {
    pub(crate) payload: O,
    pub(crate) results: SmallVec<Definition, 1>,
    pub(crate) operands: SmallVec<usize, 2>,
    pub(crate) successors: SmallVec<usize, 2>,
}

/// A block: its payload, its arguments, and the number of its thread among the uses of blocks.
#[derive(Drop)]
pub struct BlockRecord<B> {
    pub(crate) payload: B,
    pub(crate) arguments: SmallVec<Definition, 1>,
    pub(crate) thread: usize,
}

/// A region, which keeps nothing but the blocks that stand in it.
#[derive(Drop)]
pub struct RegionRecord;
