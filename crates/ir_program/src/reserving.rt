//! Room for what comes, asked for ahead.
ghost use Rattle.std.specs.Prelude.{◌≡◌};

use crate::Program;
use std::alloc::AllocError;

/// How many operations, regions, blocks, values and places of values and blocks there is to be room for.
#[derive(Clone, Copy, Debug, PartialEq, Eq)]
pub struct Room {
    pub operations: usize,
    pub regions: usize,
    pub blocks: usize,
    /// Results of operations and arguments of blocks.
    pub values: usize,
    /// The places that name values.
    pub operands: usize,
    /// The places that name blocks.
    pub successors: usize,
}

impl<O, B> Program<O, B> {
    /// Makes room for so much more in the tables that all entities share, so that they do not grow while so much comes.
    /// What each operation and each block lists as its own, as its operands, still asks for memory.
    ///
    /// # Errors
    /// There may be no memory for so much, also where the sum with what is there is past a `usize`. Room that was made
    /// stays.
    pub fn reserve(&mut self, room: Room) -> Result<(), AllocError>
        ensures same { self.new ≡ self.old }
    {
        self.forest
            .reserve(room.operations, room.blocks, room.regions)?;
        self.values.reserve(room.values, room.operands)?;
        // Each block has a thread of the places that name it.
        self.targets.reserve(room.blocks, room.successors)
    }
}
