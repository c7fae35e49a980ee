//! Operations, regions, blocks and values, whatever payload operations and blocks carry: what stands
//! where, and which places name which values and blocks. It knows no dialect.
#![tactic(auto)]

mod adding;
mod arguments;
mod building;
mod climbing;
mod definitions;
mod dropping;
mod edges;
mod erasing;
mod forgetting;
mod handles;
mod laws;
mod listing;
mod making;
mod moving;
mod operands;
mod payloads;
mod program;
mod reading;
mod records;
mod replacing;
mod reserving;
mod results;
mod retargeting;
mod some_uses;
mod successors;
mod users;
mod uses;
mod values;
mod walking;

pub use climbing::NodesAround;
pub use edges::BlockUses;
pub use handles::{BasicBlock, DefiningEntity, IRNode, Operation, Ptr, Region, Use, Value};
pub use listing::{Blocks, Operations, Regions};
pub use program::Program;
pub use records::{BlockRecord, Definition, OperationRecord};
pub use reserving::Room;
pub use uses::ValueUses;
pub use walking::NodesInside;
