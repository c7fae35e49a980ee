//! Making the operations, blocks and regions of a text from the bottom up, and taking them out again.
//!
//! A block is made once its label and its arguments are known, and is open: it gets its operations one after the
//! other. An operation is made once its blocks are, and takes these into its regions; its operands and successors
//! come last, since a text may name a value or a block before it says what defines it.

mod appending;
mod coming;
mod discarding;
mod filling;
mod laws;
mod linking;
mod making;

pub use appending::append_operation;
pub use coming::know_came;
pub use discarding::discard;
pub use laws::{know_kept, know_later, know_loose_blocks, know_loose_operations, know_seen};
pub use linking::{link_operands, link_successors};
pub use making::{make_operation, open_block};
