//! What blocks are shown by.
use crate::HasLabel;
use ir_context::Context;
use ir_program::{BasicBlock, Ptr};
use ir_queries::Named;
use ir_types::DialectTables;
use std::alloc::{AllocError, Global};

impl<D: DialectTables> HasLabel<Context<D>> for Ptr<BasicBlock> {
    ghost use Rattle.ir_queries.specs.Naming.{block as BlockName, IsLive, IsUnique};

    ghost has_label = { λ b c. IsLive c.program (BlockName b) };

    ghost is_label = { λ b c text. IsUnique D.names D.names_in c.program (BlockName b) text };

    /// Its unique name.
    ///
    /// # Errors
    /// There may be no memory.
    fn label(&self, alloc: Global, ctx: &Context<D>) -> Result<String, AllocError> {
        let name = self.unique_name(alloc, ctx)?;
        Ok(name.into_string())
    }
}
