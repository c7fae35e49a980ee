//! Other blocks in place of successors: at all edges to a block, at one, or at those that a predicate chooses.
ghost use Rattle.std.specs.Prelude.{◌≡◌, ◌≢◌, ◌+◌, ℕ, true, Bool, IsSome, OnOk, OnErr, IfOk};
ghost use Rattle.ir_entities.specs.Links.{has};
ghost use Rattle.ir_entities.specs.Uses.{IsDefined, IsPlace, NamesDefinition};
ghost use Rattle.ir_program.specs.Program.{block_at};
ghost use Rattle.ir_program.specs.Rows.{successors_at};
ghost use Rattle.ir_program.specs.Spots.{successor_use};
ghost use Rattle.ir_program.specs.Uses.{IsBlockUse, HasPredecessor, IsPredecessorCount};
ghost use Rattle.ir_program.specs.Edits.{IsUnchanged, KeepsValues};
ghost use Rattle.ir_program.specs.Replacing.{MayAnswerOfUse, Chooses};
ghost use Rattle.ir_program.specs.declared.handles.Ptr.{Ptr};
ghost use Rattle.ir_program.specs.declared.handles.BasicBlock.{BasicBlock};
ghost use Rattle.ir_program.specs.declared.handles.Use.{Use};
ghost use Rattle.ir_program.specs.RowEdits.{ReplacesSuccessor};
ghost use Rattle.ir_program.specs.UseEdits.{RetargetsBlock, RetargetsChosen};

use crate::program::Program;
use crate::replacing::rename_each;
use crate::{BasicBlock, Ptr, Use};
use std::alloc::{AllocError, Global};

impl<O, B> Program<O, B> {
    /// Makes each edge to a block lead to another. No memory is asked for.
    pub fn retarget_all(&mut self, block: Ptr<BasicBlock>, other: Ptr<BasicBlock>)
        requires block { IsSome (block_at self.old block) }
        requires other { IsSome (block_at self.old other) }
        ensures retargeted { RetargetsBlock self.old self.new block other }
        ensures unused { block ≢ other → HasPredecessor self.new block → ⊥ }
        ensures count { block ≢ other → (m n : ℕ) → IsPredecessorCount self.old block m
            → IsPredecessorCount self.old other n → IsPredecessorCount self.new other (m + n) }
        ensures values { KeepsValues self.old self.new }
    {
        self.targets.know_named();
        let from = self.edge_thread(block);
        let to = self.edge_thread(other);
        self.targets.replace_all(from, to);
    }

    /// Makes one edge lead to another block. No memory is asked for.
    pub fn retarget(&mut self, place: Use<Ptr<BasicBlock>>, other: Ptr<BasicBlock>)
        requires place { IsBlockUse self.old place }
        requires other { IsSome (block_at self.old other) }
        ensures retargeted { ReplacesSuccessor self.old self.new place.user_op place.index other }
        ensures values { KeepsValues self.old self.new }
    {
        let thread = self.edge_thread(other);
        let target = self.forest.op(place.user_op.key).successors[place.index];
        self.targets.rename(target, thread);
    }

    /// Makes the edges to a block lead to another, those for which the predicate answers true. It is
    /// asked once about each edge, before anything is changed.
    ///
    /// # Errors
    /// Without memory nothing is changed.
    pub fn retarget_some<F: Fn(&Program<O, B>, &Use<Ptr<BasicBlock>>) -> bool>(
        &mut self,
        alloc: Global,
        block: Ptr<BasicBlock>,
        other: Ptr<BasicBlock>,
        predicate: F,
    ) -> Result<(), AllocError>
        requires block { IsSome (block_at self.old block) }
        requires other { IsSome (block_at self.old other) }
        requires callable { F.IsAlwaysCallable predicate }
        ensures retargeted { OnOk result ((chosen : Use (Ptr BasicBlock) → Bool)
            × Chooses (successors_at self.old) (MayAnswerOfUse F.Fn predicate self.old) block chosen
            × RetargetsChosen self.old self.new chosen other) }
        ensures err { OnErr result (IsUnchanged self.old self.new) }
        ensures values { KeepsValues self.old self.new }
    {
        self.targets.know_named();
        let from = self.edge_thread(block);
        let to = self.edge_thread(other);
        let chosen = self.choose_successors(alloc, from, &predicate)?;
        rename_each(&mut self.targets, &chosen, to);
        Ok(())
    }

    /// The places of successors in a thread for which the predicate answers true.
    fn choose_successors<F: Fn(&Program<O, B>, &Use<Ptr<BasicBlock>>) -> bool>(
        &self,
        alloc: Global,
        thread: usize,
        predicate: &F,
    ) -> Result<Vec<usize>, AllocError>
        requires thread { IsDefined self.now.targets thread }
        requires callable { F.IsAlwaysCallable predicate.now }
        ensures among { IfOk result (λ qs. (q : ℕ) → has q qs.items ≡ true
            → NamesDefinition self.now.targets q thread) }
        ensures answered { IfOk result (λ qs. (q : ℕ) → NamesDefinition self.now.targets q thread
            → MayAnswerOfUse F.Fn predicate.now self.now (successor_use self.now q) (has q qs.items)) }
    {
        let mut chosen = Vec::new(alloc);
        for place in self.targets.iter(thread) {
            if self.chooses_successor(place, predicate) {
                chosen.push(place)?;
            }
        }
        Ok(chosen)
    }

    /// What the predicate answers about the edge at a place of successors.
    fn chooses_successor<F: Fn(&Program<O, B>, &Use<Ptr<BasicBlock>>) -> bool>(
        &self,
        place: usize,
        predicate: &F,
    ) -> bool
        requires place { IsPlace self.now.targets place }
        requires callable { F.IsAlwaysCallable predicate.now }
        ensures { MayAnswerOfUse F.Fn predicate.now self.now (successor_use self.now place) result }
    {
        predicate(self, &self.successor_use(place))
    }
}
