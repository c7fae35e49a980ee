//! Other values in place of operands: at all uses of a value, at one, or at those that a predicate chooses.
ghost use Rattle.std.specs.Prelude.{◌≡◌, ◌≢◌, ◌+◌, ℕ, true, Bool, cond, OnOk, OnErr, IfOk};
ghost use Rattle.ir_entities.specs.Links.{has};
ghost use Rattle.ir_entities.specs.Uses.{key_of, place_of, naming, IsDefined, IsPlace, NamesDefinition};
ghost use Rattle.ir_program.specs.Program.{IsLiveValue};
ghost use Rattle.ir_program.specs.Rows.{operands_at};
ghost use Rattle.ir_program.specs.Spots.{operand_use};
ghost use Rattle.ir_program.specs.Uses.{IsUse, IsUsed, IsUseCount};
ghost use Rattle.ir_program.specs.Edits.{IsUnchanged, KeepsValues};
ghost use Rattle.ir_program.specs.Replacing.{MayAnswerOfUse, Chooses};
ghost use Rattle.ir_program.specs.declared.handles.Use.{Use};
ghost use Rattle.ir_program.specs.declared.handles.Value.{Value};
ghost use Rattle.ir_program.specs.RowEdits.{ReplacesOperand};
ghost use Rattle.ir_program.specs.UseEdits.{ReplacesValue, ReplacesChosen};

use crate::program::Program;
use crate::{Use, Value};
use ir_entities::Uses;
use std::alloc::{AllocError, Global};

impl<O, B> Program<O, B> {
    /// Puts another value in place of each operand that is the value. No memory is asked for.
    pub fn replace_all_uses(&mut self, value: Value, other: Value)
        requires value { IsLiveValue self.old value }
        requires other { IsLiveValue self.old other }
        ensures replaced { ReplacesValue self.old self.new value other }
        ensures unused { value ≢ other → IsUsed self.new value → ⊥ }
        ensures count { value ≢ other → (m n : ℕ) → IsUseCount self.old value m → IsUseCount self.old other n
            → IsUseCount self.new other (m + n) }
        ensures values { KeepsValues self.old self.new }
    {
        self.values.know_named();
        let from = self.thread(value);
        let to = self.thread(other);
        self.values.replace_all(from, to);
    }

    /// Puts another value in place of the operand at one use. No memory is asked for.
    pub fn replace_use(&mut self, place: Use<Value>, other: Value)
        requires place { IsUse self.old place }
        requires other { IsLiveValue self.old other }
        ensures replaced { ReplacesOperand self.old self.new place.user_op place.index other }
        ensures values { KeepsValues self.old self.new }
    {
        self.replace_operand(place.user_op, place.index, other);
    }

    /// Puts another value in place of the operands that are the value, at those of its uses for which
    /// the predicate answers true. It is asked once about each use, before anything is changed.
    ///
    /// # Errors
    /// Without memory nothing is changed.
    pub fn replace_some_uses<F: Fn(&Program<O, B>, &Use<Value>) -> bool>(
        &mut self,
        alloc: Global,
        value: Value,
        other: Value,
        predicate: F,
    ) -> Result<(), AllocError>
        requires value { IsLiveValue self.old value }
        requires other { IsLiveValue self.old other }
        requires callable { F.IsAlwaysCallable predicate }
        ensures replaced { OnOk result ((chosen : Use Value → Bool)
            × Chooses (operands_at self.old) (MayAnswerOfUse F.Fn predicate self.old) value chosen
            × ReplacesChosen self.old self.new chosen other) }
        ensures err { OnErr result (IsUnchanged self.old self.new) }
        ensures values { KeepsValues self.old self.new }
    {
        self.values.know_named();
        let from = self.thread(value);
        let to = self.thread(other);
        let chosen = self.choose_operands(alloc, from, &predicate)?;
        rename_each(&mut self.values, &chosen, to);
        Ok(())
    }

    /// The places of operands in a thread for which the predicate answers true.
    fn choose_operands<F: Fn(&Program<O, B>, &Use<Value>) -> bool>(
        &self,
        alloc: Global,
        thread: usize,
        predicate: &F,
    ) -> Result<Vec<usize>, AllocError>
        requires thread { IsDefined self.now.values thread }
        requires callable { F.IsAlwaysCallable predicate.now }
        ensures among { IfOk result (λ qs. (q : ℕ) → has q qs.items ≡ true → NamesDefinition self.now.values q thread) }
        ensures answered { IfOk result (λ qs. (q : ℕ) → NamesDefinition self.now.values q thread
            → MayAnswerOfUse F.Fn predicate.now self.now (operand_use self.now q) (has q qs.items)) }
    {
        let mut chosen = Vec::new(alloc);
        for place in self.values.iter(thread) {
            if self.chooses_operand(place, predicate) {
                chosen.push(place)?;
            }
        }
        Ok(chosen)
    }

    /// What the predicate answers about the use at a place of operands.
    fn chooses_operand<F: Fn(&Program<O, B>, &Use<Value>) -> bool>(
        &self,
        place: usize,
        predicate: &F,
    ) -> bool
        requires place { IsPlace self.now.values place }
        requires callable { F.IsAlwaysCallable predicate.now }
        ensures { MayAnswerOfUse F.Fn predicate.now self.now (operand_use self.now place) result }
    {
        predicate(self, &self.operand_use(place))
    }
}

/// Makes each of these places name the definition.
pub(crate) fn rename_each<K: Copy>(uses: &mut Uses<K>, places: &[usize], definition: usize)
    requires places { (q : ℕ) → has q places.now ≡ true → IsPlace uses.old q }
    requires definition { IsDefined uses.old definition }
    ensures renamed { (q : ℕ)
        → place_of uses.new q ≡ cond (has q places.now) (naming definition (place_of uses.old q))
        (place_of uses.old q) }
    ensures definitions { uses.new.definitions ≡ uses.old.definitions }
{
    for place in places {
        uses.rename(*place, definition);
    }
}
