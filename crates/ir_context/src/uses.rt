//! Where values and blocks are used, and others in their place.
ghost use Rattle.std.specs.Prelude.{◌≡◌, ◌≢◌, ◌↔◌, ◌+◌, ℕ, Bool, IfOk, OnOk, OnErr, IsOk, IsSome, IsTrue, length};
ghost use Rattle.ir_program.specs.Program.{block_at, IsLiveValue};
ghost use Rattle.ir_program.specs.Uses.{IsUse, IsUsed, IsUseCount, IsBlockUse, HasPredecessor, IsPredecessorCount};
ghost use Rattle.ir_program.specs.Order.{edges_listed, uses_listed};
ghost use Rattle.ir_program.specs.Edits.{KeepsValues};
ghost use Rattle.ir_program.specs.Replacing.{Chooses};
ghost use Rattle.ir_program.specs.Among.{is_among};
ghost use Rattle.ir_program.specs.Rows.{operands_at, successors_at};
ghost use Rattle.ir_context.specs.Chosen.{AreUsesNaming, MaySay};
ghost use Rattle.ir_program.specs.declared.handles.Ptr.{Ptr};
ghost use Rattle.ir_program.specs.declared.handles.BasicBlock.{BasicBlock};
ghost use Rattle.ir_program.specs.declared.handles.Value.{Value};
ghost use Rattle.ir_program.specs.declared.handles.Use.{Use};
ghost use Rattle.ir_program.specs.RowEdits.{ReplacesOperand, ReplacesSuccessor};
ghost use Rattle.ir_program.specs.UseEdits.{ReplacesValue, ReplacesChosen, RetargetsBlock, RetargetsChosen};

use crate::{TypeTable, TypedProgram};
use ir_program::{BasicBlock, Program, Ptr, Use, Value};
use std::alloc::{AllocError, Global};

/// The uses of a value: the operands that are the value.
pub trait UseCalls {
    /// The value.
    ghost used: { Self → Value };

    /// How many operands are the value. An operation that takes it twice counts twice.
    fn num_uses<O, B, T: TypeTable>(self, ctx: &TypedProgram<O, B, T>) -> usize
        requires { IsLiveValue ctx.now.program (used self) }
        ensures count { IsUseCount ctx.now.program (used self) result }
        ensures only { (n : ℕ) → IsUseCount ctx.now.program (used self) n → n ≡ result }
        ensures listed { result ≡ length (uses_listed ctx.now.program (used self)) };

    /// Whether some operation takes the value.
    fn is_used<O, B, T: TypeTable>(self, ctx: &TypedProgram<O, B, T>) -> bool
        requires { IsLiveValue ctx.now.program (used self) }
        ensures { IsTrue result ↔ IsUsed ctx.now.program (used self) };

    /// Makes room for so many more uses of the value: the next `n` that replacing puts on it ask for no memory. No use ever
    /// does, since each operand holds its own place among the uses, so this does nothing.
    fn reserve_uses<O, B, T: TypeTable>(
        self,
        _alloc: Global,
        _ctx: &mut TypedProgram<O, B, T>,
        _n: usize,
    ) -> Result<(), AllocError>
        ensures succeeds { IsOk result }
        ensures same { _ctx.new ≡ _ctx.old };

    /// Puts another value in place of each operand that is the value. The parameter stays for callers that allocate; no
    /// memory is asked for.
    fn replace_all_uses_with<O, B, T: TypeTable>(
        self,
        _alloc: Global,
        ctx: &mut TypedProgram<O, B, T>,
        other: Value,
    ) -> Result<(), AllocError>
        requires value { IsLiveValue ctx.old.program (used self) }
        requires other { IsLiveValue ctx.old.program other }
        ensures succeeds { IsOk result }
        ensures replaced { ReplacesValue ctx.old.program ctx.new.program (used self) other }
        ensures unused { used self ≢ other → IsUsed ctx.new.program (used self) → ⊥ }
        ensures count { used self ≢ other → (m n : ℕ) → IsUseCount ctx.old.program (used self) m
            → IsUseCount ctx.old.program other n → IsUseCount ctx.new.program other (m + n) }
        ensures values { KeepsValues ctx.old.program ctx.new.program }
        ensures types { ctx.new.types ≡ ctx.old.types };

    /// Puts another value in place of the operand at one use of the value. The parameter stays for callers that allocate;
    /// no memory is asked for.
    fn replace_use_with<O, B, T: TypeTable>(
        self,
        _alloc: Global,
        ctx: &mut TypedProgram<O, B, T>,
        place: Use<Value>,
        other: Value,
    ) -> Result<(), AllocError>
        requires place { IsUse ctx.old.program place }
        requires names { place.def ≡ used self }
        requires other { IsLiveValue ctx.old.program other }
        ensures succeeds { IsOk result }
        ensures replaced { ReplacesOperand ctx.old.program ctx.new.program place.user_op place.index other }
        ensures values { KeepsValues ctx.old.program ctx.new.program }
        ensures types { ctx.new.types ≡ ctx.old.types };

    /// Puts another value in place of the value at those of its uses for which the predicate answers true. It is asked once
    /// about each use, before any is changed. One that looks at the context is for `chosen_uses` and `replace_uses_with`.
    ///
    /// # Errors
    /// Without memory. Nothing is changed then.
    fn replace_some_uses_with<O, B, T: TypeTable, F: Fn(&Use<Value>) -> bool>(
        self,
        alloc: Global,
        ctx: &mut TypedProgram<O, B, T>,
        predicate: F,
        other: Value,
    ) -> Result<(), AllocError>
        requires value { IsLiveValue ctx.old.program (used self) }
        requires other { IsLiveValue ctx.old.program other }
        requires callable { F.IsAlwaysCallable predicate }
        ensures replaced { OnOk result ((chosen : Use Value → Bool)
            × Chooses (operands_at ctx.old.program) (MaySay F.Fn predicate) (used self) chosen
            × ReplacesChosen ctx.old.program ctx.new.program chosen other) }
        ensures err { OnErr result (ctx.new ≡ ctx.old) }
        ensures values { KeepsValues ctx.old.program ctx.new.program }
        ensures types { ctx.new.types ≡ ctx.old.types };

    /// Its uses for which the predicate answers true. It is asked once about each use, and may look at the context.
    ///
    /// # Errors
    /// Without memory.
    fn chosen_uses<O, B, T: TypeTable, F: Fn(&Use<Value>) -> bool>(
        self,
        alloc: Global,
        ctx: &TypedProgram<O, B, T>,
        predicate: F,
    ) -> Result<Vec<Use<Value>>, AllocError>
        requires live { IsLiveValue ctx.now.program (used self) }
        requires callable { F.IsAlwaysCallable predicate }
        ensures stand { IfOk result (λ places. AreUsesNaming (operands_at ctx.now.program) (used self) places.items) }
        ensures chosen { IfOk result (λ places. Chooses (operands_at ctx.now.program) (MaySay F.Fn predicate)
            (used self) (is_among places.items)) };

    /// Puts another value in place of the operand at each of these uses of the value. The parameter stays for callers that
    /// allocate; no memory is asked for.
    fn replace_uses_with<O, B, T: TypeTable>(
        self,
        _alloc: Global,
        ctx: &mut TypedProgram<O, B, T>,
        places: &[Use<Value>],
        other: Value,
    ) -> Result<(), AllocError>
        requires stand { AreUsesNaming (operands_at ctx.old.program) (used self) places.now }
        requires other { IsLiveValue ctx.old.program other }
        ensures succeeds { IsOk result }
        ensures replaced { ReplacesChosen ctx.old.program ctx.new.program (is_among places.now) other }
        ensures values { KeepsValues ctx.old.program ctx.new.program }
        ensures types { ctx.new.types ≡ ctx.old.types };
}

impl UseCalls for Value {
    ghost used = { λ v. v };

    fn num_uses<O, B, T: TypeTable>(self, ctx: &TypedProgram<O, B, T>) -> usize {
        ctx.program.use_count(self)
    }

    fn is_used<O, B, T: TypeTable>(self, ctx: &TypedProgram<O, B, T>) -> bool {
        ctx.program.is_used(self)
    }

    fn reserve_uses<O, B, T: TypeTable>(
        self,
        _alloc: Global,
        _ctx: &mut TypedProgram<O, B, T>,
        _n: usize,
    ) -> Result<(), AllocError> {
        Ok(())
    }

    fn replace_all_uses_with<O, B, T: TypeTable>(
        self,
        _alloc: Global,
        ctx: &mut TypedProgram<O, B, T>,
        other: Value,
    ) -> Result<(), AllocError> {
        ctx.program.replace_all_uses(self, other);
        Ok(())
    }

    fn replace_use_with<O, B, T: TypeTable>(
        self,
        _alloc: Global,
        ctx: &mut TypedProgram<O, B, T>,
        place: Use<Value>,
        other: Value,
    ) -> Result<(), AllocError> {
        ctx.program.replace_use(place, other);
        Ok(())
    }

    fn replace_some_uses_with<O, B, T: TypeTable, F: Fn(&Use<Value>) -> bool>(
        self,
        alloc: Global,
        ctx: &mut TypedProgram<O, B, T>,
        predicate: F,
        other: Value,
    ) -> Result<(), AllocError> {
        let chosen = choose_uses(&ctx.program, alloc, self, &predicate)?;
        ctx.program.replace_uses(&chosen, other);
        Ok(())
    }

    fn chosen_uses<O, B, T: TypeTable, F: Fn(&Use<Value>) -> bool>(
        self,
        alloc: Global,
        ctx: &TypedProgram<O, B, T>,
        predicate: F,
    ) -> Result<Vec<Use<Value>>, AllocError> {
        choose_uses(&ctx.program, alloc, self, &predicate)
    }

    fn replace_uses_with<O, B, T: TypeTable>(
        self,
        _alloc: Global,
        ctx: &mut TypedProgram<O, B, T>,
        places: &[Use<Value>],
        other: Value,
    ) -> Result<(), AllocError> {
        ctx.program.replace_uses(places, other);
        Ok(())
    }
}

/// The uses of a value for which the predicate answers true. It is asked once about each.
fn choose_uses<O, B, F: Fn(&Use<Value>) -> bool>(
    program: &Program<O, B>,
    alloc: Global,
    used: Value,
    predicate: &F,
) -> Result<Vec<Use<Value>>, AllocError>
    requires used { IsLiveValue program.now used }
    requires callable { F.IsAlwaysCallable predicate.now }
    ensures stand { IfOk result (λ places. AreUsesNaming (operands_at program.now) used places.items) }
    ensures chosen { IfOk result (λ places. Chooses (operands_at program.now) (MaySay F.Fn predicate.now) used
        (is_among places.items)) }
{
    let mut chosen = Vec::new(alloc);
    for place in program.uses_of(used) {
        if predicate(&place) {
            chosen.push(place)?;
        }
    }
    Ok(chosen)
}

/// The edges that lead to a block: the successors that are the block.
pub trait PredecessorCalls {
    /// The handle of the block.
    ghost target: { Self → Ptr BasicBlock };

    /// How many edges lead to the block. An operation with two of them counts twice.
    fn num_preds<O, B, T: TypeTable>(self, ctx: &TypedProgram<O, B, T>) -> usize
        requires { IsSome (block_at ctx.now.program (target self)) }
        ensures count { IsPredecessorCount ctx.now.program (target self) result }
        ensures only { (n : ℕ) → IsPredecessorCount ctx.now.program (target self) n → n ≡ result }
        ensures listed { result ≡ length (edges_listed ctx.now.program (target self)) };

    /// Whether an edge leads to the block.
    fn has_pred<O, B, T: TypeTable>(self, ctx: &TypedProgram<O, B, T>) -> bool
        requires { IsSome (block_at ctx.now.program (target self)) }
        ensures { IsTrue result ↔ HasPredecessor ctx.now.program (target self) };

    /// Makes each edge to the block lead to another. The parameter stays for callers that allocate; no memory is asked
    /// for.
    fn retarget_all_preds_to<O, B, T: TypeTable>(
        self,
        _alloc: Global,
        ctx: &mut TypedProgram<O, B, T>,
        other: Ptr<BasicBlock>,
    ) -> Result<(), AllocError>
        requires block { IsSome (block_at ctx.old.program (target self)) }
        requires other { IsSome (block_at ctx.old.program other) }
        ensures succeeds { IsOk result }
        ensures retargeted { RetargetsBlock ctx.old.program ctx.new.program (target self) other }
        ensures unused { target self ≢ other → HasPredecessor ctx.new.program (target self) → ⊥ }
        ensures count { target self ≢ other → (m n : ℕ) → IsPredecessorCount ctx.old.program (target self) m
            → IsPredecessorCount ctx.old.program other n → IsPredecessorCount ctx.new.program other (m + n) }
        ensures values { KeepsValues ctx.old.program ctx.new.program }
        ensures types { ctx.new.types ≡ ctx.old.types };

    /// Makes one edge to the block lead to another. The parameter stays for callers that allocate; no memory is asked for.
    fn retarget_pred_to<O, B, T: TypeTable>(
        self,
        _alloc: Global,
        ctx: &mut TypedProgram<O, B, T>,
        place: Use<Ptr<BasicBlock>>,
        other: Ptr<BasicBlock>,
    ) -> Result<(), AllocError>
        requires place { IsBlockUse ctx.old.program place }
        requires names { place.def ≡ target self }
        requires other { IsSome (block_at ctx.old.program other) }
        ensures succeeds { IsOk result }
        ensures retargeted { ReplacesSuccessor ctx.old.program ctx.new.program place.user_op place.index other }
        ensures values { KeepsValues ctx.old.program ctx.new.program }
        ensures types { ctx.new.types ≡ ctx.old.types };

    /// Makes those edges to the block lead to another for which the predicate answers true. It is asked once about each
    /// edge, before any is changed. One that looks at the context is for `chosen_preds` and `retarget_preds_to`.
    ///
    /// # Errors
    /// Without memory. Nothing is changed then.
    fn retarget_some_preds_to<O, B, T: TypeTable, F: Fn(&Use<Ptr<BasicBlock>>) -> bool>(
        self,
        alloc: Global,
        ctx: &mut TypedProgram<O, B, T>,
        predicate: F,
        other: Ptr<BasicBlock>,
    ) -> Result<(), AllocError>
        requires block { IsSome (block_at ctx.old.program (target self)) }
        requires other { IsSome (block_at ctx.old.program other) }
        requires callable { F.IsAlwaysCallable predicate }
        ensures retargeted { OnOk result ((chosen : Use (Ptr BasicBlock) → Bool)
            × Chooses (successors_at ctx.old.program) (MaySay F.Fn predicate) (target self) chosen
            × RetargetsChosen ctx.old.program ctx.new.program chosen other) }
        ensures err { OnErr result (ctx.new ≡ ctx.old) }
        ensures values { KeepsValues ctx.old.program ctx.new.program }
        ensures types { ctx.new.types ≡ ctx.old.types };

    /// The edges to the block for which the predicate answers true. It is asked once about each edge, and may look at the
    /// context.
    ///
    /// # Errors
    /// Without memory.
    fn chosen_preds<O, B, T: TypeTable, F: Fn(&Use<Ptr<BasicBlock>>) -> bool>(
        self,
        alloc: Global,
        ctx: &TypedProgram<O, B, T>,
        predicate: F,
    ) -> Result<Vec<Use<Ptr<BasicBlock>>>, AllocError>
        requires live { IsSome (block_at ctx.now.program (target self)) }
        requires callable { F.IsAlwaysCallable predicate }
        ensures stand { IfOk result (λ places. AreUsesNaming (successors_at ctx.now.program)
            (target self) places.items) }
        ensures chosen { IfOk result (λ places. Chooses (successors_at ctx.now.program) (MaySay F.Fn predicate)
            (target self) (is_among places.items)) };

    /// Makes each of these edges to the block lead to another. The parameter stays for callers that allocate; no memory is
    /// asked for.
    fn retarget_preds_to<O, B, T: TypeTable>(
        self,
        _alloc: Global,
        ctx: &mut TypedProgram<O, B, T>,
        places: &[Use<Ptr<BasicBlock>>],
        other: Ptr<BasicBlock>,
    ) -> Result<(), AllocError>
        requires stand { AreUsesNaming (successors_at ctx.old.program) (target self) places.now }
        requires other { IsSome (block_at ctx.old.program other) }
        ensures succeeds { IsOk result }
        ensures retargeted { RetargetsChosen ctx.old.program ctx.new.program (is_among places.now) other }
        ensures values { KeepsValues ctx.old.program ctx.new.program }
        ensures types { ctx.new.types ≡ ctx.old.types };
}

impl PredecessorCalls for Ptr<BasicBlock> {
    ghost target = { λ p. p };

    fn num_preds<O, B, T: TypeTable>(self, ctx: &TypedProgram<O, B, T>) -> usize {
        ctx.program.predecessor_count(self)
    }

    fn has_pred<O, B, T: TypeTable>(self, ctx: &TypedProgram<O, B, T>) -> bool {
        ctx.program.has_predecessor(self)
    }

    fn retarget_all_preds_to<O, B, T: TypeTable>(
        self,
        _alloc: Global,
        ctx: &mut TypedProgram<O, B, T>,
        other: Ptr<BasicBlock>,
    ) -> Result<(), AllocError> {
        ctx.program.retarget_all(self, other);
        Ok(())
    }

    fn retarget_pred_to<O, B, T: TypeTable>(
        self,
        _alloc: Global,
        ctx: &mut TypedProgram<O, B, T>,
        place: Use<Ptr<BasicBlock>>,
        other: Ptr<BasicBlock>,
    ) -> Result<(), AllocError> {
        ctx.program.retarget(place, other);
        Ok(())
    }

    fn retarget_some_preds_to<O, B, T: TypeTable, F: Fn(&Use<Ptr<BasicBlock>>) -> bool>(
        self,
        alloc: Global,
        ctx: &mut TypedProgram<O, B, T>,
        predicate: F,
        other: Ptr<BasicBlock>,
    ) -> Result<(), AllocError> {
        let chosen = choose_edges(&ctx.program, alloc, self, &predicate)?;
        ctx.program.retarget_uses(&chosen, other);
        Ok(())
    }

    fn chosen_preds<O, B, T: TypeTable, F: Fn(&Use<Ptr<BasicBlock>>) -> bool>(
        self,
        alloc: Global,
        ctx: &TypedProgram<O, B, T>,
        predicate: F,
    ) -> Result<Vec<Use<Ptr<BasicBlock>>>, AllocError> {
        choose_edges(&ctx.program, alloc, self, &predicate)
    }

    fn retarget_preds_to<O, B, T: TypeTable>(
        self,
        _alloc: Global,
        ctx: &mut TypedProgram<O, B, T>,
        places: &[Use<Ptr<BasicBlock>>],
        other: Ptr<BasicBlock>,
    ) -> Result<(), AllocError> {
        ctx.program.retarget_uses(places, other);
        Ok(())
    }
}

/// The edges to a block for which the predicate answers true. It is asked once about each.
fn choose_edges<O, B, F: Fn(&Use<Ptr<BasicBlock>>) -> bool>(
    program: &Program<O, B>,
    alloc: Global,
    used: Ptr<BasicBlock>,
    predicate: &F,
) -> Result<Vec<Use<Ptr<BasicBlock>>>, AllocError>
    requires used { IsSome (block_at program.now used) }
    requires callable { F.IsAlwaysCallable predicate.now }
    ensures stand { IfOk result (λ places. AreUsesNaming (successors_at program.now) used places.items) }
    ensures chosen { IfOk result (λ places. Chooses (successors_at program.now) (MaySay F.Fn predicate.now) used
        (is_among places.items)) }
{
    let mut chosen = Vec::new(alloc);
    for place in program.block_uses(used) {
        if predicate(&place) {
            chosen.push(place)?;
        }
    }
    Ok(chosen)
}
