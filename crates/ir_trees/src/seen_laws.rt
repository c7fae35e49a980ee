//! What a program shows of itself: its view, and what edits leave of it.
ghost use Rattle.std.specs.Prelude.{◌≡◌, ◌≢◌, ◌↔◌, ℕ, List, Some, slice_get};
ghost use Rattle.ir_base.specs.declared.types.TypeHandle.{TypeHandle};
ghost use Rattle.ir_program.specs.Edits.{IsUnchanged};
ghost use Rattle.ir_program.specs.Made.{BuildsBlock, BuildsOperation};
ghost use Rattle.ir_program.specs.declared.handles.BasicBlock.{BasicBlock};
ghost use Rattle.ir_program.specs.declared.handles.Operation.{Operation};
ghost use Rattle.ir_program.specs.declared.handles.Ptr.{Ptr};
ghost use Rattle.ir_program.specs.declared.handles.Value.{Value};
ghost use Rattle.ir_trees.specs.Seen.{IsFreshBlock, IsFreshOperation, IsSeenAs, KeepsLiveHandles, HandlesLeadAlike, seen};
ghost use Rattle.ir_trees.specs.Stands.{ProgramTree, StandsFor};

use ir_program::Program;

/// Tells that the trees of what a program shows are the trees of the program. It does nothing.
pub fn know_seen<O, B>(_program: &Program<O, B>)
    ensures { (op : Ptr Operation) (t : ProgramTree O B)
        → StandsFor _program.now op t ↔ IsSeenAs (seen _program.now) op t }
{}

/// Tells what calls leave of what a program shows: a refused one all, one that makes something all that was there, under
/// a handle that was never given out. It does nothing.
pub fn know_kept<O, B>(_old: &Program<O, B>, _new: &Program<O, B>)
    ensures unchanged { IsUnchanged _old.now _new.now → HandlesLeadAlike (seen _old.now) (seen _new.now) }
    ensures operation { (p : Ptr Operation) (payload : O) (tys : List TypeHandle) (vs : List Value)
        (bs : List (Ptr BasicBlock)) (n : ℕ)
        → BuildsOperation _old.now _new.now p payload tys vs bs n → KeepsLiveHandles (seen _old.now) (seen _new.now)
        × IsFreshOperation (seen _old.now) p }
    ensures block { (b : Ptr BasicBlock) (payload : B) (tys : List TypeHandle)
        → BuildsBlock _old.now _new.now b payload tys → KeepsLiveHandles (seen _old.now) (seen _new.now)
        × IsFreshBlock (seen _old.now) b }
{}

/// Tells of what is kept: what is the same is kept, and what is kept twice is kept; and what an operation stands for in a
/// view it stands for in each that keeps it. It does nothing.
pub fn know_keeping<O, B>(_old: &Program<O, B>, _middle: &Program<O, B>, _new: &Program<O, B>)
    ensures same { HandlesLeadAlike (seen _old.now) (seen _new.now) → KeepsLiveHandles (seen _old.now) (seen _new.now) }
    ensures twice { KeepsLiveHandles (seen _old.now) (seen _middle.now)
        → KeepsLiveHandles (seen _middle.now) (seen _new.now)
        → KeepsLiveHandles (seen _old.now) (seen _new.now) }
    ensures tree { (op : Ptr Operation) (t : ProgramTree O B) → KeepsLiveHandles (seen _old.now) (seen _new.now)
        → StandsFor _old.now op t → StandsFor _new.now op t }
{}
