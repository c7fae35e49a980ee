//! What has come since a context was seen, while more is made.
ghost use Rattle.std.specs.Prelude.{[], ℕ, List};
ghost use Rattle.ir_base.specs.declared.types.TypeHandle.{TypeHandle};
ghost use Rattle.ir_names.specs.declared.identifier.Identifier.{Identifier};
ghost use Rattle.ir_program.specs.declared.handles.BasicBlock.{BasicBlock};
ghost use Rattle.ir_program.specs.declared.handles.IRNode.{IRNode};
ghost use Rattle.ir_program.specs.declared.handles.IRNode.TheVariants.{BasicBlock as BlockNode, Operation as OperationNode};
ghost use Rattle.ir_program.specs.declared.handles.Operation.{Operation};
ghost use Rattle.ir_program.specs.declared.handles.Ptr.{Ptr};
ghost use Rattle.ir_program.specs.declared.handles.Value.{Value};
ghost use Rattle.std.specs.Prelude.{Option};
ghost use Rattle.text_dialect.specs.Seen.{Seen};
ghost use Rattle.text_frames.specs.building.Came.{Attached, OneMore, TakenIn};
ghost use Rattle.text_frames.specs.building.Inside.{AreLoose, AreUsedInside, CameSince, IsSeenForest, IsNowhere, IsThere, NamesWhatIsThere};
ghost use Rattle.text_frames.specs.building.Kept.{SameSeen};
ghost use Rattle.text_frames.specs.building.Made.{AppendsOperation, LinksUses, MakesDetachedOperation, OpensBlock};

/// Tells that all that came since the start is inside the loose things: at the start there are none; a new block is
/// one more; a new operation is one in place of the blocks that it takes in; an operation that goes into one of the
/// blocks is none any more; operands, successors and refused calls change none. And what came since is used by what
/// came since. It does nothing.
pub fn know_came<K, A, T>()
    ensures starts { (s : Seen K A T) → NamesWhatIsThere s → CameSince s s [] }
    ensures same { (start s t : Seen K A T) (xs : List IRNode) → CameSince start s xs → SameSeen s t
        → CameSince start t xs }
    ensures opens { (start s t : Seen K A T) (xs ys : List IRNode) (b : Ptr BasicBlock) (label : Option Identifier)
        (tys : List TypeHandle) (n : ℕ)
        → CameSince start s xs → OpensBlock s t b label tys n → OneMore xs ys (BlockNode b) → CameSince start t ys }
    ensures makes { (start s t : Seen K A T) (xs ys : List IRNode) (p : Ptr Operation) (kind : K)
        (attributes : List (List ℕ × A)) (tys : List TypeHandle)
        (n : ℕ) (bss : List (List (Ptr BasicBlock))) → CameSince start s xs
        → MakesDetachedOperation s t p kind attributes tys n bss
        → IsSeenForest s → AreLoose s xs → TakenIn xs ys p bss → CameSince start t ys }
    ensures appends { (start s t : Seen K A T) (xs ys : List IRNode) (b : Ptr BasicBlock) (p : Ptr Operation)
        → CameSince start s xs → AppendsOperation s t b p → Attached xs ys b p → IsThere s (BlockNode b)
        → CameSince start t ys }
    ensures links { (start s t : Seen K A T) (xs : List IRNode) (p : Ptr Operation) (vs : List Value)
        (bs : List (Ptr BasicBlock)) → CameSince start s xs → LinksUses s t p vs bs
        → IsNowhere start (OperationNode p) → CameSince start t xs }
    ensures used { (start s : Seen K A T) (xs : List IRNode) → CameSince start s xs → AreUsedInside s xs }
{}
