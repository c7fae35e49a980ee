//! Laws of what is seen of contexts: what the steps of making leave as it is.
ghost use Rattle.std.specs.Prelude.{◌≡◌, ◌≢◌, ℕ, List, Option, Some, slice_get};
ghost use Rattle.ir_base.specs.declared.types.TypeHandle.{TypeHandle};
ghost use Rattle.ir_names.specs.declared.identifier.Identifier.{Identifier};
ghost use Rattle.ir_program.specs.Made.{IsNoneOf};
ghost use Rattle.ir_program.specs.declared.handles.BasicBlock.{BasicBlock};
ghost use Rattle.ir_program.specs.declared.handles.Operation.{Operation};
ghost use Rattle.ir_program.specs.declared.handles.Ptr.{Ptr};
ghost use Rattle.ir_program.specs.declared.handles.Value.{Value};
ghost use Rattle.text_dialect.specs.Seen.{Seen, seen};
ghost use Rattle.text_frames.specs.building.Inside.{IsSeenForest, NamesWhatIsThere};
ghost use Rattle.text_frames.specs.building.Kept.{KeepsAllSeen, SameSeen};
ghost use Rattle.text_frames.specs.building.Later.{IsLater};
ghost use Rattle.text_frames.specs.building.Loose.{IsDefinedValue, IsLooseBlock, IsLooseOperation};
ghost use Rattle.text_frames.specs.building.Made.{AppendsOperation, LinksUses, MakesDetachedOperation, OpensBlock};

use ir_context::Context;
use ir_types::DialectTables;

/// Tells what holds of every context: what is in a list is there and in no other list, and what operations name is
/// there. It does nothing.
pub fn know_seen<D: DialectTables>(ctx: &Context<D>)
    ensures forest { IsSeenForest (seen ctx.now) }
    ensures named { NamesWhatIsThere (seen ctx.now) }
{
    let program = ctx.program();
    program.know_lists();
    program.know_values();
    program.know_operands();
    program.know_successors();
}

/// Tells what keeps all that was there: a refused call, one that makes a block, and one that makes an operation; and
/// of two calls, both. It does nothing.
pub fn know_kept<K, A, T>()
    ensures same { (s t : Seen K A T) → SameSeen s t → KeepsAllSeen s t }
    ensures both { (s t u : Seen K A T) → KeepsAllSeen s t → KeepsAllSeen t u → KeepsAllSeen s u }
    ensures opens { (s t : Seen K A T) (b : Ptr BasicBlock) (label : Option Identifier) (tys : List TypeHandle) (n : ℕ)
        → OpensBlock s t b label tys n → KeepsAllSeen s t }
    ensures makes { (s t : Seen K A T) (p : Ptr Operation) (kind : K) (attributes : List (List ℕ × A))
        (tys : List TypeHandle) (n : ℕ) (bss : List (List (Ptr BasicBlock)))
        → MakesDetachedOperation s t p kind attributes tys n bss → KeepsAllSeen s t }
{}

/// Tells that what is whole stays so: where all is kept, where an open block gets an operation, and where an
/// operation gets operands and successors; and of two calls, where both leave it so. A value that is defined stays
/// defined. It does nothing.
pub fn know_later<K, A, T>()
    ensures kept { (s t : Seen K A T) → KeepsAllSeen s t → IsLater s t }
    ensures both { (s t u : Seen K A T) → IsLater s t → IsLater t u → IsLater s u }
    ensures appends { (s t : Seen K A T) (b : Ptr BasicBlock) (p : Ptr Operation) → IsLooseBlock s b
        → AppendsOperation s t b p → IsLater s t }
    ensures links { (s t : Seen K A T) (p : Ptr Operation) (vs : List Value) (bs : List (Ptr BasicBlock))
        → LinksUses s t p vs bs → IsLater s t }
    ensures defined { (s t : Seen K A T) → IsLater s t → (v : Value) → IsDefinedValue s v → IsDefinedValue t v }
{}

/// Tells that blocks that are in no region stay so, but for those that a new operation takes in. It does nothing.
pub fn know_loose_blocks<K, A, T>()
    ensures opens { (s t : Seen K A T) (b : Ptr BasicBlock) (label : Option Identifier) (tys : List TypeHandle) (n : ℕ)
        → OpensBlock s t b label tys n → (q : Ptr BasicBlock) → IsLooseBlock s q → IsLooseBlock t q }
    ensures makes { (s t : Seen K A T) (p : Ptr Operation) (kind : K) (attributes : List (List ℕ × A))
        (tys : List TypeHandle) (n : ℕ) (bss : List (List (Ptr BasicBlock)))
        → MakesDetachedOperation s t p kind attributes tys n bss
        → (q : Ptr BasicBlock) → IsLooseBlock s q
        → ((k : ℕ) (bs : List (Ptr BasicBlock)) → slice_get bss k ≡ Some bs → IsNoneOf bs q) → IsLooseBlock t q }
    ensures appends { (s t : Seen K A T) (b : Ptr BasicBlock) (p : Ptr Operation) → AppendsOperation s t b p
        → (q : Ptr BasicBlock) → IsLooseBlock s q → IsLooseBlock t q }
    ensures links { (s t : Seen K A T) (p : Ptr Operation) (vs : List Value) (bs : List (Ptr BasicBlock))
        → LinksUses s t p vs bs → (q : Ptr BasicBlock) → IsLooseBlock s q → IsLooseBlock t q }
{}

/// Tells that operations that are in no block stay so, but for one that a block gets. It does nothing.
pub fn know_loose_operations<K, A, T>()
    ensures opens { (s t : Seen K A T) (b : Ptr BasicBlock) (label : Option Identifier) (tys : List TypeHandle) (n : ℕ)
        → OpensBlock s t b label tys n → (q : Ptr Operation) → IsLooseOperation s q → IsLooseOperation t q }
    ensures makes { (s t : Seen K A T) (p : Ptr Operation) (kind : K) (attributes : List (List ℕ × A))
        (tys : List TypeHandle) (n : ℕ) (bss : List (List (Ptr BasicBlock)))
        → MakesDetachedOperation s t p kind attributes tys n bss
        → (q : Ptr Operation) → IsLooseOperation s q → IsLooseOperation t q }
    ensures appends { (s t : Seen K A T) (b : Ptr BasicBlock) (p : Ptr Operation) → AppendsOperation s t b p
        → (q : Ptr Operation) → q ≢ p → IsLooseOperation s q → IsLooseOperation t q }
    ensures links { (s t : Seen K A T) (p : Ptr Operation) (vs : List Value) (bs : List (Ptr BasicBlock))
        → LinksUses s t p vs bs → (q : Ptr Operation) → IsLooseOperation s q → IsLooseOperation t q }
{}
