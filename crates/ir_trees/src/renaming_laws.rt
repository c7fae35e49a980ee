//! What renaming keeps: laws of trees over any names.
ghost use Rattle.std.specs.Prelude.{◌≡◌, ◌↔◌, ℕ, map, option_map};
ghost use Rattle.ir_trees.specs.Places.{IsBlockAt, IsOperationAt, PathFromRoot, at_place, rename_item};
ghost use Rattle.ir_trees.specs.Renames.{ChangeAlike, HaveTests, IsOneToOne, IsRenamed, IsSameUpToNames, NamedMaps, NamedTree, RewriteAlike, blocks_of, forget, holding, named, own_names, rename_head, rename_label, rename_root, twice, values_of};
ghost use Rattle.ir_trees.specs.Rewrites.{Rewriting, changed_root, rewritten_root};
ghost use Rattle.ir_trees.specs.Searched.{AreDistinct, Lists, UsesBlock, UsesValue, block_names, heads_of, labels_of, operation_names};
ghost use Rattle.ir_trees.specs.Stands.{ProgramTree};
ghost use Rattle.ir_trees.specs.Trees.{Head, Label};

/// Tells that renaming by own names changes nothing, and that renaming twice is renaming once. It does nothing.
pub fn know_renamed<O, B, V, O1, B1, V1, O2, B2, V2, C, L, T>()
    ensures own { (t : NamedTree O B V C L T) → rename_root own_names t ≡ t }
    ensures twice { (m : NamedMaps O B V O1 B1 V1) (n : NamedMaps O1 B1 V1 O2 B2 V2) (t : NamedTree O B V C L T)
        → rename_root n (rename_root m t) ≡ rename_root (twice n m) t }
{}

/// Tells that what is found by search in a renamed tree is what is found in the tree, renamed: the operations, the
/// blocks, their names, and all blocks and values that are defined or mentioned. It does nothing.
pub fn know_search_renamed<O, B, V, O1, B1, V1, C, L, T>()
    ensures operations { (m : NamedMaps O B V O1 B1 V1) (t : NamedTree O B V C L T)
        → heads_of (rename_root m t) ≡ map (rename_head m) (heads_of t) }
    ensures blocks { (m : NamedMaps O B V O1 B1 V1) (t : NamedTree O B V C L T)
        → labels_of (rename_root m t) ≡ map (rename_label m) (labels_of t) }
    ensures operation_names { (m : NamedMaps O B V O1 B1 V1) (t : NamedTree O B V C L T)
        → operation_names (rename_root m t) ≡ map m.operation (operation_names t) }
    ensures block_names { (m : NamedMaps O B V O1 B1 V1) (t : NamedTree O B V C L T)
        → block_names (rename_root m t) ≡ map m.block (block_names t) }
    ensures all_blocks { (m : NamedMaps O B V O1 B1 V1) (t : NamedTree O B V C L T)
        → blocks_of (rename_root m t) ≡ map m.block (blocks_of t) }
    ensures all_values { (m : NamedMaps O B V O1 B1 V1) (t : NamedTree O B V C L T)
        → values_of (rename_root m t) ≡ map m.value (values_of t) }
{}

/// Tells that the uses that are found in a renamed tree are the renamed ones, at the same indices, under every map.
/// Under one that keeps the names of the tree apart, a use of a name that the tree has is found in the one tree
/// exactly where it is in the other. It does nothing.
pub fn know_uses_renamed<O, B, V, O1, B1, V1, C, L, T>()
    ensures of_values { (m : NamedMaps O B V O1 B1 V1) (t : NamedTree O B V C L T) (y : V1) (q : O1) (i : ℕ)
        → UsesValue (rename_root m t) y q i
        ↔ ((x : V) × (p : O) × UsesValue t x p i × (m.value x ≡ y) × (m.operation p ≡ q)) }
    ensures of_blocks { (m : NamedMaps O B V O1 B1 V1) (t : NamedTree O B V C L T) (y : B1) (q : O1) (i : ℕ)
        → UsesBlock (rename_root m t) y q i
        ↔ ((x : B) × (p : O) × UsesBlock t x p i × (m.block x ≡ y) × (m.operation p ≡ q)) }
    ensures of_value { (m : NamedMaps O B V O1 B1 V1) (t : NamedTree O B V C L T) → IsOneToOne m t
        → (x : V) (p : O) (i : ℕ) → Lists (values_of t) x → Lists (operation_names t) p
        → UsesValue (rename_root m t) (m.value x) (m.operation p) i ↔ UsesValue t x p i }
    ensures of_block { (m : NamedMaps O B V O1 B1 V1) (t : NamedTree O B V C L T) → IsOneToOne m t
        → (x : B) (p : O) (i : ℕ) → Lists (blocks_of t) x → Lists (operation_names t) p
        → UsesBlock (rename_root m t) (m.block x) (m.operation p) i ↔ UsesBlock t x p i }
{}

/// Tells that renaming and changing heads and labels, or rewriting a whole tree, can be done in either order: where
/// what is done at each renamed operation and block of the tree is the renaming of what is done at itself. It does
/// nothing.
pub fn know_rewritten_renamed<O, B, V, O1, B1, V1, C, L, T>()
    ensures changed { (m : NamedMaps O B V O1 B1 V1) (f : _) (g : _) (f' : _) (g' : _) (t : NamedTree O B V C L T)
        → ChangeAlike m f g f' g' t → changed_root f' g' (rename_root m t) ≡ rename_root m (changed_root f g t) }
    ensures rewritten { (m : NamedMaps O B V O1 B1 V1) (w : Rewriting (named O B V) (holding C L T))
        (w' : Rewriting (named O1 B1 V1) (holding C L T)) (t : NamedTree O B V C L T)
        → RewriteAlike m w w' t → rewritten_root w' (rename_root m t) ≡ rename_root m (rewritten_root w t) }
{}

/// Tells that being the same up to names is an equivalence, between trees over any names. It does nothing.
pub fn know_same<O, B, V, O1, B1, V1, O2, B2, V2, C, L, T>()
    ensures reflexive { (t : NamedTree O B V C L T) → IsSameUpToNames t t }
    ensures symmetric { (t : NamedTree O B V C L T) (u : NamedTree O1 B1 V1 C L T) → IsSameUpToNames t u
        → IsSameUpToNames u t }
    ensures transitive { (t : NamedTree O B V C L T) (u : NamedTree O1 B1 V1 C L T) (v : NamedTree O2 B2 V2 C L T)
        → IsSameUpToNames t u → IsSameUpToNames u v → IsSameUpToNames t v }
{}

/// Tells that trees that are the same up to names are those of which one is the other under names that are kept
/// apart. The renaming is found where names can be told apart and there are any names for those that the tree does
/// not have. It does nothing.
pub fn know_same_renamed<O, B, V, O1, B1, V1, C, L, T>()
    ensures renamed { (t : NamedTree O B V C L T) (u : NamedTree O1 B1 V1 C L T) → IsRenamed t u → IsSameUpToNames t u }
    ensures found { (t : NamedTree O B V C L T) (u : NamedTree O1 B1 V1 C L T)
        → HaveTests (named O B V) → NamedMaps O B V O1 B1 V1 → IsSameUpToNames t u → IsRenamed t u }
{}

/// Tells that trees of programs are the same up to handles exactly where a renaming of handles that keeps them apart
/// leads from the one to the other. It does nothing.
pub fn know_same_trees<O, B>()
    ensures { (t u : ProgramTree O B) → IsSameUpToNames t u ↔ IsRenamed t u }
{}

/// Tells that the operations and blocks that are found in a tree by search are those that are at its places; and that
/// each is at one place alone where their names are distinct. It does nothing.
pub fn know_places<O, B, V, C, L, T>()
    ensures operations { (t : NamedTree O B V C L T) (h : Head (named O B V) (holding C L T))
        → Lists (heads_of t) h ↔ ((p : PathFromRoot) × IsOperationAt t p h) }
    ensures blocks { (t : NamedTree O B V C L T) (l : Label (named O B V) (holding C L T))
        → Lists (labels_of t) l ↔ ((p : PathFromRoot) × IsBlockAt t p l) }
    ensures one { (t : NamedTree O B V C L T) → AreDistinct (operation_names t)
        → (p q : PathFromRoot) (h k : Head (named O B V) (holding C L T))
        → IsOperationAt t p h → IsOperationAt t q k → h.name ≡ k.name → p ≡ q }
    ensures one_block { (t : NamedTree O B V C L T) → AreDistinct (block_names t)
        → (p q : PathFromRoot) (l k : Label (named O B V) (holding C L T))
        → IsBlockAt t p l → IsBlockAt t q k → l.name ≡ k.name → p ≡ q }
{}

/// Tells that renaming keeps places: at a place of the renamed tree is what was there, renamed, or nothing in both.
/// So trees that are the same up to names have the same at each place, up to names. It does nothing.
pub fn know_places_renamed<O, B, V, O1, B1, V1, C, L, T>()
    ensures renamed { (m : NamedMaps O B V O1 B1 V1) (t : NamedTree O B V C L T) (p : PathFromRoot)
        → at_place (rename_root m t) p ≡ option_map (rename_item m) (at_place t p) }
    ensures same { (t : NamedTree O B V C L T) (u : NamedTree O1 B1 V1 C L T) → IsSameUpToNames t u → (p : PathFromRoot)
        → option_map (rename_item forget) (at_place t p) ≡ option_map (rename_item forget) (at_place u p) }
{}
