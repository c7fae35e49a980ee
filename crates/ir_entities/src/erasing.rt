//! Taking things out of a forest, one at a time or with all that stands in them. No memory is asked for.

ghost use Rattle.std.specs.Prelude.{◌≡◌, ◌≢◌, ℕ, ◌<◌, ◌++◌, [], map, slice_set, IfSome, IsNone, IsSome, ◌↔◌, false, Some, None};
ghost use Rattle.ir_arena.specs.Arena.{get, held, ClearsSlot, Updates, KeepsSpent, IsSpent};
ghost use Rattle.ir_entities.specs.Links.{IsLinked, list_at, first_or, without};
ghost use Rattle.ir_entities.specs.Prune.{live_in, StandsNowhere, HoldsNothing, IsFirstInner, IsDetached, IsPruned, ErasesInside};
ghost use Rattle.ir_entities.specs.Shape.{IsInside};
ghost use Rattle.ir_entities.specs.Forest.{IsForest, shape_of, pointer_to};
ghost use Rattle.ir_entities.specs.declared.forest.Place.{Place};
ghost use Rattle.ir_entities.specs.declared.forest.Place.TheVariants.{Op, Block, Region};

use crate::forest::{Forest, Place};
use ir_arena::Key;

impl<O, B, R> Forest<O, B, R> {
    /// Tells what holds of every forest; it does nothing.
    pub fn know_forest(&self)
        ensures { IsForest self.now }
    {
        let _ops = &self.ops;
    }

    /// Takes an operation out of its block.
    fn cut_op(&mut self, op: usize)
        requires linked { IsLinked self.old.in_blocks.lists op }
        ensures cut { IsDetached self.old self.new (Op op) }
        ensures lists { self.new.in_blocks.lists ≡ map (without op) self.old.in_blocks.lists }
        ensures nodes { self.new.in_blocks.nodes ≡ self.old.in_blocks.nodes }
        ensures nowhere { StandsNowhere self.new (Op op) }
        ensures rest { self.new ≡ record self.old { in_blocks = self.new.in_blocks } }
    {
        self.in_blocks.know_members();
        self.in_blocks.unlink(op);
    }

    /// Takes a block out of its region.
    fn cut_block(&mut self, block: usize)
        requires linked { IsLinked self.old.in_regions.lists block }
        ensures cut { IsDetached self.old self.new (Block block) }
        ensures lists { self.new.in_regions.lists ≡ map (without block) self.old.in_regions.lists }
        ensures nodes { self.new.in_regions.nodes ≡ self.old.in_regions.nodes }
        ensures nowhere { StandsNowhere self.new (Block block) }
        ensures rest { self.new ≡ record self.old { in_regions = self.new.in_regions } }
    {
        self.in_regions.know_members();
        self.in_regions.unlink(block);
    }

    /// Takes a region out of its operation.
    fn cut_region(&mut self, region: usize)
        requires linked { IsLinked self.old.in_ops.lists region }
        ensures cut { IsDetached self.old self.new (Region region) }
        ensures lists { self.new.in_ops.lists ≡ map (without region) self.old.in_ops.lists }
        ensures nodes { self.new.in_ops.nodes ≡ self.old.in_ops.nodes }
        ensures nowhere { StandsNowhere self.new (Region region) }
        ensures rest { self.new ≡ record self.old { in_ops = self.new.in_ops } }
    {
        self.in_ops.know_members();
        self.in_ops.unlink(region);
    }

    /// Takes out an operation that stands in no block and holds no region.
    fn free_op_at(&mut self, op: usize) -> O
    where
        O: Drop,
        requires used { IsSome (held self.old.ops op) }
        requires root { StandsNowhere self.old (Op op) }
        requires bare { HoldsNothing self.old (Op op) }
        ensures value { Some result ≡ held self.old.ops op }
        ensures slot { ClearsSlot self.old.ops self.new.ops op }
        ensures updates { Updates self.old.ops self.new.ops (pointer_to self.old.ops op) None }
        ensures gone { IsSpent self.new.ops (pointer_to self.old.ops op) }
        ensures spent { KeepsSpent self.old.ops self.new.ops }
        ensures erased { ErasesInside self.old self.new (Op op) }
        ensures rest { self.new ≡ record self.old { ops = self.new.ops } }
    {
        let key = self.ops.key_of(op);
        self.ops.erase(key)
    }

    /// Takes out a block that stands in no region and holds no operation.
    fn free_block_at(&mut self, block: usize) -> B
    where
        B: Drop,
        requires used { IsSome (held self.old.blocks block) }
        requires root { StandsNowhere self.old (Block block) }
        requires bare { HoldsNothing self.old (Block block) }
        ensures value { Some result ≡ held self.old.blocks block }
        ensures slot { ClearsSlot self.old.blocks self.new.blocks block }
        ensures updates { Updates self.old.blocks self.new.blocks (pointer_to self.old.blocks block) None }
        ensures gone { IsSpent self.new.blocks (pointer_to self.old.blocks block) }
        ensures spent { KeepsSpent self.old.blocks self.new.blocks }
        ensures erased { ErasesInside self.old self.new (Block block) }
        ensures rest { self.new ≡ record self.old { blocks = self.new.blocks } }
    {
        let key = self.blocks.key_of(block);
        self.blocks.erase(key)
    }

    /// Takes out a region that stands in no operation and holds no block.
    fn free_region_at(&mut self, region: usize) -> R
    where
        R: Drop,
        requires used { IsSome (held self.old.regions region) }
        requires root { StandsNowhere self.old (Region region) }
        requires bare { HoldsNothing self.old (Region region) }
        ensures value { Some result ≡ held self.old.regions region }
        ensures slot { ClearsSlot self.old.regions self.new.regions region }
        ensures updates { Updates self.old.regions self.new.regions (pointer_to self.old.regions region) None }
        ensures gone { IsSpent self.new.regions (pointer_to self.old.regions region) }
        ensures spent { KeepsSpent self.old.regions self.new.regions }
        ensures erased { ErasesInside self.old self.new (Region region) }
        ensures rest { self.new ≡ record self.old { regions = self.new.regions } }
    {
        let key = self.regions.key_of(region);
        self.regions.erase(key)
    }

    /// Moves the regions of an operation inside `x`, which stands nowhere, to the end of those of `x`.
    fn hoist(&mut self, x: usize, op: usize)
        requires root { StandsNowhere self.old (Op x) }
        requires inside { IsInside (shape_of self.old) (Op x) (Op op) }
        requires differ { x ≢ op }
        requires used { IsSome (held self.old.ops x) }
        requires used_op { IsSome (held self.old.ops op) }
        ensures pruned { IsPruned self.old self.new (Op x) }
        ensures lists { self.new.in_ops.lists ≡ slice_set
            (slice_set self.old.in_ops.lists x
            (list_at self.old.in_ops.lists x ++ list_at self.old.in_ops.lists op)) op [] }
        ensures nodes { self.new.in_ops.nodes ≡ self.old.in_ops.nodes }
        ensures bare { HoldsNothing self.new (Op op) }
        ensures rest { self.new ≡ record self.old { in_ops = self.new.in_ops } }
    {
        self.in_ops.append(x, op);
    }

    /// Takes out a region that holds no block.
    fn take_region(&mut self, region: usize) -> R
    where
        R: Drop,
        requires linked { IsLinked self.old.in_ops.lists region }
        requires bare { HoldsNothing self.old (Region region) }
        ensures value { Some result ≡ held self.old.regions region }
        ensures slot { ClearsSlot self.old.regions self.new.regions region }
        ensures updates { Updates self.old.regions self.new.regions (pointer_to self.old.regions region) None }
        ensures gone { IsSpent self.new.regions (pointer_to self.old.regions region) }
        ensures spent { KeepsSpent self.old.regions self.new.regions }
        ensures lists { self.new.in_ops.lists ≡ map (without region) self.old.in_ops.lists }
        ensures nodes { self.new.in_ops.nodes ≡ self.old.in_ops.nodes }
        ensures pruned { (x : Place) → IsInside (shape_of self.old) x (Region region) → x ≢ Region region
            → IsPruned self.old self.new x }
        ensures fewer { live_in self.new < live_in self.old }
        ensures rest { self.new ≡ record self.old { regions = self.new.regions; in_ops = self.new.in_ops } }
    {
        self.know_forest();
        self.cut_region(region);
        let payload = self.free_region_at(region);
        self.know_forest();
        payload
    }

    /// Takes out a block that holds no operation.
    fn take_block(&mut self, block: usize) -> B
    where
        B: Drop,
        requires linked { IsLinked self.old.in_regions.lists block }
        requires bare { HoldsNothing self.old (Block block) }
        ensures value { Some result ≡ held self.old.blocks block }
        ensures slot { ClearsSlot self.old.blocks self.new.blocks block }
        ensures updates { Updates self.old.blocks self.new.blocks (pointer_to self.old.blocks block) None }
        ensures gone { IsSpent self.new.blocks (pointer_to self.old.blocks block) }
        ensures spent { KeepsSpent self.old.blocks self.new.blocks }
        ensures lists { self.new.in_regions.lists ≡ map (without block) self.old.in_regions.lists }
        ensures nodes { self.new.in_regions.nodes ≡ self.old.in_regions.nodes }
        ensures pruned { (x : Place) → IsInside (shape_of self.old) x (Block block) → x ≢ Block block
            → IsPruned self.old self.new x }
        ensures fewer { live_in self.new < live_in self.old }
        ensures rest { self.new ≡ record self.old { blocks = self.new.blocks; in_regions = self.new.in_regions } }
    {
        self.know_forest();
        self.cut_block(block);
        let payload = self.free_block_at(block);
        self.know_forest();
        payload
    }

    /// Takes out an operation inside `x`, which stands nowhere. Its regions go to the end of those of `x`.
    fn take_op(&mut self, x: usize, op: usize) -> O
    where
        O: Drop,
        requires root { StandsNowhere self.old (Op x) }
        requires used { IsSome (held self.old.ops x) }
        requires inside { IsInside (shape_of self.old) (Op x) (Op op) }
        requires differ { x ≢ op }
        ensures value { Some result ≡ held self.old.ops op }
        ensures slot { ClearsSlot self.old.ops self.new.ops op }
        ensures updates { Updates self.old.ops self.new.ops (pointer_to self.old.ops op) None }
        ensures gone { IsSpent self.new.ops (pointer_to self.old.ops op) }
        ensures spent { KeepsSpent self.old.ops self.new.ops }
        ensures lists { self.new.in_blocks.lists ≡ map (without op) self.old.in_blocks.lists }
        ensures nodes { self.new.in_blocks.nodes ≡ self.old.in_blocks.nodes }
        ensures regions { self.new.in_ops.lists ≡ slice_set
            (slice_set self.old.in_ops.lists x
            (list_at self.old.in_ops.lists x ++ list_at self.old.in_ops.lists op)) op [] }
        ensures region_nodes { self.new.in_ops.nodes ≡ self.old.in_ops.nodes }
        ensures pruned { IsPruned self.old self.new (Op x) }
        ensures fewer { live_in self.new < live_in self.old }
        ensures rest { self.new
            ≡ record self.old { ops = self.new.ops; in_blocks = self.new.in_blocks; in_ops = self.new.in_ops } }
    {
        self.know_forest();
        self.hoist(x, op);
        self.know_forest();
        self.cut_op(op);
        let payload = self.free_op_at(op);
        self.know_forest();
        payload
    }

    /// What goes first of the things in operation `x`.
    fn first_inner(&self, x: usize) -> Option<Place>
        requires used { IsSome (held self.now.ops x) }
        ensures none { IsNone result ↔ HoldsNothing self.now (Op x) }
        ensures first { IfSome result (λ e. IsFirstInner self.now x e) }
        ensures inside { IfSome result (λ e. IsInside (shape_of self.now) (Op x) e × (e ≢ Op x)) }
    {
        let Some(region) = self.in_ops.head(x) else {
            return None;
        };
        let Some(block) = self.in_regions.head(region) else {
            return Some(Place::Region(region));
        };
        let Some(op) = self.in_blocks.head(block) else {
            return Some(Place::Block(block));
        };
        Some(Place::Op(op))
    }

    /// Takes out what goes first of the things in operation `x`.
    fn take_inner(&mut self, x: usize, inner: Place)
    where
        O: Drop,
        B: Drop,
        R: Drop,
        requires root { StandsNowhere self.old (Op x) }
        requires used { IsSome (held self.old.ops x) }
        requires first { IsFirstInner self.old x inner }
        requires inside { IsInside (shape_of self.old) (Op x) inner × (inner ≢ Op x) }
        ensures pruned { IsPruned self.old self.new (Op x) }
        ensures fewer { live_in self.new < live_in self.old }
    {
        match inner {
            Place::Op(op) => {
                self.take_op(x, op);
            }
            Place::Block(block) => {
                self.take_block(block);
            }
            Place::Region(region) => {
                self.take_region(region);
            }
        }
    }

    /// Takes out an operation that stands in no block, with all that stands in it.
    fn free_op_tree(&mut self, op: usize) -> O
    where
        O: Drop,
        B: Drop,
        R: Drop,
        requires used { IsSome (held self.old.ops op) }
        requires root { StandsNowhere self.old (Op op) }
        ensures value { Some result ≡ held self.old.ops op }
        ensures erased { ErasesInside self.old self.new (Op op) }
        ensures fewer { live_in self.new < live_in self.old }
    {
        'parts: while let Some(inner) = self.first_inner(op) {
            self.take_inner(op, inner);
        }
        self.free_op_at(op)
    }

    /// The first operation of a block.
    fn first_op_in(&self, block: usize) -> Option<usize>
        requires { IsSome (held self.now.blocks block) }
        ensures { result ≡ first_or None (list_at self.now.in_blocks.lists block) }
    {
        self.in_blocks.head(block)
    }

    /// Takes an operation out of its block and away, with all that stands in it.
    fn drop_op_tree(&mut self, op: usize)
    where
        O: Drop,
        B: Drop,
        R: Drop,
        requires linked { IsLinked self.old.in_blocks.lists op }
        ensures pruned { (x : Place) → IsInside (shape_of self.old) x (Op op) → x ≢ Op op
            → IsPruned self.old self.new x }
        ensures fewer { live_in self.new < live_in self.old }
    {
        self.know_forest();
        self.cut_op(op);
        self.free_op_tree(op);
        self.know_forest();
    }

    /// Takes out a block that stands in no region, with all that stands in it.
    fn free_block_tree(&mut self, block: usize) -> B
    where
        O: Drop,
        B: Drop,
        R: Drop,
        requires used { IsSome (held self.old.blocks block) }
        requires root { StandsNowhere self.old (Block block) }
        ensures value { Some result ≡ held self.old.blocks block }
        ensures erased { ErasesInside self.old self.new (Block block) }
        ensures fewer { live_in self.new < live_in self.old }
    {
        'trees: while let Some(op) = self.first_op_in(block) {
            self.drop_op_tree(op);
        }
        self.free_block_at(block)
    }

    /// The first block of a region.
    fn first_block_in(&self, region: usize) -> Option<usize>
        requires { IsSome (held self.now.regions region) }
        ensures { result ≡ first_or None (list_at self.now.in_regions.lists region) }
    {
        self.in_regions.head(region)
    }

    /// Takes a block out of its region and away, with all that stands in it.
    fn drop_block_tree(&mut self, block: usize)
    where
        O: Drop,
        B: Drop,
        R: Drop,
        requires linked { IsLinked self.old.in_regions.lists block }
        ensures pruned { (x : Place) → IsInside (shape_of self.old) x (Block block) → x ≢ Block block
            → IsPruned self.old self.new x }
        ensures fewer { live_in self.new < live_in self.old }
    {
        self.know_forest();
        self.cut_block(block);
        self.free_block_tree(block);
        self.know_forest();
    }

    /// Takes out a region that stands in no operation, with all that stands in it.
    fn free_region_tree(&mut self, region: usize) -> R
    where
        O: Drop,
        B: Drop,
        R: Drop,
        requires used { IsSome (held self.old.regions region) }
        requires root { StandsNowhere self.old (Region region) }
        ensures value { Some result ≡ held self.old.regions region }
        ensures erased { ErasesInside self.old self.new (Region region) }
        ensures fewer { live_in self.new < live_in self.old }
    {
        'trees: while let Some(block) = self.first_block_in(region) {
            self.drop_block_tree(block);
        }
        self.free_region_at(region)
    }

    /// Takes out an operation that stands in no block, with all that stands in it. No key to any of it leads anywhere from then on.
    pub fn erase_tree(&mut self, op: Key) -> O
    where
        O: Drop,
        B: Drop,
        R: Drop,
        requires op { IsSome (get self.old.ops op) }
        requires root { StandsNowhere self.old (Op op.slot) }
        ensures value { Some result ≡ get self.old.ops op }
        ensures gone { IsSpent self.new.ops op }
        ensures erased { ErasesInside self.old self.new (Op op.slot) }
    {
        self.free_op_tree(op.slot())
    }

    /// Takes out a block that stands in no region, with all that stands in it. No key to any of it leads anywhere from then on.
    pub fn erase_block_tree(&mut self, block: Key) -> B
    where
        O: Drop,
        B: Drop,
        R: Drop,
        requires block { IsSome (get self.old.blocks block) }
        requires root { StandsNowhere self.old (Block block.slot) }
        ensures value { Some result ≡ get self.old.blocks block }
        ensures gone { IsSpent self.new.blocks block }
        ensures erased { ErasesInside self.old self.new (Block block.slot) }
    {
        self.free_block_tree(block.slot())
    }

    /// Takes out a region that stands in no operation, with all that stands in it. No key to any of it leads anywhere from then on.
    pub fn erase_region_tree(&mut self, region: Key) -> R
    where
        O: Drop,
        B: Drop,
        R: Drop,
        requires region { IsSome (get self.old.regions region) }
        requires root { StandsNowhere self.old (Region region.slot) }
        ensures value { Some result ≡ get self.old.regions region }
        ensures gone { IsSpent self.new.regions region }
        ensures erased { ErasesInside self.old self.new (Region region.slot) }
    {
        self.free_region_tree(region.slot())
    }
}
