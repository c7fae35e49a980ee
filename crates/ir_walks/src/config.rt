//! How a walk goes: which nodes are called before what stands in them, and in which direction.
ghost use Rattle.std.specs.Prelude.{◌≡◌};
ghost use Rattle.ir_walks.specs.Levels.{preset, level_of};
ghost use Rattle.ir_walks.specs.declared.config.Order.TheVariants.{PreOrder};
ghost use Rattle.ir_walks.specs.declared.config.Direction.TheVariants.{Forward};

use ir_program::IRNode;

/// Whether a node is called before or after what stands in it.
#[derive(Clone, Copy, Debug, PartialEq, Eq)]
pub enum Order {
    /// Before.
    PreOrder,
    /// After.
    PostOrder,
}

/// In which direction what stands in a node is gone over.
#[derive(Clone, Copy, Debug, PartialEq, Eq)]
pub enum Direction {
    /// From first to last.
    Forward,
    /// From last to first.
    Reverse,
}

/// What a walk does at nodes of one kind.
#[derive(Clone, Copy, Debug, PartialEq, Eq)]
pub struct Level {
    /// Whether the node itself comes before or after what stands in it.
    pub order: Order,
    /// The direction of what stands in the node.
    pub direction: Direction,
}

/// What a walk does at operations, at regions and at blocks.
#[derive(Clone, Copy, Debug, PartialEq, Eq)]
pub struct WalkConfig {
    /// At operations: `direction` is that of their regions.
    pub operation: Level,
    /// At regions: `direction` is that of their blocks.
    pub region: Level,
    /// At blocks: `direction` is that of their operations.
    pub block: Level,
}

/// Each node before what stands in it, from first to last.
pub const WALKCONFIG_PREORDER_FORWARD: WalkConfig = WalkConfig {
    operation: Level {
        order: Order::PreOrder,
        direction: Direction::Forward,
    },
    region: Level {
        order: Order::PreOrder,
        direction: Direction::Forward,
    },
    block: Level {
        order: Order::PreOrder,
        direction: Direction::Forward,
    },
};

/// Each node before what stands in it, from last to first.
pub const WALKCONFIG_PREORDER_REVERSE: WalkConfig = WalkConfig {
    operation: Level {
        order: Order::PreOrder,
        direction: Direction::Reverse,
    },
    region: Level {
        order: Order::PreOrder,
        direction: Direction::Reverse,
    },
    block: Level {
        order: Order::PreOrder,
        direction: Direction::Reverse,
    },
};

/// Each node after what stands in it, from first to last.
pub const WALKCONFIG_POSTORDER_FORWARD: WalkConfig = WalkConfig {
    operation: Level {
        order: Order::PostOrder,
        direction: Direction::Forward,
    },
    region: Level {
        order: Order::PostOrder,
        direction: Direction::Forward,
    },
    block: Level {
        order: Order::PostOrder,
        direction: Direction::Forward,
    },
};

/// Each node after what stands in it, from last to first.
pub const WALKCONFIG_POSTORDER_REVERSE: WalkConfig = WalkConfig {
    operation: Level {
        order: Order::PostOrder,
        direction: Direction::Reverse,
    },
    region: Level {
        order: Order::PostOrder,
        direction: Direction::Reverse,
    },
    block: Level {
        order: Order::PostOrder,
        direction: Direction::Reverse,
    },
};

impl Default for WalkConfig {
    /// `WALKCONFIG_PREORDER_FORWARD`.
    fn default() -> WalkConfig
        ensures { result ≡ preset PreOrder Forward }
    {
        WALKCONFIG_PREORDER_FORWARD
    }
}

impl WalkConfig {
    /// What a walk does at this node.
    pub fn level(&self, node: IRNode) -> Level
        ensures { result ≡ level_of self.now node }
    {
        match node {
            IRNode::Operation(_) => self.operation,
            IRNode::Region(_) => self.region,
            IRNode::BasicBlock(_) => self.block,
        }
    }
}
