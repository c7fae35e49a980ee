//! Handles of entities, and values.
ghost use Rattle.std.specs.Prelude.{◌≡◌};
ghost use Rattle.ir_program.specs.Handles.{handle};

use ir_entities::Key;
use std::marker::PhantomData;

/// The class of operations.
pub struct Operation;

/// The class of regions.
pub struct Region;

/// The class of blocks.
pub struct BasicBlock;

/// The handle of an entity of class `T`. Once the entity is erased, the handle leads nowhere for good.
#[derive_where(Clone, Copy, Debug, PartialEq, Eq, Hash)]
pub struct Ptr<T> {
    pub(crate) key: Key,
    #[derive_where(skip)]
    of: PhantomData<T>,
}

impl<T> Ptr<T> {
    /// The handle that this key makes.
    pub(crate) fn new(key: Key) -> Ptr<T>
        ensures { result ≡ handle key }
    {
        Ptr {
            key,
            of: PhantomData,
        }
    }

    /// The slot that the entity has while it is there.
    pub fn slot(self) -> usize
        ensures { result ≡ self.key.slot }
    {
        self.key.slot
    }

    /// Which of the entities that have the slot in turn it is.
    pub fn version(self) -> u64
        ensures { result ≡ self.key.version }
    {
        self.key.version
    }
}

/// The entity that defines a value.
#[derive(Clone, Copy, Debug, PartialEq, Eq, Hash)]
pub enum DefiningEntity {
    /// An operation, of which the value is a result.
    Op(Ptr<Operation>),
    /// A block, of which the value is an argument.
    Block(Ptr<BasicBlock>),
}

/// A result of an operation or an argument of a block. No two have the same definer and number.
#[derive(Clone, Copy, Debug, PartialEq, Eq, Hash)]
pub struct Value {
    definer: DefiningEntity,
    number: u64,
}

impl Value {
    /// The value with this number at its definer.
    pub(crate) fn new(definer: DefiningEntity, number: u64) -> Value
        ensures { result ≡ record { definer = definer; number = number } }
    {
        Value { definer, number }
    }

    /// The operation or block that it is a result or an argument of.
    pub fn definer(self) -> DefiningEntity
        ensures { result ≡ self.definer }
    {
        self.definer
    }

    /// Its number, which no other value of its definer has.
    pub fn number(self) -> u64
        ensures { result ≡ self.number }
    {
        self.number
    }
}

/// An operation, a region or a block.
#[derive(Clone, Copy, Debug, PartialEq, Eq, Hash)]
pub enum IRNode {
    Operation(Ptr<Operation>),
    Region(Ptr<Region>),
    BasicBlock(Ptr<BasicBlock>),
}

/// A use: the operation `user_op` names `def`, as its operand or its successor at `index`.
#[derive(Clone, Copy, Debug, PartialEq, Eq, Hash)]
pub struct Use<T> {
    pub user_op: Ptr<Operation>,
    pub index: usize,
    pub def: T,
}

impl<T> Use<T> {
    /// The operation that names the definition.
    pub fn user_op(&self) -> Ptr<Operation>
        ensures { result ≡ self.now.user_op }
    {
        self.user_op
    }
}
