//! What a word of a line stands for.
use ir_core::{At, BasicBlock, Entity, Operation, PlaceAt, Ptr, RegionAt, TypeHandle, ValueAt};

/// What a word stands for: what is there or yet to be made, a type or a number.
#[derive(Clone, Copy)]
pub enum Argument {
    Operation(At<Ptr<Operation>>),
    Block(At<Ptr<BasicBlock>>),
    Region(RegionAt),
    Value(ValueAt),
    /// What the edit with this number of the list makes, whatever it is.
    Made(usize),
    Type(TypeHandle),
    Number(usize),
}

impl Argument {
    /// What stands for an entity.
    pub fn of(entity: Entity) -> Argument {
        match entity {
            Entity::Operation(op) => Argument::Operation(At::Handle(op)),
            Entity::Region(region) => Argument::Region(RegionAt::Handle(region)),
            Entity::Block(block) => Argument::Block(At::Handle(block)),
            Entity::Value(value) => Argument::Value(ValueAt::Handle(value)),
        }
    }
}

/// The operation that an argument is, if it is there and can be one.
pub fn operation(arguments: &[Argument], index: usize) -> Option<At<Ptr<Operation>>> {
    match *arguments.get(index)? {
        Argument::Operation(op) => Some(op),
        Argument::Made(number) => Some(At::Made(number)),
        _ => None,
    }
}

/// The block that an argument is, if it is there and can be one.
pub fn block(arguments: &[Argument], index: usize) -> Option<At<Ptr<BasicBlock>>> {
    match *arguments.get(index)? {
        Argument::Block(block) => Some(block),
        Argument::Made(number) => Some(At::Made(number)),
        _ => None,
    }
}

/// The region that an argument is, if it is there and can be one.
pub fn region(arguments: &[Argument], index: usize) -> Option<RegionAt> {
    match *arguments.get(index)? {
        Argument::Region(region) => Some(region),
        Argument::Made(number) => Some(RegionAt::Made(number)),
        _ => None,
    }
}

/// The value that an argument is, if it is there and can be one.
pub fn value(arguments: &[Argument], index: usize) -> Option<ValueAt> {
    match *arguments.get(index)? {
        Argument::Value(value) => Some(value),
        Argument::Made(number) => Some(ValueAt::Made(number)),
        _ => None,
    }
}

/// The type that an argument is, if it is there and one.
pub fn ty(arguments: &[Argument], index: usize) -> Option<TypeHandle> {
    match *arguments.get(index)? {
        Argument::Type(ty) => Some(ty),
        _ => None,
    }
}

/// The number that an argument is, if it is there and one.
pub fn number(arguments: &[Argument], index: usize) -> Option<usize> {
    match *arguments.get(index)? {
        Argument::Number(number) => Some(number),
        _ => None,
    }
}

/// The place that two arguments are, an operation and an index.
pub fn place(arguments: &[Argument], index: usize) -> Option<PlaceAt> {
    match arguments.get(index..)? {
        [Argument::Operation(user_op), Argument::Number(index), ..] => Some(PlaceAt {
            user_op: *user_op,
            index: *index,
        }),
        _ => None,
    }
}
