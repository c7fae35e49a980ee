//! The interfaces that kinds of operations, types and attributes implement.
ghost use Rattle.std.specs.Prelude.{◌≡◌};
ghost use Rattle.ir_names.specs.Interfaces.{parents_of, parents_of_attr};

use crate::TypeId;

/// An interface of types.
#[derive(Clone, Copy, Debug, PartialEq, Eq, Hash)]
pub enum TypeInterface {
    /// The type has arguments and results.
    FunctionType,
    /// An interface of a dialect's own.
    Other(&'static str),
}

/// What is asked of a type.
#[derive(Clone, Copy, Debug, PartialEq, Eq, Hash)]
pub enum TypeTest {
    /// Its kind is the one with this id.
    Kind {
        dialect: &'static str,
        name: &'static str,
    },
    /// It implements the interface.
    Interface(TypeInterface),
}

/// An interface of operations.
#[derive(Clone, Copy, Debug, PartialEq, Eq, Hash)]
pub enum OpInterface {
    /// The operation ends a block.
    IsTerminator,
    /// It hands operands to its successors.
    Branch,
    /// It has so many successors.
    NSuccs(usize),
    /// It has one successor.
    OneSucc,
    /// It hands operands to its regions.
    RegionBranch,
    /// Its operands are in segments.
    OperandSegment,
    /// It says which of its regions are graphs.
    RegionKind,
    /// It has so many regions.
    NRegions(usize),
    /// It has one region.
    OneRegion,
    /// It has so many regions at most.
    AtMostNRegions(usize),
    /// It has one region at most.
    AtMostOneRegion,
    /// Each of its regions has one block.
    SingleBlockRegion,
    /// The blocks of its regions end in no terminator.
    NoTerminator,
    /// It has a name that others refer to.
    SymbolOp,
    /// The names of the operations in it are distinct.
    SymbolTable,
    /// It refers to others by their names.
    SymbolUserOp,
    /// It has so many results.
    NResults(usize),
    /// It has so many results at most.
    AtMostNResults(usize),
    /// It has one result at most.
    OptionalResult,
    /// It has so many results at least.
    AtLeastNResults(usize),
    /// It has one result.
    OneResult,
    /// It has so many operands.
    NOpds(usize),
    /// It has so many operands at most.
    AtMostNOpds(usize),
    /// It has one operand at most.
    OptionalOpd,
    /// It has so many operands at least.
    AtLeastNOpds(usize),
    /// It has one operand.
    OneOpd,
    /// No value outside of it is named in its regions.
    IsolatedFromAbove,
    /// It calls a function.
    CallOp,
    /// Its operands have one type.
    SameOperandsType,
    /// Its results have one type.
    SameResultsType,
    /// Its operands and its results have one type.
    SameOperandsAndResultType,
    /// Each operand's type passes the test.
    AllOperands(TypeTest),
    /// The type of the operand at this index passes the test.
    OperandN(usize, TypeTest),
    /// The types of the operands from the first index to the second pass the test.
    /// A negative index counts from the end.
    OperandsMN(u32, i32, TypeTest),
    /// The types of the operands in this segment pass the test.
    SegmentN(usize, TypeTest),
    /// Each result's type passes the test.
    AllResults(TypeTest),
    /// The type of the result at this index passes the test.
    ResultN(usize, TypeTest),
    /// The types of the results from the first index to the second pass the test.
    /// A negative index counts from the end.
    ResultsMN(u32, i32, TypeTest),
    /// It says whether it does more than compute its results.
    SideEffects,
    /// It says whether arguments of its blocks may be removed.
    BlockArgRemoval,
    /// It computes its results where operands are known.
    ConstFold,
    /// It picks its successor where operands are known.
    BranchOpFold,
    /// An interface of a dialect's own.
    Other(&'static str),
}

const TERMINATOR: &[OpInterface] = &[OpInterface::IsTerminator];

const BRANCH: &[OpInterface] = &[OpInterface::Branch];

const ONE_REGION_AT_MOST: &[OpInterface] = &[OpInterface::AtMostNRegions(1)];

const SINGLE_BLOCK: &[OpInterface] = &[OpInterface::SingleBlockRegion];

const SINGLE_BLOCK_AND_REGION: &[OpInterface] = &[
    OpInterface::SingleBlockRegion,
    OpInterface::OneRegion,
];

const SEGMENTS: &[OpInterface] = &[OpInterface::OperandSegment];

const SAME_TYPES: &[OpInterface] = &[OpInterface::SameOperandsType, OpInterface::SameResultsType];

impl OpInterface {
    /// The interfaces that this one stands on: whatever implements it implements them too.
    pub fn parents(self) -> &'static [OpInterface]
        ensures { result.now ≡ parents_of self }
    {
        match self {
            OpInterface::Branch => TERMINATOR,
            OpInterface::NSuccs(_) | OpInterface::OneSucc | OpInterface::BranchOpFold => BRANCH,
            OpInterface::AtMostOneRegion => ONE_REGION_AT_MOST,
            OpInterface::NoTerminator => SINGLE_BLOCK,
            OpInterface::SymbolTable => SINGLE_BLOCK_AND_REGION,
            OpInterface::SegmentN(_, _) => SEGMENTS,
            OpInterface::SameOperandsAndResultType => SAME_TYPES,
            _ => &[],
        }
    }
}

/// An interface of attributes.
#[derive(Clone, Copy, Debug, PartialEq, Eq, Hash)]
pub enum AttrInterface {
    /// The attribute has a type.
    TypedAttr,
    /// It is printed behind the text.
    OutlinedAttr,
    /// It is printed once, and then named by its number.
    PrintOnceAttr,
    /// There is a constant of it.
    MaterializableAttr,
    /// An interface of a dialect's own.
    Other(&'static str),
}

const OUTLINED: &[AttrInterface] = &[AttrInterface::OutlinedAttr];

const TYPED: &[AttrInterface] = &[AttrInterface::TypedAttr];

impl AttrInterface {
    /// The interfaces that this one stands on: whatever implements it implements them too.
    pub fn parents(self) -> &'static [AttrInterface]
        ensures { result.now ≡ parents_of_attr self }
    {
        match self {
            AttrInterface::PrintOnceAttr => OUTLINED,
            AttrInterface::MaterializableAttr => TYPED,
            _ => &[],
        }
    }
}

/// How the blocks of a region are ordered.
#[derive(Clone, Copy, Debug, PartialEq, Eq, Hash)]
pub enum RegionKind {
    /// Operations may use what stands behind them.
    Graph,
    /// Operations use what is defined on each way to them.
    SSACFG,
}
