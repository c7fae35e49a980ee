//! Interfaces of operations: what each asks of an operation's rows and regions, told by types that stand for them.
#![tactic(auto)]

mod accepting;
mod appending;
mod operand_types;
mod operands;
mod ranges;
mod regions;
mod result_types;
mod results;
mod rows;
mod same_types;
mod single_blocks;
mod successors;
mod table;
mod type_faults;
mod type_tests;

pub use accepting::{
    IsTerminatorInterface, IsolatedFromAboveInterface, NoTerminatorInterface, RegionKindInterface,
};
pub use operand_types::{
    AllOperandsImplsTy, AllOperandsOfType, AllOperandsOfTypeVerifyErr, OperandNImplsTy,
    OperandNOfType, OperandNOfTypeError, OperandsMNImplsTy, OperandsMNOfType,
    OperandsMNOfTypeError,
};
pub use operands::{
    AtLeastNOpdsInterface, AtLeastNOpdsVerifyErr, AtMostNOpdsInterface, AtMostNOpdsVerifyErr,
    NOpdsInterface, NOpdsVerifyErr, OneOpdInterface, OptionalOpdInterface,
};
pub use ranges::{IndexRange, resolve_index_range};
pub use regions::{
    AtMostNRegionVerifyErr, AtMostNRegionsInterface, AtMostOneRegionInterface, NRegionsInterface,
    NRegionsVerifyErr, OneRegionInterface,
};
pub use result_types::{
    AllResultsImplsTy, AllResultsOfType, AllResultsOfTypeVerifyErr, ResultNImplsTy, ResultNOfType,
    ResultNOfTypeError, ResultsMNImplsTy, ResultsMNOfType, ResultsMNOfTypeError,
};
pub use results::{
    AtLeastNResultsInterface, AtLeastNResultsVerifyErr, AtMostNResultsInterface,
    AtMostNResultsVerifyErr, NResultsInterface, NResultsVerifyErr, OneResultInterface,
    OptionalResultInterface,
};
pub use rows::Row;
pub use same_types::{
    SameOperandsAndResultType, SameOperandsAndResultTypeVerifyErr, SameOperandsType,
    SameOperandsTypeVerifyErr, SameResultsType, SameResultsTypeVerifyErr,
};
pub use single_blocks::{SingleBlockRegionInterface, SingleBlockRegionVerifyErr};
pub use successors::{NSuccsInterface, NSuccsVerifyErr, OneSuccInterface};
pub use table::{RowsVerifyErr, is_told_by_rows, verify_rows};
pub use type_faults::{NotEnoughOperandsErr, NotEnoughResultsErr, TypeInterfaceImplsErr};
