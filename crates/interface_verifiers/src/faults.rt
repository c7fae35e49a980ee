//! Why an operation isn't as its dialect's table wants it.
use builtin_ifaces::VerifyFault;
use ir_names::OpInterface;
use region_ifaces::RegionBranchOpInterfaceVerifyErr;
use symbol_ifaces::SymbolTableInterfaceErr;
use thiserror::Error;

/// Why an operation isn't as an interface wants it.
#[derive(Clone, Copy, Debug, PartialEq, Eq, Error)]
pub enum InterfaceErr {
    /// The operation by itself isn't: its rows, regions, attributes, or the types or blocks that it names.
    #[error(transparent)]
    Alone(VerifyFault),
    /// The operations in its symbol table aren't.
    #[error(transparent)]
    SymbolTable(SymbolTableInterfaceErr),
    /// The edges into its regions aren't.
    #[error(transparent)]
    RegionBranch(RegionBranchOpInterfaceVerifyErr),
}

/// Why an operation of the dialect `builtin` isn't as its kind wants it.
#[derive(Clone, Copy, Debug, PartialEq, Eq, Error)]
pub enum BuiltinOpErr {
    /// No attribute of a function holds its type.
    #[error("no attribute holds the type of the function")]
    FunctionTypeMissing,
    /// The type of a function isn't one of functions.
    #[error("the type of the function is not that of a function")]
    NotAFunctionType,
    /// No attribute is the value of a constant.
    #[error("the constant has no value")]
    ValueMissing,
    /// The value of a constant has no type.
    #[error("the value of the constant has no type")]
    ValueNotTyped,
    /// The value of a constant has another type than its result.
    #[error("the value of the constant has another type than its result")]
    ResultTypeMismatch,
    /// A forward reference is left, in place of what it refers to.
    #[error("a forward reference is left")]
    ForwardRef,
}

/// Why an operation isn't as its dialect's table wants it.
#[derive(Clone, Copy, Debug, PartialEq, Eq, Error)]
pub enum OperationFault {
    /// An interface of its kind doesn't accept it.
    #[error("{interface:?}: {fault}")]
    Interface {
        /// The interface, the first one of the table.
        interface: OpInterface,
        /// Why.
        fault: InterfaceErr,
    },
    /// Its interfaces accept it, but it isn't as its kind of the dialect `builtin` wants it.
    #[error(transparent)]
    Builtin(BuiltinOpErr),
}
