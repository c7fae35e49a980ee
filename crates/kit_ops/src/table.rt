//! What each kind of operations is: one row a kind.
ghost use Rattle.std.specs.Prelude.{◌≡◌};
ghost use Rattle.kit_ops.specs.Table.{arithmetic_row, comparison_row, row_of, said_by, has_interface};

use crate::attributes::keys;
use crate::kinds::KitOp;
use ir_names::OpInterface;

/// How many results or operands an operation of a kind has.
#[derive(Clone, Copy, Debug, PartialEq, Eq)]
pub enum Count {
    /// So many.
    Exactly(usize),
    /// As its edges, its type or its values say.
    Any,
}

/// What a kind of operations is.
#[derive(Clone, Copy)]
pub struct Row {
    /// The name of its dialect, and its own.
    pub dialect: &'static str,
    pub name: &'static str,
    pub results: Count,
    pub operands: Count,
    pub successors: usize,
    pub regions: usize,
    /// The keys of the attributes that are its own.
    pub keys: &'static [&'static str],
    pub interfaces: &'static [OpInterface],
    /// Whether it does more than give its results.
    pub has_effects: bool,
}

const MODULE: Row = Row {
    dialect: "builtin",
    name: "module",
    results: Count::Exactly(0),
    operands: Count::Exactly(0),
    successors: 0,
    regions: 1,
    keys: &[keys::SYMBOL_NAME],
    interfaces: &[
        OpInterface::OneRegion,
        OpInterface::SingleBlockRegion,
        OpInterface::NoTerminator,
        OpInterface::SymbolOp,
        OpInterface::SymbolTable,
        OpInterface::IsolatedFromAbove,
        OpInterface::RegionKind,
        OpInterface::NResults(0),
        OpInterface::NOpds(0),
    ],
    has_effects: true,
};

const FUNC: Row = Row {
    dialect: "builtin",
    name: "func",
    results: Count::Exactly(0),
    operands: Count::Exactly(0),
    successors: 0,
    regions: 1,
    keys: &[keys::SYMBOL_NAME, keys::FUNCTION_TYPE],
    interfaces: &[
        OpInterface::OneRegion,
        OpInterface::SymbolOp,
        OpInterface::IsolatedFromAbove,
        OpInterface::BlockArgRemoval,
        OpInterface::NResults(0),
        OpInterface::NOpds(0),
    ],
    has_effects: true,
};

const CONSTANT: Row = Row {
    dialect: "builtin",
    name: "constant",
    results: Count::Exactly(1),
    operands: Count::Exactly(0),
    successors: 0,
    regions: 0,
    keys: &[keys::CONSTANT_VALUE],
    interfaces: &[
        OpInterface::OneResult,
        OpInterface::NOpds(0),
        OpInterface::ConstFold,
        OpInterface::SideEffects,
    ],
    has_effects: false,
};

const FORWARD_REF: Row = Row {
    dialect: "builtin",
    name: "forward_ref",
    results: Count::Exactly(1),
    operands: Count::Exactly(0),
    successors: 0,
    regions: 0,
    keys: &[],
    interfaces: &[],
    has_effects: true,
};

const BR: Row = Row {
    dialect: "kit",
    name: "br",
    results: Count::Exactly(0),
    operands: Count::Any,
    successors: 1,
    regions: 0,
    keys: &[],
    interfaces: &[
        OpInterface::IsTerminator,
        OpInterface::Branch,
        OpInterface::OneSucc,
        OpInterface::BranchOpFold,
    ],
    has_effects: true,
};

const COND_BR: Row = Row {
    dialect: "kit",
    name: "cond_br",
    results: Count::Exactly(0),
    operands: Count::Any,
    successors: 2,
    regions: 0,
    keys: &[keys::SEGMENT_SIZES],
    interfaces: &[
        OpInterface::IsTerminator,
        OpInterface::Branch,
        OpInterface::NSuccs(2),
        OpInterface::OperandSegment,
        OpInterface::BranchOpFold,
    ],
    has_effects: true,
};

const CALL: Row = Row {
    dialect: "kit",
    name: "call",
    results: Count::Any,
    operands: Count::Any,
    successors: 0,
    regions: 0,
    keys: &[keys::CALLEE, keys::CALLEE_TYPE],
    interfaces: &[
        OpInterface::CallOp,
        OpInterface::SymbolUserOp,
        OpInterface::SideEffects,
    ],
    has_effects: true,
};

const EMIT: Row = Row {
    dialect: "kit",
    name: "emit",
    results: Count::Exactly(0),
    operands: Count::Exactly(1),
    successors: 0,
    regions: 0,
    keys: &[],
    interfaces: &[
        OpInterface::OneOpd,
        OpInterface::NResults(0),
        OpInterface::SideEffects,
    ],
    has_effects: true,
};

const RETURN: Row = Row {
    dialect: "kit",
    name: "return",
    results: Count::Exactly(0),
    operands: Count::Any,
    successors: 0,
    regions: 0,
    keys: &[],
    interfaces: &[OpInterface::IsTerminator, OpInterface::NResults(0)],
    has_effects: true,
};

const NO_KEYS: &[&str] = &[];

const ARITHMETIC: &[OpInterface] = &[
    OpInterface::OneResult,
    OpInterface::NOpds(2),
    OpInterface::SameOperandsAndResultType,
    OpInterface::SameOperandsType,
    OpInterface::SameResultsType,
    OpInterface::ConstFold,
    OpInterface::SideEffects,
];

const COMPARISON: &[OpInterface] = &[
    OpInterface::OneResult,
    OpInterface::NOpds(2),
    OpInterface::SameOperandsType,
    OpInterface::ConstFold,
    OpInterface::SideEffects,
];

/// The row of an operation of arithmetic.
pub(crate) fn arithmetic(name: &'static str, has_effects: bool) -> Row
    ensures { said_by result ≡ arithmetic_row (record { name = name.now; has_effects = has_effects }) }
{
    Row {
        dialect: "kit",
        name,
        results: Count::Exactly(1),
        operands: Count::Exactly(2),
        successors: 0,
        regions: 0,
        keys: NO_KEYS,
        interfaces: ARITHMETIC,
        has_effects,
    }
}

/// The row of a comparison.
pub(crate) fn comparison(name: &'static str) -> Row
    ensures { said_by result ≡ comparison_row name.now }
{
    Row {
        dialect: "kit",
        name,
        results: Count::Exactly(1),
        operands: Count::Exactly(2),
        successors: 0,
        regions: 0,
        keys: NO_KEYS,
        interfaces: COMPARISON,
        has_effects: false,
    }
}

impl KitOp {
    /// Its row.
    pub fn row(self) -> Row
        ensures { said_by result ≡ row_of self }
    {
        match self {
            KitOp::Module => MODULE,
            KitOp::Func => FUNC,
            KitOp::Constant => CONSTANT,
            KitOp::ForwardRef => FORWARD_REF,
            KitOp::Arithmetic(arithmetic) => arithmetic.row(),
            KitOp::Comparison(comparison) => comparison.row(),
            KitOp::Br => BR,
            KitOp::CondBr => COND_BR,
            KitOp::Call => CALL,
            KitOp::Emit => EMIT,
            KitOp::Return => RETURN,
        }
    }

    /// Whether operations of the kind implement an interface.
    pub fn implements(self, interface: OpInterface) -> bool
        ensures { result ≡ has_interface self interface }
    {
        self.row().interfaces.contains(&interface)
    }
}
