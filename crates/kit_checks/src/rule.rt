//! The rules by their names, and what is answered of a module that breaks one.
ghost use Rattle.std.specs.Prelude.{◌≡◌};
ghost use Rattle.kit_checks.specs.Numbers.{number_of};

use ir_names::Place;
use std::alloc::{AllocError, AllocFailed};
use thiserror::Error;

/// A rule, of each operation of a module.
#[derive(Clone, Copy, Debug, PartialEq, Eq, Hash)]
pub enum Rule {
    /// The root is a module.
    RootIsModule,
    /// A module has one block without arguments, and holds modules and functions under distinct names.
    ModuleHolds,
    /// A function has a function type over integers, and an entry whose arguments have its input types.
    FunctionHasType,
    /// The blocks of a function hold constants and operations of `kit`, without regions.
    FunctionHolds,
    /// Every value is an integer of width 1 to 64.
    ValuesAreIntegers,
    /// Each block of a function ends with a terminator, and has no other.
    BlocksEnd,
    /// An operand is an earlier value of its block or a value of the entry block.
    OperandsAreVisible,
    /// Arithmetic, comparisons and conditions have the types that belong together.
    TypesAgree,
    /// An edge leads to a block of the same region, with operands of the types of the arguments there.
    EdgesFit,
    /// A call calls a function of the nearest enclosing module by its name and its type.
    CallsFit,
    /// What is returned has the function's result types.
    ReturnsFit,
    /// A constant's value is an integer of its result's type.
    ConstantsFit,
    /// There is no `forward_ref`, and there are no attributes but those that are known.
    AttributesAreKnown,
    /// An operation has the numbers and the attributes of its format.
    FitsFormat,
}

impl Rule {
    /// The number of the rule, from 1 to 14.
    pub fn number(self) -> u8
        ensures { result ≡ number_of self }
    {
        match self {
            Rule::RootIsModule => 1,
            Rule::ModuleHolds => 2,
            Rule::FunctionHasType => 3,
            Rule::FunctionHolds => 4,
            Rule::ValuesAreIntegers => 5,
            Rule::BlocksEnd => 6,
            Rule::OperandsAreVisible => 7,
            Rule::TypesAgree => 8,
            Rule::EdgesFit => 9,
            Rule::CallsFit => 10,
            Rule::ReturnsFit => 11,
            Rule::ConstantsFit => 12,
            Rule::AttributesAreKnown => 13,
            Rule::FitsFormat => 14,
        }
    }
}

/// Why a module isn't accepted.
#[derive(Debug, PartialEq, Eq, Error, Drop)]
pub enum RuleFault {
    /// There was no memory to find out.
    #[error("memory")]
    Memory,
    /// The rule is broken, first at this place.
    #[error("rule {} at {}", .0.number(), .1)]
    Broken(Rule, Place),
}

impl From<AllocError> for RuleFault {
    ghost use Rattle.kit_checks.specs.declared.rule.RuleFault.TheVariants.{Memory};

    ghost from_gives = { λ _ e. e ≡ Memory };

    fn from(_error: AllocError) -> RuleFault {
        RuleFault::Memory
    }
}

impl<T: Drop> From<AllocFailed<T>> for RuleFault {
    ghost use Rattle.kit_checks.specs.declared.rule.RuleFault.TheVariants.{Memory};

    ghost from_gives = { λ _ e. e ≡ Memory };

    fn from(_failed: AllocFailed<T>) -> RuleFault {
        RuleFault::Memory
    }
}
