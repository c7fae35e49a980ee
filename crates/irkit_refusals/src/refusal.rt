//! Why a call is refused.
use ir_names::{GrowError, Place};
use ir_tokens::faults::{ScopeCause, TextFault};
use irkit_streams::{DecodeFault, ReadFault, WriteFault};
use kit_checks::{Rule, RuleFault};
use kit_interpreter::ExecFault;
use std::alloc::{AllocError, AllocFailed};
use thiserror::Error;

/// Why a call was refused, in the order in which refusals are numbered.
#[derive(Debug, PartialEq, Eq, Drop, Error)]
pub enum Refusal {
    /// The input's first byte that isn't part of valid UTF-8.
    #[error("not UTF-8 at byte {0}")]
    NotUtf8(usize),
    /// Line and column of the first token that no text of the grammar has there.
    #[error("syntax at {0}:{1}")]
    Syntax(usize, usize),
    /// Line and column where the text is nested too deep.
    #[error("too deep at {0}:{1}")]
    TooDeep(usize, usize),
    /// Line and column of a name, label or mark that can't be resolved.
    #[error("scope at {0}:{1}: {2}")]
    Scope(usize, usize, ScopeCause),
    /// A broken rule, and the operation that breaks it.
    #[error("rule {} at {}", .0.number(), .1)]
    Rule(Rule, Place),
    /// A request for memory was refused.
    #[error("memory")]
    Memory,
    /// A counter stood at its greatest value.
    #[error("counter full")]
    CounterFull,
    /// A read failed, or the end wasn't met in 2^40 reads.
    #[error("read")]
    Read,
    /// So many bytes were written when a write failed or took none.
    #[error("write after {0} bytes")]
    Write(usize),
}

ghost use Rattle.std.specs.Prelude.{◌≡◌};
ghost use Rattle.irkit_refusals.specs.Refusals.{number_of};

impl Refusal {
    /// Its number, from 1.
    pub fn number(&self) -> u8
        ensures { result ≡ number_of self.now }
    {
        match self {
            Refusal::NotUtf8(_) => 1,
            Refusal::Syntax(_, _) => 2,
            Refusal::TooDeep(_, _) => 3,
            Refusal::Scope(_, _, _) => 4,
            Refusal::Rule(_, _) => 5,
            Refusal::Memory => 6,
            Refusal::CounterFull => 7,
            Refusal::Read => 8,
            Refusal::Write(_) => 9,
        }
    }
}

impl From<AllocError> for Refusal {
    ghost use Rattle.irkit_refusals.specs.declared.refusal.Refusal.TheVariants.{Memory};

    ghost from_gives = { λ _ e. e ≡ Memory };

    fn from(_e: AllocError) -> Refusal {
        Refusal::Memory
    }
}

impl<T: Drop> From<AllocFailed<T>> for Refusal {
    ghost use Rattle.irkit_refusals.specs.declared.refusal.Refusal.TheVariants.{Memory};

    ghost from_gives = { λ _ e. e ≡ Memory };

    fn from(_e: AllocFailed<T>) -> Refusal {
        Refusal::Memory
    }
}

impl From<ReadFault> for Refusal {
    ghost use Rattle.irkit_refusals.specs.Refusals.{of_read_fault};

    ghost from_gives = { λ f e. e ≡ of_read_fault f };

    fn from(fault: ReadFault) -> Refusal {
        match fault {
            ReadFault::Read => Refusal::Read,
            ReadFault::Memory => Refusal::Memory,
        }
    }
}

impl From<DecodeFault> for Refusal {
    ghost use Rattle.irkit_refusals.specs.Refusals.{of_decode_fault};

    ghost from_gives = { λ f e. e ≡ of_decode_fault f };

    fn from(fault: DecodeFault) -> Refusal {
        match fault {
            DecodeFault::NotUtf8(at) => Refusal::NotUtf8(at),
            DecodeFault::Memory => Refusal::Memory,
        }
    }
}

impl From<WriteFault> for Refusal {
    ghost use Rattle.irkit_refusals.specs.Refusals.{of_write_fault};

    ghost from_gives = { λ f e. e ≡ of_write_fault f };

    fn from(fault: WriteFault) -> Refusal {
        Refusal::Write(fault.taken)
    }
}

impl From<GrowError> for Refusal {
    ghost use Rattle.irkit_refusals.specs.Refusals.{of_grow_error};

    ghost from_gives = { λ f e. e ≡ of_grow_error f };

    fn from(fault: GrowError) -> Refusal {
        match fault {
            GrowError::Memory => Refusal::Memory,
            GrowError::CounterFull => Refusal::CounterFull,
        }
    }
}

impl From<TextFault> for Refusal {
    ghost use Rattle.irkit_refusals.specs.Refusals.{of_text_fault};

    ghost from_gives = { λ f e. e ≡ of_text_fault f };

    fn from(fault: TextFault) -> Refusal {
        match fault {
            TextFault::Memory => Refusal::Memory,
            TextFault::CounterFull => Refusal::CounterFull,
            TextFault::Syntax(line, column) => Refusal::Syntax(line, column),
            TextFault::TooDeep(line, column) => Refusal::TooDeep(line, column),
            TextFault::Scope(line, column, cause) => Refusal::Scope(line, column, cause),
        }
    }
}

impl From<RuleFault> for Refusal {
    ghost use Rattle.irkit_refusals.specs.Refusals.{of_rule_fault};

    ghost from_gives = { λ f e. e ≡ of_rule_fault f };

    fn from(fault: RuleFault) -> Refusal {
        match fault {
            RuleFault::Memory => Refusal::Memory,
            RuleFault::Broken(rule, place) => Refusal::Rule(rule, place),
        }
    }
}

/// Why a function wasn't run, or what its run did wasn't written.
#[derive(Debug, PartialEq, Eq, Drop, Error)]
pub enum ExecutionFault {
    /// The module wasn't loaded, memory was refused, or a write failed.
    #[error("{0}")]
    Refused(Refusal),
    /// The path is none, or leads to no function.
    #[error("wrong path")]
    WrongPath,
    /// The function takes another number of arguments, or one is too large for its type.
    #[error("wrong arguments")]
    WrongArguments,
}

impl From<Refusal> for ExecutionFault {
    ghost use Rattle.irkit_refusals.specs.declared.refusal.ExecutionFault.TheVariants.{Refused};

    ghost from_gives = { λ f e. e ≡ Refused f };

    fn from(refusal: Refusal) -> ExecutionFault {
        ExecutionFault::Refused(refusal)
    }
}

impl From<AllocError> for ExecutionFault {
    ghost use Rattle.irkit_refusals.specs.declared.refusal.Refusal.TheVariants.{Memory};
    ghost use Rattle.irkit_refusals.specs.declared.refusal.ExecutionFault.TheVariants.{Refused};

    ghost from_gives = { λ _ e. e ≡ Refused Memory };

    fn from(_e: AllocError) -> ExecutionFault {
        ExecutionFault::Refused(Refusal::Memory)
    }
}

impl From<ExecFault> for ExecutionFault {
    ghost use Rattle.irkit_refusals.specs.Refusals.{of_exec_fault};

    ghost from_gives = { λ f e. e ≡ of_exec_fault f };

    fn from(fault: ExecFault) -> ExecutionFault {
        match fault {
            ExecFault::Memory => ExecutionFault::Refused(Refusal::Memory),
            ExecFault::WrongPath => ExecutionFault::WrongPath,
            ExecFault::WrongArguments => ExecutionFault::WrongArguments,
        }
    }
}
