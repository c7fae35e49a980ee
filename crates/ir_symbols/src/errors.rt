//! What symbol tables refuse.
use std::alloc::AllocError;
use thiserror::Error;

/// Why a symbol table is not made, or an operation not put into it.
#[derive(Clone, Copy, Debug, PartialEq, Eq, Error)]
pub enum SymbolTableErr {
    /// The operation doesn't hold a symbol table.
    #[error("the operation holds no symbol table")]
    DoesNotImplementSymbolTableInterface,
    /// Another operation has the name.
    #[error("the symbol is defined already")]
    SymbolRedefined,
    /// The operation is no symbol, or has no name.
    #[error("the operation is no symbol with a name")]
    DoesNotImplementSymbolOpInterface,
    /// The operation is one of another block's, or the table is inside it.
    #[error("the operation is in another block, or around the table")]
    WrongParent,
    /// The operation can't be put before itself, or before what isn't in the table's block.
    #[error("the place isn't before another operation of the table's block")]
    WrongInsertionPoint,
    /// There is no memory for it.
    #[error("out of memory")]
    Memory,
}

impl From<AllocError> for SymbolTableErr {
    ghost use Rattle.std.specs.Prelude.{◌≡◌};
    ghost use Rattle.ir_symbols.specs.declared.errors.SymbolTableErr.TheVariants.{Memory};

    ghost from_gives = { λ _ e. e ≡ Memory };

    fn from(_error: AllocError) -> SymbolTableErr {
        SymbolTableErr::Memory
    }
}
