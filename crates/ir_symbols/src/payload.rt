//! What symbol tables ask of what operations carry.
ghost use Rattle.std.specs.Prelude.{◌≡◌, ℕ, Bool, List, Option, option_copied};

/// What operations carry, where some of them are symbols and some hold a symbol table.
pub trait SymbolPayload {
    /// The name of the symbol; none where the operation is no symbol, or has no name.
    ghost name_in: { Self → Option (List ℕ) };

    /// Whether the operation holds a symbol table.
    ghost holds_table: { Self → Bool };

    /// The name of the symbol; none where the operation is no symbol, or has no name.
    fn symbol_name(&self) -> Option<&str>
        ensures { option_copied result ≡ name_in self.now };

    /// Whether the operation holds a symbol table.
    fn is_symbol_table(&self) -> bool
        ensures { result ≡ holds_table self.now };
}
