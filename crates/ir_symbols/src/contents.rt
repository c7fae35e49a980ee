//! Symbols among the operations of a context.
use crate::payload::SymbolPayload;
use builtin_tables::{BuiltinDialect, keys};
use ir_context::OperationData;
use ir_names::OpInterface;

/// An operation of a kind that implements `SymbolOp` is called by the identifier under `builtin_sym_name`, and one of a kind
/// that implements `SymbolTable` holds a table.
impl<D: BuiltinDialect> SymbolPayload for OperationData<D> {
    ghost use Rattle.ir_names.specs.declared.interfaces.OpInterface.TheVariants.{SymbolTable};
    ghost use Rattle.ir_symbols.specs.Contents.{symbol_name};

    ghost name_in = { symbol_name D.op_has D.held_identifier };

    ghost holds_table = { λ o. D.op_has o.kind SymbolTable };

    fn symbol_name(&self) -> Option<&str> {
        if !D::op_implements(self.kind(), OpInterface::SymbolOp) {
            return None;
        }
        let attr = self.notes.attributes.get(keys::SYMBOL_NAME)?;
        Some(D::as_identifier(attr)?.as_str())
    }

    fn is_symbol_table(&self) -> bool {
        D::op_implements(self.kind(), OpInterface::SymbolTable)
    }
}
