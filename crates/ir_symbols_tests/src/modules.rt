//! Modules of operations with names.
use ir_context::{
    BlockCalls, BlockLists, OperationCalls, OperationLists, RegionCalls, TypeTable, TypedProgram,
};
use ir_names::{GrowError, TypeHandle};
use ir_program::{BasicBlock, IRNode, Operation, Ptr};
use ir_symbols::{SymbolPayload, SymbolTable, SymbolTableErr, single_block};
use std::alloc::Global;

/// What an operation carries: its name, if it is a symbol, and whether it holds a symbol table.
#[derive(Clone, Copy)]
pub struct Item {
    pub name: Option<&'static str>,
    pub is_table: bool,
}

impl SymbolPayload for Item {
    ghost use Rattle.std.specs.Prelude.{option_copied};

    ghost name_in = { λ item. option_copied item.name };

    ghost holds_table = { λ item. item.is_table };

    fn symbol_name(&self) -> Option<&str> {
        self.name
    }

    fn is_symbol_table(&self) -> bool {
        self.is_table
    }
}

/// A symbol that holds no table.
pub const fn symbol(name: &'static str) -> Item {
    Item {
        name: Some(name),
        is_table: false,
    }
}

/// A table that is a symbol itself.
pub const fn table(name: &'static str) -> Item {
    Item {
        name: Some(name),
        is_table: true,
    }
}

/// Neither a symbol nor a table.
pub const PLAIN: Item = Item {
    name: None,
    is_table: false,
};

/// No types.
#[derive(Drop)]
pub struct NoTypes;

impl TypeTable for NoTypes {
    ghost type_count = { λ _. 0 };

    fn is_known(&self, _ty: TypeHandle) -> bool {
        false
    }
}

/// Operations with names.
pub type Items = TypedProgram<Item, (), NoTypes>;

/// Why a module isn't made.
fn why(error: GrowError) -> SymbolTableErr {
    match error {
        GrowError::Memory => SymbolTableErr::Memory,
        GrowError::CounterFull => SymbolTableErr::WrongParent,
    }
}

/// An operation of no block, without regions.
pub fn make(alloc: Global, ctx: &mut Items, item: Item) -> Result<Ptr<Operation>, SymbolTableErr> {
    match ctx.new_operation(alloc, item, &[], &[], &[], 0) {
        Ok(op) => Ok(op),
        Err(error) => Err(why(error)),
    }
}

/// Gives an operation a region with one block.
fn put_body(
    alloc: Global,
    ctx: &mut Items,
    op: Ptr<Operation>,
) -> Result<Ptr<BasicBlock>, SymbolTableErr> {
    let block = match ctx.new_block(alloc, (), &[]) {
        Ok(block) => block,
        Err(error) => return Err(why(error)),
    };
    if op.is_live(ctx) {
        let region = ctx.add_region(op)?;
        if region.is_live(ctx) && block.is_live(ctx) {
            if !block.is_linked(ctx) {
                if !ctx.is_inside(IRNode::Region(region), IRNode::BasicBlock(block)) {
                    block.insert_at_back(ctx, region);
                    return Ok(block);
                }
            }
        }
    }
    Err(SymbolTableErr::WrongParent)
}

/// An operation of no block that has one region with one block.
pub fn make_module(
    alloc: Global,
    ctx: &mut Items,
    item: Item,
) -> Result<(Ptr<Operation>, Ptr<BasicBlock>), SymbolTableErr> {
    let op = make(alloc, ctx, item)?;
    let body = put_body(alloc, ctx, op)?;
    Ok((op, body))
}

/// Puts an operation at the end of a block, without a table.
pub fn append(
    ctx: &mut Items,
    body: Ptr<BasicBlock>,
    op: Ptr<Operation>,
) -> Result<(), SymbolTableErr> {
    if op.is_live(ctx) && body.is_live(ctx) {
        if !op.is_linked(ctx) {
            if !ctx.is_inside(IRNode::BasicBlock(body), IRNode::Operation(op)) {
                op.insert_at_back(ctx, body);
                return Ok(());
            }
        }
    }
    Err(SymbolTableErr::WrongParent)
}

/// Makes an operation something else.
pub fn change(ctx: &mut Items, op: Ptr<Operation>, item: Item) {
    if op.is_live(ctx) {
        *ctx.payload_mut(op) = item;
    }
}

/// The table of an operation with a body.
pub fn table_of(
    alloc: Global,
    ctx: &Items,
    op: Ptr<Operation>,
) -> Result<SymbolTable, SymbolTableErr> {
    if op.is_live(ctx) {
        if let Some(_body) = single_block(ctx, op) {
            return SymbolTable::new(alloc, ctx, op);
        }
    }
    Err(SymbolTableErr::WrongParent)
}

/// Puts an operation into a table and its block.
pub fn insert(
    table: &mut SymbolTable,
    ctx: &mut Items,
    op: Ptr<Operation>,
    before: Option<Ptr<Operation>>,
) -> Result<(), SymbolTableErr> {
    let body = table.body();
    if op.is_live(ctx) && body.is_live(ctx) {
        return table.insert(ctx, op, before);
    }
    Err(SymbolTableErr::DoesNotImplementSymbolTableInterface)
}

/// Erases an operation and its entries.
pub fn erase(table: &mut SymbolTable, ctx: &mut Items, op: Ptr<Operation>) -> bool {
    if op.is_live(ctx) {
        if ctx.can_erase(IRNode::Operation(op)) {
            table.erase(ctx, op);
            return true;
        }
    }
    false
}

/// Lets a context go. It stands in a function of its own so that it is proved once.
pub fn finish(_ctx: Items) {}
