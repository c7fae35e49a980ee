//! Operations that any dialect may have: modules, functions, constants and forward references; and the names of results
//! and arguments.
#![tactic(auto)]

mod argument_names;
mod building;
mod carried;
mod constants;
mod forward_refs;
mod functions;
mod held;
pub mod keys;
mod modules;
mod name_lists;
mod result_names;
mod tables;

pub use argument_names::{
    get_block_argument_name, get_num_block_argument_names, insert_block_argument_name,
    remove_block_argument_name, set_block_argument_name,
};
pub use constants::{ConstantOp, ConstantOpVerifyErr};
pub use forward_refs::{ForwardRefOp, ForwardRefOpExistenceErr};
pub use functions::{FuncOp, FuncOpTypeErr};
pub use modules::ModuleOp;
pub use name_lists::NameLists;
pub use result_names::{
    get_num_operation_result_names, get_operation_result_name, insert_operation_result_name,
    remove_operation_result_name, set_operation_result_name,
};
pub use tables::BuiltinOps;
