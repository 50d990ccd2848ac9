//! Lines of texts of modules, written.
#![tactic(auto)]

mod instructions;
mod lines;
mod named;
mod numeric;
mod parts;

pub use instructions::{put_expr, put_instr, put_item};
pub use lines::{
    put_data_line, put_elements_line, put_export_line, put_function_line, put_global_line,
    put_group_line, put_import_line, put_local_line, put_memory_line, put_module_line,
    put_start_line, put_table_line, put_tag_line, put_type_line,
};
