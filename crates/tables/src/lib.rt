// The tables of sections and of extern names that load writes, as bytes: records of whole words.
#![tactic(auto)]

mod externs_table;
mod sections;

pub use externs_table::write_externs;
pub use sections::write_sections;
