// Writing an instantiation from the membership table.
#![tactic(auto)]

mod lists;
mod maps;
mod writing;

pub use writing::write_instantiation;
