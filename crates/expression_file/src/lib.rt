// Expression files: whole files, and the walk over their nodes.
#![tactic(auto)]

mod files;

pub use files::{Header, accept};
