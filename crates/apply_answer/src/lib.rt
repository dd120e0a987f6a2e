// What Apply answers and leaves in its slices, and the laws of it: no code.
#![tactic(auto)]

// The lengths of the schema and of the output record that Apply wrote.
#[derive(Clone, Copy)]
pub struct Application {
    pub schema: usize,
    pub output: usize,
}
