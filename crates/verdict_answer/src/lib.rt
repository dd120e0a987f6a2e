// What Verdict answers and leaves in its slices, and the laws of it: no code.
#![tactic(auto)]

// The lowest special attribute whose column allows nothing, or 16, and the first allowed subset of each
// special attribute below it; 0 for any other number.
#[derive(Clone, Copy)]
pub struct Subsets {
    pub blocked: u8,
    pub chosen: [u8; 16],
}

// The length of the witness schema and the number of its memberships; or the lowest special attribute whose column
// allows nothing, or 0 where each allows something but the relations cannot all be filled.
#[derive(Clone, Copy)]
pub enum Outcome {
    Typable(usize, u8),
    Untypable(u8),
}

// The verdict without its witness: the number of memberships that the witness has; or the attribute.
#[derive(Clone, Copy)]
pub enum Typability {
    Typable(u8),
    Untypable(u8),
}
