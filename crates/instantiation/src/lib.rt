// Instantiations: what their bytes mean, and what reading them gives.
#![tactic(auto)]

// An instantiation's membership table but for its entries: the subset given to each special attribute, by its number,
// and the number of the entries.
#[derive(Clone, Copy)]
pub struct InstantiationTable {
    pub subsets: [u8; 16],
    pub count: usize,
}

// FORMAT 9.11: the bytes of the longest instantiation, and the least length of a slice for one.
pub const INSTANTIATION_SIZE: usize = 812;
