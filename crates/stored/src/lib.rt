// What is stored of cells, lent to be read: keys with a distance each.
#![tactic(auto)]

// Two lent lists side by side, whose first `count` places are cells with their distances.
#[derive(Clone, Copy)]
pub struct Distances<'a> {
    pub keys: &'a [u64],
    pub distances: &'a [f32],
    pub count: usize,
}
