// The march: its definition, step by step (specs/), and its theorems (proofs/); here what a step works out of numbers alone. The code over lists is
// that of fronts.
#![tactic(auto)]

ghost use Rattle.std.specs.Prelude.{◌≡◌, ◌≤◌, ◌<◌, ◌^◌};
ghost use Rattle.std.specs.Float.Ieee.{neg, le};
ghost use Rattle.floats.specs.Floats.{clamp_of};
ghost use Rattle.table.specs.Table.{row};
ghost use Rattle.marching.specs.March.{candidate, better, is_seed, onward};
ghost use Rattle.marching.specs.Lattice.{length_at, lattice_of};
ghost use Rattle.marching.specs.Crowding.{surely_full};

use floats::{clamp, sign, size};

// What a march goes by: the voxel size and the maximum distance.
#[derive(Clone, Copy)]
pub struct Course {
    pub size: f32,
    pub most: f32,
}

// The length of a step to the neighbour at a place: the root of 3 for the first eight, 2 after.
pub fn step_length(place: usize) -> f32
    ensures { result ≡ length_at place }
{
    if place < 8 {
        f32::from_bits(0x3FDD_B3D7)
    } else {
        2.0
    }
}

// What a stored neighbour at a distance says, over a step of a length.
pub fn candidate(course: Course, length: f32, distance: f32) -> f32
    ensures { result ≡ candidate course.size length distance }
{
    sign(distance) * (size(distance) + length * course.size)
}

// The better of two: the earlier one, unless the later is strictly smaller in size.
pub fn better(best: f32, later: f32) -> f32
    ensures { result ≡ better best later }
{
    if size(later) < size(best) {
        later
    } else {
        best
    }
}

// The best of all, clamped to ± the maximum distance.
pub fn clamped(course: Course, best: f32) -> f32
    ensures { result ≡ clamp_of best (neg course.most) course.most }
{
    clamp(best, -course.most, course.most)
}

// Where the neighbours of a cell at a distance wait.
pub fn onward(course: Course, distance: f32) -> f32
    ensures { result ≡ onward (lattice_of course) distance }
{
    size(distance) + f32::from_bits(0x3FDD_B3D7) * course.size
}

// They wait if that is at most the maximum distance.
pub fn spreads(course: Course, estimate: f32) -> bool
    ensures { result ≡ le estimate course.most }
{
    estimate <= course.most
}

// Whether a row is a seed.
pub fn is_seed(threshold: f32, key: u64, distance: f32, weight: f32) -> bool
    ensures { result ≡ is_seed threshold (row key distance weight) }
{
    if size(distance) < threshold {
        0.0 < weight
    } else {
        false
    }
}

// Whether the march is sure to end for want of a row's place: every waiting cell is taken yet, and takings are at most the rows; and each place that is
// left for a row adds at most 14 waiting cells, for which there is room.
pub fn surely_full(
    places: usize,
    waiting_places: usize,
    rows: usize,
    waiting: usize,
    takings: usize,
) -> bool
    requires { (places < 2 ^ 60) × (rows ≤ places) × (waiting < 2 ^ 60) × (takings ≤ places) }
    ensures { result ≡ surely_full places waiting_places rows waiting takings }
{
    (places < takings + waiting) & (waiting + 14 * (places - rows) <= waiting_places)
}
