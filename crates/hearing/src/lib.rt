// What the marks of a march say: a cell's distance where it is stored, the distance that a cell gets from its stored neighbours, and whether one of
// them has spread. A stored cell's mark is its distance, a waiting one's is +infinity.
#![tactic(auto)]

ghost use Rattle.std.specs.Prelude.{◌≡◌, true, not, ◌&&◌, List, ℕ, eqb, length, Some};
ghost use Rattle.ids.specs.Key.{on_lattice};
ghost use Rattle.neighbors.specs.Neighbors.{neighbours};
ghost use Rattle.table.specs.Table.{rows_of};
ghost use Rattle.marching.specs.March.{MarchedRow, distance_of, heard, settled};
ghost use Rattle.marching.specs.Lattice.{length_at, lattice_of};
ghost use Rattle.marching.specs.Spreading.{seed_in, has_spread, other_spread};
ghost use Rattle.hearing.specs.Hearing.{said, Marked, Lent, seeds_of, field_of};
ghost use Rattle.table.specs.Read.{table_of, rows_in};

use marching::{Course, better, candidate, clamped, is_seed, onward, spreads, step_length};
use marks::find;
use search::find_row;
use table::Rows;

// What a march goes by: the table that it is over, the threshold below which a row is a seed, and the course.
#[derive(Clone, Copy)]
pub struct Plan<'a> {
    pub fused: Rows<'a>,
    pub threshold: f32,
    pub course: Course,
}

// A cell's distance where it is stored, else +infinity.
pub fn known(keys: &[u64], distances: &[f32], key: u64) -> f32
    requires { (length distances.now ≡ length keys.now) × (key ≡ 1 → ⊥) }
    ensures { (rs : List MarchedRow) (ws : List ℕ) → Marked rs ws keys.now distances.now → distance_of key rs ≡ said result }
{
    let absent = f32::from_bits(0x7F80_0000);
    let Ok(i) = find(keys, key) else {
        return absent;
    };
    distances[i]
}

// The best so far, once the neighbour at a place is heard.
fn hear(
    keys: &[u64],
    distances: &[f32],
    course: Course,
    best: f32,
    place: usize,
    neighbour: u64,
) -> f32
    requires { (length distances.now ≡ length keys.now) × (neighbour ≡ 1 → ⊥) }
    ensures { (rs : List MarchedRow) (ws : List ℕ)
        → Marked rs ws keys.now distances.now
        → result ≡ heard course.size (length_at place) best (distance_of neighbour rs) }
{
    let distance = known(keys, distances, neighbour);
    if !floats::is_finite(distance) {
        return best;
    }
    let voice = candidate(course, step_length(place), distance);
    better(best, voice)
}

// A cell's distance from its stored neighbours.
pub fn settled(keys: &[u64], distances: &[f32], course: Course, key: u64) -> f32
    requires { (length distances.now ≡ length keys.now) × (on_lattice key ≡ true) }
    ensures { (rs : List MarchedRow) (ws : List ℕ)
        → Marked rs ws keys.now distances.now
        → result ≡ settled (lattice_of course) rs key }
{
    let near = neighbors::around(key);
    let mut best = 3.40282347e38;
    for (place, &neighbour) in near.cells().iter().enumerate() {
        best = hear(keys, distances, course, best, place, neighbour);
    }
    clamped(course, best)
}

// Whether the fused table has a seed at a key.
fn has_seed(fused: &Rows, threshold: f32, key: u64) -> bool
    requires { Lent (table_of fused.now) }
    ensures { result ≡ seed_in threshold (rows_in fused.now) key }
{
    let Rows {
        keys: fused_keys,
        distances: fused_distances,
        weights: fused_weights,
        count: fused_count,
    } = *fused;
    let Some(i) = find_row(fused_keys, fused_count, key) else {
        return false;
    };
    is_seed(threshold, key, fused_distances[i], fused_weights[i])
}

// Whether the row of a key, stored at a distance, has spread: it is a seed, or its neighbours' estimate is at most the maximum distance.
fn has_spread(plan: &Plan, key: u64, distance: f32) -> bool
    requires { Lent (table_of plan.now.fused) }
    ensures { result ≡ has_spread (seeds_of plan.now)
        (field_of plan.now) key (Some distance) }
{
    let course = plan.course;
    if spreads(course, onward(course, distance)) {
        return true;
    }
    has_seed(&plan.fused, plan.threshold, key)
}

// Whether a cell, but for the one that it is asked from, is stored and has spread.
fn spread_at(plan: &Plan, keys: &[u64], distances: &[f32], from: u64, key: u64) -> bool
    requires { Lent (table_of plan.now.fused)
        × ((length distances.now ≡ length keys.now) × (key ≡ 1 → ⊥)) }
    ensures { (rs : List MarchedRow) (ws : List ℕ)
        → Marked rs ws keys.now distances.now
        → result ≡ not (eqb key from) && has_spread (seeds_of plan.now)
        (field_of plan.now) key (distance_of key rs) }
{
    if key == from {
        return false;
    }
    let distance = known(keys, distances, key);
    if !floats::is_finite(distance) {
        return false;
    }
    has_spread(plan, key, distance)
}

// Whether a neighbour of a cell, but for the one that it is asked from, is stored and has spread.
pub fn other_spread(plan: &Plan, keys: &[u64], distances: &[f32], from: u64, key: u64) -> bool
    requires { Lent (table_of plan.now.fused)
        × ((length distances.now ≡ length keys.now) × (on_lattice key ≡ true)) }
    ensures { (rs : List MarchedRow) (ws : List ℕ)
        → Marked rs ws keys.now distances.now
        → result ≡ other_spread (seeds_of plan.now)
        (field_of plan.now) from rs (neighbours key) }
{
    let near = neighbors::around(key);
    for &neighbour in near.cells() {
        if spread_at(plan, keys, distances, from, neighbour) {
            return true;
        }
    }
    false
}
