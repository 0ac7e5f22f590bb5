// The cells of a marched table within a distance, and its statistics (src/layers/esdf.rs: get_voxels_within_distance, stats).
#![tactic(auto)]

ghost use Rattle.std.specs.Prelude.{◌≡◌, ◌≤◌, ◌<◌, ◌^◌, length};
ghost use Rattle.marching.specs.March.{marched_row};
ghost use Rattle.marched.specs.Steps.{Accepted};
ghost use Rattle.esdf_surveys.specs.Steps.{PutOne, Put, Filled};
ghost use Rattle.esdf_surveys.specs.Within.{is_within, cells_within, within_listed, within_keys, within_distances};
ghost use Rattle.esdf_surveys.specs.Statistics.{no_tally, tallied, tallied_all, get_stats};
ghost use Rattle.marched.specs.Read.{marched_in, marched_rows_in};

use ends::Ends;
use floats::size;
use lists::{clear_from, count_of, put, room_for};
use marched::{check, check_list, pair_ok};
use refusals::Refusal;
use stored::Distances;

// How many rows there are, below zero and not, and the ends of their distances.
#[derive(Clone, Copy)]
pub struct EsdfStats {
    pub voxel_count: usize,
    pub obstacle_voxel_count: usize,
    pub free_voxel_count: usize,
    pub min_distance: f32,
    pub max_distance: f32,
}

// What is counted over rows.
#[derive(Clone, Copy)]
struct Tally {
    obstacles: usize,
    free: usize,
    ends: Ends,
}

// A row that is within a distance is put; how many are put then.
fn put_if(
    threshold: f32,
    key: u64,
    distance: f32,
    out_keys: &mut [u64],
    out_distances: &mut [f32],
    n: usize,
) -> usize
    requires { n < 2 ^ 32 }
    ensures { PutOne (is_within threshold (marched_row key distance)) key distance n result out_keys.old
        out_distances.old out_keys.new out_distances.new }
{
    if size(distance) <= threshold {
        put(out_keys, n, key);
        put(out_distances, n, distance);
        n + 1
    } else {
        n
    }
}

// The rows within a distance, from the first place on, as far as they fit; and how many they are.
fn put_within(
    field: &Distances,
    threshold: f32,
    out_keys: &mut [u64],
    out_distances: &mut [f32],
) -> usize
    requires { Accepted (marched_in field.now) × (length field.now.keys.now ≤ 1048576) }
    ensures { Put (cells_within threshold (marched_rows_in field.now)) result
        out_keys.old out_distances.old out_keys.new
        out_distances.new }
{
    let Distances {
        keys,
        distances,
        count,
    } = *field;
    let mut n = 0;
    for i in 0..count {
        n = put_if(threshold, keys[i], distances[i], out_keys, out_distances, n);
    }
    n
}

// The rows within a distance, if the tests pass; the places past them are left to be cleared.
fn fill(
    field: &Distances,
    threshold: f32,
    out_keys: &mut [u64],
    out_distances: &mut [f32],
) -> Result<usize, Refusal>
    ensures { Filled (within_listed (marched_in field.now) threshold (length out_keys.old) (length out_distances.old))
        (cells_within threshold (marched_rows_in field.now)) result
        out_keys.old out_distances.old out_keys.new
        out_distances.new }
{
    let fit = pair_ok(out_keys.len(), out_distances.len());
    check_list(field, fit, threshold)?;
    let n = put_within(field, threshold, out_keys, out_distances);
    room_for(n, out_keys.len())
}

// The rows within a distance of the surface.
pub fn get_voxels_within_distance(
    field: &Distances,
    threshold: f32,
    out_keys: &mut [u64],
    out_distances: &mut [f32],
) -> Result<usize, Refusal>
    ensures value { result ≡ within_listed (marched_in field.now) threshold
        (length out_keys.old) (length out_distances.old) }
    ensures out_keys_after { out_keys.new ≡ within_keys
        (marched_in field.now) threshold (length out_keys.old)
        (length out_distances.old) }
    ensures out_distances_after { out_distances.new ≡ within_distances
        (marched_in field.now) threshold (length out_keys.old)
        (length out_distances.old) }
{
    let listed = fill(field, threshold, out_keys, out_distances);
    let n = count_of(listed);
    clear_from(out_keys, n, 0);
    clear_from(out_distances, n, 0.0);
    listed
}

// One distance more.
fn tally_with(tally: Tally, distance: f32) -> Tally
    requires { (tally.obstacles < 2 ^ 32) × (tally.free < 2 ^ 32) }
    ensures { result ≡ tallied tally distance }
{
    let below = distance < 0.0;
    Tally {
        obstacles: tally.obstacles + usize::from(below),
        free: tally.free + usize::from(!below),
        ends: tally.ends.with(distance),
    }
}

// All rows.
fn tally_all(field: &Distances) -> Tally
    requires { Accepted (marched_in field.now) × (length field.now.keys.now ≤ 1048576) }
    ensures { result ≡ tallied_all no_tally (marched_rows_in field.now) }
{
    let Distances {
        distances,
        count,
        ..
    } = *field;
    let mut tally = Tally {
        obstacles: 0,
        free: 0,
        ends: Ends::none(),
    };
    for i in 0..count {
        tally = tally_with(tally, distances[i]);
    }
    tally
}

// How many rows there are, below zero and not, and the ends of their distances.
pub fn stats(field: &Distances) -> Result<EsdfStats, Refusal>
    ensures { result ≡ get_stats (marched_in field.now) }
{
    check(field)?;
    let tally = tally_all(field);
    Ok(EsdfStats {
        voxel_count: field.count,
        obstacle_voxel_count: tally.obstacles,
        free_voxel_count: tally.free,
        min_distance: tally.ends.lowest(),
        max_distance: tally.ends.highest(),
    })
}
