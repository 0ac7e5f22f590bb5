// The cells of the table near its surface, and its statistics (src/layers/tsdf.rs: get_surface_voxels, stats).
#![tactic(auto)]

ghost use Rattle.std.specs.Prelude.{◌≡◌, ◌≤◌, ◌<◌, length};
ghost use Rattle.std.proofs.lemmas.List.Edits.{sets};
ghost use Rattle.lists.specs.Listing.{count_of};
ghost use Rattle.lists.specs.Places.{cleared_from};
ghost use Rattle.tsdf_surveys.specs.Surface.{is_surface, surface_keys, surface_listed, surface_held};
ghost use Rattle.tsdf_surveys.specs.Statistics.{no_tally, tallied, tallied_all, mean_of, statistics_of};
ghost use Rattle.tsdf_questions.specs.Steps.{Accepted};
ghost use Rattle.table.specs.Read.{table_of, rows_in};

use ends::Ends;
use floats::{Metres, size};
use lists::{LONGEST_LIST, clear_from, count_of, put, room_for};
use refusals::Refusal;
use table::{Rows, Settings, check_table, check_threshold};

// How many rows there are and lie near the surface, the ends of their distances, and their mean weight.
#[derive(Clone, Copy)]
pub struct TsdfStats {
    pub voxel_count: usize,
    pub surface_voxel_count: usize,
    pub min_distance: Metres,
    pub max_distance: Metres,
    pub average_weight: f32,
}

// What is counted over rows.
#[derive(Clone, Copy)]
struct Tally {
    near: usize,
    ends: Ends,
    weight: f32,
}

// Near the surface, with a weight above 0.
fn is_surface(threshold: f32, distance: f32, weight: f32) -> bool
    ensures { result ≡ is_surface threshold distance weight }
{
    (size(distance) < threshold) & (0.0 < weight)
}

// The keys of the surface's cells; those past the list's end are only counted.
fn list_surface(threshold: f32, rows: &Rows, out: &mut [u64]) -> usize
    requires { Accepted (table_of rows.now) }
    ensures value { result ≡ length (surface_keys threshold (rows_in rows.now)) }
    ensures out_after { out.new ≡ sets out.old 0
        (surface_keys threshold (rows_in rows.now)) }
{
    let Rows {
        keys,
        distances,
        weights,
        count,
    } = *rows;
    let mut n = 0;
    for i in 0..count {
        if is_surface(threshold, distances[i], weights[i]) {
            put(out, n, keys[i]);
            n += 1;
        }
    }
    n
}

// The surface's cells after refusals 1, 2, of the list to be filled too, 3 and 5; the places past them are left to be cleared.
fn list_checked(
    settings: Settings,
    rows: &Rows,
    threshold: f32,
    out: &mut [u64],
) -> Result<usize, Refusal>
    ensures value { result ≡ surface_listed settings (table_of rows.now) threshold (length out.old) }
    ensures out_after { cleared_from 0 (count_of result) out.new
        ≡ surface_held settings (table_of rows.now) threshold (length out.old) }
{
    let fits = out.len() <= LONGEST_LIST;
    check_threshold(fits, settings, rows, threshold)?;
    let n = list_surface(threshold, rows, out);
    room_for(n, out.len())
}

// The keys of the cells near the surface, and then zeros; zeros where it is refused.
pub fn get_surface_voxels(
    settings: Settings,
    rows: &Rows,
    threshold: Metres,
    out: &mut [u64],
) -> Result<usize, Refusal>
    ensures value { result ≡ surface_listed settings
        (table_of rows.now) threshold.0
        (length out.old) }
    ensures out_after { out.new ≡ surface_held settings
        (table_of rows.now) threshold.0
        (length out.old) }
{
    let listed = list_checked(settings, rows, threshold.0, out);
    clear_from(out, count_of(listed), 0);
    listed
}

// One row more.
#[tactic(auto, unfolding(crate::specs::Statistics::tallied))]
fn add_row(near: f32, sum: Tally, distance: f32, weight: f32) -> Tally
    requires { sum.near < 65536 }
    ensures { result ≡ tallied near sum distance weight }
{
    if 0.0 < weight {
        Tally {
            near: sum.near + usize::from(size(distance) < near),
            ends: sum.ends.with(distance),
            weight: sum.weight + weight,
        }
    } else {
        sum
    }
}

// All rows.
fn tally_rows(near: f32, rows: &Rows) -> Tally
    requires { Accepted (table_of rows.now) }
    ensures { result ≡ tallied_all near no_tally (rows_in rows.now) }
{
    let Rows {
        distances,
        weights,
        count,
        ..
    } = *rows;
    let mut sum = Tally {
        near: 0,
        ends: Ends::none(),
        weight: 0.0,
    };
    for i in 0..count {
        sum = add_row(near, sum, distances[i], weights[i]);
    }
    sum
}

// The mean of `sum` over `count`; +0 over none.
fn mean(sum: f32, count: usize) -> f32
    requires { count ≤ 65536 }
    ensures { result ≡ mean_of sum count }
{
    if count == 0 {
        0.0
    } else {
        sum / (count as f32)
    }
}

// The statistics of a table.
pub fn stats(settings: Settings, rows: &Rows) -> Result<TsdfStats, Refusal>
    ensures { result ≡ statistics_of settings (table_of rows.now) }
{
    check_table(settings, rows)?;
    let sum = tally_rows(settings.voxel_size.0, rows);
    Ok(TsdfStats {
        voxel_count: rows.count,
        surface_voxel_count: sum.near,
        min_distance: Metres(sum.ends.lowest()),
        max_distance: Metres(sum.ends.highest()),
        average_weight: mean(sum.weight, rows.count),
    })
}
