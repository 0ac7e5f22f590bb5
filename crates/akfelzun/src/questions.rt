// Questions about a table, and lists from it.
ghost use Rattle.std.specs.Prelude.{◌≡◌, false, length};
ghost use Rattle.floats.specs.Floats.{zero32};
ghost use Rattle.refusals.specs.Refusals.{answer_number, found_number};
ghost use Rattle.lists.specs.Listing.{count_of};
ghost use Rattle.table.specs.Table.{settings_of, table};
ghost use Rattle.tsdf_questions.specs.Lookups.{looked_up, distance_of, weight_of, surface_of};
ghost use Rattle.tsdf_surveys.specs.Surface.{surface_listed, surface_held};
ghost use Rattle.tsdf_surveys.specs.Statistics.{statistics_of};
ghost use Rattle.edges.specs.Listing.{edges_answer, firsts_held, seconds_held};
ghost use Rattle.answers.specs.Given.{given, found, no_metres, no_stats, one_if};

use answers::{NO_STATS, answer_number, found_number, one_if};
use floats::Metres;
use lists::count_of;
use table::{Rows, settings_of};

#[unsafe(no_mangle)]
pub extern "C" fn akf_tsdf_get_distance(
    truncation: f32,
    max_weight: f32,
    voxel_size: f32,
    max_distance: f32,
    keys: &[u64],
    distances: &[f32],
    weights: &[f32],
    count: usize,
    key: u64,
    distance: &mut f32,
) -> u32
    ensures value { result ≡ found_number
        (distance_of
        (looked_up (settings_of truncation max_weight voxel_size max_distance)
        (table keys.now distances.now weights.now count) key)) }
    ensures distance_after { distance.new ≡ (found no_metres
        (distance_of
        (looked_up (settings_of truncation max_weight voxel_size max_distance)
        (table keys.now distances.now weights.now count) key))).0 }
{
    let settings = settings_of(truncation, max_weight, voxel_size, max_distance);
    let found = tsdf_questions::get_distance(
        settings,
        &Rows {
            keys,
            distances,
            weights,
            count,
        },
        key,
    );
    *distance = found.unwrap_or(None).unwrap_or(Metres(0.0)).0;
    found_number(&found)
}

#[unsafe(no_mangle)]
pub extern "C" fn akf_tsdf_get_weight(
    truncation: f32,
    max_weight: f32,
    voxel_size: f32,
    max_distance: f32,
    keys: &[u64],
    distances: &[f32],
    weights: &[f32],
    count: usize,
    key: u64,
    weight: &mut f32,
) -> u32
    ensures value { result ≡ found_number
        (weight_of (looked_up (settings_of truncation max_weight voxel_size max_distance)
        (table keys.now distances.now weights.now count) key)) }
    ensures weight_after { weight.new ≡ found zero32
        (weight_of (looked_up (settings_of truncation max_weight voxel_size max_distance)
        (table keys.now distances.now weights.now count) key)) }
{
    let settings = settings_of(truncation, max_weight, voxel_size, max_distance);
    let found = tsdf_questions::get_weight(
        settings,
        &Rows {
            keys,
            distances,
            weights,
            count,
        },
        key,
    );
    *weight = found.unwrap_or(None).unwrap_or(0.0);
    found_number(&found)
}

#[unsafe(no_mangle)]
pub extern "C" fn akf_is_surface_voxel(
    truncation: f32,
    max_weight: f32,
    voxel_size: f32,
    max_distance: f32,
    keys: &[u64],
    distances: &[f32],
    weights: &[f32],
    count: usize,
    key: u64,
    threshold: f32,
    yes: &mut u32,
) -> u32
    ensures value { result ≡ answer_number
        (surface_of threshold
        (looked_up (settings_of truncation max_weight voxel_size max_distance)
        (table keys.now distances.now weights.now count) key)) }
    ensures yes_after { yes.new ≡ one_if (given false
        (surface_of threshold
        (looked_up (settings_of truncation max_weight voxel_size max_distance)
        (table keys.now distances.now weights.now count) key))) }
{
    let settings = settings_of(truncation, max_weight, voxel_size, max_distance);
    let found = tsdf_questions::is_surface_voxel(
        settings,
        &Rows {
            keys,
            distances,
            weights,
            count,
        },
        key,
        Metres(threshold),
    );
    *yes = one_if(found.unwrap_or(false));
    answer_number(&found)
}

#[unsafe(no_mangle)]
pub extern "C" fn akf_tsdf_stats(
    truncation: f32,
    max_weight: f32,
    voxel_size: f32,
    max_distance: f32,
    keys: &[u64],
    distances: &[f32],
    weights: &[f32],
    count: usize,
    voxel_count: &mut usize,
    surface_voxel_count: &mut usize,
    smallest: &mut f32,
    largest: &mut f32,
    average_weight: &mut f32,
) -> u32
    ensures value { result ≡ answer_number
        (statistics_of (settings_of truncation max_weight voxel_size max_distance)
        (table keys.now distances.now weights.now count)) }
    ensures voxel_count_after { voxel_count.new ≡ (given no_stats
        (statistics_of (settings_of truncation max_weight voxel_size max_distance)
        (table keys.now distances.now weights.now count))).voxel_count }
    ensures surface_voxel_count_after { surface_voxel_count.new ≡ (given no_stats
        (statistics_of (settings_of truncation max_weight voxel_size max_distance)
        (table keys.now distances.now weights.now count))).surface_voxel_count }
    ensures smallest_after { smallest.new ≡ (given no_stats
        (statistics_of (settings_of truncation max_weight voxel_size max_distance)
        (table keys.now distances.now weights.now count))).min_distance.0 }
    ensures largest_after { largest.new ≡ (given no_stats
        (statistics_of (settings_of truncation max_weight voxel_size max_distance)
        (table keys.now distances.now weights.now count))).max_distance.0 }
    ensures average_weight_after { average_weight.new ≡ (given no_stats
        (statistics_of (settings_of truncation max_weight voxel_size max_distance)
        (table keys.now distances.now weights.now count))).average_weight }
{
    let settings = settings_of(truncation, max_weight, voxel_size, max_distance);
    let statistics = tsdf_surveys::stats(
        settings,
        &Rows {
            keys,
            distances,
            weights,
            count,
        },
    );
    let found = statistics.unwrap_or(NO_STATS);
    *voxel_count = found.voxel_count;
    *surface_voxel_count = found.surface_voxel_count;
    *smallest = found.min_distance.0;
    *largest = found.max_distance.0;
    *average_weight = found.average_weight;
    answer_number(&statistics)
}

#[unsafe(no_mangle)]
pub extern "C" fn akf_get_surface_voxels(
    truncation: f32,
    max_weight: f32,
    voxel_size: f32,
    max_distance: f32,
    keys: &[u64],
    distances: &[f32],
    weights: &[f32],
    count: usize,
    threshold: f32,
    out: &mut [u64],
    listed: &mut usize,
) -> u32
    ensures value { result ≡ answer_number
        (surface_listed (settings_of truncation max_weight voxel_size max_distance)
        (table keys.now distances.now weights.now count) threshold
        (length out.old)) }
    ensures out_after { out.new ≡ surface_held (settings_of truncation max_weight voxel_size max_distance)
        (table keys.now distances.now weights.now count) threshold
        (length out.old) }
    ensures listed_after { listed.new ≡ count_of
        (surface_listed (settings_of truncation max_weight voxel_size max_distance)
        (table keys.now distances.now weights.now count) threshold
        (length out.old)) }
{
    let settings = settings_of(truncation, max_weight, voxel_size, max_distance);
    let answer = tsdf_surveys::get_surface_voxels(
        settings,
        &Rows {
            keys,
            distances,
            weights,
            count,
        },
        Metres(threshold),
        out,
    );
    *listed = count_of(answer);
    answer_number(&answer)
}

#[unsafe(no_mangle)]
pub extern "C" fn akf_get_zero_crossing_edges(
    truncation: f32,
    max_weight: f32,
    voxel_size: f32,
    max_distance: f32,
    keys: &[u64],
    distances: &[f32],
    weights: &[f32],
    count: usize,
    first: &mut [u64],
    second: &mut [u64],
    listed: &mut usize,
) -> u32
    ensures value { result ≡ answer_number
        (edges_answer (settings_of truncation max_weight voxel_size max_distance)
        (table keys.now distances.now weights.now count) (length first.old)
        (length second.old)) }
    ensures first_after { first.new ≡ firsts_held (settings_of truncation max_weight voxel_size max_distance)
        (table keys.now distances.now weights.now count) (length first.old)
        (length second.old) }
    ensures second_after { second.new ≡ seconds_held (settings_of truncation max_weight voxel_size max_distance)
        (table keys.now distances.now weights.now count) (length first.old)
        (length second.old) }
    ensures listed_after { listed.new ≡ count_of
        (edges_answer (settings_of truncation max_weight voxel_size max_distance)
        (table keys.now distances.now weights.now count) (length first.old)
        (length second.old)) }
{
    let settings = settings_of(truncation, max_weight, voxel_size, max_distance);
    let answer = edges::get_zero_crossing_edges(
        settings,
        &Rows {
            keys,
            distances,
            weights,
            count,
        },
        first,
        second,
    );
    *listed = count_of(answer);
    answer_number(&answer)
}
