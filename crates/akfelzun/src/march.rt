// The march, and questions about a marched table.
ghost use Rattle.std.specs.Prelude.{◌≡◌, false, length};
ghost use Rattle.floats.specs.Floats.{zero32};
ghost use Rattle.refusals.specs.Refusals.{answer_number, found_number};
ghost use Rattle.lists.specs.Listing.{count_of};
ghost use Rattle.table.specs.Table.{settings_of, table};
ghost use Rattle.esdf.specs.Compute.{computed, places};
ghost use Rattle.marched.specs.Marched.{marched_table};
ghost use Rattle.esdf_questions.specs.Lookups.{get_distance, is_free_space};
ghost use Rattle.esdf_questions.specs.Gradient.{get_gradient};
ghost use Rattle.esdf_surveys.specs.Within.{within_listed, within_keys, within_distances};
ghost use Rattle.esdf_surveys.specs.Statistics.{get_stats};
ghost use Rattle.answers.specs.Given.{given, found, one_if};
ghost use Rattle.mesh_answers.specs.Marching.{march_back, march_handed, no_slope, no_marched_stats};

use answers::{answer_number, found_number, one_if};
use lists::count_of;
use mesh_answers::NO_MARCHED_STATS;
use stored::Distances;
use table::{Rows, settings_of};

#[unsafe(no_mangle)]
pub extern "C" fn akf_compute_from_tsdf(
    truncation: f32,
    max_weight: f32,
    voxel_size: f32,
    max_distance: f32,
    keys: &[u64],
    distances: &[f32],
    weights: &[f32],
    count: usize,
    threshold: f32,
    marched_keys: &mut [u64],
    marched_distances: &mut [f32],
    waiting_estimates: &mut [f32],
    waiting_keys: &mut [u64],
    rows: &mut usize,
    takings: &mut usize,
) -> u32
    ensures { march_back result marched_keys.new marched_distances.new
        waiting_estimates.new waiting_keys.new rows.new takings.new
        ≡ march_handed
        (computed (settings_of truncation max_weight voxel_size max_distance)
        (table keys.now distances.now weights.now count) threshold
        (places (length marched_keys.old) (length marched_distances.old)
        (length waiting_estimates.old) (length waiting_keys.old))) }
{
    let settings = settings_of(truncation, max_weight, voxel_size, max_distance);
    let marched = esdf::compute_from_tsdf(
        settings,
        &Rows {
            keys,
            distances,
            weights,
            count,
        },
        threshold,
        marched_keys,
        marched_distances,
        waiting_estimates,
        waiting_keys,
    );
    let (marched_rows, marched_takings) = marched.unwrap_or((0, 0));
    *rows = marched_rows;
    *takings = marched_takings;
    answer_number(&marched)
}

#[unsafe(no_mangle)]
pub extern "C" fn akf_esdf_get_distance(
    keys: &[u64],
    distances: &[f32],
    count: usize,
    key: u64,
    distance: &mut f32,
) -> u32
    ensures value { result ≡ found_number (get_distance (marched_table keys.now distances.now count) key) }
    ensures distance_after { distance.new ≡ found zero32 (get_distance (marched_table keys.now distances.now count) key) }
{
    let found = esdf_questions::get_distance(
        &Distances {
            keys,
            distances,
            count,
        },
        key,
    );
    *distance = found.unwrap_or(None).unwrap_or(0.0);
    found_number(&found)
}

#[unsafe(no_mangle)]
pub extern "C" fn akf_is_free_space(
    keys: &[u64],
    distances: &[f32],
    count: usize,
    key: u64,
    threshold: f32,
    yes: &mut u32,
) -> u32
    ensures value { result ≡ answer_number (is_free_space (marched_table keys.now distances.now count) key threshold) }
    ensures yes_after { yes.new ≡ one_if (given false (is_free_space (marched_table keys.now distances.now count) key threshold)) }
{
    let found = esdf_questions::is_free_space(
        &Distances {
            keys,
            distances,
            count,
        },
        key,
        threshold,
    );
    *yes = one_if(found.unwrap_or(false));
    answer_number(&found)
}

#[unsafe(no_mangle)]
pub extern "C" fn akf_get_gradient(
    keys: &[u64],
    distances: &[f32],
    count: usize,
    key: u64,
    gx: &mut f32,
    gy: &mut f32,
    gz: &mut f32,
) -> u32
    ensures value { result ≡ found_number (get_gradient (marched_table keys.now distances.now count) key) }
    ensures gx_after { gx.new ≡ (found no_slope (get_gradient (marched_table keys.now distances.now count) key)).0 }
    ensures gy_after { gy.new ≡ (found no_slope (get_gradient (marched_table keys.now distances.now count) key)).1 }
    ensures gz_after { gz.new ≡ (found no_slope (get_gradient (marched_table keys.now distances.now count) key)).2 }
{
    let gradient = esdf_questions::get_gradient(
        &Distances {
            keys,
            distances,
            count,
        },
        key,
    );
    let (x, y, z) = gradient.unwrap_or(None).unwrap_or((0.0, 0.0, 0.0));
    *gx = x;
    *gy = y;
    *gz = z;
    found_number(&gradient)
}

#[unsafe(no_mangle)]
pub extern "C" fn akf_get_voxels_within_distance(
    keys: &[u64],
    distances: &[f32],
    count: usize,
    threshold: f32,
    out_keys: &mut [u64],
    out_distances: &mut [f32],
    listed: &mut usize,
) -> u32
    ensures value { result ≡ answer_number
        (within_listed (marched_table keys.now distances.now count) threshold
        (length out_keys.old) (length out_distances.old)) }
    ensures out_keys_after { out_keys.new ≡ within_keys
        (marched_table keys.now distances.now count) threshold (length out_keys.old)
        (length out_distances.old) }
    ensures out_distances_after { out_distances.new ≡ within_distances
        (marched_table keys.now distances.now count) threshold (length out_keys.old)
        (length out_distances.old) }
    ensures listed_after { listed.new ≡ count_of
        (within_listed (marched_table keys.now distances.now count) threshold
        (length out_keys.old) (length out_distances.old)) }
{
    let answer = esdf_surveys::get_voxels_within_distance(
        &Distances {
            keys,
            distances,
            count,
        },
        threshold,
        out_keys,
        out_distances,
    );
    *listed = count_of(answer);
    answer_number(&answer)
}

#[unsafe(no_mangle)]
pub extern "C" fn akf_esdf_stats(
    keys: &[u64],
    distances: &[f32],
    count: usize,
    voxel_count: &mut usize,
    obstacle_voxel_count: &mut usize,
    free_voxel_count: &mut usize,
    smallest: &mut f32,
    largest: &mut f32,
) -> u32
    ensures value { result ≡ answer_number (get_stats (marched_table keys.now distances.now count)) }
    ensures voxel_count_after { voxel_count.new ≡ (given no_marched_stats (get_stats (marched_table keys.now distances.now count))).voxel_count }
    ensures obstacle_voxel_count_after { obstacle_voxel_count.new ≡ (given no_marched_stats
        (get_stats (marched_table keys.now distances.now count))).obstacle_voxel_count }
    ensures free_voxel_count_after { free_voxel_count.new ≡ (given no_marched_stats
        (get_stats (marched_table keys.now distances.now count))).free_voxel_count }
    ensures smallest_after { smallest.new ≡ (given no_marched_stats (get_stats (marched_table keys.now distances.now count))).min_distance }
    ensures largest_after { largest.new ≡ (given no_marched_stats (get_stats (marched_table keys.now distances.now count))).max_distance }
{
    let statistics = esdf_surveys::stats(&Distances {
        keys,
        distances,
        count,
    });
    let found = statistics.unwrap_or(NO_MARCHED_STATS);
    *voxel_count = found.voxel_count;
    *obstacle_voxel_count = found.obstacle_voxel_count;
    *free_voxel_count = found.free_voxel_count;
    *smallest = found.min_distance;
    *largest = found.max_distance;
    answer_number(&statistics)
}
