// Fusing a reading or a batch of readings into a table.
ghost use Rattle.std.specs.Prelude.{◌≡◌};
ghost use Rattle.table.specs.Table.{settings_of, table};
ghost use Rattle.fusing.specs.Fusing.{fuse};
ghost use Rattle.batching.specs.Batches.{counts, batch};
ghost use Rattle.answers.specs.Readings.{direct_reading, ray_reading, fuse_back, fuse_handed, batch_back, batch_handed};

use answers::readings::{batch_back, fused_number};
use batching::Readings;
use floats::Metres;
use table::{RowsMut, settings_of};

#[unsafe(no_mangle)]
pub extern "C" fn akf_update_from_depth(
    truncation: f32,
    max_weight: f32,
    voxel_size: f32,
    max_distance: f32,
    keys: &mut [u64],
    distances: &mut [f32],
    weights: &mut [f32],
    count: &mut usize,
    key: u64,
    distance: f32,
    confidence: f32,
) -> u32
    ensures { fuse_back result (table keys.new distances.new weights.new count.new)
        ≡ fuse_handed
        (fuse (settings_of truncation max_weight voxel_size max_distance)
        (table keys.old distances.old weights.old count.old) key
        (direct_reading distance confidence)) }
{
    let settings = settings_of(truncation, max_weight, voxel_size, max_distance);
    let mut rows = RowsMut {
        keys,
        distances,
        weights,
        count: *count,
    };
    let fused = fusing::update_from_depth(settings, &mut rows, key, Metres(distance), confidence);
    *count = rows.count;
    fused_number(fused)
}

#[unsafe(no_mangle)]
pub extern "C" fn akf_update_from_depth_ray(
    truncation: f32,
    max_weight: f32,
    voxel_size: f32,
    max_distance: f32,
    keys: &mut [u64],
    distances: &mut [f32],
    weights: &mut [f32],
    count: &mut usize,
    key: u64,
    sensor_x: f32,
    sensor_y: f32,
    sensor_z: f32,
    depth: f32,
    confidence: f32,
) -> u32
    ensures { fuse_back result (table keys.new distances.new weights.new count.new)
        ≡ fuse_handed
        (fuse (settings_of truncation max_weight voxel_size max_distance)
        (table keys.old distances.old weights.old count.old) key
        (ray_reading sensor_x sensor_y sensor_z depth confidence)) }
{
    let settings = settings_of(truncation, max_weight, voxel_size, max_distance);
    let mut rows = RowsMut {
        keys,
        distances,
        weights,
        count: *count,
    };
    let fused = fusing::update_from_depth_ray(
        settings,
        &mut rows,
        key,
        Metres(sensor_x),
        Metres(sensor_y),
        Metres(sensor_z),
        Metres(depth),
        confidence,
    );
    *count = rows.count;
    fused_number(fused)
}

#[unsafe(no_mangle)]
pub extern "C" fn akf_batch_update(
    truncation: f32,
    max_weight: f32,
    voxel_size: f32,
    max_distance: f32,
    keys: &mut [u64],
    distances: &mut [f32],
    weights: &mut [f32],
    count: &mut usize,
    batch_keys: &[u64],
    batch_distances: &[f32],
    batch_confidences: &[f32],
    added: &mut usize,
    changed: &mut usize,
    far: &mut usize,
    at: &mut usize,
) -> u32
    ensures { batch_back result (table keys.new distances.new weights.new count.new)
        (counts added.new changed.new far.new) at.new
        ≡ batch_handed
        (batch (settings_of truncation max_weight voxel_size max_distance)
        (table keys.old distances.old weights.old count.old)
        batch_keys.now batch_distances.now batch_confidences.now) }
{
    let settings = settings_of(truncation, max_weight, voxel_size, max_distance);
    let mut rows = RowsMut {
        keys,
        distances,
        weights,
        count: *count,
    };
    let batched = batches::batch_update(
        settings,
        &mut rows,
        &Readings {
            keys: batch_keys,
            distances: batch_distances,
            confidences: batch_confidences,
        },
    );
    *count = rows.count;
    let back = batch_back(batched);
    let counts = back.counts;
    *added = counts.added;
    *changed = counts.changed;
    *far = counts.far;
    *at = back.at;
    back.number
}
