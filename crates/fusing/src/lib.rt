// Fusing one reading into the table (src/layers/tsdf.rs: update_from_depth, update_from_depth_ray).
#![tactic(auto)]

ghost use Rattle.std.specs.Prelude.{◌≡◌, true, length, take, Ok, None};
ghost use Rattle.search.specs.Keys.{find, ascending};
ghost use Rattle.table.specs.Table.{table, lengths_ok, table_check};
ghost use Rattle.fusing.specs.Fusing.{outcome, effect, averaging_of, new_weight, fused_voxel, fused_near, effect_of, kind_of, fuse};
ghost use Rattle.table.specs.Read.{same_lists, table_in};

use floats::{Metres, smaller, within};
use lists::insert;
use measuring::{Measured, Reading, admit};
use refusals::Refusal;
use search::{find_row, place_of};
use table::{Rows, RowsMut, Settings, Voxel, check_table};

// What a fuse that is not refused answers: a row is new, a stored one is changed, or the reading is far.
#[derive(Clone, Copy)]
pub enum Fused {
    New,
    Changed,
    Far,
}

// What a reading that is not refused does to a table: nothing where it is far; a row is added or changed, at its place.
#[derive(Clone, Copy)]
pub enum Step {
    Far,
    Added(usize),
    Changed(usize),
}

// How readings are averaged: the most that a row weighs.
#[derive(Clone, Copy)]
pub struct Averaging {
    pub most: f32,
}

impl From<Settings> for Averaging {
    ghost from_gives = { λ settings how. how ≡ averaging_of settings };

    fn from(settings: Settings) -> Averaging {
        Averaging {
            most: settings.max_weight,
        }
    }
}

// A weight after a reading of a confidence.
#[tactic(auto, unfolding(crate::specs::Fusing::new_weight))]
fn new_weight(how: Averaging, weight: f32, confidence: f32) -> f32
    ensures { result ≡ new_weight how weight confidence }
{
    smaller(weight + confidence, how.most)
}

// A voxel after a reading.
#[tactic(auto, unfolding(crate::specs::Fusing::fused_voxel))]
pub fn fused_voxel(how: Averaging, old: Voxel, m: Measured) -> Voxel
    ensures { result ≡ fused_voxel how old m }
{
    let weight = new_weight(how, old.weight, m.confidence);
    if 0.0 < old.weight {
        Voxel {
            distance: (old.distance * old.weight + m.distance * m.confidence) / weight,
            weight,
        }
    } else {
        Voxel {
            distance: m.distance,
            weight,
        }
    }
}

// A new row for `key`, which no row has.
fn add_row(how: Averaging, rows: &mut RowsMut, key: u64, m: Measured) -> Result<Step, Refusal>
    requires count_value { lengths_ok (length rows.old.keys.now) (length rows.old.distances.now)
        (length rows.old.weights.now) rows.old.count ≡ true }
    requires keys_value { ascending (take rows.old.count rows.old.keys.now) ≡ true }
    requires keys_value_2 { find key (take rows.old.count rows.old.keys.now) ≡ None }
    ensures table_after { effect result (table_in rows.new)
        ≡ fused_near how (table_in rows.old) key m }
    ensures same_lists { same_lists rows.old rows.new }
{
    let n = rows.count;
    let keys = &mut *rows.keys;
    if keys.len() <= n {
        return Err(Refusal::NoPlace);
    }
    let v = fused_voxel(
        how,
        Voxel {
            distance: 0.0,
            weight: 0.0,
        },
        m,
    );
    if !within(1000000.0, v.distance) {
        return Err(Refusal::TooLarge);
    }
    let place = place_of(keys, n, key);
    insert(keys, n, place, key);
    insert(rows.distances, n, place, v.distance);
    insert(rows.weights, n, place, v.weight);
    rows.count = n + 1;
    Ok(Step::Added(place))
}

// A reading that is not far, fused into the row of `key`.
fn fuse_near(how: Averaging, rows: &mut RowsMut, key: u64, m: Measured) -> Result<Step, Refusal>
    requires count_value { lengths_ok (length rows.old.keys.now) (length rows.old.distances.now)
        (length rows.old.weights.now) rows.old.count ≡ true }
    requires keys_value { ascending (take rows.old.count rows.old.keys.now) ≡ true }
    ensures table_after { effect result (table_in rows.new)
        ≡ fused_near how (table_in rows.old) key m }
    ensures same_lists { same_lists rows.old rows.new }
{
    let n = rows.count;
    let keys = &mut *rows.keys;
    let Some(i) = find_row(keys, n, key) else {
        return add_row(how, rows, key, m);
    };
    let old = Voxel {
        distance: rows.distances[i],
        weight: rows.weights[i],
    };
    let v = fused_voxel(how, old, m);
    if !within(1000000.0, v.distance) {
        return Err(Refusal::TooLarge);
    }
    rows.distances[i] = v.distance;
    rows.weights[i] = v.weight;
    Ok(Step::Changed(i))
}

// One reading, into a table that passed the check.
#[tactic(auto, unfolding(crate::specs::Fusing::effect_of, crate::specs::Fusing::fuse_if, crate::specs::Fusing::fused_if))]
pub fn fuse_sound(
    settings: Settings,
    rows: &mut RowsMut,
    key: u64,
    reading: Reading,
) -> Result<Step, Refusal>
    requires { table_check settings (table_in rows.old) ≡ (Ok tt) }
    ensures table_after { effect result (table_in rows.new)
        ≡ effect_of settings (table_in rows.old) key reading }
    ensures same_lists { same_lists rows.old rows.new }
{
    let Some(near) = admit(settings, key, reading)? else {
        return Ok(Step::Far);
    };
    fuse_near(Averaging::from(settings), rows, key, near)
}

// What is answered to what a reading did.
impl From<Step> for Fused {
    ghost from_gives = { λ step fused. fused ≡ kind_of step };

    fn from(step: Step) -> Fused {
        match step {
            Step::Added(_) => Fused::New,
            Step::Changed(_) => Fused::Changed,
            Step::Far => Fused::Far,
        }
    }
}

// One reading. A refusal or Far leaves the table as it was.
#[tactic(auto, unfolding(crate::specs::Fusing::fuse, crate::specs::Fusing::effect_of, crate::specs::Fusing::fuse_if))]
pub fn fuse(
    settings: Settings,
    rows: &mut RowsMut,
    key: u64,
    reading: Reading,
) -> Result<Fused, Refusal>
    ensures table_after { outcome result (table_in rows.new)
        ≡ fuse settings (table_in rows.old) key reading }
    ensures same_lists { same_lists rows.old rows.new }
{
    let count = rows.count;
    let keys = &mut *rows.keys;
    let distances = &mut *rows.distances;
    let weights = &mut *rows.weights;
    check_table(
        settings,
        &Rows {
            keys,
            distances,
            weights,
            count,
        },
    )?;
    let step = fuse_sound(settings, rows, key, reading)?;
    Ok(Fused::from(step))
}

// A direct reading.
pub fn update_from_depth(
    settings: Settings,
    rows: &mut RowsMut,
    key: u64,
    distance: Metres,
    confidence: f32,
) -> Result<Fused, Refusal>
    ensures table_after { outcome result (table_in rows.new)
        ≡ fuse settings (table_in rows.old)
        key (Reading.Direct distance confidence) }
    ensures same_lists { same_lists rows.old rows.new }
{
    let reading = Reading::Direct {
        distance,
        confidence,
    };
    fuse(settings, rows, key, reading)
}

// A ray from a sensor.
pub fn update_from_depth_ray(
    settings: Settings,
    rows: &mut RowsMut,
    key: u64,
    sensor_x: Metres,
    sensor_y: Metres,
    sensor_z: Metres,
    depth: Metres,
    confidence: f32,
) -> Result<Fused, Refusal>
    ensures table_after { outcome result (table_in rows.new)
        ≡ fuse settings (table_in rows.old)
        key (Reading.Ray sensor_x sensor_y sensor_z depth confidence) }
    ensures same_lists { same_lists rows.old rows.new }
{
    let reading = Reading::Ray {
        x: sensor_x,
        y: sensor_y,
        z: sensor_z,
        depth,
        confidence,
    };
    fuse(settings, rows, key, reading)
}
