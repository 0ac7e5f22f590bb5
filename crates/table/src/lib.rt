// The table: three lent lists whose first `count` places are rows, ascending by key (src/layers/tsdf.rs, the map).
#![tactic(auto)]

ghost use Rattle.std.specs.Prelude.{◌≡◌, ◌≤◌, length, Ok};
ghost use Rattle.table.specs.Table.{settings_of, defaults, table, rows_of, farthest_ok, settings_ok, lengths_ok, row_ok, rows_ok, need, check_with, table_check, then_test};
ghost use Rattle.floats.specs.Floats.{is_finite};
ghost use Rattle.refusals.specs.declared.Refusal.TheVariants.{BadReading};
ghost use Rattle.table.specs.Read.{table_of, rows_in};

use floats::{Metres, between, is_finite, positive_to, within};
use refusals::Refusal;
use search::keys_ascend;

// The most places that a table has.
pub const LONGEST_TABLE: usize = 65536;

// The four settings.
#[derive(Clone, Copy)]
pub struct Settings {
    pub truncation: Metres,
    pub max_weight: f32,
    pub voxel_size: Metres,
    pub max_distance: Metres,
}

// A row's distance and weight.
#[derive(Clone, Copy)]
pub struct Voxel {
    pub distance: f32,
    pub weight: f32,
}

// The settings of four numbers, in their one order.
pub fn settings_of(truncation: f32, max_weight: f32, voxel_size: f32, max_distance: f32) -> Settings
    ensures { result ≡ settings_of truncation max_weight voxel_size max_distance }
{
    Settings {
        truncation: Metres(truncation),
        max_weight,
        voxel_size: Metres(voxel_size),
        max_distance: Metres(max_distance),
    }
}

impl Settings {
    // The default maximum weight, 100, and voxel size, 0.02, with a truncation and a maximum distance.
    pub fn new(truncation: Metres, max_distance: Metres) -> Settings
        ensures { result ≡ defaults truncation max_distance }
    {
        settings_of(truncation.0, 100.0, 0.02, max_distance.0)
    }
}

// A table that is read: three lent lists side by side, whose first `count` places are its rows.
#[derive(Clone, Copy)]
pub struct Rows<'a> {
    pub keys: &'a [u64],
    pub distances: &'a [f32],
    pub weights: &'a [f32],
    pub count: usize,
}

// A table that is written: the same three lists, lent to be changed. Who passes one of them as `&` lends it again first, as
// `let keys = &mut *rows.keys;`: else only its length is known afterwards.
#[derive(Drop)]
pub struct RowsMut<'a> {
    pub keys: &'a mut [u64],
    pub distances: &'a mut [f32],
    pub weights: &'a mut [f32],
    pub count: usize,
}

// From 0 to 1,000,000, and not -0.
fn farthest_ok(x: f32) -> bool
    ensures { result ≡ farthest_ok x }
{
    between(0.0, 1000000.0, x) && f32::to_bits(x) != 0x8000_0000
}

// Each setting is in its range.
pub fn settings_ok(settings: Settings) -> bool
    ensures { result ≡ settings_ok settings }
{
    positive_to(1000.0, settings.truncation.0)
        && positive_to(1000000.0, settings.max_weight)
        && positive_to(1000.0, settings.voxel_size.0)
        && farthest_ok(settings.max_distance.0)
}

// Equal lengths within the limit, and no more rows than places.
pub fn lengths_ok(keys: usize, distances: usize, weights: usize, count: usize) -> bool
    ensures { result ≡ lengths_ok keys distances weights count }
{
    keys == distances && keys == weights && keys <= LONGEST_TABLE && count <= keys
}

// A row is in its ranges.
fn row_ok(most: f32, key: u64, distance: f32, weight: f32) -> bool
    ensures { result ≡ row_ok most key distance weight }
{
    ids::is_on_lattice(key) && within(1000000.0, distance) && between(0.0, most, weight)
}

// Every row is in its ranges.
fn rows_ok(most: f32, rows: &Rows) -> bool
    requires { (rows.now.count ≤ length rows.now.keys.now) × (length rows.now.distances.now ≡ length rows.now.keys.now) × (length rows.now.weights.now ≡ length rows.now.keys.now) }
    ensures { result ≡ rows_ok most (rows_in rows.now) }
{
    let Rows {
        keys,
        distances,
        weights,
        count,
    } = *rows;
    for i in 0..count {
        if !row_ok(most, keys[i], distances[i], weights[i]) {
            return false;
        }
    }
    true
}

// The tests of a call, in this order: settings (1), lists, `fits` says whether its own pass (2), the table's rows (3).
#[tactic(auto, unfolding(crate::specs::Table::check_with, crate::specs::Table::need))]
pub fn check_with(fits: bool, settings: Settings, rows: &Rows) -> Result<(), Refusal>
    ensures { result ≡ check_with fits settings (table_of rows.now) }
{
    let Rows {
        keys,
        distances,
        weights,
        count,
    } = *rows;
    if !settings_ok(settings) {
        return Err(Refusal::Setting);
    }
    if !(fits && lengths_ok(keys.len(), distances.len(), weights.len(), count)) {
        return Err(Refusal::Lengths);
    }
    if !(rows_ok(settings.max_weight, rows) && keys_ascend(keys, count)) {
        return Err(Refusal::BadRow);
    }
    Ok(())
}

// Those of a call that lends no list but the table's.
pub fn check_table(settings: Settings, rows: &Rows) -> Result<(), Refusal>
    ensures { result ≡ table_check settings (table_of rows.now) }
{
    check_with(true, settings, rows)
}

// Those of a call that takes a threshold too, which has to be finite (5).
#[tactic(auto, unfolding(crate::specs::Table::then_test, crate::specs::Table::need))]
pub fn check_threshold(
    fits: bool,
    settings: Settings,
    rows: &Rows,
    threshold: f32,
) -> Result<(), Refusal>
    ensures { result ≡ then_test (check_with fits settings (table_of rows.now))
        (need (is_finite threshold) BadReading (Ok tt)) }
{
    check_with(fits, settings, rows)?;
    if is_finite(threshold) {
        Ok(())
    } else {
        Err(Refusal::BadReading)
    }
}
