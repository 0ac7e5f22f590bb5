// A part of a batch: up to 4,096 readings are fused into own rows, which are settled into the table column by column.
#![tactic(auto)]

ghost use Rattle.std.specs.Prelude.{◌≡◌, true, ◌+◌, ◌<◌, ◌≤◌, length, take, Ok};
ghost use Rattle.search.specs.Keys.{ascending};
ghost use Rattle.table.specs.Table.{table, rows_of, lengths_ok, settings_ok, table_check, relaid};
ghost use Rattle.gathering.specs.Gathering.{puts, seats_of, Loaded};
ghost use Rattle.batching.specs.Batches.{entry};
ghost use Rattle.batching.specs.Read.{entries_in, OneLength};
ghost use Rattle.sorting.specs.Sorting.{Numbered};
ghost use Rattle.batching.specs.Steps.{is_far};
ghost use Rattle.owning.specs.Runs.{old_voxel, Placed, Stepped, passed_far, OwnSlots, RanTo, RunTo};
ghost use Rattle.table.specs.Read.{same_lists, table_in, table_of};

use batching::{Readings, RefusedReading};
use floats::{Metres, between, within};
use fusing::{Averaging, fused_voxel};
use gathering::{hold_back, load, locate, settle};
use measuring::{Measured, Reading, admit};
use refusals::Refusal;
use sorting::{distinct, sort};
use table::{Rows, RowsMut, Settings, Voxel};

// What a reading that is not refused does to the own rows of a batch: nothing where it is far; a row is added or changed;
// or it is left to others where its row has no place in the table.
#[derive(Clone, Copy)]
enum Owned {
    Far,
    Added,
    Changed,
    Unknown,
}

// How far a part of a batch went, or where it was refused; and how many of its readings were far.
#[derive(Clone, Copy)]
pub struct Run {
    pub end: Result<usize, RefusedReading>,
    pub far: usize,
}

// How many rows a part of a batch adds, and how far it went.
#[derive(Clone, Copy)]
struct Ran {
    added: usize,
    run: Run,
}

// The voxel of an own row that stands; one that waits starts with (0, 0).
fn old_voxel(stands: bool, distance: f32, weight: f32) -> Voxel
    ensures { result ≡ old_voxel stands distance weight }
{
    if stands {
        Voxel { distance, weight }
    } else {
        Voxel {
            distance: 0.0,
            weight: 0.0,
        }
    }
}

// A near reading, fused into the own row at `place`; a row that waits is taken only where the table has a place for it.
fn fuse_place(
    how: Averaging,
    own_distances: &mut [f32],
    own_weights: &mut [f32],
    place: usize,
    spare: bool,
    m: Measured,
) -> Result<Owned, Refusal>
    requires { (place < length own_distances.old) × (length own_weights.old ≡ length own_distances.old) }
    ensures { Placed how own_distances.old own_weights.old place spare m result
        own_distances.new own_weights.new }
{
    let distance = own_distances[place];
    let weight = own_weights[place];
    let stands = between(0.0, how.most, weight);
    if !(stands | spare) {
        return Ok(Owned::Unknown);
    }
    let v = fused_voxel(how, old_voxel(stands, distance, weight), m);
    if !within(1000000.0, v.distance) {
        return Err(Refusal::TooLarge);
    }
    own_distances[place] = v.distance;
    own_weights[place] = v.weight;
    if stands {
        return Ok(Owned::Changed);
    }
    Ok(Owned::Added)
}

// One reading of a batch, into the own rows; its slot is the number of its key among them, counted from 1.
fn fuse_own(
    settings: Settings,
    own_keys: &[u64],
    own_distances: &mut [f32],
    own_weights: &mut [f32],
    own: usize,
    slot: u16,
    spare: bool,
    key: u64,
    distance: f32,
    confidence: f32,
) -> Result<Owned, Refusal>
    requires settings_value { settings_ok settings ≡ true }
    requires own_value { lengths_ok (length own_keys.now) (length own_distances.old) (length own_weights.old) own ≡ true }
    requires numbered { Numbered (take own own_keys.now) key slot }
    ensures stepped { Stepped settings own_keys.now own_distances.old
        own_weights.old own spare (entry key distance confidence) result own_distances.new
        own_weights.new }
    ensures result_value { passed_far result ≡ is_far settings (entry key distance confidence) }
{
    let reading = Reading::Direct {
        distance: Metres(distance),
        confidence,
    };
    let Some(near) = admit(settings, key, reading)? else {
        return Ok(Owned::Far);
    };
    let place = slot as usize - 1;
    fuse_place(
        Averaging::from(settings),
        own_distances,
        own_weights,
        place,
        spare,
        near,
    )
}

// The readings from `from` up to `to`, into the own rows, as far as they go; `room` rows can be added.
fn fuse_run(
    settings: Settings,
    own_keys: &[u64],
    own_distances: &mut [f32],
    own_weights: &mut [f32],
    own: usize,
    slots: &[u16],
    room: usize,
    readings: &Readings,
    from: usize,
    to: usize,
) -> Ran
    requires settings_value { settings_ok settings ≡ true }
    requires own_value { lengths_ok (length own_keys.now) (length own_distances.old) (length own_weights.old) own ≡ true }
    requires from_le_to { (from ≤ to) × (to ≤ from + 4096) × (to ≤ length readings.now.keys.now) }
    requires batch_distances_len { OneLength readings.now }
    requires in_bounds { (4096 ≤ length slots.now) × OwnSlots readings.now.keys.now from to (take own own_keys.now) slots.now }
    ensures { RanTo settings own_keys.now own_distances.old
        own_weights.old own room
        (entries_in readings.now) from result
        own_distances.new own_weights.new }
{
    let Readings {
        keys,
        distances,
        confidences,
    } = *readings;
    let mut added = 0;
    let mut far = 0;
    for i in from..to {
        let offset = i - from;
        let step = fuse_own(
            settings,
            own_keys,
            own_distances,
            own_weights,
            own,
            slots[offset],
            added < room,
            keys[i],
            distances[i],
            confidences[i],
        );
        match step {
            Ok(Owned::Far) => {
                far += 1;
            }
            Ok(Owned::Changed) => {}
            Ok(Owned::Added) => {
                added += 1;
            }
            Ok(Owned::Unknown) => {
                return Ran {
                    added,
                    run: Run { end: Ok(i), far },
                };
            }
            Err(why) => {
                return Ran {
                    added,
                    run: Run {
                        end: Err(RefusedReading { why, at: i }),
                        far,
                    },
                };
            }
        }
    }
    Ran {
        added,
        run: Run { end: Ok(to), far },
    }
}

// The keys of the readings from `from` up to `to`, ascending, each once, into `own_keys`, and the slot of each reading.
fn own_rows(
    own_keys: &mut [u64],
    slots: &mut [u16],
    batch_keys: &[u64],
    from: usize,
    to: usize,
) -> usize
    requires from_le_to { (from ≤ to) × (to ≤ from + 4096) × (to ≤ length batch_keys.now) }
    requires in_bounds { (4096 ≤ length own_keys.old) × (4096 ≤ length slots.old) }
    ensures upper_bound { (result ≤ 4096) × (ascending (take result own_keys.new) ≡ true) }
    ensures own_slots { OwnSlots batch_keys.now from to (take result own_keys.new) slots.new }
{
    let mut sorted = [0u64; 4096];
    let mut places = [0u16; 4096];
    let n = to - from;
    for i in 0..n {
        sorted[i] = batch_keys[from + i];
        places[i] = i as u16;
    }
    sort(&mut sorted, &mut places, n);
    distinct(&sorted, &places, n, own_keys, slots)
}

// At most 4,096 readings on, or the end.
fn end_of(len: usize, from: usize) -> usize
    requires { from ≤ len }
    ensures { (from ≤ result) × (result ≤ len) × (result ≤ from + 4096) }
{
    if len - from < 4096 { len } else { from + 4096 }
}

// The seats of the own keys in the table, and the values of their rows; the weight of a waiting row is -1.
fn load_own(
    rows: &Rows,
    own_keys: &[u64],
    own_distances: &mut [f32],
    own_weights: &mut [f32],
    seats: &mut [u32],
    own: usize,
)
    requires count_value { lengths_ok (length rows.now.keys.now) (length rows.now.distances.now) (length rows.now.weights.now) rows.now.count ≡ true }
    requires keys_value { (ascending (take rows.now.count rows.now.keys.now) ≡ true) × (own ≤ length seats.old) × (ascending (take own own_keys.now) ≡ true) }
    requires own_value { lengths_ok (length own_keys.now) (length own_distances.old) (length own_weights.old) own ≡ true }
    ensures { Loaded (table_of rows.now)
        seats.new own_keys.now own_distances.new own_weights.new own }
{
    let Rows {
        keys,
        distances,
        weights,
        count,
    } = *rows;
    locate(keys, count, own_keys, seats, own);
    load(distances, seats, own_distances, own, 0.0);
    load(
        weights,
        seats,
        own_weights,
        own,
        f32::from_bits(0xBF80_0000),
    );
}

// The own rows that stand, settled among the table's first `count` rows by their seats; `total` rows result.
// The table's lists stand side by side here, not as a `RowsMut`: `gathering::settle` settles each column by its own clause.
fn settle_own(
    most: f32,
    keys: &mut [u64],
    distances: &mut [f32],
    weights: &mut [f32],
    count: usize,
    own_keys: &[u64],
    own_distances: &[f32],
    own_weights: &[f32],
    seats: &mut [u32],
    own: usize,
    total: usize,
)
    requires count_value { lengths_ok (length keys.old) (length distances.old) (length weights.old) count ≡ true }
    requires own_value { lengths_ok (length own_keys.now) (length own_distances.now) (length own_weights.now) own ≡ true }
    requires own_keys_value { (ascending (take own own_keys.now) ≡ true) × (own ≤ length seats.old)
        × (take own seats.old ≡ seats_of (take count keys.old) (take own own_keys.now)) }
    requires total_value { (total ≡ length (puts most (rows_of own_keys.now own_distances.now own_weights.now own)
        (rows_of keys.old distances.old weights.old count)))
        × (total ≤ length keys.old) }
    ensures { table keys.new distances.new weights.new total
        ≡ relaid (table keys.old distances.old weights.old count)
        (puts most (rows_of own_keys.now own_distances.now own_weights.now own)
        (rows_of keys.old distances.old weights.old count)) }
{
    hold_back(most, own_weights, seats, own);
    settle(
        keys,
        distances,
        weights,
        count,
        seats,
        own_keys,
        own_distances,
        own_weights,
        own,
        total,
    );
}

// Up to 4,096 readings from `from` on, through own rows that are settled into the table column by column.
pub fn batch_run(settings: Settings, rows: &mut RowsMut, readings: &Readings, from: usize) -> Run
    requires count_value { table_check settings (table_in rows.old) ≡ (Ok tt) }
    requires from_in_bounds { from ≤ length readings.now.keys.now }
    requires batch_distances_len { OneLength readings.now }
    ensures table_after { RunTo settings
        (table_in rows.old)
        (entries_in readings.now) from from
        result (table_in rows.new) }
    ensures same_lists { same_lists rows.old rows.new }
{
    let to = end_of(readings.keys.len(), from);
    // Lists of a fixed length, not `Vec`: no call takes memory.
    let mut own_keys = [0u64; 4096];
    let mut own_distances = [0.0f32; 4096];
    let mut own_weights = [0.0f32; 4096];
    let mut slots = [0u16; 4096];
    let mut seats = [0u32; 4096];
    let n = rows.count;
    let keys = &mut *rows.keys;
    let distances = &mut *rows.distances;
    let weights = &mut *rows.weights;
    let own = own_rows(&mut own_keys, &mut slots, readings.keys, from, to);
    load_own(
        &Rows {
            keys,
            distances,
            weights,
            count: n,
        },
        &own_keys,
        &mut own_distances,
        &mut own_weights,
        &mut seats,
        own,
    );
    let ran = fuse_run(
        settings,
        &own_keys,
        &mut own_distances,
        &mut own_weights,
        own,
        &slots,
        keys.len() - n,
        readings,
        from,
        to,
    );
    let run = ran.run;
    let total = n + ran.added;
    settle_own(
        settings.max_weight,
        keys,
        distances,
        weights,
        n,
        &own_keys,
        &own_distances,
        &own_weights,
        &mut seats,
        own,
        total,
    );
    rows.count = total;
    run
}
