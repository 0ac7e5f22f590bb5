// A batch of readings, fused in turn (src/layers/tsdf.rs: batch_update): many at a time through own rows, few one by one.
#![tactic(auto)]

ghost use Rattle.std.specs.Prelude.{◌≡◌, ◌+◌, ◌-◌, ◌<◌, ◌≤◌, length, Ok};
ghost use Rattle.table.specs.Table.{table, table_check};
ghost use Rattle.batching.specs.Batches.{batch_outcome, batch_end, readings_taken, batch_from, counts, batch};
ghost use Rattle.batching.specs.Read.{entries_in, OneLength};
ghost use Rattle.batching.specs.Steps.{far_up_to};
ghost use Rattle.owning.specs.Runs.{RunTo};
ghost use Rattle.table.specs.Read.{same_lists, table_in};

use batching::{Batched, Counts, Ending, Readings, RefusedReading, batched_of, readings_taken};
use floats::Metres;
use fusing::{Step, fuse_sound};
use measuring::Reading;
use owning::{Run, batch_run};
use table::{Rows, RowsMut, Settings, check_with, lengths_ok};

// Fewer readings than these are fused one by one.
const MANY: usize = 16;

// How the readings of a batch ended, and how many of those that were taken were far.
#[derive(Clone, Copy)]
struct Went {
    ending: Ending,
    far: usize,
}

// One reading of a batch, into the table itself.
fn batch_one(settings: Settings, rows: &mut RowsMut, readings: &Readings, from: usize) -> Run
    requires count_value { table_check settings (table_in rows.old) ≡ (Ok tt) }
    requires from_in_bounds { from < length readings.now.keys.now }
    requires batch_distances_len { OneLength readings.now }
    ensures table_after { RunTo settings
        (table_in rows.old)
        (entries_in readings.now) from
        (from + 1) result (table_in rows.new) }
    ensures same_lists { same_lists rows.old rows.new }
{
    let key = readings.keys[from];
    let reading = Reading::Direct {
        distance: Metres(readings.distances[from]),
        confidence: readings.confidences[from],
    };
    match fuse_sound(settings, rows, key, reading) {
        Err(why) => Run {
            end: Err(RefusedReading { why, at: from }),
            far: 0,
        },
        Ok(Step::Far) => Run {
            end: Ok(from + 1),
            far: 1,
        },
        Ok(_) => Run {
            end: Ok(from + 1),
            far: 0,
        },
    }
}

// The next readings of a batch: many through own rows, few one by one.
fn batch_step(settings: Settings, rows: &mut RowsMut, readings: &Readings, from: usize) -> Run
    requires count_value { table_check settings (table_in rows.old) ≡ (Ok tt) }
    requires from_in_bounds { from < length readings.now.keys.now }
    requires batch_distances_len { OneLength readings.now }
    ensures table_after { RunTo settings
        (table_in rows.old)
        (entries_in readings.now) from
        (from + 1) result (table_in rows.new) }
    ensures same_lists { same_lists rows.old rows.new }
{
    if readings.keys.len() - from >= MANY {
        let run = batch_run(settings, rows, readings, from);
        if run.end != Ok(from) {
            return run;
        }
    }
    batch_one(settings, rows, readings, from)
}

// The readings in order, into a table that passed the check.
fn batch_sound(settings: Settings, rows: &mut RowsMut, readings: &Readings) -> Went
    requires count_value { table_check settings (table_in rows.old) ≡ (Ok tt) }
    requires batch_distances_len { OneLength readings.now }
    ensures count_after { batch_end result.ending (table_in rows.new)
        ≡ batch_from settings 0
        (table_in rows.old)
        (entries_in readings.now) }
    ensures far_value { result.far ≡ far_up_to settings
        (entries_in readings.now)
        (readings_taken result.ending (length readings.now.keys.now)) }
    ensures same_lists { same_lists rows.old rows.new }
{
    let mut far = 0;
    let mut i = 0;
    // No `for`: a part takes as many readings as it does.
    while i < readings.keys.len() {
        let run = batch_step(settings, rows, readings, i);
        far += run.far;
        match run.end {
            Err(refused) => {
                return Went {
                    ending: Err(refused),
                    far,
                };
            }
            Ok(reached) => {
                i = reached;
            }
        }
    }
    Went {
        ending: Ok(()),
        far,
    }
}

// The counts of readings: the rows that there are more were added, and what was taken and neither added nor far changed.
fn counts_of(before: usize, after: usize, taken: usize, far: usize) -> Counts
    requires { (before ≤ after) × (after - before + far ≤ taken) }
    ensures { result ≡ counts (after - before) (taken - (after - before) - far) far }
{
    let added = after - before;
    Counts {
        added,
        changed: taken - added - far,
        far,
    }
}

// A batch of direct readings. A refusal ends it; the readings before it stand, and are counted.
pub fn batch_update(settings: Settings, rows: &mut RowsMut, readings: &Readings) -> Batched
    ensures table_after { batch_outcome result (table_in rows.new)
        ≡ batch settings
        (table_in rows.old)
        readings.now.keys.now readings.now.distances.now readings.now.confidences.now }
    ensures same_lists { same_lists rows.old rows.new }
{
    let many = readings.keys.len();
    let fits = lengths_ok(
        many,
        readings.distances.len(),
        readings.confidences.len(),
        0,
    );
    let before = rows.count;
    let keys = &mut *rows.keys;
    let distances = &mut *rows.distances;
    let weights = &mut *rows.weights;
    check_with(
        fits,
        settings,
        &Rows {
            keys,
            distances,
            weights,
            count: before,
        },
    )?;
    let went = batch_sound(settings, rows, readings);
    let taken = readings_taken(went.ending, many);
    let counts = counts_of(before, rows.count, taken, went.far);
    batched_of(went.ending, counts)
}
