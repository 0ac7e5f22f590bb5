// Runs of fusing: document 01's sample of a weight so small that the mean outgrows the range, a batch that stops at its second reading, and a ray;
// and what is counted, of few readings and of many.
#![tactic(auto)]

use batching::{Batched, Counts, Readings};
use floats::Metres;
use fusing::Fused;
use refusals::Refusal;
use table::{RowsMut, Settings, settings_of};

// A fused table in so many places, under its settings.
#[derive(Drop)]
struct Field<const ROOM: usize> {
    settings: Settings,
    keys: [u64; ROOM],
    distances: [f32; ROOM],
    weights: [f32; ROOM],
    count: usize,
}

impl<const ROOM: usize> Field<ROOM> {
    fn empty(truncation: f32, max_weight: f32) -> Self {
        Field {
            settings: settings_of(truncation, max_weight, 1.0, 0.0),
            keys: [0; ROOM],
            distances: [0.0; ROOM],
            weights: [0.0; ROOM],
            count: 0,
        }
    }

    // A direct reading of the cell 7, at 10.
    fn take_direct(&mut self) -> Result<Fused, Refusal> {
        let mut rows = RowsMut {
            keys: &mut self.keys,
            distances: &mut self.distances,
            weights: &mut self.weights,
            count: self.count,
        };
        let fused = fusing::update_from_depth(self.settings, &mut rows, 7, Metres(10.0), 1.0);
        self.count = rows.count;
        fused
    }

    // A ray from (1, 1, 5) to the cell 7, at (1, 1, 1), seen at a depth.
    fn take_ray(&mut self, depth: f32) -> Result<Fused, Refusal> {
        let mut rows = RowsMut {
            keys: &mut self.keys,
            distances: &mut self.distances,
            weights: &mut self.weights,
            count: self.count,
        };
        let fused = fusing::update_from_depth_ray(
            self.settings,
            &mut rows,
            7,
            Metres(1.0),
            Metres(1.0),
            Metres(5.0),
            Metres(depth),
            1.0,
        );
        self.count = rows.count;
        fused
    }

    fn take_batch(&mut self, keys: &[u64], distances: &[f32], confidences: &[f32]) -> Batched {
        let mut rows = RowsMut {
            keys: &mut self.keys,
            distances: &mut self.distances,
            weights: &mut self.weights,
            count: self.count,
        };
        let batched = batches::batch_update(
            self.settings,
            &mut rows,
            &Readings {
                keys,
                distances,
                confidences,
            },
        );
        self.count = rows.count;
        batched
    }
}

// A line that can't be written is passed over, here and below.
fn say(rt: &impl Print, fused: Result<Fused, Refusal>) {
    let _ = match fused {
        Ok(Fused::New) => println!(rt; "new"),
        Ok(Fused::Changed) => println!(rt; "changed"),
        Ok(Fused::Far) => println!(rt; "far"),
        Err(why) => println!(rt; "refused {}", u32::from(why)),
    };
}

fn say_counts(rt: &impl Print, counts: Counts) {
    let _ = println!(rt;
        "added {}\nchanged {}\nfar {}",
        counts.added, counts.changed, counts.far
    );
}

fn say_batch(rt: &impl Print, batched: Batched) {
    match batched {
        Ok(counts) => {
            let _ = println!(rt; "done");
            say_counts(rt, counts);
        }
        Err(refused) => {
            let _ = println!(rt; "refused {}\nat {}", u32::from(refused.why), refused.at);
            say_counts(rt, refused.counts);
        }
    }
}

fn say_rows(rt: &impl Print, rows: usize) {
    let _ = println!(rt; "rows {rows}");
}

// Maximum weight 1e-38, truncation 10: the reading 10 is stored, and the second time refused with 7.
fn small_weight(rt: &impl Print) {
    let mut field: Field<2> = Field::empty(10.0, 1.0e-38);
    say(rt, field.take_direct());
    say(rt, field.take_direct());
    say_rows(rt, field.count);
}

// Three readings, the second off the lattice: the first stands. Then a ray from (1, 1, 5) to (1, 1, 1), seen at 4.5 and at 9.
fn batch_and_ray(rt: &impl Print) {
    let mut field: Field<2> = Field::empty(1.0, 100.0);
    say_batch(rt, field.take_batch(&[8, 6, 7], &[0.5; 3], &[1.0; 3]));
    say_rows(rt, field.count);
    say(rt, field.take_ray(4.5));
    say(rt, field.take_ray(9.0));
    say_rows(rt, field.count);
}

// A key twice is one new and one changed; a far reading is neither; confidence 0 makes a new row all the same, and the
// same reading again a changed one whose bits stay.
fn counted_few(rt: &impl Print) {
    let mut field: Field<8> = Field::empty(1.0, 100.0);
    say_batch(
        rt,
        field.take_batch(
            &[8, 8, 7, 15, 15],
            &[0.5, 0.25, 2.0, 0.5, 0.5],
            &[1.0, 1.0, 1.0, 0.0, 0.0],
        ),
    );
    say_rows(rt, field.count);
}

// Eighteen readings of three keys, which go through own rows, with two that are far; and once more with one of them off
// the lattice: those before it are counted.
fn counted_many(rt: &impl Print) {
    let mut field: Field<8> = Field::empty(1.0, 100.0);
    let mut cells = [
        0u64, 8, 16, 0, 8, 16, 0, 8, 16, 0, 8, 16, 0, 8, 16, 0, 8, 16,
    ];
    let mut sdfs = [0.5f32; 18];
    sdfs[2] = 2.0;
    sdfs[4] = 2.0;
    say_batch(rt, field.take_batch(&cells, &sdfs, &[1.0; 18]));
    cells[10] = 6;
    say_batch(rt, field.take_batch(&cells, &sdfs, &[1.0; 18]));
    say_rows(rt, field.count);
}

fn main(rt: HostRuntime) {
    small_weight(&rt);
    batch_and_ray(&rt);
    counted_few(&rt);
    counted_many(&rt);
}
