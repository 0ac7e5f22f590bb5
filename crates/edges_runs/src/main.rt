// Counts the edges of the samples of document 01 that are run: (10, 10, 10) with its 14 neighbours of the other sign,
// in rooms of 14 and 13, and the empty table.
#![tactic(auto)]

use refusals::Refusal;
use table::{Rows, Settings, settings_of};

// The sample's settings: truncation 1, maximum weight 100, size 1.
fn settings() -> Settings {
    settings_of(1.0, 100.0, 1.0, 0.0)
}

// Edges of the first `count` of 15 rows in two lists: (10, 10, 10), whose key is 3640, and its neighbours.
fn edges_of(count: usize, first: &mut [u64], second: &mut [u64]) -> Result<usize, Refusal> {
    let keys = [
        3591, 3599, 3607, 3608, 3615, 3623, 3624, 3631, 3632, 3639, 3640, 3647, 3696, 3752, 3864,
    ];
    let mut distances = [-0.25f32; 15];
    distances[10] = 0.25;
    let weights = [1.0f32; 15];
    edges::get_zero_crossing_edges(
        settings(),
        &Rows {
            keys: &keys,
            distances: &distances,
            weights: &weights,
            count,
        },
        first,
        second,
    )
}

// A line for an answer; one that can't be written is passed over.
fn say(rt: &impl Print, listed: Result<usize, Refusal>) {
    let _ = match listed {
        Ok(n) => println!(rt; "edges {n}"),
        Err(why) => println!(rt; "refused {}", u32::from(why)),
    };
}

fn main(rt: HostRuntime) {
    say(&rt, edges_of(15, &mut [0; 14], &mut [0; 14]));
    say(&rt, edges_of(15, &mut [0; 13], &mut [0; 13]));
    say(&rt, edges_of(0, &mut [0; 0], &mut [0; 0]));
}
