// Marches the samples of document 01 that are run: the empty table, and one seed at (10, 10, 10) in enough room, a row too few
// and a waiting place too few.
#![tactic(auto)]

use refusals::Refusal;
use table::{Rows, Settings, settings_of};

// Truncation 1, maximum weight 100, size 1, maximum distance 2.
fn settings() -> Settings {
    settings_of(1.0, 100.0, 1.0, 2.0)
}

// The march from the first `count` of one row: (10, 10, 10), whose key is 3640, at distance 0.
fn march(
    count: usize,
    keys: &mut [u64],
    distances: &mut [f32],
    estimates: &mut [f32],
    cells: &mut [u64],
) -> Result<(usize, usize), Refusal> {
    esdf::compute_from_tsdf(
        settings(),
        &Rows {
            keys: &[3640],
            distances: &[0.0],
            weights: &[1.0],
            count,
        },
        0.5,
        keys,
        distances,
        estimates,
        cells,
    )
}

// A line for an answer; one that can't be written is passed over.
fn say(rt: &impl Print, marched: Result<(usize, usize), Refusal>) {
    let _ = match marched {
        Ok((rows, takings)) => println!(rt; "rows {rows} takings {takings}"),
        Err(why) => println!(rt; "refused {}", u32::from(why)),
    };
}

fn main(rt: HostRuntime) {
    let mut keys = [7u64; 15];
    let mut distances = [7.0f32; 15];
    let mut estimates = [7.0f32; 14];
    let mut cells = [7u64; 14];
    say(
        &rt,
        march(0, &mut keys, &mut distances, &mut estimates, &mut cells),
    );
    say(
        &rt,
        march(1, &mut keys, &mut distances, &mut estimates, &mut cells),
    );
    let mut few_keys = [7u64; 14];
    let mut few_distances = [7.0f32; 14];
    say(
        &rt,
        march(
            1,
            &mut few_keys,
            &mut few_distances,
            &mut estimates,
            &mut cells,
        ),
    );
    let mut few_estimates = [7.0f32; 13];
    let mut few_cells = [7u64; 13];
    say(
        &rt,
        march(
            1,
            &mut keys,
            &mut distances,
            &mut few_estimates,
            &mut few_cells,
        ),
    );
}
