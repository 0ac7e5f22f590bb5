// The march: distances carried outwards from the surface (src/layers/esdf.rs). The tests of the call, then the march of racing, and its answer.
#![tactic(auto)]

ghost use Rattle.std.specs.Prelude.{◌≡◌, true, length};
ghost use Rattle.floats.specs.Floats.{zero32};
ghost use Rattle.lists.specs.Places.{filled};
ghost use Rattle.table.specs.Table.{table};
ghost use Rattle.marching.specs.Lattice.{march_from};
ghost use Rattle.fronts.specs.Fronts.{rooms_of};
ghost use Rattle.racing.specs.Racing.{Blank, Finished};
ghost use Rattle.esdf.specs.Steps.{tidied};
ghost use Rattle.esdf.specs.Compute.{places, march_check, tested, outcome, computed};
ghost use Rattle.table.specs.Read.{table_of, rows_in};

use hearing::Plan;
use marched::pair_ok;
use marching::Course;
use racing::{clear, march};
use refusals::Refusal;
use table::{Rows, Settings, check_threshold};

// A refused march leaves zeros.
fn tidy(
    answer: Result<(usize, usize), Refusal>,
    keys: &mut [u64],
    distances: &mut [f32],
    estimates: &mut [f32],
    cells: &mut [u64],
)
    ensures keys_after { keys.new ≡ tidied 0 answer keys.old }
    ensures distances_after { distances.new ≡ tidied zero32 answer distances.old }
    ensures estimates_after { estimates.new ≡ tidied zero32 answer estimates.old }
    ensures cells_after { cells.new ≡ tidied 0 answer cells.old }
{
    if answer.is_err() {
        clear(keys, distances, estimates, cells);
    }
}

// Refusals 1, 2, 3 and 5; `fit` says that the lists to be filled pass.
fn check(settings: Settings, rows: &Rows, threshold: f32, fit: bool) -> Result<(), Refusal>
    ensures { result ≡ march_check settings (table_of rows.now) threshold fit }
{
    check_threshold(fit, settings, rows, threshold)
}

// The march, if the tests pass, into lists that hold nothing.
fn march_checked(
    settings: Settings,
    rows: &Rows,
    threshold: f32,
    fit: bool,
    keys: &mut [u64],
    distances: &mut [f32],
    estimates: &mut [f32],
    cells: &mut [u64],
) -> Result<(usize, usize), Refusal>
    requires { fit ≡ true → Blank keys.old distances.old estimates.old cells.old }
    ensures { Finished (tested (march_check settings (table_of rows.now) threshold fit)
        (march_from settings.voxel_size.0 settings.max_distance.0 (rooms_of keys.old cells.old) threshold
        (rows_in rows.now))) result
        keys.new distances.new estimates.new cells.new }
{
    check(settings, rows, threshold, fit)?;
    let plan = Plan {
        fused: *rows,
        threshold,
        course: Course {
            size: settings.voxel_size.0,
            most: settings.max_distance.0,
        },
    };
    let (rows, takings) = march(&plan, keys, distances, estimates, cells)?;
    Ok((rows, takings))
}

// The march over a fused table: its rows into the marched lists, by way of the waiting ones.
pub fn compute_from_tsdf(
    settings: Settings,
    rows: &Rows,
    threshold: f32,
    marched_keys: &mut [u64],
    marched_distances: &mut [f32],
    waiting_estimates: &mut [f32],
    waiting_keys: &mut [u64],
) -> Result<(usize, usize), Refusal>
    ensures { outcome result marched_keys.new marched_distances.new
        waiting_estimates.new waiting_keys.new
        ≡ computed settings (table_of rows.now) threshold
        (places (length marched_keys.old) (length marched_distances.old)
        (length waiting_estimates.old) (length waiting_keys.old)) }
{
    let fit = pair_ok(marched_keys.len(), marched_distances.len())
        & pair_ok(waiting_estimates.len(), waiting_keys.len());
    clear(
        marched_keys,
        marched_distances,
        waiting_estimates,
        waiting_keys,
    );
    let answer = march_checked(
        settings,
        rows,
        threshold,
        fit,
        marched_keys,
        marched_distances,
        waiting_estimates,
        waiting_keys,
    );
    tidy(
        answer,
        marched_keys,
        marched_distances,
        waiting_estimates,
        waiting_keys,
    );
    answer
}
