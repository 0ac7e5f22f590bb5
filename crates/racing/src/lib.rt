// The whole march over lent lists: the seeds, the takings until no cell waits, then the rows by key. It begins with marks of waiting cells, and goes on
// lean from where on these would outgrow the lists.
#![tactic(auto)]

ghost use Rattle.std.specs.Prelude.{◌≡◌, true, false, suc, ◌≤◌, ◌<◌, length, get_or};
ghost use Rattle.floats.specs.Floats.{zero32, is_finite};
ghost use Rattle.ids.specs.Key.{on_lattice};
ghost use Rattle.lists.specs.Places.{filled};
ghost use Rattle.neighbors.specs.Neighbors.{neighbours};
ghost use Rattle.search.specs.Keys.{member};
ghost use Rattle.table.specs.Table.{row};
ghost use Rattle.marching.specs.March.{State, keys_of, is_seed, seeds, sow_all, nothing, take, take_up_to};
ghost use Rattle.marching.specs.Lattice.{march_from};
ghost use Rattle.hearing.specs.Hearing.{Lent, seeds_of, field_of};
ghost use Rattle.fronts.specs.Fronts.{Fair, Paired, rooms_of, ToldOnce, ToldFirst};
ghost use Rattle.racing.specs.Racing.{Tabled, sow_if, MayStep, Goes, Blank, Sown, Emptied, unlabelled, Finished};
ghost use Rattle.table.specs.Read.{table_of, rows_in};

use fronts::{sow, take};
use heap::sort_rows;
use hearing::Plan;
use marching::{is_seed, surely_full};
use refusals::Refusal;
use table::Rows;
use thinning::lighten;

// How far a march is: how many rows are stored and cells wait, and whether it goes on lean.
#[derive(Clone, Copy)]
struct Pace {
    rows: usize,
    waiting: usize,
    lean: bool,
}

// A table's row is sown if it is a seed.
fn sow_if(
    plan: &Plan,
    at: Pace,
    keys: &mut [u64],
    distances: &mut [f32],
    estimates: &mut [f32],
    cells: &mut [u64],
    key: u64,
    distance: f32,
    weight: f32,
) -> Result<Pace, Refusal>
    requires lent { Lent (table_of plan.now.fused)
        × Paired keys.old distances.old estimates.old cells.old }
    requires key_value { (on_lattice key ≡ true) × ((is_finite distance ≡ true) × (at.waiting ≤ length cells.old)) }
    ensures { (s : State)
        → MayStep at.lean s at.rows keys.old distances.old at.waiting estimates.old cells.old
        → member key (keys_of s.stored) ≡ false
        → (is_seed plan.now.threshold (row key distance weight) ≡ true → ToldOnce (seeds_of plan.now) (field_of plan.now) key s)
        → Goes (sow_if plan.now.threshold neighbours (rooms_of keys.old cells.old) (row key distance weight) s) result
        keys.new distances.new estimates.new cells.new }
{
    if !is_seed(plan.threshold, key, distance, weight) {
        return Ok(at);
    }
    let lean = lighten(at.lean, keys, distances, at.rows, cells, at.waiting);
    let (rows, waiting) = sow(
        lean, plan, keys, distances, at.rows, estimates, cells, at.waiting, key, distance,
    )?;
    Ok(Pace {
        rows,
        waiting,
        lean,
    })
}

// Every seed of the table is sown.
fn sow_all(
    plan: &Plan,
    keys: &mut [u64],
    distances: &mut [f32],
    estimates: &mut [f32],
    cells: &mut [u64],
) -> Result<Pace, Refusal>
    requires { Tabled (table_of plan.now.fused)
        × Blank keys.old distances.old estimates.old cells.old }
    ensures { Goes (sow_all neighbours (rooms_of keys.old cells.old) (seeds plan.now.threshold
        (rows_in plan.now.fused)) nothing) result
        keys.new distances.new estimates.new cells.new }
{
    let Rows {
        keys: fused_keys,
        distances: fused_distances,
        weights: fused_weights,
        count: fused_count,
    } = plan.fused;
    let mut now = Pace {
        rows: 0,
        waiting: 0,
        lean: false,
    };
    for i in 0..fused_count {
        now = sow_if(
            plan,
            now,
            keys,
            distances,
            estimates,
            cells,
            fused_keys[i],
            fused_distances[i],
            fused_weights[i],
        )?;
    }
    Ok(now)
}

// The first waiting cell is taken.
fn take_next(
    plan: &Plan,
    at: Pace,
    keys: &mut [u64],
    distances: &mut [f32],
    estimates: &mut [f32],
    cells: &mut [u64],
) -> Result<Pace, Refusal>
    requires lent { Lent (table_of plan.now.fused)
        × Paired keys.old distances.old estimates.old cells.old }
    requires waiting_nonzero { (0 < at.waiting) × ((at.waiting ≤ length cells.old)
        × (Fair plan.now.course × (on_lattice (get_or cells.old 0 0) ≡ true))) }
    ensures { (s : State)
        → MayStep at.lean s at.rows keys.old distances.old at.waiting estimates.old cells.old
        → ToldFirst (seeds_of plan.now) (field_of plan.now) s
        → Goes (take (field_of plan.now) (rooms_of keys.old cells.old) s) result
        keys.new distances.new estimates.new cells.new }
{
    let lean = lighten(at.lean, keys, distances, at.rows, cells, at.waiting);
    let (rows, waiting) = take(
        lean, plan, keys, distances, at.rows, estimates, cells, at.waiting,
    )?;
    Ok(Pace {
        rows,
        waiting,
        lean,
    })
}

// Waiting cells are taken until there is none.
fn take_all(
    plan: &Plan,
    at: Pace,
    keys: &mut [u64],
    distances: &mut [f32],
    estimates: &mut [f32],
    cells: &mut [u64],
) -> Result<(usize, usize), Refusal>
    requires tabled { Tabled (table_of plan.now.fused) × Fair plan.now.course }
    requires sown { (s : State) × Sown (seeds plan.now.threshold (rows_in plan.now.fused))
        neighbours at.lean s at.rows keys.old distances.old at.waiting estimates.old cells.old }
    ensures { (s : State)
        → Sown (seeds plan.now.threshold (rows_in plan.now.fused))
        neighbours at.lean s at.rows keys.old distances.old at.waiting estimates.old cells.old
        → Emptied (take_up_to (field_of plan.now) (rooms_of keys.old cells.old) (suc (length keys.old)) s) result
        keys.new distances.new estimates.new cells.new }
{
    let mut now = at;
    let mut takings = 0;
    while 0 < now.waiting {
        if surely_full(keys.len(), cells.len(), now.rows, now.waiting, takings) {
            return Err(Refusal::NoPlace);
        }
        now = take_next(plan, now, keys, distances, estimates, cells)?;
        takings += 1;
    }
    Ok((now.rows, takings))
}

// A first key that stands as 1 is 0.
fn unlabel(keys: &mut [u64])
    ensures { keys.new ≡ unlabelled keys.old }
{
    if 0 < keys.len() {
        if keys[0] == 1 {
            keys[0] = 0;
        }
    }
}

// Every place of the four lists becomes 0.
pub fn clear(keys: &mut [u64], distances: &mut [f32], estimates: &mut [f32], cells: &mut [u64])
    ensures keys_after { keys.new ≡ filled 0 keys.old }
    ensures distances_after { distances.new ≡ filled zero32 distances.old }
    ensures estimates_after { estimates.new ≡ filled zero32 estimates.old }
    ensures cells_after { cells.new ≡ filled 0 cells.old }
{
    lists::clear(keys, 0);
    lists::clear(distances, 0.0);
    lists::clear(estimates, 0.0);
    lists::clear(cells, 0);
}

// The march over a table whose rows are in order, into lists that are all zero: the seeds, the takings, then the rows by key.
pub fn march(
    plan: &Plan,
    keys: &mut [u64],
    distances: &mut [f32],
    estimates: &mut [f32],
    cells: &mut [u64],
) -> Result<(usize, usize), Refusal>
    requires { (Tabled (table_of plan.now.fused) × Fair plan.now.course)
        × Blank keys.old distances.old estimates.old cells.old }
    ensures { Finished (march_from plan.now.course.size plan.now.course.most (rooms_of keys.old cells.old) plan.now.threshold
        (rows_in plan.now.fused)) result
        keys.new distances.new estimates.new cells.new }
{
    let sown = sow_all(plan, keys, distances, estimates, cells)?;
    let answer = take_all(plan, sown, keys, distances, estimates, cells)?;
    sort_rows(keys, distances);
    unlabel(keys);
    Ok(answer)
}
