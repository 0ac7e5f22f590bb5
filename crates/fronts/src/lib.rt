// The march over lent lists: the marched lists are a table of marks with open addressing, the waiting lists a heap. A stored cell's mark is its
// distance, a waiting one's is +infinity.
// A lean march has no marks of waiting cells, and so a place for every row that may be stored; who waits it reads off the stored neighbours that have
// spread. Its steps take longer, and are taken where marks of waiting cells would outgrow the lists.
#![tactic(auto)]

ghost use Rattle.std.specs.Prelude.{◌≡◌, true, false, List, [], ◌∷◌, ℕ, ◌+◌, ◌≤◌, ◌<◌, length, get_or, Err};
ghost use Rattle.std.specs.Float.Ieee.{eq};
ghost use Rattle.floats.specs.Floats.{is_finite};
ghost use Rattle.ids.specs.Key.{on_lattice};
ghost use Rattle.neighbors.specs.Neighbors.{neighbours};
ghost use Rattle.marks.specs.Marks.{spot_of};
ghost use Rattle.search.specs.Keys.{member};
ghost use Rattle.marching.specs.March.{marched_row, State, keys_of, store, wait, wait_all, sow, spread, settle, take};
ghost use Rattle.hearing.specs.Hearing.{Marked, Lent, seeds_of, field_of};
ghost use Rattle.fronts.specs.Fronts.{Fair, Paired, rooms_of, Front, LeftRows, LeftCells, DoesWait, DoesSow, DoesSettle, DoesTake};
ghost use Rattle.table.specs.Read.{table_of};

use heap::{pop, push};
use hearing::{Plan, known, other_spread, settled};
use marching::{onward, spreads};
use marks::{enter, find};
use refusals::Refusal;

// A cell without a mark waits at an estimate; its mark goes in from a place on.
fn wait_marked(
    keys: &mut [u64],
    distances: &mut [f32],
    estimates: &mut [f32],
    cells: &mut [u64],
    waiting: usize,
    place: usize,
    estimate: f32,
    key: u64,
) -> Result<usize, Refusal>
    requires paired { Paired keys.old distances.old estimates.old cells.old }
    requires keys_value { (spot_of key keys.old ≡ Err place) × ((on_lattice key ≡ true) × (eq estimate estimate ≡ true)) }
    ensures { (s : State)
        → Front false s keys.old distances.old waiting estimates.old cells.old
        → length s.stored + length s.waiting < length keys.old
        → LeftCells false (wait (length cells.old) estimate key s) s result
        keys.new distances.new estimates.new cells.new }
{
    if cells.len() <= waiting {
        return Err(Refusal::NoWaitingPlace);
    }
    enter(keys, distances, place, key, f32::from_bits(0x7F80_0000));
    let held = waiting + 1;
    push(estimates, cells, waiting, estimate, key);
    Ok(held)
}

// A neighbour of a cell, not stored, waits at an estimate in a lean march: another stored neighbour of it that has spread tells that it does already.
fn wait_lean(
    plan: &Plan,
    keys: &[u64],
    distances: &[f32],
    estimates: &mut [f32],
    cells: &mut [u64],
    waiting: usize,
    place: usize,
    estimate: f32,
    from: u64,
    key: u64,
) -> Result<usize, Refusal>
    requires lent { Lent (table_of plan.now.fused)
        × Paired keys.now distances.now estimates.old cells.old }
    requires keys_value { (spot_of key keys.now ≡ Err place) × ((on_lattice key ≡ true) × (eq estimate estimate ≡ true)) }
    ensures { DoesWait true (seeds_of plan.now) (field_of plan.now) from (key ∷ [])
        (wait (length cells.old) estimate key) keys.now distances.now waiting estimates.old cells.old result
        keys.now distances.now estimates.new cells.new }
{
    if other_spread(plan, keys, distances, from, key) {
        return Ok(waiting);
    }
    if cells.len() <= waiting {
        return Err(Refusal::NoWaitingPlace);
    }
    let held = waiting + 1;
    push(estimates, cells, waiting, estimate, key);
    Ok(held)
}

// A neighbour of a cell that neither is stored nor waits begins to, at an estimate.
fn wait(
    lean: bool,
    plan: &Plan,
    keys: &mut [u64],
    distances: &mut [f32],
    estimates: &mut [f32],
    cells: &mut [u64],
    waiting: usize,
    estimate: f32,
    from: u64,
    key: u64,
) -> Result<usize, Refusal>
    requires lent { Lent (table_of plan.now.fused)
        × Paired keys.old distances.old estimates.old cells.old }
    requires key_value { (on_lattice key ≡ true) × (eq estimate estimate ≡ true) }
    ensures { DoesWait lean (seeds_of plan.now) (field_of plan.now) from (key ∷ [])
        (wait (length cells.old) estimate key) keys.old distances.old waiting estimates.old cells.old result
        keys.new distances.new estimates.new cells.new }
{
    let Err(place) = find(keys, key) else {
        return Ok(waiting);
    };
    if lean {
        wait_lean(
            plan, keys, distances, estimates, cells, waiting, place, estimate, from, key,
        )
    } else {
        wait_marked(
            keys, distances, estimates, cells, waiting, place, estimate, key,
        )
    }
}

// Each neighbour of a cell that neither is stored nor waits begins to, at an estimate.
fn wait_around(
    lean: bool,
    plan: &Plan,
    keys: &mut [u64],
    distances: &mut [f32],
    estimates: &mut [f32],
    cells: &mut [u64],
    waiting: usize,
    estimate: f32,
    key: u64,
) -> Result<usize, Refusal>
    requires lent { Lent (table_of plan.now.fused)
        × Paired keys.old distances.old estimates.old cells.old }
    requires key_value { (on_lattice key ≡ true) × (eq estimate estimate ≡ true) }
    ensures { DoesWait lean (seeds_of plan.now)
        (field_of plan.now) key (neighbours key)
        (wait_all (length cells.old) estimate (neighbours key)) keys.old distances.old waiting estimates.old
        cells.old result
        keys.new distances.new estimates.new cells.new }
{
    let near = neighbors::around(key);
    let mut held = waiting;
    for &neighbour in near.cells() {
        held = wait(
            lean, plan, keys, distances, estimates, cells, held, estimate, key, neighbour,
        )?;
    }
    Ok(held)
}

// A new row: its mark is its distance.
fn store(
    keys: &mut [u64],
    distances: &mut [f32],
    count: usize,
    key: u64,
    distance: f32,
) -> Result<usize, Refusal>
    requires { (length distances.old ≡ length keys.old) × (on_lattice key ≡ true) }
    ensures { (s : State) (ws vs : List ℕ)
        → Marked s.stored ws keys.old distances.old
        → ((j : ℕ) → (key ≡ j → ⊥) → member j ws ≡ member j vs)
        → (length s.stored < length keys.old → length s.stored + length ws < length keys.old)
        → is_finite distance ≡ true
        → count ≡ length s.stored
        → member key (keys_of s.stored) ≡ false
        → LeftRows (store (length keys.old) (marched_row key distance) s) s vs result keys.new
        distances.new }
{
    if keys.len() <= count {
        return Err(Refusal::NoPlace);
    }
    match find(keys, key) {
        Ok(place) => {
            distances[place] = distance;
            Ok(count + 1)
        }
        Err(place) => {
            enter(keys, distances, place, key, distance);
            Ok(count + 1)
        }
    }
}

// A seed is stored, then its neighbours wait at its |distance|.
pub fn sow(
    lean: bool,
    plan: &Plan,
    keys: &mut [u64],
    distances: &mut [f32],
    count: usize,
    estimates: &mut [f32],
    cells: &mut [u64],
    waiting: usize,
    key: u64,
    distance: f32,
) -> Result<(usize, usize), Refusal>
    requires lent { Lent (table_of plan.now.fused)
        × Paired keys.old distances.old estimates.old cells.old }
    requires key_value { (on_lattice key ≡ true) × (is_finite distance ≡ true) }
    ensures { DoesSow lean (seeds_of plan.now) (field_of plan.now) key
        (sow neighbours (rooms_of keys.old cells.old) (marched_row key distance)) count keys.old distances.old
        waiting estimates.old cells.old result
        keys.new distances.new estimates.new cells.new }
{
    let rows = store(keys, distances, count, key, distance)?;
    let estimate = floats::size(distance);
    let held = wait_around(
        lean, plan, keys, distances, estimates, cells, waiting, estimate, key,
    )?;
    Ok((rows, held))
}

// The neighbours of a settled cell wait, if their estimate is at most the maximum distance.
fn spread(
    lean: bool,
    plan: &Plan,
    keys: &mut [u64],
    distances: &mut [f32],
    estimates: &mut [f32],
    cells: &mut [u64],
    waiting: usize,
    key: u64,
    distance: f32,
) -> Result<usize, Refusal>
    requires lent { Lent (table_of plan.now.fused)
        × Paired keys.old distances.old estimates.old cells.old }
    requires key_value { on_lattice key ≡ true }
    ensures { DoesWait lean (seeds_of plan.now)
        (field_of plan.now) key (neighbours key)
        (spread (field_of plan.now) (length cells.old) (marched_row key distance)) keys.old distances.old waiting
        estimates.old cells.old result
        keys.new distances.new estimates.new cells.new }
{
    let estimate = onward(plan.course, distance);
    if spreads(plan.course, estimate) {
        wait_around(
            lean, plan, keys, distances, estimates, cells, waiting, estimate, key,
        )
    } else {
        Ok(waiting)
    }
}

// A taken cell that is not stored gets its distance and is stored, then its neighbours wait.
fn settle(
    lean: bool,
    plan: &Plan,
    keys: &mut [u64],
    distances: &mut [f32],
    count: usize,
    estimates: &mut [f32],
    cells: &mut [u64],
    waiting: usize,
    key: u64,
) -> Result<(usize, usize), Refusal>
    requires lent { Lent (table_of plan.now.fused)
        × Paired keys.old distances.old estimates.old cells.old }
    requires key_value { (on_lattice key ≡ true) × Fair plan.now.course }
    ensures { DoesSettle lean (seeds_of plan.now) (field_of plan.now) key
        (settle (field_of plan.now) (rooms_of keys.old cells.old) key) count keys.old distances.old waiting
        estimates.old cells.old result
        keys.new distances.new estimates.new cells.new }
{
    let distance = settled(keys, distances, plan.course, key);
    let rows = store(keys, distances, count, key, distance)?;
    let held = spread(
        lean, plan, keys, distances, estimates, cells, waiting, key, distance,
    )?;
    Ok((rows, held))
}

// The first waiting cell frees its place; a stored one is skipped, another is settled.
pub fn take(
    lean: bool,
    plan: &Plan,
    keys: &mut [u64],
    distances: &mut [f32],
    count: usize,
    estimates: &mut [f32],
    cells: &mut [u64],
    waiting: usize,
) -> Result<(usize, usize), Refusal>
    requires lent { Lent (table_of plan.now.fused)
        × Paired keys.old distances.old estimates.old cells.old }
    requires waiting_nonzero { (0 < waiting) × ((waiting ≤ length cells.old) × (Fair plan.now.course × (on_lattice (get_or cells.old 0 0) ≡ true))) }
    ensures { DoesTake lean (seeds_of plan.now) (field_of plan.now)
        (take (field_of plan.now) (rooms_of keys.old cells.old)) count keys.old distances.old waiting
        estimates.old cells.old result
        keys.new distances.new estimates.new cells.new }
{
    let key = cells[0];
    pop(estimates, cells, waiting);
    let left = waiting - 1;
    if floats::is_finite(known(keys, distances, key)) {
        return Ok((count, left));
    }
    settle(
        lean, plan, keys, distances, count, estimates, cells, left, key,
    )
}
