// The edges of the surface (src/layers/tsdf.rs, get_zero_crossing_edges).
#![tactic(auto)]

ghost use Rattle.std.specs.Prelude.{◌≡◌, ◌+◌, ◌*◌, ◌<◌, ◌≤◌, true, length, get_or, take};
ghost use Rattle.lists.specs.Listing.{count_of, held_for};
ghost use Rattle.lists.specs.Places.{cleared_from};
ghost use Rattle.search.specs.Keys.{ascending, find_by};
ghost use Rattle.table.specs.Table.{table, rows_of};
ghost use Rattle.neighbors.specs.Neighbors.{neighbours};
ghost use Rattle.rings.specs.Rings.{crosses_scan};
ghost use Rattle.edges.specs.Edges.{listed, edges_of};
ghost use Rattle.edges.specs.ZeroCrossing.{crossing};
ghost use Rattle.edges.specs.Surfaces.{crosses_on, edges_on};
ghost use Rattle.edges.specs.Listing.{firsts, seconds, outputs_ok, checked_for, answer_if, edges_answer, firsts_held, seconds_held};
ghost use Rattle.edges.specs.Steps.{Accepted, Tested, row_at, Wrote};
ghost use Rattle.table.specs.Read.{table_of, rows_in};

use lists::LONGEST_LIST;
use refusals::Refusal;
use table::{Rows, Settings};

// Which surface is asked for: document 01's, whose edges are the zero crossings; or the one that closes (document 02, No. 14), whose edges are the
// crossed edges of tetrahedra.
#[derive(Clone, Copy)]
pub enum Surface {
    Open,
    Closed,
}

// Both weights are nonzero and the product of the distances is below zero.
fn crosses(distance: f32, weight: f32, other: f32, beside: f32) -> bool
    ensures { result ≡ crossing distance weight other beside }
{
    (weight != 0.0) & ((beside != 0.0) & (distance * other < 0.0))
}

// Where a key above that of a row stands among the first `count`: the search begins past the row.
fn find_beside(keys: &[u64], count: usize, row: usize, key: u64) -> Option<usize>
    requires { (count ≤ length keys.now) × (ascending (take count keys.now) ≡ true) × (row < count) × (get_or keys.now row 0 < key) }
    ensures { result ≡ find_by key (take count keys.now) }
{
    search::find_above(&keys[..count], row + 1, key)
}

// Whether the rows at two places are of opposite sides, with a tetrahedron around them. Few are of opposite sides, so that is tested first.
fn crosses_scan(rows: &Rows, row: usize, place: usize) -> bool
    requires { Accepted (table_of rows.now) × (row < rows.now.count) × (place < rows.now.count) }
    ensures { result ≡ crosses_scan
        (rows_in rows.now)
        (row_at rows.now.keys.now rows.now.distances.now rows.now.weights.now row)
        (row_at rows.now.keys.now rows.now.distances.now rows.now.weights.now place) }
{
    let Rows {
        keys,
        distances,
        weights,
        count,
    } = *rows;
    rings::are_opposed(
        distances[row],
        weights[row],
        distances[place],
        weights[place],
    ) && rings::is_joint(keys, weights, count, row, keys[row], keys[place])
}

// Whether the rows at two places cross.
fn crosses_at(surface: Surface, rows: &Rows, row: usize, place: usize) -> bool
    requires { Accepted (table_of rows.now) × (row < rows.now.count) × (place < rows.now.count) }
    ensures { result ≡ crosses_on surface
        (rows_in rows.now)
        (row_at rows.now.keys.now rows.now.distances.now rows.now.weights.now row)
        (row_at rows.now.keys.now rows.now.distances.now rows.now.weights.now place) }
{
    let Rows {
        distances,
        weights,
        ..
    } = *rows;
    match surface {
        Surface::Open => crosses(
            distances[row],
            weights[row],
            distances[place],
            weights[place],
        ),
        Surface::Closed => crosses_scan(rows, row, place),
    }
}

// Whether the row at a place and the cell `key` are listed.
fn is_listed(surface: Surface, rows: &Rows, row: usize, key: u64) -> bool
    requires { Accepted (table_of rows.now) × (row < rows.now.count) }
    ensures { result ≡ listed neighbours
        (crosses_on surface (rows_in rows.now))
        (rows_in rows.now)
        (row_at rows.now.keys.now rows.now.distances.now rows.now.weights.now row) key }
{
    let Rows { keys, count, .. } = *rows;
    if key <= keys[row] {
        return false;
    }
    let Some(place) = find_beside(keys, count, row, key) else {
        return false;
    };
    crosses_at(surface, rows, row, place)
}

// The edges that one row lists, from the place `at` on; those past the lists' end are only counted.
fn list_row(
    surface: Surface,
    rows: &Rows,
    row: usize,
    at: usize,
    first: &mut [u64],
    second: &mut [u64],
) -> usize
    requires { Accepted (table_of rows.now) × (row < rows.now.count) × (at ≤ 14 * row) × (length second.old ≡ length first.old) }
    ensures wrote { Wrote (edges_of neighbours
        (crosses_on surface (rows_in rows.now))
        (rows_in rows.now)
        (row_at rows.now.keys.now rows.now.distances.now rows.now.weights.now row)) at first.old
        second.old result first.new second.new }
    ensures upper_bound { result ≤ at + 14 }
{
    let Rows { keys, .. } = *rows;
    let key = keys[row];
    let near = neighbors::around(key);
    let mut end = at;
    for &cell in near.cells() {
        if is_listed(surface, rows, row, cell) {
            lists::put(first, end, key);
            lists::put(second, end, cell);
            end += 1;
        }
    }
    end
}

// All edges; those past the lists' end are only counted.
fn list_edges(surface: Surface, rows: &Rows, first: &mut [u64], second: &mut [u64]) -> usize
    requires { Accepted (table_of rows.now) × (length second.old ≡ length first.old) }
    ensures { Wrote (edges_on surface
        (rows_in rows.now)) 0 first.old
        second.old result first.new second.new }
{
    let Rows { count, .. } = *rows;
    let mut end = 0;
    for row in 0..count {
        end = list_row(surface, rows, row, end, first, second);
    }
    end
}

// Refusals 1, 2 and 3.
fn check(settings: Settings, rows: &Rows, first: usize, second: usize) -> Result<(), Refusal>
    ensures { result ≡ checked_for settings (table_of rows.now) first second }
{
    table::check_with(outputs_ok(first, second), settings, rows)
}

// Two lists of equal length within the limit.
fn outputs_ok(first: usize, second: usize) -> bool
    ensures { result ≡ outputs_ok first second }
{
    (first == second) & (first <= LONGEST_LIST)
}

// The edges, where the tests passed; the places past them are left to be cleared.
fn list_checked(
    surface: Surface,
    verdict: Result<(), Refusal>,
    rows: &Rows,
    first: &mut [u64],
    second: &mut [u64],
) -> Result<usize, Refusal>
    requires { Tested verdict rows.now.keys.now rows.now.distances.now rows.now.weights.now rows.now.count (length first.old) (length second.old) }
    ensures value { result ≡ answer_if verdict
        (edges_on surface (rows_in rows.now))
        (length first.old) }
    ensures first_after { cleared_from 0 (count_of result) first.new
        ≡ held_for 0 result (length first.old)
        (firsts (edges_on surface
        (rows_in rows.now))) }
    ensures second_after { cleared_from 0 (count_of result) second.new
        ≡ held_for 0 result (length second.old)
        (seconds (edges_on surface
        (rows_in rows.now))) }
{
    verdict?;
    let n = list_edges(surface, rows, first, second);
    lists::room_for(n, first.len())
}

// The edges of a surface in two lists, by the verdict of the tests: what they refuse stays refused.
pub fn list_tested(
    surface: Surface,
    verdict: Result<(), Refusal>,
    rows: &Rows,
    first: &mut [u64],
    second: &mut [u64],
) -> Result<usize, Refusal>
    requires { Tested verdict rows.now.keys.now rows.now.distances.now rows.now.weights.now rows.now.count (length first.old) (length second.old) }
    ensures value { result ≡ answer_if verdict
        (edges_on surface (rows_in rows.now))
        (length first.old) }
    ensures first_after { first.new ≡ held_for 0 result (length first.old)
        (firsts (edges_on surface
        (rows_in rows.now))) }
    ensures second_after { second.new ≡ held_for 0 result (length second.old)
        (seconds (edges_on surface
        (rows_in rows.now))) }
{
    let listed = list_checked(surface, verdict, rows, first, second);
    let n = lists::count_of(listed);
    lists::clear_from(first, n, 0);
    lists::clear_from(second, n, 0);
    listed
}

// The zero-crossing edges of a table, in two lists.
pub fn get_zero_crossing_edges(
    settings: Settings,
    rows: &Rows,
    first: &mut [u64],
    second: &mut [u64],
) -> Result<usize, Refusal>
    ensures value { result ≡ edges_answer settings
        (table_of rows.now) (length first.old)
        (length second.old) }
    ensures first_after { first.new ≡ firsts_held settings
        (table_of rows.now) (length first.old)
        (length second.old) }
    ensures second_after { second.new ≡ seconds_held settings
        (table_of rows.now) (length first.old)
        (length second.old) }
{
    let verdict = check(settings, rows, first.len(), second.len());
    list_tested(Surface::Open, verdict, rows, first, second)
}
