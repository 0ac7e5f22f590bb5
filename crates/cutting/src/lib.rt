// The triangles of the closed mesh (document 02, No. 14): each tetrahedron is found at its smallest key, from that row's higher neighbours, and cut.
#![tactic(auto)]

ghost use Rattle.std.specs.Prelude.{◌≡◌, ◌+◌, ◌≤◌, ◌<◌, true, length, get_or, set, take, drop, Ok};
ghost use Rattle.search.specs.Keys.{place_of};
ghost use Rattle.lists.specs.Threes.{three, threes, with_two, with_third};
ghost use Rattle.neighbors.specs.Neighbors.{adjacent};
ghost use Rattle.table.specs.Table.{table, rows_of};
ghost use Rattle.edges.specs.Steps.{Accepted, Tested, row_at};
ghost use Rattle.groups.specs.CellEdges.{edges_in};
ghost use Rattle.tetrahedra.specs.ClosedEdges.{closed_edges};
ghost use Rattle.tetrahedra.specs.ClosedTriangles.{closed_triangles};
ghost use Rattle.cuts.specs.Patches.{triangles_of_patch, triangles_by};
ghost use Rattle.cuts.specs.Numbers.{Numbered};
ghost use Rattle.cutting.specs.Corners.{sided, sided_by, sided_at, cut_with, cuts_of, cuts_at, cut_row};
ghost use Rattle.cutting.specs.Steps.{Even, Puts, Beside, MeetsUpTo, Meets, starts_at, Own, OwnIf, IsCut};
ghost use Rattle.cutting.specs.Closing.{three_ok, IsClosed};
ghost use Rattle.table.specs.Read.{table_of, rows_in};

use cuts::{Corners, Patch, Sides, Triangle};
use edges::Surface;
use lists::LONGEST_LIST;
use refusals::Refusal;
use table::Rows;

// What is answered to the closed mesh's edges, and to its triangles.
#[derive(Clone, Copy)]
pub struct ClosedListed {
    pub edges: Result<usize, Refusal>,
    pub triangles: Result<usize, Refusal>,
}

// A triangle at a place of three lists; nothing where they have no such place.
fn put_triangle(t: Triangle, at: usize, t0: &mut [u32], t1: &mut [u32], t2: &mut [u32])
    ensures t0_after { t0.new ≡ set t0.old at t.a }
    ensures t1_after { t1.new ≡ set t1.old at t.b }
    ensures t2_after { t2.new ≡ set t2.old at t.c }
{
    lists::put(t0, at, t.a);
    lists::put(t1, at, t.b);
    lists::put(t2, at, t.c);
}

// The triangles of a patch, from a place on.
fn put_patch(patch: Patch, at: usize, t0: &mut [u32], t1: &mut [u32], t2: &mut [u32]) -> usize
    requires { Even t0.old t1.old t2.old × (at ≤ 1000000000) }
    ensures puts { Puts (triangles_of_patch patch) at t0.old t1.old t2.old result
        t0.new t1.new t2.new }
    ensures upper_bound { result ≤ at + 2 }
{
    match patch {
        Patch::Empty => at,
        Patch::Single(t) => {
            put_triangle(t, at, t0, t1, t2);
            at + 1
        }
        Patch::Double(t, u) => {
            put_triangle(t, at, t0, t1, t2);
            put_triangle(u, at + 1, t0, t1, t2);
            at + 2
        }
    }
}

// Which of those past a place are adjacent to the one there, in its part of `meets`.
fn mark_meets(cells: &[u64], i: usize, meets: &mut [bool])
    requires { (i < length cells.now) × (length cells.now ≤ 14) × (length meets.old ≡ 196) × MeetsUpTo cells.now i meets.old }
    ensures { MeetsUpTo cells.now (i + 1) meets.new }
{
    for l in i + 1..cells.len() {
        meets[14 * i + l] = neighbors::are_adjacent(cells[i], cells[l]);
    }
}

// Which of some cells are adjacent, each with those past it.
fn meets_of(cells: &[u64]) -> [bool; 196]
    requires { length cells.now ≤ 14 }
    ensures { Meets cells.now result }
{
    let mut meets = [false; 196];
    for i in 0..cells.len() {
        mark_meets(cells, i, &mut meets);
    }
    meets
}

// The surface within a cell and three others, where the first two of them are adjacent: none where the three are not pairwise adjacent.
fn patch_at(
    own: u64,
    side: bool,
    cells: &[u64],
    inside: &[bool],
    meets: &[bool; 196],
    i: usize,
    j: usize,
    l: usize,
    first: &[u64],
    second: &[u64],
    edges: usize,
    near: usize,
) -> Patch
    requires { Beside cells.now inside.now × Meets cells.now meets.now × (i < j) × (j < l) × (l < length cells.now)
        × (adjacent (get_or cells.now i 0) (get_or cells.now j 0) ≡ true) × Numbered first.now second.now edges }
    ensures { triangles_of_patch result ≡ triangles_by (edges_in first.now second.now edges) (cut_with (sided own side)
        (three (sided_at cells.now inside.now i) (sided_at cells.now inside.now j)
        (sided_at cells.now inside.now l))) }
{
    if !meets[14 * i + l] {
        return Patch::Empty;
    }
    if !meets[14 * j + l] {
        return Patch::Empty;
    }
    let corners = Corners {
        a: own,
        b: cells[i],
        c: cells[j],
        d: cells[l],
    };
    let sides = Sides {
        a: side,
        b: inside[i],
        c: inside[j],
        d: inside[l],
    };
    cuts::patch_of(corners, sides, first, second, edges, near)
}

// The triangles of a cell and two others that are adjacent, with each of those that follow. Here and in the two loops around it a place names a cell, its
// side and what it meets, which are three lists.
fn cut_third(
    own: u64,
    side: bool,
    cells: &[u64],
    inside: &[bool],
    meets: &[bool; 196],
    i: usize,
    j: usize,
    first: &[u64],
    second: &[u64],
    edges: usize,
    near: usize,
    at: usize,
    t0: &mut [u32],
    t1: &mut [u32],
    t2: &mut [u32],
) -> usize
    requires { Beside cells.now inside.now × Meets cells.now meets.now × (i < j) × (j < length cells.now)
        × (adjacent (get_or cells.now i 0) (get_or cells.now j 0) ≡ true) × Numbered first.now second.now edges
        × Even t0.old t1.old t2.old × (at ≤ 900000000) }
    ensures puts { Puts (cuts_of (edges_in first.now second.now edges) (sided own side)
        (with_third (sided_at cells.now inside.now i) (sided_at cells.now inside.now j)
        (drop (j + 1) (sided_by cells.now inside.now))))
        at t0.old t1.old t2.old result t0.new t1.new t2.new }
    ensures upper_bound { result ≤ at + 28 }
{
    let mut end = at;
    for l in j + 1..cells.len() {
        let patch = patch_at(
            own, side, cells, inside, meets, i, j, l, first, second, edges, near,
        );
        end = put_patch(patch, end, t0, t1, t2);
    }
    end
}

// The triangles of a cell and another, with every two of those that follow.
fn cut_second(
    own: u64,
    side: bool,
    cells: &[u64],
    inside: &[bool],
    meets: &[bool; 196],
    i: usize,
    first: &[u64],
    second: &[u64],
    edges: usize,
    near: usize,
    at: usize,
    t0: &mut [u32],
    t1: &mut [u32],
    t2: &mut [u32],
) -> usize
    requires { Beside cells.now inside.now × Meets cells.now meets.now × (i < length cells.now)
        × Numbered first.now second.now edges × Even t0.old t1.old t2.old × (at ≤ 800000000) }
    ensures puts { Puts (cuts_of (edges_in first.now second.now edges) (sided own side)
        (with_two (sided_at cells.now inside.now i) (drop (i + 1) (sided_by cells.now inside.now))))
        at t0.old t1.old t2.old result t0.new t1.new t2.new }
    ensures upper_bound { result ≤ at + 392 }
{
    let mut end = at;
    for j in i + 1..cells.len() {
        if meets[14 * i + j] {
            end = cut_third(
                own, side, cells, inside, meets, i, j, first, second, edges, near, end, t0, t1, t2,
            );
        }
    }
    end
}

// The triangles of a cell with every three of its higher neighbours.
fn cut_first(
    own: u64,
    side: bool,
    cells: &[u64],
    inside: &[bool],
    first: &[u64],
    second: &[u64],
    edges: usize,
    near: usize,
    at: usize,
    t0: &mut [u32],
    t1: &mut [u32],
    t2: &mut [u32],
) -> usize
    requires { Beside cells.now inside.now
        × Numbered first.now second.now edges × Even t0.old t1.old t2.old × (at ≤ 700000000) }
    ensures puts { Puts (cuts_of (edges_in first.now second.now edges) (sided own side)
        (threes (sided_by cells.now inside.now)))
        at t0.old t1.old t2.old result t0.new t1.new t2.new }
    ensures upper_bound { result ≤ at + 5488 }
{
    let meets = meets_of(cells);
    let mut end = at;
    for i in 0..cells.len() {
        end = cut_second(
            own, side, cells, inside, &meets, i, first, second, edges, near, end, t0, t1, t2,
        );
    }
    end
}

// Whether an edge starts at a key, by the key's place.
#[tactic(auto, unfolding(crate::specs::Steps::starts_at))]
fn starts(first: &[u64], edges: usize, place: usize, key: u64) -> bool
    requires { edges ≤ length first.now }
    ensures { result ≡ starts_at first.now edges place key }
{
    place < edges && first[place] == key
}

// The triangles of the tetrahedra whose smallest key is a row's.
fn cut_row(
    rows: &Rows,
    row: usize,
    first: &[u64],
    second: &[u64],
    edges: usize,
    near: usize,
    at: usize,
    t0: &mut [u32],
    t1: &mut [u32],
    t2: &mut [u32],
) -> usize
    requires { Accepted (table_of rows.now) × (row < rows.now.count)
        × Numbered first.now second.now edges × Even t0.old t1.old t2.old × (at ≤ 700000000) }
    ensures puts { Puts (cuts_at (rows_in rows.now)
        (edges_in first.now second.now edges) (get_or rows.now.keys.now row 0))
        at t0.old t1.old t2.old result t0.new t1.new t2.new }
    ensures upper_bound { result ≤ at + 5488 }
{
    let Rows {
        keys,
        distances,
        ..
    } = *rows;
    let above = higher::higher_of(rows, row);
    let cells = above.keys;
    let inside = above.inside;
    let n = above.count;
    let side = distances[row] < 0.0;
    cut_first(
        keys[row],
        side,
        &cells[..n],
        &inside[..n],
        first,
        second,
        edges,
        near,
        at,
        t0,
        t1,
        t2,
    )
}

// The triangles of a row: none where its weight is not above 0, or no edge starts there.
fn cut_next(
    rows: &Rows,
    row: usize,
    first: &[u64],
    second: &[u64],
    edges: usize,
    near: usize,
    at: usize,
    t0: &mut [u32],
    t1: &mut [u32],
    t2: &mut [u32],
) -> usize
    requires { Own rows.now.keys.now rows.now.distances.now rows.now.weights.now rows.now.count first.now second.now edges × (row < rows.now.count)
        × (near ≡ place_of (get_or rows.now.keys.now row 0) (take edges first.now)) × Even t0.old t1.old t2.old × (at ≤ 700000000) }
    ensures puts { Puts (cut_row (rows_in rows.now)
        (closed_edges (rows_in rows.now))
        (row_at rows.now.keys.now rows.now.distances.now rows.now.weights.now row))
        at t0.old t1.old t2.old result t0.new t1.new t2.new }
    ensures upper_bound { result ≤ at + 5488 }
{
    let Rows { keys, weights, .. } = *rows;
    if 0.0 < weights[row] {
        if starts(first, edges, near, keys[row]) {
            cut_row(rows, row, first, second, edges, near, at, t0, t1, t2)
        } else {
            at
        }
    } else {
        at
    }
}

// The triangles of all rows; those past the lists' ends are only counted.
fn cut_rows(
    rows: &Rows,
    first: &[u64],
    second: &[u64],
    edges: usize,
    t0: &mut [u32],
    t1: &mut [u32],
    t2: &mut [u32],
) -> usize
    requires { Own rows.now.keys.now rows.now.distances.now rows.now.weights.now rows.now.count first.now second.now edges × Even t0.old t1.old t2.old }
    ensures { Puts (closed_triangles (rows_in rows.now))
        0 t0.old t1.old t2.old result t0.new t1.new t2.new }
{
    let Rows { keys, count, .. } = *rows;
    let mut near = 0;
    let mut end = 0;
    for row in 0..count {
        near = search::place_near(first, edges, near, keys[row]);
        end = cut_next(rows, row, first, second, edges, near, end, t0, t1, t2);
    }
    end
}

// Three lists of equal length within the limit.
fn three_ok(x: usize, y: usize, z: usize) -> bool
    ensures { result ≡ three_ok x y z }
{
    ((x == y) & (x == z)) & (x <= LONGEST_LIST)
}

// The triangles, where the edges are listed; the places past them are left to be cleared.
fn cut_listed(
    rows: &Rows,
    first: &[u64],
    second: &[u64],
    edges: usize,
    t0: &mut [u32],
    t1: &mut [u32],
    t2: &mut [u32],
) -> Result<usize, Refusal>
    requires { Own rows.now.keys.now rows.now.distances.now rows.now.weights.now rows.now.count first.now second.now edges }
    ensures { IsCut (Ok edges) (rows_in rows.now)
        t0.old t1.old t2.old result t0.new t1.new t2.new }
{
    if !three_ok(t0.len(), t1.len(), t2.len()) {
        return Err(Refusal::Lengths);
    }
    let n = cut_rows(rows, first, second, edges, t0, t1, t2);
    lists::room_for(n, t0.len())
}

// The triangles by the answer to the edges.
fn cut_checked(
    edges: Result<usize, Refusal>,
    rows: &Rows,
    first: &[u64],
    second: &[u64],
    t0: &mut [u32],
    t1: &mut [u32],
    t2: &mut [u32],
) -> Result<usize, Refusal>
    requires { OwnIf edges rows.now.keys.now rows.now.distances.now rows.now.weights.now rows.now.count first.now second.now }
    ensures { IsCut edges (rows_in rows.now)
        t0.old t1.old t2.old result t0.new t1.new t2.new }
{
    cut_listed(rows, first, second, edges?, t0, t1, t2)
}

// The closed mesh's edges in two lists and its triangles in three, by the verdict of the tests: what they refuse stays refused, then 6 exactly
// when one would outgrow its own lists.
pub fn list_closed(
    verdict: Result<(), Refusal>,
    rows: &Rows,
    first: &mut [u64],
    second: &mut [u64],
    t0: &mut [u32],
    t1: &mut [u32],
    t2: &mut [u32],
) -> ClosedListed
    requires { Tested verdict rows.now.keys.now rows.now.distances.now rows.now.weights.now rows.now.count (length first.old) (length second.old) }
    ensures { IsClosed verdict (table_of rows.now) (length first.old)
        (length second.old) (length t0.old) (length t1.old) (length t2.old)
        result first.new second.new t0.new t1.new t2.new }
{
    let edges = edges::list_tested(Surface::Closed, verdict, rows, first, second);
    let triangles = cut_checked(edges, rows, first, second, t0, t1, t2);
    let n = lists::count_of(triangles);
    lists::clear_from(t0, n, 0);
    lists::clear_from(t1, n, 0);
    lists::clear_from(t2, n, 0);
    ClosedListed { edges, triangles }
}
