// The triangles of the surface (src/layers/mesh.rs, build_triangles_naive): every three edges that meet in a cell.
#![tactic(auto)]

ghost use Rattle.std.specs.Prelude.{◌≡◌, cond, ◌≤◌, length, take};
ghost use Rattle.std.proofs.lemmas.List.Edits.{sets};
ghost use Rattle.lists.specs.Threes.{threes, threes_of, column0, column1, column2};
ghost use Rattle.triangles.specs.Building.{source, rooms, groups_at, triangles_at, lengths_ok, built_answer, groups_held, held0, held1, held2};
ghost use Rattle.triangles.specs.Steps.{Ready, filled_with, answer_for};

use lists::LONGEST_LIST;
use refusals::Refusal;
use table::LONGEST_TABLE;

// How many threes there are among 0 to 14.
const THREES: [usize; 15] = [0, 0, 0, 1, 4, 10, 20, 35, 56, 84, 120, 165, 220, 286, 364];

// How many numbers of groups and how many triangles there are.
#[derive(Clone, Copy)]
struct Filled {
    groups: usize,
    triangles: usize,
}

fn threes_of(n: usize) -> usize
    requires { n ≤ 14 }
    ensures value { result ≡ threes_of n }
    ensures upper_bound { result ≤ 364 }
{
    THREES[n]
}

// A group's numbers from the place `at` on; those past the list's end are left out.
fn put_numbers(group: &[u32], groups: &mut [u32], at: usize)
    ensures { groups.new ≡ sets groups.old at group.now }
{
    let mut end = at;
    for &number in group {
        if groups.len() <= end {
            break;
        }
        groups[end] = number;
        end += 1;
    }
}

// Every three of a group, from the place `at` on; the loops are left together when the lists have no place. By places: each loop begins where the one around
// it stands, which an iterator over the numbers would say by a `skip`.
fn put_threes(group: &[u32], t0: &mut [u32], t1: &mut [u32], t2: &mut [u32], at: usize)
    requires { (length t1.old ≡ length t0.old) × (length t2.old ≡ length t0.old) }
    ensures t0_after { t0.new ≡ sets t0.old at (column0 (threes group.now)) }
    ensures t1_after { t1.new ≡ sets t1.old at (column1 (threes group.now)) }
    ensures t2_after { t2.new ≡ sets t2.old at (column2 (threes group.now)) }
{
    let mut end = at;
    'cell: for i in 0..group.len() {
        for j in i + 1..group.len() {
            for k in j + 1..group.len() {
                if t0.len() <= end {
                    break 'cell;
                }
                t0[end] = group[i];
                t1[end] = group[j];
                t2[end] = group[k];
                end += 1;
            }
        }
    }
}

// The groups and the triangles of the first `n` keys; those past the lists' ends are only counted.
fn fill(
    keys: &[u64],
    n: usize,
    first: &[u64],
    second: &[u64],
    edges: usize,
    groups: &mut [u32],
    t0: &mut [u32],
    t1: &mut [u32],
    t2: &mut [u32],
) -> Filled
    requires { Ready keys.now n t0.old t1.old t2.old }
    ensures value { result ≡ filled_with (source keys.now n first.now second.now edges) (take n keys.now) }
    ensures groups_after { groups.new ≡ sets groups.old 0
        (groups_at (source keys.now n first.now second.now edges)
        (take n keys.now)) }
    ensures t0_after { t0.new ≡ sets t0.old 0
        (column0 (triangles_at (source keys.now n first.now second.now edges)
        (take n keys.now))) }
    ensures t1_after { t1.new ≡ sets t1.old 0
        (column1 (triangles_at (source keys.now n first.now second.now edges)
        (take n keys.now))) }
    ensures t2_after { t2.new ≡ sets t2.old 0
        (column2 (triangles_at (source keys.now n first.now second.now edges)
        (take n keys.now))) }
{
    let mut numbers_end = 0;
    let mut triangles_end = 0;
    for &cell in &keys[..n] {
        let group = groups::near_group(first, second, edges, cell);
        let numbers = group.as_slice();
        put_numbers(numbers, groups, numbers_end);
        put_threes(numbers, t0, t1, t2, triangles_end);
        numbers_end += numbers.len();
        triangles_end += threes_of(numbers.len());
    }
    Filled {
        groups: numbers_end,
        triangles: triangles_end,
    }
}

// Equal lengths within the limits, and no count above its length.
fn lengths_ok(
    keys: usize,
    rows: usize,
    first: usize,
    second: usize,
    edges: usize,
    groups: usize,
    t0: usize,
    t1: usize,
    t2: usize,
) -> bool
    ensures { result ≡ lengths_ok keys rows first second edges groups t0 t1 t2 }
{
    ((keys <= LONGEST_TABLE) & (rows <= keys))
        & (((first == second) & ((first <= LONGEST_LIST) & (edges <= first)))
            & ((groups <= LONGEST_LIST) & (((t0 == t1) & (t0 == t2)) & (t0 <= LONGEST_LIST))))
}

// The rows that are worked through: none where the lengths are not taken.
fn rows_taken(ok: bool, rows: usize) -> usize
    ensures { result ≡ cond ok rows 0 }
{
    if ok { rows } else { 0 }
}

// The answer to lengths that were tested and to what was filled.
fn answer(ok: bool, filled: Filled, room: usize, place: usize) -> Result<usize, Refusal>
    ensures { result ≡ answer_for ok filled room place }
{
    if !ok {
        return Err(Refusal::Lengths);
    }
    if room < filled.groups {
        return Err(Refusal::NoPlace);
    }
    lists::room_for(filled.triangles, place)
}

// The groups and the triangles of a table's cells from an edge list: 2, then 6 exactly when one outgrows its own list.
pub fn build_triangles(
    keys: &[u64],
    rows: usize,
    first: &[u64],
    second: &[u64],
    edges: usize,
    groups: &mut [u32],
    t0: &mut [u32],
    t1: &mut [u32],
    t2: &mut [u32],
) -> Result<usize, Refusal>
    ensures value { result ≡ built_answer (source keys.now rows first.now second.now edges)
        (rooms (length groups.old) (length t0.old) (length t1.old)
        (length t2.old)) }
    ensures groups_after { groups.new ≡ groups_held
        (source keys.now rows first.now second.now edges)
        (rooms (length groups.old) (length t0.old) (length t1.old)
        (length t2.old)) }
    ensures t0_after { t0.new ≡ held0 (source keys.now rows first.now second.now
        edges)
        (rooms (length groups.old) (length t0.old) (length t1.old)
        (length t2.old)) }
    ensures t1_after { t1.new ≡ held1 (source keys.now rows first.now second.now
        edges)
        (rooms (length groups.old) (length t0.old) (length t1.old)
        (length t2.old)) }
    ensures t2_after { t2.new ≡ held2 (source keys.now rows first.now second.now
        edges)
        (rooms (length groups.old) (length t0.old) (length t1.old)
        (length t2.old)) }
{
    let ok = lengths_ok(
        keys.len(),
        rows,
        first.len(),
        second.len(),
        edges,
        groups.len(),
        t0.len(),
        t1.len(),
        t2.len(),
    );
    let n = rows_taken(ok, rows);
    let filled = fill(keys, n, first, second, edges, groups, t0, t1, t2);
    let listed = answer(ok, filled, groups.len(), t0.len());
    let numbers = lists::kept(listed, filled.groups);
    let count = lists::count_of(listed);
    lists::clear_from(groups, numbers, 0);
    lists::clear_from(t0, count, 0);
    lists::clear_from(t1, count, 0);
    lists::clear_from(t2, count, 0);
    listed
}
