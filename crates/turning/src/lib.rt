// The triangles of the closed mesh turned outwards: each that looks inwards has its last two vertices swapped.
#![tactic(auto)]

ghost use Rattle.std.specs.Prelude.{◌≡◌, cond, ◌++◌, set, drop};
ghost use Rattle.lists.specs.Threes.{three, column1, column2};
ghost use Rattle.table.specs.Table.{rows_of};
ghost use Rattle.winding.specs.Winding.{turned_triangles};
ghost use Rattle.turning.specs.Steps.{Numbers, looks_at, turned_at, AtHand, Ready};
ghost use Rattle.table.specs.Read.{rows_in};

use table::Rows;

// Of an edge's two cells the inside one, by the side of the first.
fn inside_one(side: bool, first: u64, second: u64) -> u64
    ensures { result ≡ cond side first second }
{
    if side { first } else { second }
}

// Whether the triangle of three edges looks inwards, by the side of its first edge's first cell.
fn looks_in(side: bool, first: &[u64], second: &[u64], a: usize, b: usize, c: usize) -> bool
    requires { Numbers first.now second.now (three a b c) }
    ensures { result ≡ looks_at side first.now second.now (three a b c) }
{
    let inner = inside_one(side, first[a], second[a]);
    winding::is_in_front(
        first[a], second[a], first[b], second[b], first[c], second[c], inner,
    )
}

// The triangle at a place, turned where it looks inwards.
fn turn_at(
    side: bool,
    first: &[u64],
    second: &[u64],
    i: usize,
    t0: &[u32],
    t1: &mut [u32],
    t2: &mut [u32],
)
    requires { AtHand first.now second.now t0.now t1.old t2.old i }
    ensures t1_after { t1.new ≡ set t1.old i
        (turned_at side first.now second.now t0.now t1.old t2.old i).b }
    ensures t2_after { t2.new ≡ set t2.old i
        (turned_at side first.now second.now t0.now t1.old t2.old i).c }
{
    let a = t0[i] as usize;
    let b = t1[i];
    let c = t2[i];
    if looks_in(side, first, second, a, b as usize, c as usize) {
        t1[i] = c;
        t2[i] = b;
    }
}

// The triangles of the closed mesh, each turned where it looks inwards; a cell's row is searched near that of the triangle before.
pub fn turn_triangles(
    rows: &Rows,
    first: &[u64],
    second: &[u64],
    edges: usize,
    triangles: usize,
    t0: &[u32],
    t1: &mut [u32],
    t2: &mut [u32],
)
    requires { Ready rows.now.keys.now rows.now.distances.now rows.now.weights.now rows.now.count first.now second.now edges t0.now t1.old t2.old triangles }
    ensures t1_after { t1.new ≡ column1 (turned_triangles (rows_in rows.now))
        ++ drop triangles t1.old }
    ensures t2_after { t2.new ≡ column2 (turned_triangles (rows_in rows.now))
        ++ drop triangles t2.old }
{
    let Rows {
        keys,
        distances,
        count,
        ..
    } = *rows;
    let mut near = 0;
    for i in 0..triangles {
        let a = t0[i] as usize;
        near = search::place_near(keys, count, near, first[a]);
        let side = distances[near] < 0.0;
        turn_at(side, first, second, i, t0, t1, t2);
    }
}
