// A tetrahedron cut (document 02, No. 14): by its four ascending keys and their sides into no triangle, one or two, by the numbers of their vertices.
#![tactic(auto)]

ghost use Rattle.std.specs.Prelude.{◌≡◌};
ghost use Rattle.tetrahedra.specs.ClosedTriangles.{rising};
ghost use Rattle.cuts.specs.declared.Cut.TheVariants.{Two};
ghost use Rattle.cuts.specs.Cuts.{cut_of};
ghost use Rattle.cuts.specs.Patches.{triangle_of, patch_by};
ghost use Rattle.cuts.specs.Numbers.{past_last, vertex_by};

use lists::LONGEST_LIST;

// Four keys, ascending.
#[derive(Clone, Copy)]
pub struct Corners {
    pub a: u64,
    pub b: u64,
    pub c: u64,
    pub d: u64,
}

// Which of four corners are inside.
#[derive(Clone, Copy)]
pub struct Sides {
    pub a: bool,
    pub b: bool,
    pub c: bool,
    pub d: bool,
}

// How a tetrahedron is cut: one corner against three others, or two inside against two outside.
#[derive(Clone, Copy)]
pub enum Cut {
    Nothing,
    One(u64, u64, u64, u64),
    Two(u64, u64, u64, u64),
}

// Three vertices.
#[derive(Clone, Copy)]
pub struct Triangle {
    pub a: u32,
    pub b: u32,
    pub c: u32,
}

// The surface within a tetrahedron: one of three things, which an Option of a pair with an Option in it would say no plainer, and a slice without its bound.
#[derive(Clone, Copy)]
pub enum Patch {
    Empty,
    Single(Triangle),
    Double(Triangle, Triangle),
}

// How the tetrahedron of four corners is cut.
fn cut_four(k: Corners, s: Sides) -> Cut
    ensures { result ≡ cut_of s.a s.b s.c s.d k.a k.b k.c k.d }
{
    let Corners { a, b, c, d } = k;
    match (s.a, s.b, s.c, s.d) {
        (true, true, true, true) => Cut::Nothing,
        (true, true, true, false) => Cut::One(d, a, b, c),
        (true, true, false, true) => Cut::One(c, a, b, d),
        (true, true, false, false) => Cut::Two(a, b, c, d),
        (true, false, true, true) => Cut::One(b, a, c, d),
        (true, false, true, false) => Cut::Two(a, c, b, d),
        (true, false, false, true) => Cut::Two(a, d, b, c),
        (true, false, false, false) => Cut::One(a, b, c, d),
        (false, true, true, true) => Cut::One(a, b, c, d),
        (false, true, true, false) => Cut::Two(b, c, a, d),
        (false, true, false, true) => Cut::Two(b, d, a, c),
        (false, true, false, false) => Cut::One(b, a, c, d),
        (false, false, true, true) => Cut::Two(c, d, a, b),
        (false, false, true, false) => Cut::One(c, a, b, d),
        (false, false, false, true) => Cut::One(d, a, b, c),
        (false, false, false, false) => Cut::Nothing,
    }
}

// Three vertices, ascending.
fn ascending(x: u32, y: u32, z: u32) -> Triangle
    ensures { result ≡ triangle_of (rising x y z) }
{
    if x <= y {
        if y <= z {
            Triangle { a: x, b: y, c: z }
        } else if x <= z {
            Triangle { a: x, b: z, c: y }
        } else {
            Triangle { a: z, b: x, c: y }
        }
    } else if x <= z {
        Triangle { a: y, b: x, c: z }
    } else if y <= z {
        Triangle { a: y, b: z, c: x }
    } else {
        Triangle { a: z, b: y, c: x }
    }
}

// The number past the last of some edges; 0 where no list holds so many.
fn past_last(edges: usize) -> u32
    ensures { result ≡ past_last edges }
{
    if edges <= LONGEST_LIST {
        edges as u32
    } else {
        0
    }
}

// The vertex between two cells, searched from an edge on that is expected near; one that is no edge has the number past the last.
fn vertex(first: &[u64], second: &[u64], edges: usize, near: usize, a: u64, b: u64) -> u32
    ensures { result ≡ vertex_by first.now second.now edges near a b }
{
    match groups::number_between(first, second, edges, near, a, b) {
        Some(i) => i as u32,
        None => past_last(edges),
    }
}

// The triangle of one corner against three others, which names its vertices ascending.
fn single(
    first: &[u64],
    second: &[u64],
    edges: usize,
    near: usize,
    p: u64,
    x: u64,
    y: u64,
    z: u64,
) -> Triangle
    ensures { result ≡ triangle_of (rising
        (vertex_by first.now second.now edges near p x)
        (vertex_by first.now second.now edges near p y)
        (vertex_by first.now second.now edges near p z)) }
{
    let a = vertex(first, second, edges, near, p, x);
    let b = vertex(first, second, edges, near, p, y);
    let c = vertex(first, second, edges, near, p, z);
    ascending(a, b, c)
}

// The two triangles of two corners inside, p < q, against two outside, r < s.
fn double(
    first: &[u64],
    second: &[u64],
    edges: usize,
    near: usize,
    p: u64,
    q: u64,
    r: u64,
    s: u64,
) -> Patch
    ensures { result ≡ patch_by (vertex_by first.now second.now edges near) (Two p q r s) }
{
    let pr = vertex(first, second, edges, near, p, r);
    let ps = vertex(first, second, edges, near, p, s);
    let qr = vertex(first, second, edges, near, q, r);
    let qs = vertex(first, second, edges, near, q, s);
    let one = Triangle {
        a: pr,
        b: ps,
        c: qs,
    };
    let other = Triangle {
        a: pr,
        b: qs,
        c: qr,
    };
    Patch::Double(one, other)
}

// The surface within the tetrahedron of four corners; its vertices are edges of two lists, searched from an edge on that is expected near.
pub fn patch_of(
    corners: Corners,
    sides: Sides,
    first: &[u64],
    second: &[u64],
    edges: usize,
    near: usize,
) -> Patch
    ensures { result ≡ patch_by (vertex_by first.now second.now edges near)
        (cut_of sides.a sides.b sides.c sides.d corners.a corners.b corners.c corners.d) }
{
    match cut_four(corners, sides) {
        Cut::Nothing => Patch::Empty,
        Cut::One(p, x, y, z) => {
            let t = single(first, second, edges, near, p, x, y, z);
            Patch::Single(t)
        }
        Cut::Two(p, q, r, s) => double(first, second, edges, near, p, q, r, s),
    }
}
