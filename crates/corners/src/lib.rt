// The tests of a mesh's corners: lent lists side by side, vertices in range, triangles that name vertices (src/layers/mesh.rs).
#![tactic(auto)]

ghost use Rattle.std.specs.Prelude.{◌≡◌};
ghost use Rattle.corners.specs.Corners.{set_ok, every, vertex, vertex_ok, triangle, triangle_ok};
ghost use Rattle.corners.specs.Read.{threes_ok, Lies, points_in, numbers_in};

use floats::within;
use lists::LONGEST_LIST;

// Three lent lists side by side, whose first `count` places are taken: the coordinates of vertices or of normals, or the
// numbers of the vertices that triangles name.
#[derive(Clone, Copy)]
pub struct Threes<'a, T> {
    pub first: &'a [T],
    pub second: &'a [T],
    pub third: &'a [T],
    pub count: usize,
}

impl<'a, T> Threes<'a, T> {
    // Whether they are a set.
    pub fn is_ok(&self) -> bool
        ensures { result ≡ threes_ok self.now }
    {
        set_ok(
            self.first.len(),
            self.second.len(),
            self.third.len(),
            self.count,
        )
    }
}

// Three lists of equal length within the limit, and no more entries than places.
pub fn set_ok(a: usize, b: usize, c: usize, n: usize) -> bool
    ensures { result ≡ set_ok a b c n }
{
    (a == b) & ((a == c) & ((a <= LONGEST_LIST) & (n <= a)))
}

// A vertex is in its range.
fn vertex_ok(x: f32, y: f32, z: f32) -> bool
    ensures { result ≡ vertex_ok (vertex x y z) }
{
    within(100000000.0, x) & (within(100000000.0, y) & within(100000000.0, z))
}

// Every vertex is in its range.
pub fn vertices_ok(vertices: &Threes<f32>) -> bool
    requires { Lies vertices.now }
    ensures { result ≡ every vertex_ok (points_in vertices.now) }
{
    let Threes {
        first,
        second,
        third,
        count,
    } = *vertices;
    for i in 0..count {
        if !vertex_ok(first[i], second[i], third[i]) {
            return false;
        }
    }
    true
}

// A triangle names three of so many vertices.
fn triangle_ok(vertices: usize, a: u32, b: u32, c: u32) -> bool
    ensures { result ≡ triangle_ok vertices (triangle a b c) }
{
    ((a as usize) < vertices) & (((b as usize) < vertices) & ((c as usize) < vertices))
}

// Every triangle names three of so many vertices.
pub fn triangles_ok(vertices: usize, triangles: &Threes<u32>) -> bool
    requires { Lies triangles.now }
    ensures { result ≡ every (triangle_ok vertices) (numbers_in triangles.now) }
{
    let Threes {
        first,
        second,
        third,
        count,
    } = *triangles;
    for i in 0..count {
        if !triangle_ok(vertices, first[i], second[i], third[i]) {
            return false;
        }
    }
    true
}
