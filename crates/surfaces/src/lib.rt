// Area, box and statistics of a mesh (src/layers/mesh.rs).
#![tactic(auto)]

ghost use Rattle.std.specs.Prelude.{◌≡◌, true, ◌<◌, length, get_or};
ghost use Rattle.std.specs.Float.{nan};
ghost use Rattle.floats.specs.Floats.{zero32};
ghost use Rattle.slopes.specs.Normals.{normal};
ghost use Rattle.corners.specs.Corners.{every, vertex, triangle_ok};
ghost use Rattle.corners.specs.Read.{Lies, points_in, numbers_in};
ghost use Rattle.surfaces.specs.Areas.{arrow_of, cross_of, area_between, area_from, area_answer};
ghost use Rattle.surfaces.specs.Boxes.{lower_of, upper_of, box_of, box_answer};
ghost use Rattle.surfaces.specs.Stats.{is_none, normals_in, stats_answer};

use corners::{Threes, triangles_ok, vertices_ok};
use floats::{Metres, larger, smaller};
use refusals::Refusal;
use slopes::Vertex;

// From one vertex to another.
#[derive(Clone, Copy)]
struct Arrow {
    x: f32,
    y: f32,
    z: f32,
}

// From one vertex to another.
fn arrow_of(v: Vertex, w: Vertex) -> Arrow
    ensures { result ≡ arrow_of v w }
{
    Arrow {
        x: w.x.0 - v.x.0,
        y: w.y.0 - v.y.0,
        z: w.z.0 - v.z.0,
    }
}

// The cross product.
fn cross_of(e: Arrow, f: Arrow) -> Arrow
    ensures { result ≡ cross_of e f }
{
    Arrow {
        x: e.y * f.z - e.z * f.y,
        y: e.z * f.x - e.x * f.z,
        z: e.x * f.y - e.y * f.x,
    }
}

// The area of a triangle.
fn area_between(v0: Vertex, v1: Vertex, v2: Vertex) -> f32
    ensures { result ≡ area_between v0 v1 v2 }
{
    let c = cross_of(arrow_of(v0, v1), arrow_of(v0, v2));
    0.5 * slopes::length(c.x, c.y, c.z)
}

// The vertex at a place.
pub fn vertex_at(points: &Threes<f32>, i: usize) -> Vertex
    requires { (i < length points.now.first.now) × (i < length points.now.second.now) × (i < length points.now.third.now) }
    ensures { result ≡ vertex (get_or points.now.first.now i nan) (get_or points.now.second.now i nan)
        (get_or points.now.third.now i nan) }
{
    Vertex {
        x: Metres(points.first[i]),
        y: Metres(points.second[i]),
        z: Metres(points.third[i]),
    }
}

// The areas of all triangles, added up in order.
fn area_of(vertices: &Threes<f32>, triangles: &Threes<u32>) -> f32
    requires lent { Lies vertices.now }
    requires lent_2 { Lies triangles.now }
    requires triangles_value { every (triangle_ok vertices.now.count) (numbers_in triangles.now) ≡ true }
    ensures { result ≡ area_from (points_in vertices.now) zero32 (numbers_in triangles.now) }
{
    let Threes {
        first,
        second,
        third,
        count,
    } = *triangles;
    let mut area = 0.0;
    for i in 0..count {
        let v0 = vertex_at(vertices, first[i] as usize);
        let v1 = vertex_at(vertices, second[i] as usize);
        let v2 = vertex_at(vertices, third[i] as usize);
        area = area + area_between(v0, v1, v2);
    }
    area
}

// The area of a mesh.
pub fn surface_area(vertices: &Threes<f32>, triangles: &Threes<u32>) -> Result<f32, Refusal>
    ensures { result ≡ area_answer vertices.now.first.now vertices.now.second.now vertices.now.third.now vertices.now.count
        triangles.now.first.now triangles.now.second.now triangles.now.third.now triangles.now.count }
{
    if !(vertices.is_ok() & triangles.is_ok()) {
        return Err(Refusal::Lengths);
    }
    if !(vertices_ok(vertices) & triangles_ok(vertices.count, triangles)) {
        return Err(Refusal::BadVertex);
    }
    Ok(area_of(vertices, triangles))
}

// The smaller coordinates of two vertices.
fn lower_of(v: Vertex, w: Vertex) -> Vertex
    ensures { result ≡ lower_of v w }
{
    Vertex {
        x: Metres(smaller(v.x.0, w.x.0)),
        y: Metres(smaller(v.y.0, w.y.0)),
        z: Metres(smaller(v.z.0, w.z.0)),
    }
}

// The larger coordinates of two vertices.
fn upper_of(v: Vertex, w: Vertex) -> Vertex
    ensures { result ≡ upper_of v w }
{
    Vertex {
        x: Metres(larger(v.x.0, w.x.0)),
        y: Metres(larger(v.y.0, w.y.0)),
        z: Metres(larger(v.z.0, w.z.0)),
    }
}

// The box around some vertices.
fn box_of(vertices: &Threes<f32>) -> Result<Option<(Vertex, Vertex)>, Refusal>
    requires { Lies vertices.now }
    ensures { result ≡ box_of (points_in vertices.now) }
{
    let count = vertices.count;
    if count == 0 {
        return Ok(None);
    }
    let mut low = vertex_at(vertices, 0);
    let mut high = low;
    for i in 1..count {
        let v = vertex_at(vertices, i);
        low = lower_of(low, v);
        high = upper_of(high, v);
    }
    Ok(Some((low, high)))
}

// The box around a mesh.
pub fn bounding_box(vertices: &Threes<f32>) -> Result<Option<(Vertex, Vertex)>, Refusal>
    ensures { result ≡ box_answer vertices.now.first.now vertices.now.second.now vertices.now.third.now vertices.now.count }
{
    if !vertices.is_ok() {
        return Err(Refusal::Lengths);
    }
    if !vertices_ok(vertices) {
        return Err(Refusal::BadVertex);
    }
    box_of(vertices)
}

// Three zeros of either sign.
fn is_none(x: f32, y: f32, z: f32) -> bool
    ensures { result ≡ is_none (normal x y z) }
{
    (x == 0.0) & ((y == 0.0) & (z == 0.0))
}

// No vertex has a normal.
fn all_none(normals: &Threes<f32>) -> bool
    requires { Lies normals.now }
    ensures { result ≡ every is_none
        (normals_in normals.now.first.now normals.now.second.now normals.now.third.now normals.now.count) }
{
    let Threes {
        first,
        second,
        third,
        count,
    } = *normals;
    for i in 0..count {
        if !is_none(first[i], second[i], third[i]) {
            return false;
        }
    }
    true
}

// Whether some vertex has a normal.
pub fn mesh_stats(normals: &Threes<f32>) -> Result<bool, Refusal>
    ensures { result ≡ stats_answer normals.now.first.now normals.now.second.now normals.now.third.now normals.now.count }
{
    if !normals.is_ok() {
        return Err(Refusal::Lengths);
    }
    Ok(!all_none(normals))
}
