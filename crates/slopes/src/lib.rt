// A vertex between two cells, and the normal at a cell, as values (src/layers/mesh.rs).
#![tactic(auto)]

ghost use Rattle.std.specs.Prelude.{◌≡◌, ◌<◌};
ghost use Rattle.bcc_utils.specs.Metres.{metres_of};
ghost use Rattle.slopes.specs.Stored.{distance_by};
ghost use Rattle.slopes.specs.Vertices.{part_of, place_of, vertex_of, vertex_at};
ghost use Rattle.slopes.specs.Normals.{length_of, direction_of, step_of, slopes_with, mean_of, normal_at};
ghost use Rattle.slopes.specs.Read.{stored_by};

use floats::Metres;
use ids::Cells;
use stored::Distances;

// A vertex's place. Of its own type, beside a normal's: a place is in metres and a direction has no unit, and no function takes both.
#[derive(Clone, Copy)]
pub struct Vertex {
    pub x: Metres,
    pub y: Metres,
    pub z: Metres,
}

// A vertex's normal: of length 1, or three zeros where there is none.
#[derive(Clone, Copy)]
pub struct Normal {
    pub x: f32,
    pub y: f32,
    pub z: f32,
}

// The slopes towards some neighbours, added up along each axis, and how many they are.
#[derive(Clone, Copy)]
struct Slopes {
    x: f32,
    y: f32,
    z: f32,
    count: u16,
}

const NO_NORMAL: Normal = Normal {
    x: 0.0,
    y: 0.0,
    z: 0.0,
};

const NO_SLOPES: Slopes = Slopes {
    x: 0.0,
    y: 0.0,
    z: 0.0,
    count: 0,
};

// The distance of a cell, by halving the first `count` keys.
pub fn distance_of(field: &Distances, key: u64) -> Option<f32>
    ensures { result ≡ stored_by field.now key }
{
    let Distances {
        keys,
        distances,
        count,
    } = *field;
    let place = search::find_row(keys, count, key)?;
    distances.get(place).copied()
}

// Where between two cells the surface lies, from 0 to 1.
fn part_of(d1: f32, d2: f32) -> f32
    ensures { result ≡ part_of d1 d2 }
{
    let e = d2 - d1;
    let t = if 1e-6 < floats::size(e) { -d1 / e } else { 0.5 };
    floats::clamp(t, 0.0, 1.0)
}

// The place along an axis between two coordinates.
fn place_of(voxel_size: Metres, t: f32, c1: u16, c2: u16) -> Metres
    ensures { result ≡ place_of t (metres_of c1 voxel_size.0) (metres_of c2 voxel_size.0) }
{
    let p1 = bcc_utils::metres_of(Cells(c1), voxel_size);
    let p2 = bcc_utils::metres_of(Cells(c2), voxel_size);
    Metres(p1.0 + t * (p2.0 - p1.0))
}

// The vertex between two cells with their distances.
pub fn vertex_of(voxel_size: Metres, k1: u64, d1: f32, k2: u64, d2: f32) -> Vertex
    ensures { result ≡ vertex_of voxel_size.0 k1 d1 k2 d2 }
{
    let t = part_of(d1, d2);
    let c1 = ids::morton_decode(k1);
    let c2 = ids::morton_decode(k2);
    Vertex {
        x: place_of(voxel_size, t, c1.x, c2.x),
        y: place_of(voxel_size, t, c1.y, c2.y),
        z: place_of(voxel_size, t, c1.z, c2.z),
    }
}

// The length of x, y, z.
pub fn length(x: f32, y: f32, z: f32) -> f32
    ensures { result ≡ length_of x y z }
{
    let squares = x * x + y * y + z * z;
    root::root(squares).unwrap_or(squares)
}

// The direction of x, y, z; none if the length is not above 1e-6.
fn direction_of(x: f32, y: f32, z: f32) -> Normal
    ensures { result ≡ direction_of x y z }
{
    let l = length(x, y, z);
    if 1e-6 < l {
        Normal {
            x: x / l,
            y: y / l,
            z: z / l,
        }
    } else {
        NO_NORMAL
    }
}

// From one coordinate to another.
fn step_of(voxel_size: Metres, from: u16, to: u16) -> Metres
    ensures { result.0 ≡ step_of voxel_size.0 from to }
{
    Metres((to as f32 - from as f32) * voxel_size.0)
}

// One neighbour more, where it is stored.
fn slopes_with(
    voxel_size: Metres,
    key: u64,
    d: f32,
    sum: Slopes,
    neighbour: u64,
    stored: Option<f32>,
) -> Slopes
    requires { sum.count < 65535 }
    ensures { result ≡ slopes_with voxel_size.0 key d sum neighbour stored }
{
    let Some(other) = stored else {
        return sum;
    };
    let c1 = ids::morton_decode(key);
    let c2 = ids::morton_decode(neighbour);
    let dd = other - d;
    Slopes {
        x: sum.x + dd * step_of(voxel_size, c1.x, c2.x).0,
        y: sum.y + dd * step_of(voxel_size, c1.y, c2.y).0,
        z: sum.z + dd * step_of(voxel_size, c1.z, c2.z).0,
        count: sum.count + 1,
    }
}

// The direction of the mean; none over no neighbour.
fn mean_of(sum: Slopes) -> Normal
    ensures { result ≡ mean_of sum }
{
    if sum.count == 0 {
        return NO_NORMAL;
    }
    let n = sum.count as f32;
    direction_of(sum.x / n, sum.y / n, sum.z / n)
}

// The normal at a cell.
pub fn compute_normal(field: &Distances, voxel_size: Metres, key: u64) -> Normal
    ensures { result ≡ normal_at (stored_by field.now) voxel_size.0 key }
{
    let Some(d) = distance_of(field, key) else {
        return NO_NORMAL;
    };
    let near = neighbors::around(key);
    let mut sum = NO_SLOPES;
    for &neighbour in near.cells() {
        let stored = distance_of(field, neighbour);
        sum = slopes_with(voxel_size, key, d, sum, neighbour, stored);
    }
    mean_of(sum)
}

// The vertex of an edge, from what is stored of its cells.
pub fn vertex_at(field: &Distances, voxel_size: Metres, k1: u64, k2: u64) -> Vertex
    ensures { result ≡ vertex_at (stored_by field.now) voxel_size.0 k1 k2 }
{
    let d1 = distance_of(field, k1).unwrap_or(0.0);
    let d2 = distance_of(field, k2).unwrap_or(0.0);
    vertex_of(voxel_size, k1, d1, k2, d2)
}
