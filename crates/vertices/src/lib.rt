// A vertex for each edge of the surface, and its normal (src/layers/mesh.rs).
#![tactic(auto)]

ghost use Rattle.std.specs.Prelude.{◌≡◌, take};
ghost use Rattle.std.proofs.lemmas.List.Edits.{sets};
ghost use Rattle.slopes.specs.Stored.{distance_by};
ghost use Rattle.slopes.specs.Vertices.{vertices_of, xs_of, ys_of, zs_of};
ghost use Rattle.slopes.specs.Normals.{normal_at, normals_of, parts_x, parts_y, parts_z};
ghost use Rattle.slopes.specs.Read.{stored_by};

use floats::Metres;
use slopes::{Normal, compute_normal, vertex_at};
use stored::Distances;

// The place of each edge's vertex, as far as the lists have room.
fn list_places(
    field: &Distances,
    voxel_size: Metres,
    first: &[u64],
    second: &[u64],
    edges: usize,
    px: &mut [f32],
    py: &mut [f32],
    pz: &mut [f32],
)
    ensures px_after { px.new ≡ sets px.old 0
        (xs_of (vertices_of (stored_by field.now) voxel_size.0
        (take edges first.now) (take edges second.now))) }
    ensures py_after { py.new ≡ sets py.old 0
        (ys_of (vertices_of (stored_by field.now) voxel_size.0
        (take edges first.now) (take edges second.now))) }
    ensures pz_after { pz.new ≡ sets pz.old 0
        (zs_of (vertices_of (stored_by field.now) voxel_size.0
        (take edges first.now) (take edges second.now))) }
{
    let n = edges.min(first.len().min(second.len()));
    // by a place, which five lists share
    for i in 0..n {
        let v = vertex_at(field, voxel_size, first[i], second[i]);
        lists::put(px, i, v.x.0);
        lists::put(py, i, v.y.0);
        lists::put(pz, i, v.z.0);
    }
}

// The normal at a cell, where that at another is known: edges of one first cell stand together.
fn next_normal(field: &Distances, voxel_size: Metres, last: u64, known: Normal, key: u64) -> Normal
    requires { known ≡ normal_at (stored_by field.now) voxel_size.0 last }
    ensures { result ≡ normal_at (stored_by field.now) voxel_size.0 key }
{
    if key == last {
        known
    } else {
        compute_normal(field, voxel_size, key)
    }
}

// The normal of each edge's vertex, as far as the lists have room.
fn list_normals(
    field: &Distances,
    voxel_size: Metres,
    first: &[u64],
    edges: usize,
    nx: &mut [f32],
    ny: &mut [f32],
    nz: &mut [f32],
)
    ensures nx_after { nx.new ≡ sets nx.old 0
        (parts_x (normals_of (stored_by field.now) voxel_size.0
        (take edges first.now))) }
    ensures ny_after { ny.new ≡ sets ny.old 0
        (parts_y (normals_of (stored_by field.now) voxel_size.0
        (take edges first.now))) }
    ensures nz_after { nz.new ≡ sets nz.old 0
        (parts_z (normals_of (stored_by field.now) voxel_size.0
        (take edges first.now))) }
{
    let n = edges.min(first.len());
    let mut last = 0;
    let mut normal = compute_normal(field, voxel_size, last);
    for (i, &key) in first[..n].iter().enumerate() {
        normal = next_normal(field, voxel_size, last, normal, key);
        last = key;
        lists::put(nx, i, normal.x);
        lists::put(ny, i, normal.y);
        lists::put(nz, i, normal.z);
    }
}

// The vertices of an edge list with their normals, as far as the lists have room.
pub fn list_vertices(
    field: &Distances,
    voxel_size: Metres,
    first: &[u64],
    second: &[u64],
    edges: usize,
    px: &mut [f32],
    py: &mut [f32],
    pz: &mut [f32],
    nx: &mut [f32],
    ny: &mut [f32],
    nz: &mut [f32],
)
    ensures px_after { px.new ≡ sets px.old 0
        (xs_of (vertices_of (stored_by field.now) voxel_size.0
        (take edges first.now) (take edges second.now))) }
    ensures py_after { py.new ≡ sets py.old 0
        (ys_of (vertices_of (stored_by field.now) voxel_size.0
        (take edges first.now) (take edges second.now))) }
    ensures pz_after { pz.new ≡ sets pz.old 0
        (zs_of (vertices_of (stored_by field.now) voxel_size.0
        (take edges first.now) (take edges second.now))) }
    ensures nx_after { nx.new ≡ sets nx.old 0
        (parts_x (normals_of (stored_by field.now) voxel_size.0
        (take edges first.now))) }
    ensures ny_after { ny.new ≡ sets ny.old 0
        (parts_y (normals_of (stored_by field.now) voxel_size.0
        (take edges first.now))) }
    ensures nz_after { nz.new ≡ sets nz.old 0
        (parts_z (normals_of (stored_by field.now) voxel_size.0
        (take edges first.now))) }
{
    list_places(field, voxel_size, first, second, edges, px, py, pz);
    list_normals(field, voxel_size, first, edges, nx, ny, nz);
}
