// The mesh of a table, a cell's edge numbers, area, box and statistics.
ghost use Rattle.std.specs.Prelude.{◌≡◌, [], false};
ghost use Rattle.std.proofs.Math.ListN;
ghost use Rattle.floats.specs.Floats.{zero32};
ghost use Rattle.refusals.specs.Refusals.{answer_number, found_number};
ghost use Rattle.table.specs.Table.{settings_of, table};
ghost use Rattle.edges.specs.declared.Surface.TheVariants.{Closed};
ghost use Rattle.mesh.specs.Mesh.{rooms};
ghost use Rattle.groups.specs.CellEdges.{cell_span};
ghost use Rattle.surfaces.specs.Areas.{area_answer};
ghost use Rattle.surfaces.specs.Boxes.{box_answer};
ghost use Rattle.surfaces.specs.Stats.{stats_answer};
ghost use Rattle.answers.specs.Given.{given, found, one_if};
ghost use Rattle.mesh_answers.specs.Meshing.{MeshBackOn, TurnedBack, MeshBack, span_start, span_length, no_box};

use answers::{answer_number, found_number, one_if};
use corners::Threes;
use mesh_answers::{NO_CORNER, span_length, span_start};
use table::{Rows, settings_of};

#[unsafe(no_mangle)]
pub extern "C" fn akf_extract_mesh_from_tsdf(
    truncation: f32,
    max_weight: f32,
    voxel_size: f32,
    max_distance: f32,
    keys: &[u64],
    distances: &[f32],
    weights: &[f32],
    count: usize,
    first: &mut [u64],
    second: &mut [u64],
    px: &mut [f32],
    py: &mut [f32],
    pz: &mut [f32],
    nx: &mut [f32],
    ny: &mut [f32],
    nz: &mut [f32],
    groups: &mut [u32],
    t0: &mut [u32],
    t1: &mut [u32],
    t2: &mut [u32],
    edges: &mut usize,
    triangles: &mut usize,
) -> u32
    ensures { MeshBack (settings_of truncation max_weight voxel_size max_distance)
        (table keys.now distances.now weights.now count)
        (rooms (ListN.length first.old) (ListN.length second.old) (ListN.length px.old)
        (ListN.length py.old) (ListN.length pz.old) (ListN.length nx.old)
        (ListN.length ny.old) (ListN.length nz.old) (ListN.length groups.old)
        (ListN.length t0.old) (ListN.length t1.old) (ListN.length t2.old))
        result edges.new triangles.new
        first.new second.new px.new py.new pz.new nx.new
        ny.new nz.new groups.new t0.new t1.new t2.new }
{
    let settings = settings_of(truncation, max_weight, voxel_size, max_distance);
    let meshed = mesh::extract_mesh_from_tsdf(
        settings,
        &Rows {
            keys,
            distances,
            weights,
            count,
        },
        first,
        second,
        px,
        py,
        pz,
        nx,
        ny,
        nz,
        groups,
        t0,
        t1,
        t2,
    );
    let (vertices, corners) = meshed.unwrap_or((0, 0));
    *edges = vertices;
    *triangles = corners;
    answer_number(&meshed)
}

#[unsafe(no_mangle)]
pub extern "C" fn akf_extract_closed_mesh(
    truncation: f32,
    max_weight: f32,
    voxel_size: f32,
    max_distance: f32,
    keys: &[u64],
    distances: &[f32],
    weights: &[f32],
    count: usize,
    first: &mut [u64],
    second: &mut [u64],
    px: &mut [f32],
    py: &mut [f32],
    pz: &mut [f32],
    nx: &mut [f32],
    ny: &mut [f32],
    nz: &mut [f32],
    t0: &mut [u32],
    t1: &mut [u32],
    t2: &mut [u32],
    edges: &mut usize,
    triangles: &mut usize,
) -> u32
    ensures { MeshBackOn Closed (settings_of truncation max_weight voxel_size max_distance)
        (table keys.now distances.now weights.now count)
        (rooms (ListN.length first.old) (ListN.length second.old) (ListN.length px.old)
        (ListN.length py.old) (ListN.length pz.old) (ListN.length nx.old)
        (ListN.length ny.old) (ListN.length nz.old) 0
        (ListN.length t0.old) (ListN.length t1.old) (ListN.length t2.old))
        result edges.new triangles.new
        first.new second.new px.new py.new pz.new nx.new
        ny.new nz.new [] t0.new t1.new t2.new }
{
    let settings = settings_of(truncation, max_weight, voxel_size, max_distance);
    let meshed = mesh::extract_closed_mesh(
        settings,
        &Rows {
            keys,
            distances,
            weights,
            count,
        },
        first,
        second,
        px,
        py,
        pz,
        nx,
        ny,
        nz,
        t0,
        t1,
        t2,
    );
    let (cut, made) = meshed.unwrap_or((0, 0));
    *edges = cut;
    *triangles = made;
    answer_number(&meshed)
}

#[unsafe(no_mangle)]
pub extern "C" fn akf_extract_turned_mesh(
    truncation: f32,
    max_weight: f32,
    voxel_size: f32,
    max_distance: f32,
    keys: &[u64],
    distances: &[f32],
    weights: &[f32],
    count: usize,
    first: &mut [u64],
    second: &mut [u64],
    px: &mut [f32],
    py: &mut [f32],
    pz: &mut [f32],
    nx: &mut [f32],
    ny: &mut [f32],
    nz: &mut [f32],
    t0: &mut [u32],
    t1: &mut [u32],
    t2: &mut [u32],
    edges: &mut usize,
    triangles: &mut usize,
) -> u32
    ensures { TurnedBack (settings_of truncation max_weight voxel_size max_distance)
        (table keys.now distances.now weights.now count)
        (rooms (ListN.length first.old) (ListN.length second.old) (ListN.length px.old)
        (ListN.length py.old) (ListN.length pz.old) (ListN.length nx.old)
        (ListN.length ny.old) (ListN.length nz.old) 0
        (ListN.length t0.old) (ListN.length t1.old) (ListN.length t2.old))
        result edges.new triangles.new
        first.new second.new px.new py.new pz.new nx.new
        ny.new nz.new t0.new t1.new t2.new }
{
    let settings = settings_of(truncation, max_weight, voxel_size, max_distance);
    let meshed = turned_mesh::extract_turned_mesh(
        settings,
        &Rows {
            keys,
            distances,
            weights,
            count,
        },
        first,
        second,
        px,
        py,
        pz,
        nx,
        ny,
        nz,
        t0,
        t1,
        t2,
    );
    let (cut, turned) = meshed.unwrap_or((0, 0));
    *edges = cut;
    *triangles = turned;
    answer_number(&meshed)
}

#[unsafe(no_mangle)]
pub extern "C" fn akf_cell_edges(
    groups: &[u32],
    first: &[u64],
    second: &[u64],
    edges: usize,
    cell: u64,
    start: &mut usize,
    length: &mut usize,
)
    ensures start_after { start.new ≡ span_start (cell_span (ListN.length groups.now) first.now second.now edges cell) }
    ensures length_after { length.new ≡ span_length (cell_span (ListN.length groups.now) first.now second.now edges cell) }
{
    let span = groups::cell_span(groups.len(), first, second, edges, cell);
    *start = span_start(span);
    *length = span_length(span);
}

#[unsafe(no_mangle)]
pub extern "C" fn akf_surface_area(
    px: &[f32],
    py: &[f32],
    pz: &[f32],
    vertices: usize,
    t0: &[u32],
    t1: &[u32],
    t2: &[u32],
    triangles: usize,
    area: &mut f32,
) -> u32
    ensures value { result ≡ answer_number
        (area_answer px.now py.now pz.now vertices t0.now t1.now
        t2.now triangles) }
    ensures area_after { area.new ≡ given zero32
        (area_answer px.now py.now pz.now vertices t0.now t1.now
        t2.now triangles) }
{
    let answer = surfaces::surface_area(
        &Threes {
            first: px,
            second: py,
            third: pz,
            count: vertices,
        },
        &Threes {
            first: t0,
            second: t1,
            third: t2,
            count: triangles,
        },
    );
    *area = answer.unwrap_or(0.0);
    answer_number(&answer)
}

#[unsafe(no_mangle)]
pub extern "C" fn akf_bounding_box(
    px: &[f32],
    py: &[f32],
    pz: &[f32],
    vertices: usize,
    min_x: &mut f32,
    min_y: &mut f32,
    min_z: &mut f32,
    max_x: &mut f32,
    max_y: &mut f32,
    max_z: &mut f32,
) -> u32
    ensures value { result ≡ found_number (box_answer px.now py.now pz.now vertices) }
    ensures min_x_after { min_x.new ≡ (found no_box (box_answer px.now py.now pz.now vertices)).0.x.0 }
    ensures min_y_after { min_y.new ≡ (found no_box (box_answer px.now py.now pz.now vertices)).0.y.0 }
    ensures min_z_after { min_z.new ≡ (found no_box (box_answer px.now py.now pz.now vertices)).0.z.0 }
    ensures max_x_after { max_x.new ≡ (found no_box (box_answer px.now py.now pz.now vertices)).1.x.0 }
    ensures max_y_after { max_y.new ≡ (found no_box (box_answer px.now py.now pz.now vertices)).1.y.0 }
    ensures max_z_after { max_z.new ≡ (found no_box (box_answer px.now py.now pz.now vertices)).1.z.0 }
{
    let bounds = surfaces::bounding_box(&Threes {
        first: px,
        second: py,
        third: pz,
        count: vertices,
    });
    let (low, high) = bounds.unwrap_or(None).unwrap_or((NO_CORNER, NO_CORNER));
    *min_x = low.x.0;
    *min_y = low.y.0;
    *min_z = low.z.0;
    *max_x = high.x.0;
    *max_y = high.y.0;
    *max_z = high.z.0;
    found_number(&bounds)
}

#[unsafe(no_mangle)]
pub extern "C" fn akf_mesh_stats(
    nx: &[f32],
    ny: &[f32],
    nz: &[f32],
    vertices: usize,
    has_normals: &mut u32,
) -> u32
    ensures value { result ≡ answer_number (stats_answer nx.now ny.now nz.now vertices) }
    ensures has_normals_after { has_normals.new ≡ one_if (given false (stats_answer nx.now ny.now nz.now vertices)) }
{
    let stats = surfaces::mesh_stats(&Threes {
        first: nx,
        second: ny,
        third: nz,
        count: vertices,
    });
    *has_normals = one_if(stats.unwrap_or(false));
    answer_number(&stats)
}
