// The mesh of a table (src/layers/mesh.rs, extract_mesh_from_tsdf): edges, vertices with normals, groups and triangles.
#![tactic(auto)]

ghost use Rattle.std.specs.Prelude.{◌≡◌, length};
ghost use Rattle.lists.specs.Listing.{kept_of};
ghost use Rattle.lists.specs.Places.{zero_f, cleared_from};
ghost use Rattle.table.specs.Table.{table};
ghost use Rattle.edges.specs.Steps.{Tested};
ghost use Rattle.edges.specs.declared.Surface.TheVariants.{Open, Closed};
ghost use Rattle.triangles.specs.Building.{rooms as lent_of};
ghost use Rattle.mesh.specs.Mesh.{rooms as rooms_of, rooms_ok, mesh_check, IsMeshOn, IsMesh, IsClosedMesh};
ghost use Rattle.mesh.specs.Steps.{answer_for, Fit, Drawing};
ghost use Rattle.table.specs.Read.{table_of};

use edges::Surface;
use lists::LONGEST_LIST;
use refusals::Refusal;
use stored::Distances;
use table::{Rows, Settings};

// The lengths of the twelve lists.
#[derive(Clone, Copy)]
pub struct Rooms {
    pub first: usize,
    pub second: usize,
    pub px: usize,
    pub py: usize,
    pub pz: usize,
    pub nx: usize,
    pub ny: usize,
    pub nz: usize,
    pub groups: usize,
    pub t0: usize,
    pub t1: usize,
    pub t2: usize,
}

// What is answered to a surface's edges, and to its groups and triangles.
#[derive(Clone, Copy)]
struct Drawn {
    edges: Result<usize, Refusal>,
    built: Result<usize, Refusal>,
}

// Each set of lists is equally long, within the limit.
fn rooms_ok(r: Rooms) -> bool
    ensures { result ≡ rooms_ok r }
{
    ((r.first == r.second) & (r.first <= LONGEST_LIST))
        & (((((r.px == r.py) & (r.px == r.pz))
            & ((r.px == r.nx) & ((r.px == r.ny) & (r.px == r.nz))))
            & (r.px <= LONGEST_LIST))
            & ((r.groups <= LONGEST_LIST)
                & (((r.t0 == r.t1) & (r.t0 == r.t2)) & (r.t0 <= LONGEST_LIST))))
}

// Refusals 1, 2 and 3.
fn check(settings: Settings, rows: &Rows, rooms: Rooms) -> Result<(), Refusal>
    ensures { result ≡ mesh_check settings (table_of rows.now) rooms }
{
    table::check_with(rooms_ok(rooms), settings, rows)
}

// The edges of document 01's surface by the verdict of the tests, and from them the groups and the triangles.
fn draw_open(
    verdict: Result<(), Refusal>,
    rows: &Rows,
    first: &mut [u64],
    second: &mut [u64],
    groups: &mut [u32],
    t0: &mut [u32],
    t1: &mut [u32],
    t2: &mut [u32],
) -> Drawn
    requires { Tested verdict rows.now.keys.now rows.now.distances.now rows.now.weights.now rows.now.count (length first.old) (length second.old) }
    ensures { Fit verdict
        (lent_of (length groups.old) (length t0.old) (length t1.old)
        (length t2.old))
        → Drawing Open (table_of rows.now)
        (length first.old) (length second.old)
        (lent_of (length groups.old) (length t0.old) (length t1.old)
        (length t2.old))
        result first.new second.new groups.new t0.new t1.new
        t2.new }
{
    let Rows { keys, count, .. } = *rows;
    let edges = edges::list_tested(Surface::Open, verdict, rows, first, second);
    let n = lists::count_of(edges);
    let built = triangles::build_triangles(keys, count, first, second, n, groups, t0, t1, t2);
    Drawn { edges, built }
}

// The edges and the triangles of the surface that closes, which has no groups.
fn draw_closed(
    verdict: Result<(), Refusal>,
    rows: &Rows,
    first: &mut [u64],
    second: &mut [u64],
    groups: &mut [u32],
    t0: &mut [u32],
    t1: &mut [u32],
    t2: &mut [u32],
) -> Drawn
    requires { Tested verdict rows.now.keys.now rows.now.distances.now rows.now.weights.now rows.now.count (length first.old) (length second.old) }
    ensures { Fit verdict
        (lent_of (length groups.old) (length t0.old) (length t1.old)
        (length t2.old))
        → Drawing Closed (table_of rows.now)
        (length first.old) (length second.old)
        (lent_of (length groups.old) (length t0.old) (length t1.old)
        (length t2.old))
        result first.new second.new groups.new t0.new t1.new
        t2.new }
{
    let closed = cutting::list_closed(verdict, rows, first, second, t0, t1, t2);
    lists::clear_from(groups, 0, 0);
    let edges = closed.edges;
    let built = closed.triangles;
    Drawn { edges, built }
}

// The edges of a surface, its groups and its triangles.
fn draw(
    surface: Surface,
    verdict: Result<(), Refusal>,
    rows: &Rows,
    first: &mut [u64],
    second: &mut [u64],
    groups: &mut [u32],
    t0: &mut [u32],
    t1: &mut [u32],
    t2: &mut [u32],
) -> Drawn
    requires { Tested verdict rows.now.keys.now rows.now.distances.now rows.now.weights.now rows.now.count (length first.old) (length second.old) }
    ensures { Fit verdict
        (lent_of (length groups.old) (length t0.old) (length t1.old)
        (length t2.old))
        → Drawing surface (table_of rows.now)
        (length first.old) (length second.old)
        (lent_of (length groups.old) (length t0.old) (length t1.old)
        (length t2.old))
        result first.new second.new groups.new t0.new t1.new
        t2.new }
{
    match surface {
        Surface::Open => draw_open(verdict, rows, first, second, groups, t0, t1, t2),
        Surface::Closed => draw_closed(verdict, rows, first, second, groups, t0, t1, t2),
    }
}

// The answer: what the tests refuse, then the edges, the vertices' room and the triangles.
#[tactic(auto, unfolding(crate::specs::Steps::answer_for))]
fn answer(
    verdict: Result<(), Refusal>,
    edges: Result<usize, Refusal>,
    room: usize,
    built: Result<usize, Refusal>,
) -> Result<(usize, usize), Refusal>
    ensures { result ≡ answer_for verdict edges room built }
{
    verdict?;
    let vertices = lists::room_for(edges?, room)?;
    Ok((vertices, built?))
}

// The edges stay, or are wiped where the answer refuses.
fn settle_edges(meshed: Result<(usize, usize), Refusal>, first: &mut [u64], second: &mut [u64])
    ensures first_after { first.new ≡ cleared_from 0 (kept_of meshed (length first.old)) first.old }
    ensures second_after { second.new ≡ cleared_from 0 (kept_of meshed (length second.old)) second.old }
{
    let a = lists::kept(meshed, first.len());
    let b = lists::kept(meshed, second.len());
    lists::clear_from(first, a, 0);
    lists::clear_from(second, b, 0);
}

// The first `n` of three lists stay, none where the answer refuses.
fn settle_places(
    meshed: Result<(usize, usize), Refusal>,
    n: usize,
    x: &mut [f32],
    y: &mut [f32],
    z: &mut [f32],
)
    ensures x_after { x.new ≡ cleared_from zero_f (kept_of meshed n) x.old }
    ensures y_after { y.new ≡ cleared_from zero_f (kept_of meshed n) y.old }
    ensures z_after { z.new ≡ cleared_from zero_f (kept_of meshed n) z.old }
{
    let k = lists::kept(meshed, n);
    lists::clear_from(x, k, 0.0);
    lists::clear_from(y, k, 0.0);
    lists::clear_from(z, k, 0.0);
}

// The groups and the triangles stay, or are wiped where the answer refuses.
fn settle_triangles(
    meshed: Result<(usize, usize), Refusal>,
    groups: &mut [u32],
    t0: &mut [u32],
    t1: &mut [u32],
    t2: &mut [u32],
)
    ensures groups_after { groups.new ≡ cleared_from 0 (kept_of meshed (length groups.old)) groups.old }
    ensures t0_after { t0.new ≡ cleared_from 0 (kept_of meshed (length t0.old)) t0.old }
    ensures t1_after { t1.new ≡ cleared_from 0 (kept_of meshed (length t1.old)) t1.old }
    ensures t2_after { t2.new ≡ cleared_from 0 (kept_of meshed (length t2.old)) t2.old }
{
    let g = lists::kept(meshed, groups.len());
    let a = lists::kept(meshed, t0.len());
    let b = lists::kept(meshed, t1.len());
    let c = lists::kept(meshed, t2.len());
    lists::clear_from(groups, g, 0);
    lists::clear_from(t0, a, 0);
    lists::clear_from(t1, b, 0);
    lists::clear_from(t2, c, 0);
}

// The mesh of a surface, in twelve lists.
fn extract(
    surface: Surface,
    settings: Settings,
    rows: &Rows,
    first: &mut [u64],
    second: &mut [u64],
    px: &mut [f32],
    py: &mut [f32],
    pz: &mut [f32],
    nx: &mut [f32],
    ny: &mut [f32],
    nz: &mut [f32],
    groups: &mut [u32],
    t0: &mut [u32],
    t1: &mut [u32],
    t2: &mut [u32],
) -> Result<(usize, usize), Refusal>
    ensures { IsMeshOn surface settings (table_of rows.now)
        (rooms_of (length first.old) (length second.old) (length px.old)
        (length py.old) (length pz.old) (length nx.old) (length ny.old)
        (length nz.old) (length groups.old) (length t0.old)
        (length t1.old) (length t2.old))
        result first.new second.new px.new py.new pz.new nx.new
        ny.new nz.new groups.new t0.new t1.new t2.new }
{
    let Rows {
        keys,
        distances,
        count,
        ..
    } = *rows;
    let rooms = Rooms {
        first: first.len(),
        second: second.len(),
        px: px.len(),
        py: py.len(),
        pz: pz.len(),
        nx: nx.len(),
        ny: ny.len(),
        nz: nz.len(),
        groups: groups.len(),
        t0: t0.len(),
        t1: t1.len(),
        t2: t2.len(),
    };
    let size = settings.voxel_size;
    let verdict = check(settings, rows, rooms);
    let drawn = draw(surface, verdict, rows, first, second, groups, t0, t1, t2);
    let edges = drawn.edges;
    let built = drawn.built;
    let n = lists::count_of(edges);
    vertices::list_vertices(
        &Distances {
            keys,
            distances,
            count,
        },
        size,
        first,
        second,
        n,
        px,
        py,
        pz,
        nx,
        ny,
        nz,
    );
    let meshed = answer(verdict, edges, rooms.px, built);
    settle_edges(meshed, first, second);
    settle_places(meshed, n, px, py, pz);
    settle_places(meshed, n, nx, ny, nz);
    settle_triangles(meshed, groups, t0, t1, t2);
    meshed
}

// The mesh of a table, in twelve lists: 1, 2, 3, then 6 exactly when edges, vertices, groups or triangles outgrow their own list.
pub fn extract_mesh_from_tsdf(
    settings: Settings,
    rows: &Rows,
    first: &mut [u64],
    second: &mut [u64],
    px: &mut [f32],
    py: &mut [f32],
    pz: &mut [f32],
    nx: &mut [f32],
    ny: &mut [f32],
    nz: &mut [f32],
    groups: &mut [u32],
    t0: &mut [u32],
    t1: &mut [u32],
    t2: &mut [u32],
) -> Result<(usize, usize), Refusal>
    ensures { IsMesh settings (table_of rows.now)
        (rooms_of (length first.old) (length second.old) (length px.old)
        (length py.old) (length pz.old) (length nx.old) (length ny.old)
        (length nz.old) (length groups.old) (length t0.old)
        (length t1.old) (length t2.old))
        result first.new second.new px.new py.new pz.new nx.new
        ny.new nz.new groups.new t0.new t1.new t2.new }
{
    extract(
        Surface::Open,
        settings,
        rows,
        first,
        second,
        px,
        py,
        pz,
        nx,
        ny,
        nz,
        groups,
        t0,
        t1,
        t2,
    )
}

// The closed mesh of a table, in eleven lists: 1, 2, 3, then 6 exactly when edges, vertices or triangles outgrow their own list.
pub fn extract_closed_mesh(
    settings: Settings,
    rows: &Rows,
    first: &mut [u64],
    second: &mut [u64],
    px: &mut [f32],
    py: &mut [f32],
    pz: &mut [f32],
    nx: &mut [f32],
    ny: &mut [f32],
    nz: &mut [f32],
    t0: &mut [u32],
    t1: &mut [u32],
    t2: &mut [u32],
) -> Result<(usize, usize), Refusal>
    ensures { IsClosedMesh settings (table_of rows.now)
        (rooms_of (length first.old) (length second.old) (length px.old)
        (length py.old) (length pz.old) (length nx.old) (length ny.old)
        (length nz.old) 0 (length t0.old)
        (length t1.old) (length t2.old))
        result first.new second.new px.new py.new pz.new nx.new
        ny.new nz.new t0.new t1.new t2.new }
{
    let mut none = [0u32; 1];
    extract(
        Surface::Closed,
        settings,
        rows,
        first,
        second,
        px,
        py,
        pz,
        nx,
        ny,
        nz,
        &mut none[..0],
        t0,
        t1,
        t2,
    )
}
