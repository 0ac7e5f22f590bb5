// The closed mesh of a table with its triangles turned outwards, in one call.
#![tactic(auto)]

ghost use Rattle.std.specs.Prelude.{◌≡◌, length};
ghost use Rattle.lists.specs.Threes.{column1, column2};
ghost use Rattle.table.specs.Table.{table, rows_of};
ghost use Rattle.mesh.specs.Mesh.{rooms as rooms_of};
ghost use Rattle.winding.specs.Winding.{turned_triangles};
ghost use Rattle.turned_mesh.specs.Turned.{IsTurnedMesh};
ghost use Rattle.turned_mesh.specs.Steps.{ReadyIf, turned_for};
ghost use Rattle.table.specs.Read.{table_of, rows_in};

use refusals::Refusal;
use table::{Rows, Settings};

// The triangles turned, by the answer to the closed mesh: nothing where that is refused.
fn turn_meshed(
    meshed: Result<(usize, usize), Refusal>,
    rows: &Rows,
    first: &[u64],
    second: &[u64],
    t0: &[u32],
    t1: &mut [u32],
    t2: &mut [u32],
)
    requires { ReadyIf meshed rows.now.keys.now rows.now.distances.now rows.now.weights.now rows.now.count first.now second.now t0.now t1.old t2.old }
    ensures t1_after { t1.new ≡ turned_for meshed
        (column1 (turned_triangles (rows_in rows.now))) t1.old }
    ensures t2_after { t2.new ≡ turned_for meshed
        (column2 (turned_triangles (rows_in rows.now))) t2.old }
{
    if let Ok((edges, triangles)) = meshed {
        turning::turn_triangles(rows, first, second, edges, triangles, t0, t1, t2);
    }
}

// The closed mesh of a table, its triangles turned outwards, in eleven lists: 1, 2, 3, then 6 exactly when edges, vertices or triangles outgrow their own
// list.
pub fn extract_turned_mesh(
    settings: Settings,
    rows: &Rows,
    first: &mut [u64],
    second: &mut [u64],
    px: &mut [f32],
    py: &mut [f32],
    pz: &mut [f32],
    nx: &mut [f32],
    ny: &mut [f32],
    nz: &mut [f32],
    t0: &mut [u32],
    t1: &mut [u32],
    t2: &mut [u32],
) -> Result<(usize, usize), Refusal>
    ensures { IsTurnedMesh settings (table_of rows.now)
        (rooms_of (length first.old) (length second.old) (length px.old)
        (length py.old) (length pz.old) (length nx.old) (length ny.old)
        (length nz.old) 0 (length t0.old)
        (length t1.old) (length t2.old))
        result first.new second.new px.new py.new pz.new nx.new
        ny.new nz.new t0.new t1.new t2.new }
{
    let meshed = mesh::extract_closed_mesh(
        settings, rows, first, second, px, py, pz, nx, ny, nz, t0, t1, t2,
    );
    turn_meshed(meshed, rows, first, second, t0, t1, t2);
    meshed
}
