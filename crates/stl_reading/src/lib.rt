// Binary STL read.
#![tactic(auto)]

mod reading;

ghost use Rattle.std.specs.Prelude.{◌≡◌, length};
ghost use Rattle.lists.specs.Places.{zero_f};
ghost use Rattle.lists.specs.Listing.{held_for};
ghost use Rattle.slopes.specs.Vertices.{xs_of, ys_of, zs_of};
ghost use Rattle.stl.specs.Files.{facets_in, corners_of};
ghost use Rattle.stl.specs.Calls.{import_answer};

use lists::count_of;
use refusals::Refusal;

// A file's corners as vertices, three for each triangle, and how many they are.
pub fn import_mesh_stl(
    file: &[u8],
    px: &mut [f32],
    py: &mut [f32],
    pz: &mut [f32],
) -> Result<usize, Refusal>
    ensures value { result ≡ import_answer file.now (length px.old) (length py.old)
        (length pz.old) }
    ensures px_after { px.new ≡ held_for zero_f
        (import_answer file.now (length px.old) (length py.old) (length pz.old))
        (length px.old) (xs_of (corners_of (facets_in file.now))) }
    ensures py_after { py.new ≡ held_for zero_f
        (import_answer file.now (length px.old) (length py.old) (length pz.old))
        (length py.old) (ys_of (corners_of (facets_in file.now))) }
    ensures pz_after { pz.new ≡ held_for zero_f
        (import_answer file.now (length px.old) (length py.old) (length pz.old))
        (length pz.old) (zs_of (corners_of (facets_in file.now))) }
{
    let stated = reading::stated(file, px.len(), py.len(), pz.len());
    let passed = reading::read_facets(file, count_of(stated), px, py, pz);
    let answer = reading::answer(stated, passed, px.len());
    let n = count_of(answer);
    lists::clear_from(px, n, 0.0);
    lists::clear_from(py, n, 0.0);
    lists::clear_from(pz, n, 0.0);
    answer
}
