// Binary STL, written and read.
ghost use Rattle.std.specs.Prelude.{◌≡◌, length};
ghost use Rattle.refusals.specs.Refusals.{answer_number};
ghost use Rattle.lists.specs.Places.{zero_f};
ghost use Rattle.lists.specs.Listing.{held_for, count_of};
ghost use Rattle.slopes.specs.Vertices.{xs_of, ys_of, zs_of};
ghost use Rattle.stl.specs.Files.{file_of, facets_in, corners_of};
ghost use Rattle.stl.specs.Calls.{facets_lent, export_answer, import_answer};

use answers::answer_number;
use corners::Threes;
use lists::count_of;

#[unsafe(no_mangle)]
pub extern "C" fn akf_export_mesh_stl(
    px: &[f32],
    py: &[f32],
    pz: &[f32],
    vertices: usize,
    t0: &[u32],
    t1: &[u32],
    t2: &[u32],
    triangles: usize,
    file: &mut [u8],
    written: &mut usize,
) -> u32
    ensures value { result ≡ answer_number
        (export_answer px.now py.now pz.now vertices t0.now t1.now
        t2.now triangles (length file.old)) }
    ensures file_after { file.new ≡ held_for 0
        (export_answer px.now py.now pz.now vertices t0.now t1.now
        t2.now triangles (length file.old))
        (length file.old)
        (file_of (facets_lent px.now py.now pz.now vertices t0.now t1.now
        t2.now triangles)) }
    ensures written_after { written.new ≡ count_of
        (export_answer px.now py.now pz.now vertices t0.now t1.now
        t2.now triangles (length file.old)) }
{
    let answer = stl_writing::export_mesh_stl(
        &Threes {
            first: px,
            second: py,
            third: pz,
            count: vertices,
        },
        &Threes {
            first: t0,
            second: t1,
            third: t2,
            count: triangles,
        },
        file,
    );
    *written = count_of(answer);
    answer_number(&answer)
}

#[unsafe(no_mangle)]
pub extern "C" fn akf_import_mesh_stl(
    file: &[u8],
    px: &mut [f32],
    py: &mut [f32],
    pz: &mut [f32],
    vertices: &mut usize,
) -> u32
    ensures value { result ≡ answer_number
        (import_answer file.now (length px.old) (length py.old) (length pz.old)) }
    ensures px_after { px.new ≡ held_for zero_f
        (import_answer file.now (length px.old) (length py.old) (length pz.old))
        (length px.old) (xs_of (corners_of (facets_in file.now))) }
    ensures py_after { py.new ≡ held_for zero_f
        (import_answer file.now (length px.old) (length py.old) (length pz.old))
        (length py.old) (ys_of (corners_of (facets_in file.now))) }
    ensures pz_after { pz.new ≡ held_for zero_f
        (import_answer file.now (length px.old) (length py.old) (length pz.old))
        (length pz.old) (zs_of (corners_of (facets_in file.now))) }
    ensures vertices_after { vertices.new ≡ count_of
        (import_answer file.now (length px.old) (length py.old) (length pz.old)) }
{
    let answer = stl_reading::import_mesh_stl(file, px, py, pz);
    *vertices = count_of(answer);
    answer_number(&answer)
}
