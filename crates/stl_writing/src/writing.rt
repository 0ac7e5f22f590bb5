// A mesh written: the tests, and the bytes of the file from the front.
ghost use Rattle.std.specs.Prelude.{◌≡◌, true, ◌+◌, ◌*◌, ◌≤◌, length};
ghost use Rattle.std.proofs.lemmas.List.Edits.{sets};
ghost use Rattle.lists.specs.Lists.{joined};
ghost use Rattle.lists.specs.Threes.{three};
ghost use Rattle.corners.specs.Corners.{vertex_ok};
ghost use Rattle.stl.specs.Files.{vertex_bytes, facet_bytes, file_of};
ghost use Rattle.stl.specs.Calls.{facets_lent, export_answer};
ghost use Rattle.stl.specs.Steps.{Writable};

use corners::{Threes, triangles_ok, vertices_ok};
use refusals::Refusal;
use slopes::Vertex;
use surfaces::vertex_at;
use words::{LONGEST_FILE, write_word, write_zeros};

// What is answered to a mesh, for a file of so many places.
pub(crate) fn answer(
    vertices: &Threes<f32>,
    triangles: &Threes<u32>,
    room: usize,
) -> Result<usize, Refusal>
    ensures { result ≡ export_answer vertices.now.first.now vertices.now.second.now vertices.now.third.now vertices.now.count
        triangles.now.first.now triangles.now.second.now triangles.now.third.now triangles.now.count room }
{
    if !(vertices.is_ok() & (triangles.is_ok() & (room <= LONGEST_FILE))) {
        return Err(Refusal::Lengths);
    }
    if !(vertices_ok(vertices) & triangles_ok(vertices.count, triangles)) {
        return Err(Refusal::BadVertex);
    }
    lists::room_for(84 + 50 * triangles.count, room)
}

// A vertex's three floats from a place on.
fn write_vertex(file: &mut [u8], at: usize, v: Vertex)
    requires at_in_bounds { at + 12 ≤ length file.old }
    requires v_value { vertex_ok v ≡ true }
    ensures { file.new ≡ sets file.old at (vertex_bytes v) }
{
    write_word(file, at, f32::to_bits(v.x.0));
    write_word(file, at + 4, f32::to_bits(v.y.0));
    write_word(file, at + 8, f32::to_bits(v.z.0));
}

// A triangle's fifty bytes from a place on.
fn write_facet(file: &mut [u8], at: usize, a: Vertex, b: Vertex, c: Vertex)
    requires at_in_bounds { at + 50 ≤ length file.old }
    requires a_value { (vertex_ok a ≡ true) × (vertex_ok b ≡ true) × (vertex_ok c ≡ true) }
    ensures { file.new ≡ sets file.old at (facet_bytes (three a b c)) }
{
    write_zeros(file, at, 12);
    write_vertex(file, at + 12, a);
    write_vertex(file, at + 24, b);
    write_vertex(file, at + 36, c);
    write_zeros(file, at + 48, 2);
}

// All triangles, one after the other.
fn write_facets(vertices: &Threes<f32>, triangles: &Threes<u32>, file: &mut [u8])
    requires { Writable vertices.now.first.now vertices.now.second.now vertices.now.third.now vertices.now.count
        triangles.now.first.now triangles.now.second.now triangles.now.third.now triangles.now.count (length file.old) }
    ensures { file.new ≡ sets file.old 84
        (joined facet_bytes (facets_lent vertices.now.first.now vertices.now.second.now vertices.now.third.now vertices.now.count
        triangles.now.first.now triangles.now.second.now triangles.now.third.now triangles.now.count)) }
{
    let Threes {
        first,
        second,
        third,
        count,
    } = *triangles;
    for i in 0..count {
        let a = vertex_at(vertices, first[i] as usize);
        let b = vertex_at(vertices, second[i] as usize);
        let c = vertex_at(vertices, third[i] as usize);
        write_facet(file, 84 + 50 * i, a, b, c);
    }
}

// The whole file, from the front.
pub(crate) fn write_file(vertices: &Threes<f32>, triangles: &Threes<u32>, file: &mut [u8])
    requires { Writable vertices.now.first.now vertices.now.second.now vertices.now.third.now vertices.now.count
        triangles.now.first.now triangles.now.second.now triangles.now.third.now triangles.now.count (length file.old) }
    ensures { file.new ≡ sets file.old 0
        (file_of (facets_lent vertices.now.first.now vertices.now.second.now vertices.now.third.now vertices.now.count
        triangles.now.first.now triangles.now.second.now triangles.now.third.now triangles.now.count)) }
{
    write_zeros(file, 0, 80);
    write_word(file, 80, triangles.count as u32);
    write_facets(vertices, triangles, file);
}
