// A mesh written as binary STL.
#![tactic(auto)]

mod writing;

ghost use Rattle.std.specs.Prelude.{◌≡◌, length};
ghost use Rattle.lists.specs.Listing.{held_for};
ghost use Rattle.stl.specs.Files.{file_of};
ghost use Rattle.stl.specs.Calls.{facets_lent, export_answer};

use corners::Threes;
use lists::count_of;
use refusals::Refusal;
use words::write_zeros;

// A mesh as the bytes of a file, and how many they are.
pub fn export_mesh_stl(
    vertices: &Threes<f32>,
    triangles: &Threes<u32>,
    file: &mut [u8],
) -> Result<usize, Refusal>
    ensures value { result ≡ export_answer vertices.now.first.now vertices.now.second.now vertices.now.third.now vertices.now.count
        triangles.now.first.now triangles.now.second.now triangles.now.third.now triangles.now.count (length file.old) }
    ensures file_after { file.new ≡ held_for 0
        (export_answer vertices.now.first.now vertices.now.second.now vertices.now.third.now vertices.now.count
        triangles.now.first.now triangles.now.second.now triangles.now.third.now triangles.now.count (length file.old))
        (length file.old)
        (file_of (facets_lent vertices.now.first.now vertices.now.second.now vertices.now.third.now vertices.now.count
        triangles.now.first.now triangles.now.second.now triangles.now.third.now triangles.now.count)) }
{
    let answer = writing::answer(vertices, triangles, file.len());
    let n = count_of(answer);
    if 0 < n {
        writing::write_file(vertices, triangles, file);
    }
    write_zeros(file, n, file.len() - n);
    answer
}
