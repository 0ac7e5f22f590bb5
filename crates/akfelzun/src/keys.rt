// Keys, neighbours, the root and snapping.
ghost use Rattle.std.specs.Prelude.{◌≡◌, length};
ghost use Rattle.floats.specs.Floats.{zero32};
ghost use Rattle.refusals.specs.Refusals.{answer_number};
ghost use Rattle.ids.specs.Key.{made_of, decoded_of};
ghost use Rattle.lists.specs.Listing.{count_of};
ghost use Rattle.neighbors.specs.Neighbors.{listed_of, listing_of};
ghost use Rattle.root.specs.Root.{root_answer};
ghost use Rattle.bcc_utils.specs.Snapping.{on_lattice, snapped};
ghost use Rattle.bcc_utils.specs.Metres.{voxel_of};
ghost use Rattle.answers.specs.Given.{given, no_cells, no_place, one_if};

use answers::{answer_number, one_if};
use bcc_utils::WideCells;
use floats::Metres;
use ids::Cells;
use lists::count_of;

#[unsafe(no_mangle)]
pub extern "C" fn akf_index64_new(head: u16, x: u16, y: u16, z: u16, key: &mut u64) -> u32
    ensures value { result ≡ answer_number (made_of head x y z) }
    ensures key_after { key.new ≡ given 0 (made_of head x y z) }
{
    let made = ids::new(head, Cells(x), Cells(y), Cells(z));
    *key = made.unwrap_or(0);
    answer_number(&made)
}

#[unsafe(no_mangle)]
pub extern "C" fn akf_decode_coords(key: u64, x: &mut u16, y: &mut u16, z: &mut u16) -> u32
    ensures value { result ≡ answer_number (decoded_of key) }
    ensures x_after { x.new ≡ (given no_cells (decoded_of key)).0.0 }
    ensures y_after { y.new ≡ (given no_cells (decoded_of key)).1.0 }
    ensures z_after { z.new ≡ (given no_cells (decoded_of key)).2.0 }
{
    let decoded = ids::decode_coords(key);
    let (cx, cy, cz) = decoded.unwrap_or((Cells(0), Cells(0), Cells(0)));
    *x = cx.0;
    *y = cy.0;
    *z = cz.0;
    answer_number(&decoded)
}

#[unsafe(no_mangle)]
pub extern "C" fn akf_neighbors_index64(key: u64, out: &mut [u64], listed: &mut usize) -> u32
    ensures value { result ≡ answer_number (listed_of key (length out.old)) }
    ensures out_after { out.new ≡ listing_of key (length out.old) }
    ensures listed_after { listed.new ≡ count_of (listed_of key (length out.old)) }
{
    let answer = neighbors::neighbors_index64(key, out);
    *listed = count_of(answer);
    answer_number(&answer)
}

#[unsafe(no_mangle)]
pub extern "C" fn akf_root(x: f32, root: &mut f32) -> u32
    ensures value { result ≡ answer_number (root_answer x) }
    ensures root_after { root.new ≡ given zero32 (root_answer x) }
{
    let rooted = root::root(x);
    *root = rooted.unwrap_or(0.0);
    answer_number(&rooted)
}

#[unsafe(no_mangle)]
pub extern "C" fn akf_snap_to_nearest_bcc(
    x: i32,
    y: i32,
    z: i32,
    sx: &mut i32,
    sy: &mut i32,
    sz: &mut i32,
) -> u32
    ensures value { result ≡ answer_number (snapped x y z) }
    ensures sx_after { sx.new ≡ (given no_place (snapped x y z)).0.0 }
    ensures sy_after { sy.new ≡ (given no_place (snapped x y z)).1.0 }
    ensures sz_after { sz.new ≡ (given no_place (snapped x y z)).2.0 }
{
    let place = bcc_utils::snap_to_nearest_bcc(WideCells(x), WideCells(y), WideCells(z));
    let (cx, cy, cz) = place.unwrap_or((WideCells(0), WideCells(0), WideCells(0)));
    *sx = cx.0;
    *sy = cy.0;
    *sz = cz.0;
    answer_number(&place)
}

#[unsafe(no_mangle)]
pub extern "C" fn akf_physical_to_bcc_voxel(
    x: f32,
    y: f32,
    z: f32,
    voxel_size: f32,
    sx: &mut i32,
    sy: &mut i32,
    sz: &mut i32,
) -> u32
    ensures value { result ≡ answer_number (voxel_of x y z voxel_size) }
    ensures sx_after { sx.new ≡ (given no_place (voxel_of x y z voxel_size)).0.0 }
    ensures sy_after { sy.new ≡ (given no_place (voxel_of x y z voxel_size)).1.0 }
    ensures sz_after { sz.new ≡ (given no_place (voxel_of x y z voxel_size)).2.0 }
{
    let place = bcc_utils::physical_to_bcc_voxel(
        Metres(x),
        Metres(y),
        Metres(z),
        Metres(voxel_size),
    );
    let (cx, cy, cz) = place.unwrap_or((WideCells(0), WideCells(0), WideCells(0)));
    *sx = cx.0;
    *sy = cy.0;
    *sz = cz.0;
    answer_number(&place)
}

#[unsafe(no_mangle)]
pub extern "C" fn akf_is_valid_bcc(x: i32, y: i32, z: i32) -> u32
    ensures { result ≡ one_if (on_lattice x y z) }
{
    let valid = bcc_utils::is_valid_bcc(WideCells(x), WideCells(y), WideCells(z));
    one_if(valid)
}
