// Lines that stand alone: keys, neighbours, the root, snapping.
use bcc_utils::WideCells;
use floats::Metres;
use ids::Cells;
use refusals::Refusal;
use vectors::{Line, float, low16, same, signed};

fn new_again(words: [u64; 16]) -> bool {
    let x = Cells(low16(words[1]));
    let y = Cells(low16(words[2]));
    let z = Cells(low16(words[3]));
    ids::new(low16(words[0]), x, y, z) == Ok(words[4])
}

fn decode_again(words: [u64; 16]) -> bool {
    ids::decode_coords(words[0]).is_ok_and(|(x, y, z)| {
        [x, y, z].map(|cells| u64::from(cells.0)) == [words[1], words[2], words[3]]
    })
}

// The words past a line's last are 0, as the places past the last neighbour are.
fn neighbors_again(words: [u64; 16]) -> bool {
    let near = neighbors::around(words[0]);
    near.count as u64 == words[1] && near.keys.as_slice() == &words[2..]
}

fn root_again(words: [u64; 16]) -> bool {
    root::root(float(words[0])).is_ok_and(|r| same(r, float(words[1])))
}

// The coordinates that three words say.
fn wide(x: u64, y: u64, z: u64) -> (WideCells, WideCells, WideCells) {
    (
        WideCells(signed(x)),
        WideCells(signed(y)),
        WideCells(signed(z)),
    )
}

fn snapped_at(
    snapped: Result<(WideCells, WideCells, WideCells), Refusal>,
    x: u64,
    y: u64,
    z: u64,
) -> bool {
    snapped.is_ok_and(|(a, b, c)| a.0 == signed(x) && b.0 == signed(y) && c.0 == signed(z))
}

fn snap_again(words: [u64; 16]) -> bool {
    let (x, y, z) = wide(words[0], words[1], words[2]);
    snapped_at(
        bcc_utils::snap_to_nearest_bcc(x, y, z),
        words[3],
        words[4],
        words[5],
    )
}

fn voxel_again(words: [u64; 16]) -> bool {
    let x = Metres(float(words[0]));
    let y = Metres(float(words[1]));
    let z = Metres(float(words[2]));
    let size = Metres(float(words[3]));
    snapped_at(
        bcc_utils::physical_to_bcc_voxel(x, y, z, size),
        words[4],
        words[5],
        words[6],
    )
}

// A line whose answer comes out again.
pub(crate) fn again(line: Line) -> bool {
    let words = line.words;
    match line.letter {
        b'N' => new_again(words),
        b'D' => decode_again(words),
        b'A' => neighbors_again(words),
        b'Q' => root_again(words),
        b'G' => snap_again(words),
        b'Y' => voxel_again(words),
        _ => false,
    }
}
