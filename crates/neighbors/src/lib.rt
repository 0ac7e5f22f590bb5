// The neighbours of a key (src/neighbors.rs, neighbors_index64; src/lattice.rs, BCC_NEIGHBORS_14).
#![tactic(auto)]

ghost use Rattle.std.specs.Prelude.{◌≡◌, ◌<◌, ◌≤◌, ◌^◌, map, length, take};
ghost use Rattle.ids.specs.Morton.{gather};
ghost use Rattle.lists.specs.Padding.{padded};
ghost use Rattle.neighbors.specs.Neighbors.{offsets, neighbours, adjacent, listed_of, listing_of, near_of};
ghost use Rattle.neighbors.specs.Steps.{steps_along, Narrow, join_of, low_of, cell_of, way_along, by_one, by_two, step_by};

use lists::LONGEST_LIST;
use refusals::Refusal;

// Where the head begins.
const HEAD: u64 = 0x1_0000_0000_0000;

// An axis' 16 bits in a key, three apart; and with a 17th.
const AXIS: u64 = 0x2492_4924_9249;

const WIDER: u64 = 0x1_2492_4924_9249;

// Where the five steps lead along an axis: 17 bits, three apart, the last of them set outside.
#[derive(Clone, Copy)]
struct Along {
    down2: u64,
    down1: u64,
    stay: u64,
    up1: u64,
    up2: u64,
}

// The neighbours by value: a room of 14, and how many there are.
#[derive(Clone, Copy)]
pub struct Near {
    pub keys: [u64; 14],
    pub count: usize,
}

impl Near {
    // The neighbours themselves.
    pub fn cells(&self) -> &[u64]
        ensures { result.now ≡ take self.now.count self.now.keys }
    {
        &self.keys[..self.count.min(14)]
    }
}

// The steps along the axis that begins at the lowest bit. What is added is the step over 17 bits, with ones between them, so that a carry passes.
fn steps_along(m: u64) -> Along
    ensures value { result ≡ steps_along (gather 16 m) }
    ensures narrow { Narrow result }
{
    let stay = m & AXIS;
    Along {
        down2: (stay + 0x7_ffff_ffff_fffe) & WIDER,
        down1: (stay + 0x7_ffff_ffff_ffff) & WIDER,
        stay,
        up1: (stay + 0x6_db6d_b6db_6db7) & WIDER,
        up2: (stay + 0x6_db6d_b6db_6dbe) & WIDER,
    }
}

// Three axes in one number.
fn join(x: u64, y: u64, z: u64) -> u64
    requires { (x < 2 ^ 51) × (y < 2 ^ 51) × (z < 2 ^ 51) }
    ensures { result ≡ join_of x y z }
{
    x + y * 2 + z * 4
}

// What the 14 offsets lead to, without the head; from HEAD on it is outside.
fn lower_parts(key: u64) -> [u64; 14]
    ensures { result ≡ map (low_of key) offsets }
{
    let x = steps_along(key);
    let y = steps_along(key / 2);
    let z = steps_along(key / 4);
    [
        join(x.up1, y.up1, z.up1),
        join(x.up1, y.up1, z.down1),
        join(x.up1, y.down1, z.up1),
        join(x.up1, y.down1, z.down1),
        join(x.down1, y.up1, z.up1),
        join(x.down1, y.up1, z.down1),
        join(x.down1, y.down1, z.up1),
        join(x.down1, y.down1, z.down1),
        join(x.up2, y.stay, z.stay),
        join(x.down2, y.stay, z.stay),
        join(x.stay, y.up2, z.stay),
        join(x.stay, y.down2, z.stay),
        join(x.stay, y.stay, z.up2),
        join(x.stay, y.stay, z.down2),
    ]
}

// The cell of a lower part under the key's head.
fn cell_of(key: u64, low: u64) -> Option<u64>
    ensures { result ≡ cell_of key low }
{
    if low < HEAD {
        Some(key / HEAD * HEAD + low)
    } else {
        None
    }
}

// The cells that the 14 offsets lead to from a key, on the lattice or not.
pub fn around(key: u64) -> Near
    ensures { result ≡ near_of key }
{
    let parts = lower_parts(key);
    let mut keys = [0u64; 14];
    let mut count = 0;
    for low in parts {
        if let Some(cell) = cell_of(key, low) {
            keys[count] = cell;
            count += 1;
        }
    }
    Near { keys, count }
}

// The way from b to a along the axis that begins at the lowest bit, over 17 bits, three apart. What is added is past them all, so that nothing goes below
// 0; a borrow passes the zeros between them.
fn way_along(a: u64, b: u64) -> u64
    ensures { result ≡ way_along (gather 16 a) (gather 16 b) }
{
    ((a & AXIS) + (0x8_0000_0000_0000 - (b & AXIS))) & WIDER
}

// A way of 1, up or down.
fn is_one(way: u64) -> bool
    ensures { result ≡ by_one way }
{
    (way == 1) | (way == WIDER)
}

// A way of 2, up or down.
fn is_two(way: u64) -> bool
    ensures { result ≡ by_two way }
{
    (way == 8) | (way == 0x1_2492_4924_9248)
}

// Three ways are by 1 on all three axes, or by 2 on one and 0 on the others.
fn is_step(x: u64, y: u64, z: u64) -> bool
    ensures { result ≡ step_by x y z }
{
    let slanted = is_one(x) & (is_one(y) & is_one(z));
    let along_x = is_two(x) & ((y == 0) & (z == 0));
    let along_y = (x == 0) & (is_two(y) & (z == 0));
    let along_z = (x == 0) & ((y == 0) & is_two(z));
    slanted | (along_x | (along_y | along_z))
}

// Whether two cells are adjacent.
pub fn are_adjacent(a: u64, b: u64) -> bool
    ensures { result ≡ adjacent a b }
{
    let x = way_along(a, b);
    let y = way_along(a / 2, b / 2);
    let z = way_along(a / 4, b / 4);
    (a / HEAD == b / HEAD) & is_step(x, y, z)
}

// Some keys, then zeros.
fn put(keys: &[u64], out: &mut [u64])
    requires { length keys.now ≤ length out.old }
    ensures { out.new ≡ padded 0 (length out.old) keys.now }
{
    let (front, rest) = out.split_at_mut(keys.len());
    front.copy_from_slice(keys);
    rest.fill(0);
}

// What is answered for a key of `count` neighbours and a list of `room` places.
fn answer(key: u64, count: usize, room: usize) -> Result<usize, Refusal>
    requires { count ≡ length (neighbours key) }
    ensures { result ≡ listed_of key room }
{
    if LONGEST_LIST < room {
        return Err(Refusal::Lengths);
    }
    if !ids::is_on_lattice(key) {
        return Err(Refusal::OffLattice);
    }
    lists::room_for(count, room)
}

// The neighbours of a key and then zeros; zeros where it is refused.
pub fn neighbors_index64(index: u64, out: &mut [u64]) -> Result<usize, Refusal>
    ensures value { result ≡ listed_of index (length out.old) }
    ensures out_after { out.new ≡ listing_of index (length out.old) }
{
    let near = around(index);
    let listed = answer(index, near.count, out.len());
    put(&near.cells()[..lists::count_of(listed)], out);
    listed
}
