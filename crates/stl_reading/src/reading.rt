// A file read: the tests, and its corners into three lists.
ghost use Rattle.std.specs.Prelude.{◌≡◌, ◌+◌, ◌-◌, ◌*◌, ◌^◌, ◌≤◌, ◌<◌, length};
ghost use Rattle.slopes.specs.Vertices.{xs_of, ys_of, zs_of};
ghost use Rattle.floats.specs.Floats.{f32, within};
ghost use Rattle.corners.specs.Corners.{every, farthest, vertex_ok};
ghost use Rattle.stl.specs.Files.{facets_from, corners_of};
ghost use Rattle.stl.specs.Steps.{put_three, ColumnRead, stated_for, read_answer};
ghost use Rattle.stl_reading.specs.Steps.{patterns_from, pattern_vertex};

use corners::set_ok;
use refusals::Refusal;
use words::{LONGEST_FILE, float_of_pattern, read_word};

// The patterns of a vertex's three floats.
#[derive(Clone, Copy)]
struct Patterns {
    x: u32,
    y: u32,
    z: u32,
}

// Those of the twelve bytes from a place on.
fn read_patterns(file: &[u8], at: usize) -> Patterns
    requires { at + 12 ≤ length file.now }
    ensures { result ≡ patterns_from file.now at }
{
    Patterns {
        x: read_word(file, at),
        y: read_word(file, at + 4),
        z: read_word(file, at + 8),
    }
}

// A float is in its range, by its pattern without the sign.
fn in_range(pattern: u32) -> bool
    ensures { result ≡ within farthest (f32 pattern) }
{
    pattern % 0x8000_0000 <= 0x4CBE_BC20
}

// A vertex is in its range.
fn passes(v: Patterns) -> bool
    ensures { result ≡ vertex_ok (pattern_vertex v) }
{
    in_range(v.x) & (in_range(v.y) & in_range(v.z))
}

// Three floats of a list by their patterns, from a place on, where it has room for all three.
fn put_three(list: &mut [f32], at: usize, a: u32, b: u32, c: u32)
    requires { at + 3 < 2 ^ 64 }
    ensures { list.new ≡ put_three list.old at a b c }
{
    if at + 3 <= list.len() {
        list[at] = float_of_pattern(a);
        list[at + 1] = float_of_pattern(b);
        list[at + 2] = float_of_pattern(c);
    }
}

// Whether every corner of so many triangles is in its range; if so, they are put from the front of three lists with room.
pub(crate) fn read_facets(
    file: &[u8],
    count: usize,
    px: &mut [f32],
    py: &mut [f32],
    pz: &mut [f32],
) -> bool
    requires { (50 * count ≤ length file.now - 84) × (count ≤ 1048576) }
    ensures value { result ≡ every vertex_ok (corners_of (facets_from count file.now 84)) }
    ensures column_read { ColumnRead result count px.old (xs_of (corners_of (facets_from count file.now 84))) px.new }
    ensures column_read_2 { ColumnRead result count py.old (ys_of (corners_of (facets_from count file.now 84))) py.new }
    ensures column_read_3 { ColumnRead result count pz.old (zs_of (corners_of (facets_from count file.now 84))) pz.new }
{
    for i in 0..count {
        let at = 84 + 50 * i;
        let a = read_patterns(file, at + 12);
        let b = read_patterns(file, at + 24);
        let c = read_patterns(file, at + 36);
        if !(passes(a) & (passes(b) & passes(c))) {
            return false;
        }
        let vertex = 3 * i;
        put_three(px, vertex, a.x, b.x, c.x);
        put_three(py, vertex, a.y, b.y, c.y);
        put_three(pz, vertex, a.z, b.z, c.z);
    }
    true
}

// How many triangles a file states, or why it is refused before its corners are looked at, for lists of so many places.
pub(crate) fn stated(file: &[u8], a: usize, b: usize, c: usize) -> Result<usize, Refusal>
    ensures { result ≡ stated_for file.now a b c }
{
    if !((file.len() <= LONGEST_FILE) & set_ok(a, b, c, 0)) {
        return Err(Refusal::Lengths);
    }
    if file.len() < 84 {
        return Err(Refusal::BadLength);
    }
    let count = read_word(file, 80) as usize;
    if file.len() != 84 + 50 * count {
        return Err(Refusal::BadLength);
    }
    Ok(count)
}

// What is answered to so many triangles, whose corners pass or don't, for lists of so many places.
pub(crate) fn answer(
    stated: Result<usize, Refusal>,
    passed: bool,
    room: usize,
) -> Result<usize, Refusal>
    ensures { result ≡ read_answer stated passed room }
{
    match stated {
        Ok(count) => {
            if !passed {
                Err(Refusal::BadVertex)
            } else if count <= room / 3 {
                Ok(3 * count)
            } else {
                Err(Refusal::NoPlace)
            }
        }
        Err(why) => Err(why),
    }
}
