// Replays the Rust's answers of the file stdin about meshes, and counts those that come out again, bit for bit. Lines: H a mesh, V each vertex with
// its normal, K each triangle; O the area; W the box.
#![tactic(auto)]

use corners::Threes;
use vectors::{Field, Line, Lines, Score, float, same};

// Three lists of numbers, and how many of their places are filled: the calls on a mesh take whole lists and a count.
#[derive(Clone, Copy)]
struct Triples {
    x: [f32; 16],
    y: [f32; 16],
    z: [f32; 16],
    count: usize,
}

// A mesh's triangles.
#[derive(Clone, Copy)]
struct Corners {
    first: [u32; 64],
    second: [u32; 64],
    third: [u32; 64],
    count: usize,
}

// A mesh, its next vertex and triangle to compare, and whether the last line's answer came out again.
#[derive(Clone, Copy)]
struct Given {
    places: Triples,
    normals: Triples,
    corners: Corners,
    vertex: usize,
    triangle: usize,
    agrees: bool,
}

// How far the replay has come: the field and the mesh that the lines so far made, and the score.
#[derive(Clone, Copy)]
struct Replay {
    field: Field,
    given: Given,
    score: Score,
}

fn no_triples() -> Triples {
    Triples {
        x: [0.0; 16],
        y: [0.0; 16],
        z: [0.0; 16],
        count: 0,
    }
}

fn no_corners() -> Corners {
    Corners {
        first: [0; 64],
        second: [0; 64],
        third: [0; 64],
        count: 0,
    }
}

fn mesh_of(field: Field, words: [u64; 16]) -> Given {
    let mut first = [0u64; 16];
    let mut second = [0u64; 16];
    let mut places = no_triples();
    let mut normals = no_triples();
    let mut groups = [0u32; 32];
    let mut corners = no_corners();
    let meshed = mesh::extract_mesh_from_tsdf(
        field.settings,
        &field.table(),
        &mut first,
        &mut second,
        &mut places.x,
        &mut places.y,
        &mut places.z,
        &mut normals.x,
        &mut normals.y,
        &mut normals.z,
        &mut groups,
        &mut corners.first,
        &mut corners.second,
        &mut corners.third,
    );
    let (edges, triangles) = meshed.unwrap_or((0, 0));
    places.count = edges;
    normals.count = edges;
    corners.count = triangles;
    Given {
        places,
        normals,
        corners,
        vertex: 0,
        triangle: 0,
        agrees: meshed.is_ok() && edges as u64 == words[0] && triangles as u64 == words[1],
    }
}

// The numbers at a place are these bits.
fn triple_is(triples: Triples, place: usize, x: u64, y: u64, z: u64) -> bool {
    place < triples.x.len()
        && same(triples.x[place], float(x))
        && same(triples.y[place], float(y))
        && same(triples.z[place], float(z))
}

// The next vertex, and its normal.
fn next_vertex(given: Given, words: [u64; 16]) -> Given {
    let vertex = given.vertex;
    if vertex < given.places.count {
        Given {
            agrees: triple_is(given.places, vertex, words[0], words[1], words[2])
                && triple_is(given.normals, vertex, words[3], words[4], words[5]),
            vertex: vertex + 1,
            ..given
        }
    } else {
        unasked(given)
    }
}

// The corners at a place are these.
fn corners_are(corners: Corners, place: usize, a: u64, b: u64, c: u64) -> bool {
    place < corners.first.len()
        && corners.first[place] as u64 == a
        && corners.second[place] as u64 == b
        && corners.third[place] as u64 == c
}

// The next triangle.
fn next_triangle(given: Given, words: [u64; 16]) -> Given {
    let triangle = given.triangle;
    if triangle < given.corners.count {
        Given {
            agrees: corners_are(given.corners, triangle, words[0], words[1], words[2]),
            triangle: triangle + 1,
            ..given
        }
    } else {
        unasked(given)
    }
}

fn unasked(given: Given) -> Given {
    Given {
        agrees: false,
        ..given
    }
}

fn given_after(field: Field, before: Given, line: Line) -> Given {
    match line.letter {
        b'H' => mesh_of(field, line.words),
        b'V' => next_vertex(before, line.words),
        b'K' => next_triangle(before, line.words),
        _ => unasked(before),
    }
}

fn area_again(given: Given, words: [u64; 16]) -> bool {
    let Given {
        places,
        corners,
        ..
    } = given;
    let asked = surfaces::surface_area(
        &Threes {
            first: &places.x,
            second: &places.y,
            third: &places.z,
            count: places.count,
        },
        &Threes {
            first: &corners.first,
            second: &corners.second,
            third: &corners.third,
            count: corners.count,
        },
    );
    asked.is_ok_and(|area| same(area, float(words[0])))
}

fn box_again(given: Given, words: [u64; 16]) -> bool {
    let places = given.places;
    let bounds = surfaces::bounding_box(&Threes {
        first: &places.x,
        second: &places.y,
        third: &places.z,
        count: places.count,
    });
    match bounds {
        Ok(Some((low, high))) => {
            same(low.x.0, float(words[0]))
                && same(low.y.0, float(words[1]))
                && same(low.z.0, float(words[2]))
                && same(high.x.0, float(words[3]))
                && same(high.y.0, float(words[4]))
                && same(high.z.0, float(words[5]))
        }
        Ok(None) | Err(_) => false,
    }
}

// A question about the mesh, whose answer comes out again.
fn again(given: Given, line: Line) -> bool {
    match line.letter {
        b'O' => area_again(given, line.words),
        b'W' => box_again(given, line.words),
        _ => false,
    }
}

fn started() -> Replay {
    let field = vectors::empty([0; 16]);
    Replay {
        field,
        given: mesh_of(field, [0; 16]),
        score: vectors::unscored(),
    }
}

// One line more.
fn after(replay: Replay, line: Line) -> Replay {
    let before = replay.field;
    let given = given_after(before, replay.given, line);
    let good = again(replay.given, line) || given.agrees;
    Replay {
        field: vectors::field_after(before, line),
        given,
        score: vectors::scored(replay.score, line.letter, good),
    }
}

fn replayed(bytes: &[u8]) -> Score {
    let mut replay = started();
    for line in Lines::of(bytes) {
        replay = after(replay, line);
    }
    replay.score
}

// A score that can't be written is passed over.
fn main(rt: HostRuntime) {
    let mut buffer = io::large_buffer();
    let n = io::read_full(0, &mut buffer);
    let _ = println!(rt; "{}", replayed(&buffer[..n]));
}
