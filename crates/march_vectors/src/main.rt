// Replays the Rust's answers of the file stdin about the march, and counts those that come out again, bit for bit. Lines: M a march, m each of its
// rows; B a gradient; X the statistics of a marched table.
#![tactic(auto)]

use refusals::Refusal;
use stored::Distances;
use vectors::{Field, Line, Lines, Score, float, same};

// The rows that a march gave, the next of them to compare, and whether the last line's answer came out again.
#[derive(Clone, Copy)]
struct Given {
    keys: [u64; 64],
    distances: [f32; 64],
    place: usize,
    agrees: bool,
}

// How far the replay has come: the field and the march that the lines so far made, and the score.
#[derive(Clone, Copy)]
struct Replay {
    field: Field,
    given: Given,
    score: Score,
}

fn is_march(marched: Result<(usize, usize), Refusal>, rows: u64, takings: u64) -> bool {
    marched.is_ok_and(|(n, taken)| n as u64 == rows && taken as u64 == takings)
}

fn none_given() -> Given {
    Given {
        keys: [0; 64],
        distances: [0.0; 64],
        place: 0,
        agrees: false,
    }
}

fn march(field: Field, words: [u64; 16]) -> Given {
    let mut given = none_given();
    let mut estimates = [0.0f32; 512];
    let mut waiting = [0u64; 512];
    let answer = esdf::compute_from_tsdf(
        field.settings,
        &field.table(),
        float(words[0]),
        &mut given.keys,
        &mut given.distances,
        &mut estimates,
        &mut waiting,
    );
    given.agrees = is_march(answer, words[1], words[2]);
    given
}

// The next row of the march.
fn next_row(given: Given, words: [u64; 16]) -> Given {
    let place = given.place;
    if place < given.keys.len() {
        Given {
            agrees: given.keys[place] == words[0] && same(given.distances[place], float(words[1])),
            place: place + 1,
            ..given
        }
    } else {
        unasked(given)
    }
}

fn unasked(given: Given) -> Given {
    Given {
        agrees: false,
        ..given
    }
}

fn given_after(field: Field, before: Given, line: Line) -> Given {
    match line.letter {
        b'M' => march(field, line.words),
        b'm' => next_row(before, line.words),
        _ => unasked(before),
    }
}

fn gradient_again(field: Field, words: [u64; 16]) -> bool {
    match esdf_questions::get_gradient(
        &Distances {
            keys: &field.keys,
            distances: &field.distances,
            count: field.rows,
        },
        words[0],
    ) {
        Ok(Some((x, y, z))) => {
            words[1] == 0
                && same(x, float(words[2]))
                && same(y, float(words[3]))
                && same(z, float(words[4]))
        }
        Ok(None) => words[1] == 101,
        Err(_) => false,
    }
}

fn statistics_again(field: Field, words: [u64; 16]) -> bool {
    let asked = esdf_surveys::stats(&Distances {
        keys: &field.keys,
        distances: &field.distances,
        count: field.rows,
    });
    asked.is_ok_and(|s| {
        s.voxel_count as u64 == words[0]
            && s.obstacle_voxel_count as u64 == words[1]
            && s.free_voxel_count as u64 == words[2]
            && same(s.min_distance, float(words[3]))
            && same(s.max_distance, float(words[4]))
    })
}

// A question about a marched table, whose answer comes out again.
fn again(field: Field, line: Line) -> bool {
    match line.letter {
        b'B' => gradient_again(field, line.words),
        b'X' => statistics_again(field, line.words),
        _ => false,
    }
}

fn started() -> Replay {
    Replay {
        field: vectors::empty([0; 16]),
        given: none_given(),
        score: vectors::unscored(),
    }
}

// One line more.
fn after(replay: Replay, line: Line) -> Replay {
    let before = replay.field;
    let given = given_after(before, replay.given, line);
    let good = again(before, line) || given.agrees;
    Replay {
        field: vectors::field_after(before, line),
        given,
        score: vectors::scored(replay.score, line.letter, good),
    }
}

fn replayed(bytes: &[u8]) -> Score {
    let mut replay = started();
    for line in Lines::of(bytes) {
        replay = after(replay, line);
    }
    replay.score
}

// A score that can't be written is passed over.
fn main(rt: HostRuntime) {
    let mut buffer = io::large_buffer();
    let n = io::read_full(0, &mut buffer);
    let _ = println!(rt; "{}", replayed(&buffer[..n]));
}
