// Replays the Rust's answers of the file stdin about fusing, statistics, cells near the surface and edges, and counts those that come out again, bit
// for bit.
#![tactic(auto)]

mod questions;
mod readings;

use crate::questions::Given;
use vectors::{Field, Line, Lines, Score};

// How far the replay has come: the field and the lists that the lines so far made, and the score.
#[derive(Clone, Copy)]
struct Replay {
    field: Field,
    given: Given,
    score: Score,
}

fn started() -> Replay {
    Replay {
        field: vectors::empty([0; 16]),
        given: questions::none_given(),
        score: vectors::unscored(),
    }
}

// One line more.
fn after(replay: Replay, line: Line) -> Replay {
    let before = replay.field;
    let (field, fed) = readings::read_in(before, line);
    let given = questions::given_after(before, replay.given, line);
    let good = questions::statistics_again(before, line) || fed || given.agrees;
    let score = vectors::scored(replay.score, line.letter, good);
    Replay {
        field,
        given,
        score,
    }
}

fn replayed(bytes: &[u8]) -> Score {
    let mut replay = started();
    for line in Lines::of(bytes) {
        replay = after(replay, line);
    }
    replay.score
}

// A score that can't be written is passed over.
fn main(rt: HostRuntime) {
    let mut buffer = io::large_buffer();
    let n = io::read_full(0, &mut buffer);
    let _ = println!(rt; "{}", replayed(&buffer[..n]));
}
