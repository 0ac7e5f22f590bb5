// Replays the Rust's answers of the file stdin about keys, neighbours, the root and snapping, and counts those that come out again, bit for bit.
#![tactic(auto)]

mod leaves;

use vectors::{Lines, Score};

fn replayed(bytes: &[u8]) -> Score {
    let mut score = vectors::unscored();
    for line in Lines::of(bytes) {
        score = vectors::scored(score, line.letter, leaves::again(line));
    }
    score
}

// A score that can't be written is passed over.
fn main(rt: HostRuntime) {
    let mut buffer = io::large_buffer();
    let n = io::read_full(0, &mut buffer);
    let _ = println!(rt; "{}", replayed(&buffer[..n]));
}
