// Lines of questions: T the statistics; U the cells near the surface, u each; E the edges, e each.
use floats::Metres;
use refusals::Refusal;
use vectors::{Field, Line, float, same};

// The lists that a line asked for, the next place of them to compare, and whether the last line's answer came out again.
#[derive(Clone, Copy)]
pub struct Given {
    pub first: [u64; 64],
    pub second: [u64; 64],
    pub place: usize,
    pub agrees: bool,
}

pub(crate) fn none_given() -> Given {
    Given {
        first: [0; 64],
        second: [0; 64],
        place: 0,
        agrees: false,
    }
}

fn is_count(listed: Result<usize, Refusal>, n: u64) -> bool {
    listed.is_ok_and(|count| count as u64 == n)
}

fn near_surface(field: Field, words: [u64; 16]) -> Given {
    let mut first = [0u64; 64];
    let listed = tsdf_surveys::get_surface_voxels(
        field.settings,
        &field.table(),
        Metres(float(words[0])),
        &mut first,
    );
    Given {
        first,
        agrees: is_count(listed, words[1]),
        ..none_given()
    }
}

fn crossing(field: Field, words: [u64; 16]) -> Given {
    let mut first = [0u64; 64];
    let mut second = [0u64; 64];
    let listed = edges::get_zero_crossing_edges(
        field.settings,
        &field.table(),
        &mut first,
        &mut second,
    );
    Given {
        first,
        second,
        place: 0,
        agrees: is_count(listed, words[0]),
    }
}

// The next place of the lists: a key, or a pair of keys.
fn next_place(given: Given, words: [u64; 16]) -> Given {
    let place = given.place;
    if place < given.first.len() {
        Given {
            agrees: given.first[place] == words[0] && given.second[place] == words[1],
            place: place + 1,
            ..given
        }
    } else {
        unlisted(given)
    }
}

fn unlisted(given: Given) -> Given {
    Given {
        agrees: false,
        ..given
    }
}

// The lists after a line about a field.
pub(crate) fn given_after(field: Field, before: Given, line: Line) -> Given {
    match line.letter {
        b'U' => near_surface(field, line.words),
        b'E' => crossing(field, line.words),
        b'u' | b'e' => next_place(before, line.words),
        _ => unlisted(before),
    }
}

// A line of statistics that come out again.
pub(crate) fn statistics_again(field: Field, line: Line) -> bool {
    if line.letter != b'T' {
        return false;
    }
    let words = line.words;
    let asked = tsdf_surveys::stats(field.settings, &field.table());
    asked.is_ok_and(|s| {
        s.voxel_count as u64 == words[0]
            && s.surface_voxel_count as u64 == words[1]
            && same(s.min_distance.0, float(words[2]))
            && same(s.max_distance.0, float(words[3]))
            && same(s.average_weight, float(words[4]))
    })
}
