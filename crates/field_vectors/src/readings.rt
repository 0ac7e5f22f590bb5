// Lines of readings: F direct, J a ray; and the row that each leaves.
use floats::Metres;
use fusing::Fused;
use refusals::Refusal;
use table::RowsMut;
use vectors::{Field, Line, float, same};

// The number of an answer: 0 where a row is stored, new or changed, since the Rust does not tell which; that of a refusal is no vector's.
fn fused_number(fused: Result<Fused, Refusal>) -> u64 {
    match fused {
        Ok(Fused::New | Fused::Changed) => 0,
        Ok(Fused::Far) => 100,
        Err(_) => 1,
    }
}

// A key's row has this distance and weight; two zeros where there is none.
fn row_is(field: Field, key: u64, distance: u64, weight: u64) -> bool {
    match search::find_row(&field.keys, field.rows, key) {
        Some(place) => {
            place < field.distances.len()
                && same(field.distances[place], float(distance))
                && same(field.weights[place], float(weight))
        }
        None => distance == 0 && weight == 0,
    }
}

// The field after a direct reading, and whether its answer and row came out again.
fn with_direct(mut field: Field, words: [u64; 16]) -> (Field, bool) {
    let mut rows = RowsMut {
        keys: &mut field.keys,
        distances: &mut field.distances,
        weights: &mut field.weights,
        count: field.rows,
    };
    let fused = fusing::update_from_depth(
        field.settings,
        &mut rows,
        words[0],
        Metres(float(words[1])),
        float(words[2]),
    );
    field.rows = rows.count;
    let agrees = fused_number(fused) == words[3] && row_is(field, words[0], words[4], words[5]);
    (field, agrees)
}

// The field after a ray's reading, and whether its answer and row came out again.
fn with_ray(mut field: Field, words: [u64; 16]) -> (Field, bool) {
    let mut rows = RowsMut {
        keys: &mut field.keys,
        distances: &mut field.distances,
        weights: &mut field.weights,
        count: field.rows,
    };
    let fused = fusing::update_from_depth_ray(
        field.settings,
        &mut rows,
        words[0],
        Metres(float(words[1])),
        Metres(float(words[2])),
        Metres(float(words[3])),
        Metres(float(words[4])),
        float(words[5]),
    );
    field.rows = rows.count;
    let agrees = fused_number(fused) == words[6] && row_is(field, words[0], words[7], words[8]);
    (field, agrees)
}

// The field after a line, and whether the line's answer and row came out again.
pub(crate) fn read_in(field: Field, line: Line) -> (Field, bool) {
    match line.letter {
        b'F' => with_direct(field, line.words),
        b'J' => with_ray(field, line.words),
        _ => (vectors::field_after(field, line), false),
    }
}
