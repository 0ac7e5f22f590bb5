// The neighbours of a row with larger keys and weight above 0, ascending, and which of them are inside (document 02, No. 14).
#![tactic(auto)]

ghost use Rattle.std.specs.Prelude.{◌≡◌, ◌≤◌, ◌<◌, false, map, length};
ghost use Rattle.lists.specs.Padding.{padded};
ghost use Rattle.handful.specs.Handfuls.{held, numbers_of, Roomy};
ghost use Rattle.groups.specs.Near.{with_number, gathered};
ghost use Rattle.higher.specs.Places.{key_at, is_inside_at, found_above, places_in, higher_of};
ghost use Rattle.higher.specs.Steps.{AtRow, AllBelow};

use handful::Handful;
use table::Rows;

// Keys in a room of 14, which of them are inside, and how many there are.
#[derive(Clone, Copy)]
pub struct Higher {
    pub keys: [u64; 14],
    pub inside: [bool; 14],
    pub count: usize,
}

// Places with that of a cell, if its key is larger than the row's and its weight above 0.
fn with_higher(
    keys: &[u64],
    weights: &[f32],
    count: usize,
    row: usize,
    places: Handful,
    cell: u64,
) -> Handful
    requires { AtRow keys.now weights.now count row × Roomy places }
    ensures { result ≡ held (with_number (found_above keys.now weights.now count row cell) (numbers_of places)) }
{
    if cell <= keys[row] {
        return places;
    }
    let Some(place) = search::find_above(&keys[..count], row + 1, cell) else {
        return places;
    };
    if 0.0 < weights[place] {
        handful::with(places, place as u32)
    } else {
        places
    }
}

// The places of those of some cells, from the last one down.
fn gather(keys: &[u64], weights: &[f32], count: usize, row: usize, cells: &[u64]) -> Handful
    requires { AtRow keys.now weights.now count row × (length cells.now ≤ 14) }
    ensures { result ≡ held (gathered (found_above keys.now weights.now count row) cells.now) }
{
    let mut places = handful::EMPTY;
    for i in (0..cells.len()).rev() {
        places = with_higher(keys, weights, count, row, places, cells[i]);
    }
    places
}

// The places of a row's higher neighbours; none where the lists have lengths that no table has, or no such row.
fn places_of(keys: &[u64], distances: usize, weights: &[f32], count: usize, row: usize) -> Handful
    ensures { result ≡ held (places_in keys.now distances weights.now count row) }
{
    if !(table::lengths_ok(keys.len(), distances, weights.len(), count) & (row < count)) {
        return handful::EMPTY;
    }
    let near = neighbors::around(keys[row]);
    gather(keys, weights, count, row, near.cells())
}

// The keys at some places.
fn keys_at(keys: &[u64], places: &[u32]) -> [u64; 14]
    requires { (length places.now ≤ 14) × AllBelow (length keys.now) places.now }
    ensures { result ≡ padded 0 14 (map (key_at keys.now) places.now) }
{
    let mut out = [0; 14];
    for (i, &place) in places.iter().enumerate() {
        out[i] = keys[place as usize];
    }
    out
}

// Which of the rows at some places are inside.
fn inside_at(distances: &[f32], places: &[u32]) -> [bool; 14]
    requires { (length places.now ≤ 14) × AllBelow (length distances.now) places.now }
    ensures { result ≡ padded false 14 (map (is_inside_at distances.now) places.now) }
{
    let mut out = [false; 14];
    for (i, &place) in places.iter().enumerate() {
        out[i] = distances[place as usize] < 0.0;
    }
    out
}

// A row's higher neighbours; none where the lists have lengths that no table has, or no such row.
pub fn higher_of(rows: &Rows, row: usize) -> Higher
    ensures { result ≡ higher_of rows.now.keys.now rows.now.distances.now rows.now.weights.now rows.now.count row }
{
    let Rows {
        keys,
        distances,
        weights,
        count,
    } = *rows;
    let places = places_of(keys, distances.len(), weights, count, row);
    Higher {
        keys: keys_at(keys, places.as_slice()),
        inside: inside_at(distances, places.as_slice()),
        count: places.count,
    }
}
