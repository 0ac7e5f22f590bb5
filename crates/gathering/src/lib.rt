// Own rows beside a table: each own key gets a seat among the table's keys; by the seats a column's values are loaded, and after
// they were changed apart all columns are settled in one walk over the seats. A row whose weight is in range stands; the others
// wait, and are never settled. A further column takes one call of `load`, a line each in `slide` and
// `seat_row` and a clause in their contracts and in that of `settle`, by the same laws; one row alone is put into it by `set` or
// `inserted` (table/proofs/Laying: laid_set, laid_open).
#![tactic(auto)]

ghost use Rattle.std.specs.Prelude.{◌+◌, ◌≤◌, ◌<◌, ◌≡◌, true, cond, ltb, length, take};
ghost use Rattle.search.specs.Keys.{ascending, place_of};
ghost use Rattle.gathering.specs.Gathering.{below, above, seat_of, seats_of, value_at, loaded, held_back, Within, InOrder, Settles, settled_in};
ghost use Rattle.gathering.specs.Steps.{first_place, slid, seat_place, seated_at};

use floats::between;
use search::place_of;

// How many rows are below a seat.
fn rows_below(seat: u32) -> usize
    ensures { result ≡ below seat }
{
    if seat == 0 {
        return 0;
    }
    (seat as usize - 1) / 2
}

// The place of the first row above a seat.
fn first_above(seat: u32) -> usize
    ensures { result ≡ above seat }
{
    seat as usize / 2
}

// From `start` on, past four keys at a time while the last of them is below `key`; the answer is where that stops, so no `step_by`.
fn skip_fours(keys: &[u64], count: usize, start: usize, key: u64) -> usize
    requires count_in_bounds { (count ≤ length keys.now) × (ascending (take count keys.now) ≡ true) }
    requires start_bound { start ≤ place_of key (take count keys.now) }
    ensures upper_bound { (result ≤ count) × (result ≤ place_of key (take count keys.now)) }
    ensures keys_bound { result + 3 < count → place_of key (take count keys.now) ≤ result + 3 }
{
    let mut place = start;
    while place + 3 < count {
        if key <= keys[place + 3] {
            return place;
        }
        place += 4;
    }
    place
}

// The place that `key` has or would take among the first `count` keys, looked for from `start` on key by key.
fn walk_from(keys: &[u64], count: usize, start: usize, key: u64) -> usize
    requires count_in_bounds { (count ≤ length keys.now) × (ascending (take count keys.now) ≡ true) }
    requires start_bound { start ≤ place_of key (take count keys.now) }
    ensures { result ≡ place_of key (take count keys.now) }
{
    for place in start..count {
        if key <= keys[place] {
            return place;
        }
    }
    count
}

// The same, four keys at a time. Those of the last four that are below `key` are counted, so that no branch is guessed wrongly.
fn place_past(keys: &[u64], count: usize, start: usize, key: u64) -> usize
    requires count_in_bounds { (count ≤ length keys.now) × (ascending (take count keys.now) ≡ true) }
    requires start_bound { start ≤ place_of key (take count keys.now) }
    ensures { result ≡ place_of key (take count keys.now) }
{
    let place = skip_fours(keys, count, start, key);
    if place + 3 < count {
        return place
            + usize::from(keys[place] < key)
            + usize::from(keys[place + 1] < key)
            + usize::from(keys[place + 2] < key);
    }
    walk_from(keys, count, place, key)
}

// The seat of `key`, whose place is known.
fn seat_at(keys: &[u64], count: usize, place: usize, key: u64) -> u32
    requires { (count ≤ length keys.now) × (length keys.now ≤ 65536) × (place ≡ place_of key (take count keys.now)) }
    ensures { result ≡ seat_of key (take count keys.now) }
{
    let before = (2 * place + 1) as u32;
    if count <= place {
        return before;
    }
    if keys[place] != key {
        return before;
    }
    before + 1
}

// Where the first own key stands or would stand among the first `count` keys, by halves: there the walk over them begins.
fn first_place(keys: &[u64], count: usize, own_keys: &[u64], own: usize) -> usize
    requires { own ≤ length own_keys.now }
    ensures { result ≡ first_place (take count keys.now) own_keys.now own }
{
    if own == 0 {
        return 0;
    }
    place_of(keys, count, own_keys[0])
}

// The seat of each own key among the first `count` keys. Both ascend, so each place is looked for from the one before on.
pub fn locate(keys: &[u64], count: usize, own_keys: &[u64], seats: &mut [u32], own: usize)
    requires count_in_bounds { (count ≤ length keys.now) × (length keys.now ≤ 65536) × (ascending (take count keys.now) ≡ true) }
    requires own_in_bounds { (own ≤ length own_keys.now) × (own ≤ length seats.old) × (ascending (take own own_keys.now) ≡ true) }
    ensures { take own seats.new ≡ seats_of (take count keys.now) (take own own_keys.now) }
{
    let mut place = first_place(keys, count, own_keys, own);
    for i in 0..own {
        let key = own_keys[i];
        place = place_past(keys, count, place, key);
        seats[i] = seat_at(keys, count, place, key);
    }
}

// A column's value at a seat that is over a row, and otherwise `absent`.
fn value<T: Copy>(column: &[T], seat: u32, absent: T) -> T
    requires { above seat ≤ length column.now }
    ensures { result ≡ value_at column.now absent seat }
{
    let place = rows_below(seat);
    if place < first_above(seat) {
        return column[place];
    }
    absent
}

// The own values of a column, by the seats.
pub fn load<T: Copy>(column: &[T], seats: &[u32], own_column: &mut [T], own: usize, absent: T)
    requires own_in_bounds { (own ≤ length seats.now) × (own ≤ length own_column.old) }
    requires within { Within (length column.now) seats.now own }
    ensures { take own own_column.new ≡ loaded column.now absent (take own seats.now) }
{
    for i in 0..own {
        own_column[i] = value(column, seats[i], absent);
    }
}

// A seat, or 0 where its row does not stand.
fn seat_if(stands: bool, seat: u32) -> u32
    ensures { result ≡ cond stands seat 0 }
{
    if stands { seat } else { 0 }
}

// The own rows whose weight is not in range wait. Each seat is written, so that no branch is guessed wrongly.
pub fn hold_back(most: f32, own_weights: &[f32], seats: &mut [u32], own: usize)
    requires { (own ≤ length own_weights.now) × (own ≤ length seats.old) }
    ensures { seats.new ≡ held_back most (take own own_weights.now) seats.old }
{
    for i in 0..own {
        let stands = between(0.0, most, own_weights[i]);
        seats[i] = seat_if(stands, seats[i]);
    }
}

// The rows from `from` up to `end`, moved up so that they end at `to`, each column's value in turn; the answer is where they then begin.
// By one loop and not by `copy_within` for each column: most runs are of a few rows, and a shuffled batch takes longer by that.
fn slide(
    keys: &mut [u64],
    distances: &mut [f32],
    weights: &mut [f32],
    from: usize,
    end: usize,
    to: usize,
) -> usize
    requires from_le_end { (from ≤ end) × (end ≤ to) }
    requires to_in_bounds { (to ≤ length keys.old) × (to ≤ length distances.old) × (to ≤ length weights.old) }
    ensures end_value { result + end ≡ to + from }
    ensures keys_after { keys.new ≡ slid keys.old result from end to }
    ensures distances_after { distances.new ≡ slid distances.old result from end to }
    ensures weights_after { weights.new ≡ slid weights.old result from end to }
{
    if end == to {
        return from;
    }
    let mut i = end;
    let mut place = to;
    while from < i {
        i -= 1;
        place -= 1;
        keys[place] = keys[i];
        distances[place] = distances[i];
        weights[place] = weights[i];
    }
    place
}

// A row to its seat, where `rows` rows are left and the places from `place` on are written: what is above the seat goes up to there,
// and the row before it. The answer is its place.
fn seat_row(
    keys: &mut [u64],
    distances: &mut [f32],
    weights: &mut [f32],
    seat: u32,
    rows: usize,
    place: usize,
    key: u64,
    distance: f32,
    weight: f32,
) -> usize
    requires seat_bound { (above seat ≤ rows) × (rows ≤ place) × (rows < place + above seat) }
    requires place_in_bounds { (place ≤ length keys.old) × (place ≤ length distances.old) × (place ≤ length weights.old) }
    ensures value { result ≡ seat_place seat rows place }
    ensures keys_after { keys.new ≡ seated_at seat rows place key keys.old }
    ensures distances_after { distances.new ≡ seated_at seat rows place distance distances.old }
    ensures weights_after { weights.new ≡ seated_at seat rows place weight weights.old }
{
    let at = slide(keys, distances, weights, first_above(seat), rows, place) - 1;
    keys[at] = key;
    distances[at] = distance;
    weights[at] = weight;
    at
}

// The own rows, settled among the first `count` by their seats, from the last down; `total` result.
// The columns stand side by side here, and in `slide` and `seat_row`, not as a `RowsMut`: each is settled by its own clause.
pub fn settle(
    keys: &mut [u64],
    distances: &mut [f32],
    weights: &mut [f32],
    count: usize,
    seats: &[u32],
    own_keys: &[u64],
    own_distances: &[f32],
    own_weights: &[f32],
    own: usize,
    total: usize,
)
    requires within { Within count seats.now own × InOrder seats.now own }
    requires settles { Settles keys.old count seats.now own_keys.now own total }
    requires settles_2 { Settles distances.old count seats.now own_distances.now own total }
    requires settles_3 { Settles weights.old count seats.now own_weights.now own total }
    ensures keys_after { keys.new ≡ settled_in keys.old count seats.now own_keys.now own }
    ensures distances_after { distances.new ≡ settled_in distances.old count seats.now own_distances.now own }
    ensures weights_after { weights.new ≡ settled_in weights.old count seats.now own_weights.now own }
{
    let mut rows = count;
    let mut place = total;
    for i in (0..own).rev() {
        let seat = seats[i];
        if seat != 0 {
            place = seat_row(
                keys,
                distances,
                weights,
                seat,
                rows,
                place,
                own_keys[i],
                own_distances[i],
                own_weights[i],
            );
            rows = rows_below(seat);
        }
    }
}
