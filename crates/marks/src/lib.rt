// Marks: a lent list of keys as a table with open addressing, its values in a list beside it. Key 0 stands there as 1, which is
// no key of the lattice; a place that holds 0 is empty. On the way to a key stand only larger ones on its path, so a search ends
// at the first that is not larger. No `HashMap`: the lists are the caller's, and nothing takes memory from a heap.
#![tactic(auto)]

ghost use Rattle.std.specs.Prelude.{◌≡◌, ◌≤◌, ◌<◌, ◌-◌, length};
ghost use Rattle.marks.specs.Marks.{label, home, seek, halt, spot_of, following, comes_first, Enters, Leaves};

// The first 32 bits of a number.
const NARROW: u64 = 0x1_0000_0000;

// What stands in the list for a key.
fn label(key: u64) -> u64
    ensures { result ≡ label key }
{
    key.max(1)
}

// Where a label's path begins among some places.
pub fn home(key: u64, places: usize) -> usize
    ensures { result ≡ home key places }
{
    if places < 8 {
        return 0;
    }
    let cell = key / 8 * 2 + key % 2;
    let block = cell / 8;
    let mixed = (block % NARROW * 2654435769 + block / NARROW * 2246822519) % NARROW;
    let blocks = places as u64 / 8 % NARROW;
    (mixed * blocks / NARROW * 8 + cell % 8) as usize
}

// The first place from one on and before another whose label is at most the key.
fn seek(keys: &[u64], from: usize, to: usize, key: u64) -> usize
    requires { (from ≤ to) × (to ≤ length keys.now) }
    ensures { result ≡ seek key keys.now from (to - from) }
{
    for i in from..to {
        if keys[i] <= key {
            return i;
        }
    }
    to
}

// Where the search for a label ends.
fn halt(keys: &[u64], key: u64) -> usize
    ensures { result ≡ halt key keys.now }
{
    let start = home(key, keys.len());
    let first = seek(keys, start, keys.len(), key);
    if first < keys.len() {
        return first;
    }
    seek(keys, 0, start, key)
}

// Where a key stands, or where its search ended.
pub fn find(keys: &[u64], key: u64) -> Result<usize, usize>
    ensures { result ≡ spot_of key keys.now }
{
    let k = label(key);
    let place = halt(keys, k);
    if place < keys.len() {
        if keys[place] == k {
            return Ok(place);
        }
    }
    Err(place)
}

// The place after one of some places, the first after the last.
fn following(i: usize, places: usize) -> usize
    requires { i < places }
    ensures { result ≡ following i places }
{
    if i + 1 < places { i + 1 } else { 0 }
}

// A key that is absent is put in from the place on where its search ended; each smaller one on the way gives up its place, with its value, and goes on.
// Where every place is taken, the lists are spoilt. No `for`: the way goes round the list until an empty place.
pub fn enter(keys: &mut [u64], values: &mut [f32], place: usize, key: u64, value: f32)
    requires { length values.old ≡ length keys.old }
    ensures { Enters key place value keys.old values.old keys.new values.new }
{
    if keys.len() <= place {
        return;
    }
    let mut k = label(key);
    let mut v = value;
    let mut i = place;
    while keys[i] != 0 {
        let here = keys[i];
        let there = values[i];
        let next = following(i, keys.len());
        if next == place {
            return;
        }
        if here < k {
            keys[i] = k;
            values[i] = v;
            k = here;
            v = there;
        }
        i = next;
    }
    keys[i] = k;
    values[i] = v;
}

// Whether one place comes before another on a path that begins at a third.
fn comes_first(start: usize, a: usize, b: usize) -> bool
    ensures { result ≡ comes_first start a b }
{
    if start <= a {
        (b < start) | (a < b)
    } else {
        (b < start) & (a < b)
    }
}

// The label at a place goes, with its value; each later one whose path comes by the empty place moves there and leaves its own.
// Where every place is taken, the lists are spoilt. No `for`, as in `enter`.
pub fn leave(keys: &mut [u64], values: &mut [f32], place: usize)
    requires { (length values.old ≡ length keys.old) × (place < length keys.old) }
    ensures { Leaves place keys.old values.old keys.new values.new }
{
    let mut hole = place;
    let mut i = place;
    while keys[i] != 0 {
        let here = keys[i];
        let there = values[i];
        let next = following(i, keys.len());
        if next == place {
            return;
        }
        if comes_first(home(here, keys.len()), hole, i) {
            keys[hole] = here;
            values[hole] = there;
            hole = i;
        }
        i = next;
    }
    keys[hole] = 0;
    values[hole] = 0.0;
}
