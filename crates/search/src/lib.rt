// Ascending keys: whether they ascend, and where one stands, looked up by halves or from a place upwards.
#![tactic(auto)]

ghost use Rattle.std.specs.Prelude.{◌≡◌, ◌≤◌, length, take};
ghost use Rattle.search.specs.Keys.{ascending, halving, halved, find_by};
ghost use Rattle.search.specs.Nearby.{nearer as nearer_end, end_above, find_above, behind as behind_start, start_near, place_near, find_near};

// Each of the first `count` keys is above the one before it.
pub fn keys_ascend(keys: &[u64], count: usize) -> bool
    ensures { result ≡ ascending (take count keys.now) }
{
    keys[..count.min(keys.len())].is_sorted_by(|a, b| a < b)
}

// The place that `key` has or would take between two places, by halves. By hand, since `halving` says where the search ends on
// keys in any order, and `partition_point` where it ends on keys in order.
fn place_between(keys: &[u64], mut low: usize, mut high: usize, key: u64) -> usize
    requires { high ≤ length keys.now }
    ensures { result ≡ halving (length keys.now) key keys.now low high }
{
    while low < high {
        let middle = low + (high - low) / 2;
        if keys[middle] < key {
            low = middle + 1;
        } else {
            high = middle;
        }
    }
    low
}

// The place that `key` has or would take, by halving the first `count` keys.
pub fn place_of(keys: &[u64], count: usize, key: u64) -> usize
    ensures { result ≡ halved key (take count keys.now) }
{
    let end = count.min(keys.len());
    place_between(&keys[..end], 0, end, key)
}

// Where `key` stands among the first `count` keys, by halves.
pub fn find_row(keys: &[u64], count: usize, key: u64) -> Option<usize>
    ensures { result ≡ find_by key (take count keys.now) }
{
    let place = place_of(keys, count, key);
    if place < count {
        if place < keys.len() {
            if keys[place] == key {
                return Some(place);
            }
        }
    }
    None
}

// The place `step` on, if the key there is not below `key`; else `end`.
fn nearer(keys: &[u64], from: usize, step: usize, key: u64, end: usize) -> usize
    ensures { result ≡ nearer_end key keys.now from step end }
{
    if from < keys.len() {
        if step < keys.len() - from {
            if key <= keys[from + step] {
                return from + step;
            }
        }
    }
    end
}

// Where a search from a place on ends: 16, 256 or 4096 places on, or with the list.
fn end_above(keys: &[u64], from: usize, key: u64) -> usize
    ensures { result ≡ end_above key keys.now from }
{
    let near = nearer(keys, from, 16, key, keys.len());
    if near < keys.len() {
        return near;
    }
    let middle = nearer(keys, from, 256, key, keys.len());
    if middle < keys.len() {
        return middle;
    }
    nearer(keys, from, 4096, key, keys.len())
}

// Where `key` stands, if at `from` or above it: the neighbours of a cell mostly stand within a few rows.
pub fn find_above(keys: &[u64], from: usize, key: u64) -> Option<usize>
    ensures { result ≡ find_above key keys.now from }
{
    let place = place_between(keys, from, end_above(keys, from, key), key);
    if place < keys.len() {
        if keys[place] == key {
            return Some(place);
        }
    }
    None
}

// The place `step` back, if the key before it is below `key`; else `low`.
fn behind(keys: &[u64], from: usize, step: usize, key: u64, low: usize) -> usize
    ensures { result ≡ behind_start key keys.now from step low }
{
    if step < from {
        let place = from - step;
        if place <= keys.len() {
            if keys[place - 1] < key {
                return place;
            }
        }
    }
    low
}

// Where a search begins that is expected to end near a place: there, 16 or 256 places back, or with the list.
fn start_near(keys: &[u64], from: usize, key: u64) -> usize
    ensures { result ≡ start_near key keys.now from }
{
    let here = behind(keys, from, 0, key, 0);
    if 0 < here {
        return here;
    }
    let back = behind(keys, from, 16, key, 0);
    if 0 < back {
        return back;
    }
    behind(keys, from, 256, key, 0)
}

// Where a search ends that is expected to end near a place.
fn place_from(keys: &[u64], from: usize, key: u64) -> usize
    ensures { result ≡ place_near key keys.now from }
{
    let start = start_near(keys, from, key);
    place_between(keys, start, end_above(keys, start, key), key)
}

// The place that `key` has or would take among the first `count` keys, expected near a place.
pub fn place_near(keys: &[u64], count: usize, from: usize, key: u64) -> usize
    ensures { result ≡ place_near key (take count keys.now) from }
{
    let end = count.min(keys.len());
    place_from(&keys[..end], from, key)
}

// Where `key` stands, expected near a place.
fn find_from(keys: &[u64], from: usize, key: u64) -> Option<usize>
    ensures { result ≡ find_near key keys.now from }
{
    find_above(keys, start_near(keys, from, key), key)
}

// Where `key` stands among the first `count` keys, expected near a place.
pub fn find_near(keys: &[u64], count: usize, from: usize, key: u64) -> Option<usize>
    ensures { result ≡ find_near key (take count keys.now) from }
{
    let end = count.min(keys.len());
    find_from(&keys[..end], from, key)
}
