// The rules of a marched table, two lent lists whose first `count` places are rows, ascending by key, and its lookup (src/layers/esdf.rs).
#![tactic(auto)]

ghost use Rattle.std.specs.Prelude.{◌≡◌, ◌≤◌, ◌<◌, length};
ghost use Rattle.marching.specs.March.{distance_of};
ghost use Rattle.marched.specs.Marched.{marched_table, marched_rows_of, pair_ok, marched_lengths_ok, marched_row_ok, marched_rows_ok, marched_ok, marched_check, key_check, free_check, list_check};
ghost use Rattle.marched.specs.Steps.{Accepted};
ghost use Rattle.marched.specs.Read.{marched_in, marched_rows_in};

use floats::is_finite;
use ids::is_on_lattice;
use lists::LONGEST_LIST;
use refusals::Refusal;
use search::{find_row, keys_ascend};
use stored::Distances;

// Two lists are equally long, and no longer than the limit.
pub fn pair_ok(a: usize, b: usize) -> bool
    ensures { result ≡ pair_ok a b }
{
    (a == b) & (a <= LONGEST_LIST)
}

// And there are no more rows than places.
fn lengths_ok(a: usize, b: usize, count: usize) -> bool
    ensures { result ≡ marched_lengths_ok a b count }
{
    pair_ok(a, b) & (count <= a)
}

// A row is in its ranges.
fn row_ok(key: u64, distance: f32) -> bool
    ensures { result ≡ marched_row_ok key distance }
{
    is_on_lattice(key) & floats::within(1000000.0, distance)
}

// Every row is in its ranges.
fn rows_ok(field: &Distances) -> bool
    requires { (field.now.count ≤ length field.now.keys.now) × (length field.now.distances.now ≡ length field.now.keys.now) }
    ensures { result ≡ marched_rows_ok (marched_rows_in field.now) }
{
    let Distances {
        keys,
        distances,
        count,
    } = *field;
    for i in 0..count {
        if !row_ok(keys[i], distances[i]) {
            return false;
        }
    }
    true
}

// Every row is in its ranges and the keys ascend.
fn table_ok(field: &Distances) -> bool
    requires { (field.now.count ≤ length field.now.keys.now) × (length field.now.distances.now ≡ length field.now.keys.now) }
    ensures { result ≡ marched_ok (marched_in field.now) }
{
    let Distances { keys, count, .. } = *field;
    rows_ok(field) & keys_ascend(keys, count)
}

// Refusals 2, of the lists to be filled too, 3 and 5.
pub fn check_list(field: &Distances, fit: bool, threshold: f32) -> Result<(), Refusal>
    ensures { result ≡ list_check (marched_in field.now) fit threshold }
{
    let Distances {
        keys,
        distances,
        count,
    } = *field;
    if !lengths_ok(keys.len(), distances.len(), count) {
        return Err(Refusal::Lengths);
    }
    if !fit {
        return Err(Refusal::Lengths);
    }
    if !table_ok(field) {
        return Err(Refusal::BadRow);
    }
    if !is_finite(threshold) {
        return Err(Refusal::BadReading);
    }
    Ok(())
}

// Refusals 2 and 3.
pub fn check(field: &Distances) -> Result<(), Refusal>
    ensures { result ≡ marched_check (marched_in field.now) }
{
    let Distances {
        keys,
        distances,
        count,
    } = *field;
    if !lengths_ok(keys.len(), distances.len(), count) {
        return Err(Refusal::Lengths);
    }
    if !table_ok(field) {
        return Err(Refusal::BadRow);
    }
    Ok(())
}

// Refusals 2, 3 and 4.
pub fn check_key(field: &Distances, key: u64) -> Result<(), Refusal>
    ensures { result ≡ key_check (marched_in field.now) key }
{
    check(field)?;
    if !is_on_lattice(key) {
        return Err(Refusal::OffLattice);
    }
    Ok(())
}

// Refusals 2, 3, 4 and 5.
pub fn check_free(field: &Distances, key: u64, threshold: f32) -> Result<(), Refusal>
    ensures { result ≡ free_check (marched_in field.now) key threshold }
{
    check_key(field, key)?;
    if !is_finite(threshold) {
        return Err(Refusal::BadReading);
    }
    Ok(())
}

// What is stored of a cell.
pub fn stored_at(field: &Distances, key: u64) -> Option<f32>
    requires { Accepted (marched_in field.now) }
    ensures { result ≡ distance_of key (marched_rows_in field.now) }
{
    let Distances {
        keys,
        distances,
        count,
    } = *field;
    let at = find_row(keys, count, key)?;
    Some(distances[at])
}
