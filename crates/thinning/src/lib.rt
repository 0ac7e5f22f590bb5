// A march goes on lean where marks of waiting cells would outgrow the lists: theirs are taken out, and those of stored cells stay.
#![tactic(auto)]

ghost use Rattle.std.specs.Prelude.{◌≡◌, List, ℕ, ◌+◌, ◌<◌, ◌≤◌, length};
ghost use Rattle.marching.specs.March.{MarchedRow};
ghost use Rattle.hearing.specs.Hearing.{Marked};
ghost use Rattle.thinning.specs.Thinning.{all_but, Thins, has_room, kind_of, Lightens};

use marks::{find, leave};

// The mark of a cell goes, unless it is stored.
fn forget(keys: &mut [u64], distances: &mut [f32], key: u64)
    requires { length distances.old ≡ length keys.old }
    ensures { (rs : List MarchedRow) (ws : List ℕ)
        → Marked rs ws keys.old distances.old
        → length rs + length ws < length keys.old
        → (key ≡ 1 → ⊥)
        → Marked rs (all_but key ws) keys.new distances.new }
{
    let Ok(place) = find(keys, key) else {
        return;
    };
    if !floats::is_finite(distances[place]) {
        leave(keys, distances, place);
    }
}

// The marks of the first cells of a list go, but for stored ones.
fn thin(keys: &mut [u64], distances: &mut [f32], cells: &[u64], waiting: usize)
    requires { (length distances.old ≡ length keys.old) × (waiting ≤ length cells.now) }
    ensures { Thins waiting cells.now keys.old distances.old keys.new distances.new }
{
    for i in 0..waiting {
        forget(keys, distances, cells[i]);
    }
}

// Whether the marks of a step have a place beside so many; a place in 32 stays empty besides, since a table that is nearly full is slow.
fn has_room(places: usize, rows: usize, waiting: usize) -> bool
    ensures { result ≡ has_room places rows waiting }
{
    let spare = places / 32 + 16;
    if places < spare {
        return false;
    }
    let left = places - spare;
    if left < rows {
        return false;
    }
    waiting <= left - rows
}

// Whether the next step is lean. From where on marks of waiting cells would outgrow the lists it is, and they have none.
pub fn lighten(
    lean: bool,
    keys: &mut [u64],
    distances: &mut [f32],
    rows: usize,
    cells: &[u64],
    waiting: usize,
) -> bool
    requires { (length distances.old ≡ length keys.old) × (waiting ≤ length cells.now) }
    ensures kind { result ≡ kind_of lean (length keys.old) rows waiting }
    ensures lists { Lightens lean rows waiting cells.now keys.old distances.old result
        keys.new distances.new }
{
    if lean {
        return true;
    }
    if has_room(keys.len(), rows, waiting) {
        return false;
    }
    thin(keys, distances, cells, waiting);
    true
}
