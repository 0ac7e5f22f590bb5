// Lists of places that a caller lends: cleared, a value put in, the first one dropped, whatever the element type.
#![tactic(auto)]

ghost use Rattle.std.specs.Prelude.{◌≡◌, set};
ghost use Rattle.lists.specs.Places.{filled, cleared_from, inserted, first_dropped};
ghost use Rattle.lists.specs.Listing.{room_for, count_of, kept_of};

use refusals::Refusal;

// The most places of a list that is filled or read, but for a table's own.
pub const LONGEST_LIST: usize = 1_048_576;

// `n` entries in a list of `room` places.
pub fn room_for(n: usize, room: usize) -> Result<usize, Refusal>
    ensures { result ≡ room_for n room }
{
    if n <= room {
        Ok(n)
    } else {
        Err(Refusal::NoPlace)
    }
}

// How many an answer says; none where it refuses.
pub fn count_of(listed: Result<usize, Refusal>) -> usize
    ensures { result ≡ count_of listed }
{
    match listed {
        Ok(n) => n,
        Err(_) => 0,
    }
}

// How many of `n` places are kept: none where the answer refuses.
pub fn kept<T: Copy>(answer: Result<T, Refusal>, n: usize) -> usize
    ensures { result ≡ kept_of answer n }
{
    if answer.is_ok() { n } else { 0 }
}

// The places from `n` on become `value`: by a loop, since `fill` asks that a clone can't fail, which `T: Copy` doesn't say.
pub fn clear_from<T: Copy>(list: &mut [T], n: usize, value: T)
    ensures { list.new ≡ cleared_from value n list.old }
{
    if n <= list.len() {
        for place in list[n..].iter_mut() {
            *place = value;
        }
    }
}

// Every place becomes `value`.
pub fn clear<T: Copy>(list: &mut [T], value: T)
    ensures { list.new ≡ filled value list.old }
{
    clear_from(list, 0, value);
}

// `value` at a place of a list; nothing where it has no such place.
pub fn put<T: Copy>(list: &mut [T], at: usize, value: T)
    ensures { list.new ≡ set list.old at value }
{
    if at < list.len() {
        list[at] = value;
    }
}

// `value` at `place` of the first `count`; those from `place` on move one place up. Nothing changes
// where `place` is past `count`, or the list has no place for one more.
pub fn insert<T: Copy>(list: &mut [T], count: usize, place: usize, value: T)
    ensures { list.new ≡ inserted list.old count place value }
{
    if place <= count && count < list.len() {
        for i in (place..count).rev() {
            list[i + 1] = list[i];
        }
        list[place] = value;
    }
}

// The first of `count` places goes, those after it move one place down, and the last becomes `value`.
// Nothing changes where there is none.
pub fn drop_first<T: Copy>(list: &mut [T], count: usize, value: T)
    ensures { list.new ≡ first_dropped value list.old count }
{
    if 0 < count && count <= list.len() {
        list.copy_within(1..count, 0);
        list[count - 1] = value;
    }
}
