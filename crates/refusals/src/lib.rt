// Why a call refuses: document 01, "Refusal numbers", and document 02's additions.
#![tactic(auto)]

ghost use Rattle.std.specs.Prelude.{◌≡◌};
ghost use Rattle.refusals.specs.Refusals.{number_of};

#[derive(Clone, Copy, Debug, PartialEq, Eq)]
pub enum Refusal {
    // 1: a setting is outside its range
    Setting,
    // 2: lent lengths differ, exceed a limit, or a count exceeds its length
    Lengths,
    // 3: a row breaks the table's rules
    BadRow,
    // 4: a key, or coordinates to make one, are off the lattice
    OffLattice,
    // 5: a reading, threshold, position or root argument is not taken
    BadReading,
    // 6: a new row or list entry has no place
    NoPlace,
    // 7: a fused distance is not finite or too large
    TooLarge,
    // 8: the waiting list has no place
    NoWaitingPlace,
    // 9: a rounded coordinate is outside i32, or a snap would leave it
    OutOfRange,
    // 10: an area or box vertex is not taken, or a triangle names no vertex
    BadVertex,
    // 11: a file's length is not that of a binary STL (document 02, No. 1)
    BadLength,
}

// The refusal's number.
impl From<Refusal> for u32 {
    ghost from_gives = { λ refusal n. n ≡ number_of refusal };

    fn from(refusal: Refusal) -> u32 {
        match refusal {
            Refusal::Setting => 1,
            Refusal::Lengths => 2,
            Refusal::BadRow => 3,
            Refusal::OffLattice => 4,
            Refusal::BadReading => 5,
            Refusal::NoPlace => 6,
            Refusal::TooLarge => 7,
            Refusal::NoWaitingPlace => 8,
            Refusal::OutOfRange => 9,
            Refusal::BadVertex => 10,
            Refusal::BadLength => 11,
        }
    }
}
