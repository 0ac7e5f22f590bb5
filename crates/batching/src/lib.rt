// A batch of readings, each fused in turn: its definition and laws.
#![tactic(auto)]

ghost use Rattle.std.specs.Prelude.{◌≡◌};
ghost use Rattle.batching.specs.Batches.{readings_taken, batched_of, refused_at_once};

use refusals::Refusal;

// The readings of a batch: three lists side by side, as C lends them.
#[derive(Clone, Copy)]
pub struct Readings<'a> {
    pub keys: &'a [u64],
    pub distances: &'a [f32],
    pub confidences: &'a [f32],
}

// How many readings of a batch added a row, changed one, and were far.
#[derive(Clone, Copy)]
pub struct Counts {
    pub added: usize,
    pub changed: usize,
    pub far: usize,
}

// Why a reading of a batch is refused, and which it is, counted from 0.
#[derive(Clone, Copy, PartialEq, Eq)]
pub struct RefusedReading {
    pub why: Refusal,
    pub at: usize,
}

// Why a batch is refused, the reading that is, counted from 0, and the counts of those before it.
#[derive(Clone, Copy)]
pub struct RefusedBatch {
    pub why: Refusal,
    pub at: usize,
    pub counts: Counts,
}

// How the readings of a batch end: all are taken, or one is refused.
pub type Ending = Result<(), RefusedReading>;

// What a batch answers: the counts of its readings, or where it is refused.
pub type Batched = Result<Counts, RefusedBatch>;

// A batch that is refused before its readings names the first and has counted none.
impl From<Refusal> for RefusedBatch {
    ghost from_gives = { λ why batch. batch ≡ refused_at_once why };

    fn from(why: Refusal) -> RefusedBatch {
        RefusedBatch {
            why,
            at: 0,
            counts: Counts {
                added: 0,
                changed: 0,
                far: 0,
            },
        }
    }
}

// How many of so many readings are taken.
pub fn readings_taken(ending: Ending, readings: usize) -> usize
    ensures { result ≡ readings_taken ending readings }
{
    match ending {
        Ok(()) => readings,
        Err(refused) => refused.at,
    }
}

// What is answered to an ending, with the counts of the readings that were taken.
pub fn batched_of(ending: Ending, counts: Counts) -> Batched
    ensures { result ≡ batched_of ending counts }
{
    match ending {
        Ok(()) => Ok(counts),
        Err(RefusedReading { why, at }) => Err(RefusedBatch { why, at, counts }),
    }
}
