// Fusing a reading or a batch of readings into a table.
ghost use Rattle.std.specs.Prelude.{◌≡◌};
ghost use Rattle.fusing.specs.Fusing.{fused_number};
ghost use Rattle.batching.specs.Batches.{batched_number, batched_counts, batched_at};

use crate::{CHANGED, DONE, FAR, NEW};
use batching::{Batched, Counts};
use fusing::Fused;
use refusals::Refusal;

// What a batch hands back: the answer's number, the counts of its readings, and the one that a refusal names.
#[derive(Clone, Copy)]
pub struct ReadingsBack {
    pub number: u32,
    pub counts: Counts,
    pub at: usize,
}

// The number of a fuse's answer.
pub fn fused_number(fused: Result<Fused, Refusal>) -> u32
    ensures { result ≡ fused_number fused }
{
    match fused {
        Ok(Fused::New) => NEW,
        Ok(Fused::Changed) => CHANGED,
        Ok(Fused::Far) => FAR,
        Err(why) => u32::from(why),
    }
}

// The number of a batch's answer, its counts, and the reading that it names.
pub fn batch_back(batched: Batched) -> ReadingsBack
    ensures number_value { result.number ≡ batched_number batched }
    ensures counts_value { result.counts ≡ batched_counts batched }
    ensures at_value { result.at ≡ batched_at batched }
{
    match batched {
        Ok(counts) => ReadingsBack {
            number: DONE,
            counts,
            at: 0,
        },
        Err(refused) => ReadingsBack {
            number: u32::from(refused.why),
            counts: refused.counts,
            at: refused.at,
        },
    }
}
