// What an answer is towards C: the settings that a host's four numbers make, and the numbers of answers. A number handed back is 0 unless
// the answer is 0, but for what a batch counts and names.
#![tactic(auto)]

pub mod readings;

ghost use Rattle.std.specs.Prelude.{◌≡◌};
ghost use Rattle.refusals.specs.Refusals.{answer_number, found_number};
ghost use Rattle.answers.specs.Given.{one_if};

use floats::Metres;
use refusals::Refusal;
use tsdf_surveys::TsdfStats;

// The numbers of answers that are no refusals.
pub const DONE: u32 = 0;

pub const FAR: u32 = 100;

pub const ABSENT: u32 = 101;

pub const NEW: u32 = 102;

pub const CHANGED: u32 = 103;

// What is handed back in place of a length that there is not.
pub const NOTHING: f32 = 0.0;

// What is handed back in place of statistics that there are not.
pub const NO_STATS: TsdfStats = TsdfStats {
    voxel_count: 0,
    surface_voxel_count: 0,
    min_distance: Metres(NOTHING),
    max_distance: Metres(NOTHING),
    average_weight: NOTHING,
};

// 1 for yes and 0 for no, as C reads it.
pub fn one_if(yes: bool) -> u32
    ensures { result ≡ one_if yes }
{
    u32::from(yes)
}

// The number of an answer.
pub fn answer_number<T>(answer: &Result<T, Refusal>) -> u32
    ensures { result ≡ answer_number answer.now }
{
    match answer {
        Ok(_) => DONE,
        Err(why) => u32::from(*why),
    }
}

// The number of an answer that may be Absent.
pub fn found_number<T>(found: &Result<Option<T>, Refusal>) -> u32
    ensures { result ≡ found_number found.now }
{
    match found {
        Ok(Some(_)) => DONE,
        Ok(None) => ABSENT,
        Err(why) => u32::from(*why),
    }
}
