// The ends of numbers that are seen one after the other: the lowest and the highest.
#![tactic(auto)]

ghost use Rattle.std.specs.Prelude.{◌≡◌};
ghost use Rattle.ends.specs.Ends.{no_ends, widened, lowest, highest, unless_start};

use floats::{larger, smaller};

// The largest float, above every end that is looked for from below.
const LARGEST: f32 = 3.40282347e38;

// The lowest and the highest number so far.
#[derive(Clone, Copy)]
pub struct Ends {
    low: f32,
    high: f32,
}

impl Ends {
    // Before the first number: the largest float, and its negative.
    pub fn none() -> Ends
        ensures { result ≡ no_ends }
    {
        Ends {
            low: LARGEST,
            high: -LARGEST,
        }
    }

    // With one number more; an end stays as it was unless the number is strictly beyond it.
    pub fn with(self, x: f32) -> Ends
        ensures { result ≡ widened self x }
    {
        Ends {
            low: smaller(self.low, x),
            high: larger(self.high, x),
        }
    }

    // The lowest number, +0 where no number moved it.
    pub fn lowest(self) -> f32
        ensures { result ≡ lowest self }
    {
        unless_start(LARGEST, self.low)
    }

    // The highest number, +0 where no number moved it.
    pub fn highest(self) -> f32
        ensures { result ≡ highest self }
    {
        unless_start(-LARGEST, self.high)
    }
}

// +0 for an end that no number moved.
fn unless_start(start: f32, x: f32) -> f32
    ensures { result ≡ unless_start start x }
{
    if x == start { 0.0 } else { x }
}
