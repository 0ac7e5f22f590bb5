// The root for C to call, for the comparison and the benchmark in bench/root.
#![tactic(auto)]

ghost use Rattle.std.specs.Prelude.{◌≡◌};
ghost use Rattle.root.specs.Root.{root_answer};
ghost use Rattle.root_c.specs.Answers.{root_or};

// The root of x, or `other` where it is refused.
#[unsafe(no_mangle)]
pub extern "C" fn root_or(x: f32, other: f32) -> f32
    ensures { result ≡ root_or (root_answer x) other }
{
    match root::root(x) {
        Ok(r) => r,
        Err(_) => other,
    }
}
