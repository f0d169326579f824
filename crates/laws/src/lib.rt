// The ground of every proof here: the two tests of values that refusals 6 and 7 make, and laws on f32, lists and tables.

#![tactic(auto)]

ghost use Rattle.std.specs.Prelude.{◌≡◌, true, ◌&&◌, fold};
ghost use Rattle.laws.specs.Lists.{failing};
ghost use Rattle.laws.specs.Passes.{passes6, passes7};

// The tests of 6 and 7 stay two functions: each is one line, and a parameter for it is no plainer.

// Entry. Whether x passes 6: finite, and at most 2^60 in magnitude. A NaN is on neither side of a
// bound.
pub fn passes_6(x: f32) -> bool
    ensures { result ≡ passes6 x }
{
    -1152921504606846976.0 <= x && x <= 1152921504606846976.0
}

// Entry. Whether x passes 7: finite, and not below zero. -0.0 passes.
pub fn passes_7(x: f32) -> bool
    ensures { result ≡ passes7 x }
{
    0.0 <= x && x < f32::INFINITY
}

// Whether every value passes 6. It reads on after a failure, so that several values are tested at
// once.
fn all_pass_6(x: &[f32]) -> bool
    ensures { result ≡ fold (λ all v. passes6 v && all) true x.now }
{
    x.iter().fold(true, |all, v| passes_6(*v) && all)
}

// Entry. The place of the first value that does not pass 6, if there is one. Values are searched
// one by one only where one of them fails.
pub fn first_failing_6(x: &[f32]) -> Option<usize>
    ensures { result ≡ failing passes6 x.now }
{
    if all_pass_6(x) {
        return None;
    }
    x.iter().position(|v| !passes_6(*v))
}

// Entry. The place of the first value that does not pass 7, if there is one.
pub fn first_failing_7(x: &[f32]) -> Option<usize>
    ensures { result ≡ failing passes7 x.now }
{
    x.iter().position(|v| !passes_7(*v))
}
