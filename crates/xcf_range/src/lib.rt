// A number within its bounds.
#![tactic(auto)]

ghost use Rattle.std.specs.Prelude.{◌≡◌, not};
ghost use Rattle.xcf_range.specs.Range.{within};

// Whether x is below `low` or above `high`.
pub fn outside(low: u32, high: u32, x: u32) -> bool
    ensures { result ≡ not (within low high x) }
{
    x < low || high < x
}
