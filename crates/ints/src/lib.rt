#![tactic(auto)]

// Signed arithmetic: a sum with a widened number, and a clamp. The laws of signed numbers, for every crate above, stand
// in proofs/.
ghost use Rattle.std.specs.Prelude.{◌≡◌, ◌<◌, ◌^◌, ◌+ℤ◌, FitsSigned};
ghost use Rattle.std.specs.Int.{w64};
ghost use Rattle.ints.specs.Sizes.{Small, clamped};

// The sum with one number more, which is widened.
pub fn add_widened(sum: i64, x: i32) -> i64
    requires { FitsSigned w64 (sum +ℤ x) }
    ensures { result ≡ sum +ℤ x }
{
    sum + i64::from(x)
}

// x, or the nearest number that is at most the bound in size. For numbers of which nothing is known.
pub fn clamp(bound: u64, x: i64) -> i64
    requires { bound < 2 ^ 63 }
    ensures value { result ≡ clamped bound x }
    ensures small { Small bound result }
    ensures same { Small bound x → result ≡ x }
{
    let most = bound.cast_signed();
    x.clamp(-most, most)
}
