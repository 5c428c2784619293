// A signed number as an unsigned one: 0, -1, 1, -2, 2 and so on are 0, 1, 2, 3, 4.
ghost use Rattle.std.specs.Prelude.{◌≡◌};
ghost use Rattle.encoding.specs.Signed.{unsigned, signed};

// The unsigned number of x. Its size is lessened before it is doubled: twice 2^63 does not fit.
pub(crate) fn unsigned(x: i64) -> u64
    ensures { result ≡ unsigned x }
{
    if x < 0 {
        2 * (x.unsigned_abs() - 1) + 1
    } else {
        2 * x.unsigned_abs()
    }
}

// The signed number of w.
#[tactic(auto, using(crate::proofs::Signs::halves))]
pub(crate) fn signed(w: u64) -> i64
    ensures { result ≡ signed w }
{
    let half = (w / 2).cast_signed();
    if w % 2 == 0 { half } else { -half - 1 }
}
