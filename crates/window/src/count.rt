// A count of readings. To a count and to 64 bits `From` leads; to the two widths here it does not.
ghost use Rattle.std.specs.Prelude.{◌≡◌, ◌<◌, ◌^◌};

// A count of readings since the start: document 01's n, and every place that is measured by it.
pub type Count = u32;

// The greatest count of readings.
pub const COUNT_LIMIT: Count = 4_294_967_295;

// A count as a number of places.
pub fn size(n: Count) -> usize
    ensures { result ≡ n }
{
    n as usize
}

// A count below 2^32 as a number of 32 bits.
pub fn narrow(n: Count) -> u32
    requires { n < 2 ^ 32 }
    ensures { result ≡ n }
{
    n as u32
}
