// Whole numbers: the smaller of two, a share over ONE rounded down, and a number in a range. The definitions and laws of lists, sums and
// searches over an index that every other crate cites stand in specs/ and proofs/.
#![tactic(auto)]

ghost use Rattle.std.specs.Prelude.{◌≡◌, min};
ghost use Rattle.whole.specs.Share.{share};
ghost use Rattle.whole.specs.Search.{within};

// The smaller of two numbers. Asked this way round, `min` tests whether a is below b, as a cell's mode does of the same two numbers: a run
// takes a fourteenth longer the other way round.
pub fn least(a: u64, b: u64) -> u64
    ensures { result ≡ min a b }
{
    b.min(a)
}

// a·b / ONE, rounded down. The product of two 32-bit numbers always fits 64 bits.
pub fn share(a: u32, b: u32) -> u64
    ensures { result ≡ share a b }
{
    (a as u64) * (b as u64) / 65_536
}

// Whether x is at least low and at most high.
pub fn within(low: u32, high: u32, x: u32) -> bool
    ensures { result ≡ within low high x }
{
    (low <= x) & (x <= high)
}
