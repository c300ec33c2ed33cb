// One cell in one period, by the kind of its off-ramp and without a loop: numbers of 32 bits in and out, 64 between.
ghost use Rattle.std.specs.Prelude.{◌≡◌, ◌+◌, ◌-◌, ◌*◌, ◌/◌, ◌≤◌, ◌<◌};
ghost use Rattle.whole.specs.Share.{ONE, share};
ghost use Rattle.period.specs.Cell.{D, M, off_flow, mode_of};

use layout::Row;
use whole::{least, share};

// D.
pub(crate) fn sending(row: Row, n: u32) -> u64
    ensures { result ≡ D row n }
{
    share(row.v, n)
}

// What a split leaves on the road of what a cell would send in all.
pub(crate) fn split_stays(b: u32, d: u64) -> u64
    requires { (b < 65_536) × (d ≤ 4_294_967_295) }
    ensures { result ≡ share d (ONE - b) }
{
    d * ((65_536 - b) as u64) / 65_536
}

// What leaves by a split of b, of a flow f.
pub(crate) fn split_leaves(b: u32, f: u64) -> u32
    requires { (b < 65_536) × (f + f * b / (ONE - b) ≤ 4_294_967_295) }
    ensures { result ≡ f * b / (ONE - b) }
{
    (f * (b as u64) / ((65_536 - b) as u64)) as u32
}

// M.
pub(crate) fn would_send(row: Row, n: u32, o: u32) -> u64
    requires { (row.v ≤ 65_536) × (row.b < 65_536) }
    ensures { result ≡ M row n o }
{
    let d = sending(row, n);
    if row.off == 0 {
        return d;
    }
    if row.b == 0 {
        return d - least(o as u64, d);
    }
    split_stays(row.b, d)
}

// s, of a flow f.
pub(crate) fn off_flow(row: Row, n: u32, o: u32, f: u64) -> u32
    requires { (row.v ≤ 65_536) × (row.b < 65_536) × (f ≤ M row n o) }
    ensures { result ≡ off_flow row n o f }
{
    if row.off == 0 {
        return 0;
    }
    if row.b == 0 {
        return least(o as u64, sending(row, n)) as u32;
    }
    split_leaves(row.b, f)
}

// 0 where the cell is free, else 1.
pub(crate) fn mode(m: u64, capacity: u32, clear: bool) -> u32
    ensures { result ≡ mode_of m capacity clear }
{
    if (m < capacity as u64) & clear { 0 } else { 1 }
}
