// The ranges of the numbers of one cell: of its row (numbers 2 and 3), its count, queue and mode (5), its demands (6), and a queue with its
// demand (7).
#![tactic(auto)]

ghost use Rattle.std.specs.Prelude.{◌≡◌};
ghost use Rattle.accept_ranges.specs.Ranges.{with_ramp, row_in_range, room_shared, state_fits, given_off, demand_fits, queue_holds};

use layout::{Cell, Row};
use whole::within;

// A bound where there is a ramp; 0 where there is none.
pub fn with_ramp(ramp: u32, bound: u32) -> u32
    ensures { result ≡ with_ramp ramp bound }
{
    if ramp == 0 { 0 } else { bound }
}

// Whether each number of a row is in its column's range.
pub fn row_in_range(row: Row) -> bool
    ensures { result ≡ row_in_range row }
{
    within(1, 65_536, row.v)
        & within(1, 65_536, row.w)
        & within(1, 1_000_000, row.capacity)
        & within(1, 4_000_000, row.jam)
        & within(0, 65_535, row.on)
        & within(with_ramp(row.on, 1), with_ramp(row.on, 65_535), row.x)
        & within(with_ramp(row.on, 1), with_ramp(row.on, 1_000_000), row.c)
        & within(0, 65_535, row.off)
        & within(0, with_ramp(row.off, 65_535), row.b)
        & within(1, row.capacity, row.dropped)
}

// Whether w + x is at most ONE, worked out in 64 bits.
pub fn room_shared(row: Row) -> bool
    ensures { result ≡ room_shared row }
{
    (row.w as u64) + (row.x as u64) <= 65_536
}

// Whether a cell's count, on-ramp queue and mode are in their ranges.
pub fn state_fits(row: Row, cell: Cell) -> bool
    ensures { result ≡ state_fits row cell }
{
    (cell.count <= row.jam) & (cell.queue <= with_ramp(row.on, 1_000_000_000)) & (cell.mode <= 1)
}

// The most that a row lets an off-ramp's demand be.
pub fn given_off(row: Row) -> u32
    ensures { result ≡ given_off row }
{
    if row.b == 0 {
        with_ramp(row.off, 1_000_000)
    } else {
        0
    }
}

// Whether a cell's on-ramp and off-ramp demands are in their ranges.
pub fn demand_fits(row: Row, d: u32, o: u32) -> bool
    ensures { result ≡ demand_fits row d o }
{
    (d <= with_ramp(row.on, 1_000_000)) & (o <= given_off(row))
}

// Whether a queue and its demand together stay within a queue's range, worked out in 64 bits.
pub fn queue_holds(queue: u32, demand: u32) -> bool
    ensures { result ≡ queue_holds queue demand }
{
    (queue as u64) + (demand as u64) <= 1_000_000_000
}
