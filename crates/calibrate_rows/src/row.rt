// The row values v, w, F and J of a diagram, and each rounded down.
ghost use Rattle.std.specs.Prelude.{◌≡◌, ℕ, ◌<◌, ◌≤◌, ◌/◌, ◌^◌, true};
ghost use Rattle.std.specs.Int.Bits.{bit_and};
ghost use lib.Ieee.{binary64, to_bits};
ghost use Rattle.calibrate_rows.specs.RowNumbers.{speed_share, row_values, row_numbers, value_fits};
ghost use Rattle.calibrate_rows.specs.Private.{LargestNotAbove, EachFits};

use crate::{Diagram, RowNumbers, RowValues};
use std::num;

// A speed in miles per hour as the share of a cell that is passed in a period, over ONE.
fn speed_share(speed: f64, period: u32, cell: f64) -> f64
    ensures { result ≡ speed_share speed period cell }
{
    ((speed * (period as f64)) / (3_600.0 * cell)) * 65_536.0
}

// The row values before rounding.
pub(crate) fn row_values(diagram: Diagram, period: u32, cell: f64) -> RowValues
    ensures { result ≡ row_values diagram period cell }
{
    RowValues {
        v: speed_share(diagram.speed, period, cell),
        w: speed_share(diagram.wave, period, cell),
        capacity: ((diagram.capacity * (period as f64)) * 1_000.0) / 3_600.0,
        jam: (diagram.jam * cell) * 1_000.0,
    }
}

// The largest whole number not above x, for an x from 1 to a limit that fits. The library shifts the mantissa down by what the exponent,
// the 11 bits above the mantissa's 52, is short of 1,075. Under the largest limit it never has to shift up.
fn rounded_down(x: f64) -> u32
    ensures largest { (limit : ℕ) → 0 < limit → limit < 2 ^ 32 → value_fits limit x ≡ true → LargestNotAbove x result }
    ensures shifted_down { value_fits 4_000_000 x ≡ true → bit_and (to_bits binary64 x / 2 ^ 52) 2_047 ≤ 1_075 }
{
    num::saturating_f64_to_u32(x)
}

// The row values rounded down.
pub(crate) fn row_numbers(values: RowValues) -> RowNumbers
    requires { EachFits values }
    ensures { result ≡ row_numbers values }
{
    RowNumbers {
        v: rounded_down(values.v),
        w: rounded_down(values.w),
        capacity: rounded_down(values.capacity),
        jam: rounded_down(values.jam),
    }
}
