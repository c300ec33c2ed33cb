// Decimal digits and the line of a record, written into a lent buffer where they fit.
#![tactic(auto)]

ghost use Rattle.std.specs.Prelude.{◌≡◌, ℕ, ◌+◌, ◌≤◌};
ghost use Rattle.text_digits.specs.Lines.{digits_of, rest_text, line_text};
ghost use Rattle.text_digits.specs.Writes.{written, after_writing, rest_written, after_rest};

mod decimal;

use decimal::{fits, line_fits, put_digits, put_line, put_rest};
use refusals::Refusal;

// Writes the decimal digits of a number into a buffer from a position on, most significant first. The answer is the
// position after the last byte written; where the bytes do not fit, a wrong length, none is written.
#[tactic(auto, unfolding(crate::specs::Writes::written, crate::specs::Writes::after_writing))]
pub fn write_decimal(number: u64, buffer: &mut [u8], at: usize) -> Result<usize, Refusal>
    ensures answer { result ≡ written buffer.old at (digits_of number) }
    ensures stores { buffer.new ≡ after_writing buffer.old at (digits_of number) }
{
    if fits(number, buffer.len(), at) {
        Ok(put_digits(number, buffer, at))
    } else {
        Err(Refusal::Length)
    }
}

// Writes a record of numbers with its end into a buffer from a position on.
#[tactic(auto, unfolding(crate::specs::Writes::written, crate::specs::Writes::after_writing))]
pub fn write_record(numbers: &[u64], buffer: &mut [u8], at: usize) -> Result<usize, Refusal>
    ensures answer { result ≡ written buffer.old at (line_text numbers.now) }
    ensures stores { buffer.new ≡ after_writing buffer.old at (line_text numbers.now) }
{
    if line_fits(numbers, buffer.len(), at) {
        Ok(put_line(numbers, buffer, at))
    } else {
        Err(Refusal::Length)
    }
}

// Writes the rest of a record of seven numbers after its first, six numbers, each after a comma, and the end, where a buffer has
// room for the longest.
#[tactic(auto, unfolding(crate::specs::Writes::rest_written, crate::specs::Writes::after_rest))]
pub fn write_rest(rest: [u64; 6], buffer: &mut [u8], at: usize) -> Result<usize, Refusal>
    ensures answer { result ≡ rest_written buffer.old at (rest_text rest) }
    ensures stores { buffer.new ≡ after_rest buffer.old at (rest_text rest) }
    ensures within { (end : ℕ) → result ≡ Ok end → end ≤ at + 128 }
{
    if buffer.len() < 128 {
        return Err(Refusal::Length);
    }
    if buffer.len() - 128 < at {
        return Err(Refusal::Length);
    }
    Ok(put_rest(rest, buffer, at))
}
