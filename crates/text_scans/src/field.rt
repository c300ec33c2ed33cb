// One field of a record: what a byte does at its start and after its first digit.
ghost use Rattle.std.specs.Prelude.{◌≡◌, ◌+◌, ◌<◌, ltb, eqb};
ghost use Rattle.text_scans.specs.Scans.{is_digit, at_start, longer, in_number};

use crate::{LONGEST, Scan, Step};

pub fn is_digit(byte: u8) -> bool
    ensures { result ≡ is_digit byte }
{
    byte.is_ascii_digit()
}

// Whether a field is followed by another of the record.
pub fn followed(field: usize, fields: usize) -> bool
    ensures { result ≡ ltb (field + 1) fields }
{
    field < fields && field + 1 < fields
}

// Whether a field is the record's last.
fn is_last(field: usize, fields: usize) -> bool
    ensures { result ≡ eqb (field + 1) fields }
{
    field < fields && field + 1 == fields
}

// A byte where a field begins.
#[tactic(auto, unfolding(crate::specs::Scans::at_start))]
pub(crate) fn at_start(field: usize, bytes: usize, byte: u8) -> Step
    ensures { result ≡ at_start field bytes byte }
{
    if is_digit(byte) & (bytes < LONGEST) {
        Step::More(Scan::Number {
            field,
            bytes: bytes + 1,
            value: u32::from(byte - b'0'),
        })
    } else {
        Step::Breaks
    }
}

// A digit after others, worked out in 64 bits.
#[tactic(auto, unfolding(crate::specs::Scans::longer))]
fn longer(field: usize, bytes: usize, value: u32, digit: u8) -> Step
    requires { digit < 10 }
    ensures { result ≡ longer field bytes value digit }
{
    let number = u64::from(value) * 10 + u64::from(digit);
    if (value != 0) & (number <= 4_294_967_295) & (bytes < LONGEST) {
        Step::More(Scan::Number {
            field,
            bytes: bytes + 1,
            value: number as u32,
        })
    } else {
        Step::Breaks
    }
}

// A byte after a field's first digit.
#[tactic(auto, unfolding(crate::specs::Scans::in_number))]
pub(crate) fn in_number(field: usize, bytes: usize, value: u32, byte: u8, fields: usize) -> Step
    ensures { result ≡ in_number field bytes value byte fields }
{
    if is_digit(byte) {
        return longer(field, bytes, value, byte - b'0');
    }
    if (byte == b',') & followed(field, fields) & (bytes < LONGEST) {
        return Step::Field {
            field,
            number: value,
            next: Scan::Start {
                field: field + 1,
                bytes: bytes + 1,
            },
        };
    }
    if (byte == b'\r') & is_last(field, fields) {
        return Step::Field {
            field,
            number: value,
            next: Scan::Return,
        };
    }
    Step::Breaks
}
