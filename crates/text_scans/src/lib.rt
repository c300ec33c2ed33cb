// What one byte of a text does, by where the reading stands in its record: a record is read as a fold of this over its bytes, so that
// a text may come in pieces of any size.
#![tactic(auto)]

ghost use Rattle.std.specs.Prelude.{◌≡◌};
ghost use Rattle.text_digits.specs.Lines.{CR};
ghost use Rattle.text_scans.specs.Scans.{begin, feed, untouched, completed, ended};

pub mod field;

use field::{at_start, in_number};

// The most bytes that a record has before its end.
pub const LONGEST: usize = 16_384;

// Where the reading stands inside a record: `field` of its fields are complete, and `bytes` of its bytes are read.
#[derive(Clone, Copy, Debug, PartialEq, Eq)]
pub enum Scan {
    // No digit of the next field is read yet.
    Start {
        field: usize,
        bytes: usize,
    },
    // The digits of a field so far make `value`.
    Number {
        field: usize,
        bytes: usize,
        value: u32,
    },
    // The last field is complete, and the CR after it is read.
    Return,
}

// What one byte does.
#[derive(Clone, Copy, Debug, PartialEq, Eq)]
pub enum Step {
    More(Scan),
    // The field of this index is complete.
    Field {
        field: usize,
        number: u32,
        next: Scan,
    },
    // The record is complete.
    Complete,
    // The record breaks a rule.
    Breaks,
}

// The last field of a record: its index and its number.
#[derive(Clone, Copy, Debug, PartialEq, Eq)]
pub struct LastField {
    pub field: usize,
    pub number: u32,
}

// What the end of the text does.
#[derive(Clone, Copy, Debug, PartialEq, Eq)]
pub enum End {
    // It comes between records.
    Nothing,
    // It ends the last record, as CR LF would.
    Last,
    // It comes inside a record, which breaks it.
    Cut,
}

// Where a record's reading begins.
pub fn begin() -> Scan
    ensures { result ≡ begin }
{
    Scan::Start { field: 0, bytes: 0 }
}

// What one byte does in a record of so many fields.
#[tactic(auto, unfolding(crate::specs::Scans::feed))]
pub fn feed(scan: Scan, byte: u8, fields: usize) -> Step
    ensures { result ≡ feed scan byte fields }
{
    match scan {
        Scan::Number {
            field,
            bytes,
            value,
        } => in_number(field, bytes, value, byte, fields),
        Scan::Start { field, bytes } => at_start(field, bytes, byte),
        Scan::Return => {
            if byte == b'\n' {
                Step::Complete
            } else {
                Step::Breaks
            }
        }
    }
}

// Whether no byte of a record is read yet.
pub fn untouched(scan: Scan) -> bool
    ensures { result ≡ untouched scan }
{
    matches!(scan, Scan::Start { field: 0, .. })
}

// The last field of a record, where the end of the text completes it, as CR LF would.
pub fn last_field(scan: Scan, fields: usize) -> Option<LastField>
    ensures { result ≡ completed (feed scan CR fields) }
{
    match feed(scan, b'\r', fields) {
        Step::Field { field, number, .. } => Some(LastField { field, number }),
        _ => None,
    }
}

// What the end of the text does.
#[tactic(auto, unfolding(crate::specs::Scans::ended))]
pub fn ended(scan: Scan, fields: usize) -> End
    ensures { result ≡ ended scan fields }
{
    if last_field(scan, fields).is_some() {
        End::Last
    } else if untouched(scan) {
        End::Nothing
    } else {
        End::Cut
    }
}
