// Fields that stand whole in a chunk, with the comma after each: a loop over the digits, and one look at the longest record
// for all of them. Whatever else stands there is left to the reading byte after byte.
ghost use Rattle.std.specs.Prelude.{◌+◌, ◌-◌, ◌≤◌, ◌<◌, length};
ghost use Rattle.text_records.specs.Private.{Comes, DigitsRead, AfterFirst, FromStart, FieldsRead};

use crate::{Digits, Opened, Place};
use text_scans::field::{followed, is_digit};
use text_scans::{LONGEST, Scan};

// The digits from an index on, after those that make `first`. A number below 400,000,000 has room for one digit more.
fn more_digits(chunk: &[u8], from: usize, stop: usize, first: u32) -> Digits
    requires { (0 < first) × (from ≤ stop) × (stop ≤ length chunk.now) }
    ensures { DigitsRead chunk.now from stop first result }
{
    let mut value = first;
    for next in from..stop {
        let byte = chunk[next];
        if !is_digit(byte) || 400_000_000 <= value {
            return Digits { next, value };
        }
        value = value * 10 + u32::from(byte - b'0');
    }
    Digits { next: stop, value }
}

// A field from the byte after its first digit on, which is not 0.
fn after_first(chunk: &[u8], from: usize, stop: usize, first: u32) -> Option<Digits>
    requires { (0 < first) × (from ≤ stop) × (stop ≤ length chunk.now) }
    ensures { AfterFirst chunk.now from stop first result }
{
    let Digits { next, value } = more_digits(chunk, from, stop, first);
    if next < stop && chunk[next] == b',' {
        return Some(Digits {
            next: next + 1,
            value,
        });
    }
    None
}

// A field that stands whole with its comma, from its first digit on: most are one digit, and none goes on after a leading 0. None where
// anything else stands there, to be read byte after byte.
fn whole_field(chunk: &[u8], from: usize, stop: usize) -> Option<Digits>
    requires { (from ≤ stop) × (stop ≤ length chunk.now) }
    ensures { FromStart chunk.now from stop result }
{
    if stop - from < 2 {
        return None;
    }
    let byte = chunk[from];
    if !is_digit(byte) {
        return None;
    }
    let first = u32::from(byte - b'0');
    if chunk[from + 1] == b',' {
        return Some(Digits {
            next: from + 2,
            value: first,
        });
    }
    if first == 0 {
        return None;
    }
    after_first(chunk, from + 1, stop, first)
}

// The fields from an index on, before another index. The loop is quickest where nothing around it wants the registers.
#[inline(never)]
fn whole_fields(chunk: &[u8], from: usize, stop: usize, field: usize, row: &mut [u32]) -> Place
    requires { (from ≤ stop) × (stop ≤ length chunk.now) }
    ensures { FieldsRead chunk.now from stop field row.old row.new result }
{
    let mut field = field;
    let mut at = from;
    while followed(field, row.len()) {
        let Some(digits) = whole_field(chunk, at, stop) else {
            return Place { field, at };
        };
        row[field] = digits.value;
        field += 1;
        at = digits.next;
    }
    Place { field, at }
}

// Where the bytes of a record that may still be read end in a chunk.
fn stop_at(size: usize, from: usize, bytes: usize) -> usize
    requires { (from ≤ size) × (bytes ≤ LONGEST) }
    ensures { (from ≤ result) × (result ≤ size) × (bytes + (result - from) ≤ LONGEST) }
{
    from + (size - from).min(LONGEST - bytes)
}

// The fields that stand whole in a chunk, where a field begins.
pub(crate) fn open_fields(chunk: &[u8], from: usize, scan: Scan, row: &mut [u32]) -> Opened
    ensures { Comes chunk.now (length row.old) from scan row.old result.at result.scan row.new }
{
    if let Scan::Start { field, bytes } = scan {
        if (from <= chunk.len()) & (bytes <= LONGEST) {
            let stop = stop_at(chunk.len(), from, bytes);
            let Place { field, at } = whole_fields(chunk, from, stop, field, row);
            return Opened {
                scan: Scan::Start {
                    field,
                    bytes: bytes + (at - from),
                },
                at,
            };
        }
    }
    Opened { scan, at: from }
}
