// The text: records of whole numbers as the rules write them. What is read is a fold over the bytes, so that a text may come in pieces of
// any size.
#![tactic(auto)]

ghost use Rattle.std.specs.Prelude.{◌≡◌, length, drop};
ghost use Rattle.text_scans.specs.Scans.{feed, ended};
ghost use Rattle.text_records.specs.Reads.{read_on, row_on, row_at_end, held, numbers, fit, after_reading, one};

mod fields;
mod store;
mod whole_text;

use fields::open_fields;
use refusals::Refusal;
use store::put;
use text_scans::{End, Scan, Step, ended, feed, last_field};
use whole_text::{check_text, has_room, one, store_text};

// What reading on in a chunk finds.
#[derive(Clone, Copy, Debug, PartialEq, Eq)]
pub enum Read {
    // The record is complete, and the text goes on at this index.
    Record(usize),
    // The chunk is used up: the next one goes on from here.
    Part(Scan),
    // The record breaks a rule.
    Broken,
}

// Digits of a field: what they make, and the index after them, or after the comma that follows them.
#[derive(Clone, Copy)]
struct Digits {
    next: usize,
    value: u32,
}

// How far the fields of a record are read: so many are complete, and the next begins at this index.
#[derive(Clone, Copy)]
struct Place {
    field: usize,
    at: usize,
}

// Where the reading stands, and the index of the byte that comes next.
#[derive(Clone, Copy)]
struct Opened {
    scan: Scan,
    at: usize,
}

// Reads on in a chunk from an index, byte after byte, to the end of the record and no further.
fn read_bytes(chunk: &[u8], from: usize, scan: Scan, row: &mut [u32]) -> Read
    ensures answer { result ≡ read_on (length row.old) from scan (drop from chunk.now) }
    ensures stores { row.new ≡ row_on (length row.old) scan row.old (drop from chunk.now) }
{
    let mut scan = scan;
    for at in from..chunk.len() {
        match feed(scan, chunk[at], row.len()) {
            Step::More(next) => scan = next,
            Step::Field {
                field,
                number,
                next,
            } => {
                put(row, field, number);
                scan = next;
            }
            Step::Complete => return Read::Record(at + 1),
            Step::Breaks => return Read::Broken,
        }
    }
    Read::Part(scan)
}

// Reads on in a chunk from an index, to the end of the record and no further. A record has as many fields as the row
// has numbers, and each number goes to its field's index. Fields that stand whole in the chunk are read at once.
pub fn read_record(chunk: &[u8], from: usize, scan: Scan, row: &mut [u32]) -> Read
    ensures answer { result ≡ read_on (length row.old) from scan (drop from chunk.now) }
    ensures stores { row.new ≡ row_on (length row.old) scan row.old (drop from chunk.now) }
{
    let Opened { scan, at } = open_fields(chunk, from, scan, row);
    read_bytes(chunk, at, scan, row)
}

// The text ends. A record that ends with it is complete, and its last number goes to the row.
#[tactic(auto, using(crate::proofs::Reading::row_with_last))]
pub fn finish(scan: Scan, row: &mut [u32]) -> End
    ensures answer { result ≡ ended scan (length row.old) }
    ensures stores { row.new ≡ row_at_end (length row.old) scan row.old }
{
    if let Some(last) = last_field(scan, row.len()) {
        put(row, last.field, last.number);
    }
    ended(scan, row.len())
}

// Reads a whole text of records of so many fields each into a list, one record after the other. It answers how many records there
// are, or number 12 at the first that breaks a rule, or 1 where their numbers do not fit the list.
#[tactic(auto, unfolding(crate::specs::Reads::fit))]
pub fn read_text(text: &[u8], fields: usize, list: &mut [u32]) -> Result<usize, Refusal>
    ensures answer { result ≡ fit fields (length list.old) (held fields text.now) }
    ensures stores { list.new ≡ after_reading result (numbers fields text.now) list.old }
{
    let records = check_text(text, fields)?;
    if !has_room(list.len(), records, fields) {
        return Err(Refusal::Length);
    }
    store_text(text, fields, list);
    Ok(records)
}

// Reads a text of exactly one record, of as many fields as the row has numbers.
pub fn read_one(text: &[u8], row: &mut [u32]) -> Result<usize, Refusal>
    ensures answer { result ≡ one (held (length row.old) text.now) }
    ensures stores { row.new ≡ after_reading result (numbers (length row.old) text.now) row.old }
{
    let records = one(check_text(text, row.len()))?;
    store_text(text, row.len(), row);
    Ok(records)
}
