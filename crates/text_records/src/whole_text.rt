// A whole text at once: checked first, then stored, so that a refusal has stored nothing.
ghost use Rattle.std.specs.Prelude.{◌≡◌, ◌*◌, [], leb};
ghost use Rattle.std.proofs.lemmas.List.Edits.{sets};
ghost use Rattle.text_records.specs.Reads.{held, numbers, numbers_on, one};

use crate::store::put;
use refusals::Refusal;
use text_scans::{End, Scan, Step, begin, ended, feed, last_field};

// How many records the text holds, or the first that breaks.
pub(crate) fn check_text(text: &[u8], fields: usize) -> Result<usize, Refusal>
    ensures { result ≡ held fields text.now }
{
    let mut scan = begin();
    let mut records = 0;
    for byte in text {
        match feed(scan, *byte, fields) {
            Step::More(next) | Step::Field { next, .. } => scan = next,
            Step::Complete => {
                scan = begin();
                records += 1;
            }
            Step::Breaks => return Err(Refusal::Record(records + 1)),
        }
    }
    match ended(scan, fields) {
        End::Nothing => Ok(records),
        End::Last => Ok(records + 1),
        End::Cut => Err(Refusal::Record(records + 1)),
    }
}

// Stores the number of a last record that ends with the text.
#[tactic(auto, using(crate::proofs::Reading::numbers_with_last))]
fn store_last(scan: Scan, fields: usize, list: &mut [u32], place: usize)
    ensures { list.new ≡ sets list.old place (numbers_on fields scan []) }
{
    if let Some(last) = last_field(scan, fields) {
        put(list, place, last.number);
    }
}

// Stores the numbers of a text from the list's start on.
pub(crate) fn store_text(text: &[u8], fields: usize, list: &mut [u32])
    ensures { list.new ≡ sets list.old 0 (numbers fields text.now) }
{
    let mut scan = begin();
    let mut place = 0;
    for byte in text {
        match feed(scan, *byte, fields) {
            Step::More(next) => scan = next,
            Step::Field { number, next, .. } => {
                put(list, place, number);
                place += 1;
                scan = next;
            }
            Step::Complete => scan = begin(),
            Step::Breaks => return,
        }
    }
    store_last(scan, fields, list, place);
}

// Whether the numbers of so many records have room in a list.
pub(crate) fn has_room(room: usize, records: usize, fields: usize) -> bool
    ensures { result ≡ leb (records * fields) room }
{
    fields == 0 || records <= room / fields
}

// The answer where exactly one record is asked for.
#[tactic(auto, unfolding(crate::specs::Reads::one))]
pub(crate) fn one(found: Result<usize, Refusal>) -> Result<usize, Refusal>
    ensures { result ≡ one found }
{
    match found {
        Ok(0) => Err(Refusal::Record(1)),
        Ok(1) => Ok(1),
        Ok(_) => Err(Refusal::Record(2)),
        Err(refusal) => {
            if refusal.place() <= 1 {
                Err(Refusal::Record(1))
            } else {
                Err(Refusal::Record(2))
            }
        }
    }
}
