// The files of the run program, apart from what the demand does: the records of `cells.csv` and `state.csv` read piece after
// piece into a list, what each file comes to at its end, and the refusal that a broken, missing or refused one ends the program with.
#![tactic(auto)]

ghost use Rattle.std.specs.Prelude.{◌≡◌, length, set, ◌∷◌, [], Ok};
ghost use Rattle.whole.specs.Search.{pick};
ghost use Rattle.text_scans.specs.Scans.{begin, untouched};
ghost use Rattle.refusals.specs.Checks.{answer};
ghost use Rattle.layout.specs.Corridor.{corridor_of};
ghost use Rattle.accept_rows.specs.Acceptance.{state_checks};
ghost use Rattle.program_files.specs.Stops.{stop_of, broken, refused_in};
ghost use Rattle.program_files.specs.Files.{counted, next_index, standing, file_on, file_end, cells_found, state_found, accepted_then, demand_lost};

use refusals::Refusal;
use text_scans::{Scan, Step};

// How far the records of a file are read: so many are complete, the next number goes to this index of the list, and the reading stands here.
#[derive(Clone, Copy, Debug, PartialEq, Eq)]
pub struct Reading {
    pub records: usize,
    pub index: usize,
    pub scan: Scan,
}

// Why the records of a file are not read to its end.
#[derive(Clone, Copy, Debug, PartialEq, Eq)]
pub enum Unread {
    // The first record that breaks a rule, counted from 1.
    Broken(usize),
    // The file is missing, or could not be read to its end.
    Lost,
}

// A refusal's line. Its numbers are plain: what is promised of a line holds of any number, place and file.
#[derive(Clone, Copy, Debug, PartialEq, Eq)]
pub struct Stop {
    pub period: usize,
    pub place: usize,
    pub number: u32,
    pub file: u32,
}

// One more, where there is a larger number.
#[tactic(auto, unfolding(crate::specs::Files::counted))]
pub fn counted(n: usize) -> usize
    ensures { result ≡ counted n }
{
    n.saturating_add(1)
}

// Stores a number at an index of the list, where there is one, and answers the next index.
#[tactic(auto, unfolding(crate::specs::Files::next_index))]
fn put(list: &mut [u32], index: usize, number: u32) -> usize
    ensures answer { result ≡ next_index (length list.old) index }
    ensures stores { list.new ≡ set list.old index number }
{
    if index < list.len() {
        list[index] = number;
        return index + 1;
    }
    index
}

// Where the reading of a file begins.
pub fn start() -> Reading
    ensures { Ok result ≡ standing 0 0 begin }
{
    Reading {
        records: 0,
        index: 0,
        scan: text_scans::begin(),
    }
}

// Reads one byte of a file.
#[tactic(auto, unfolding(crate::specs::Files::file_on, crate::specs::Files::file_of))]
fn read_byte(
    byte: u8,
    fields: usize,
    reading: Result<Reading, Unread>,
    list: &mut [u32],
) -> Result<Reading, Unread>
    ensures answer { result ≡ (file_on fields reading list.old (byte ∷ [])).0 }
    ensures stores { list.new ≡ (file_on fields reading list.old (byte ∷ [])).1 }
{
    let Reading {
        records,
        index,
        scan,
    } = reading?;
    match text_scans::feed(scan, byte, fields) {
        Step::More(scan) => Ok(Reading {
            records,
            index,
            scan,
        }),
        Step::Field {
            field: _,
            number,
            next,
        } => Ok(Reading {
            records,
            index: put(list, index, number),
            scan: next,
        }),
        Step::Complete => Ok(Reading {
            records: counted(records),
            index,
            scan: text_scans::begin(),
        }),
        Step::Breaks => Err(Unread::Broken(counted(records))),
    }
}

// Reads a piece of a file of records of so many fields each; their numbers go to the list, one after the other.
pub fn read_on(
    chunk: &[u8],
    fields: usize,
    reading: Result<Reading, Unread>,
    list: &mut [u32],
) -> Result<Reading, Unread>
    ensures answer { result ≡ (file_on fields reading list.old chunk.now).0 }
    ensures stores { list.new ≡ (file_on fields reading list.old chunk.now).1 }
{
    let mut reading = reading;
    for byte in chunk {
        reading = read_byte(*byte, fields, reading, list);
    }
    reading
}

// The file ends where no last field does: between records, or inside one.
fn unfinished(records: usize, scan: Scan) -> Result<usize, Unread>
    ensures { result ≡ pick (untouched scan) (Ok records) (Err (Unread.Broken (counted records))) }
{
    if text_scans::untouched(scan) {
        Ok(records)
    } else {
        Err(Unread::Broken(counted(records)))
    }
}

// The file ends. A record that ends with it is complete, and its last number goes to the list.
#[tactic(auto, using(crate::proofs::FilePieces::by_last_field), unfolding(crate::specs::Files::file_end))]
pub fn read_end(
    fields: usize,
    reading: Result<Reading, Unread>,
    list: &mut [u32],
) -> Result<usize, Unread>
    ensures answer { result ≡ (file_end fields reading list.old).0 }
    ensures stores { list.new ≡ (file_end fields reading list.old).1 }
{
    let Reading {
        records,
        index,
        scan,
    } = reading?;
    match text_scans::last_field(scan, fields) {
        Some(last) => {
            put(list, index, last.number);
            Ok(counted(records))
        }
        None => unfinished(records, scan),
    }
}

// The number and the place of a refusal, in a period and a file.
fn stop_of(period: usize, refusal: Refusal, file: u32) -> Stop
    ensures { result ≡ stop_of period refusal file }
{
    Stop {
        period,
        place: refusal.place(),
        number: refusal.number(),
        file,
    }
}

// Number 12 of a record of a file, or at place 0 of a file that is missing.
pub fn broken(period: usize, place: usize, file: u32) -> Stop
    ensures { result ≡ broken period place file }
{
    stop_of(period, Refusal::Record(place), file)
}

// Any other number.
pub fn refused_in(period: usize, refusal: Refusal) -> Stop
    ensures { result ≡ refused_in period refusal }
{
    stop_of(period, refusal, 0)
}

// What the cells come to: 12 for any of their records, then 1 on N.
#[tactic(auto, unfolding(crate::specs::Files::cells_found))]
pub fn cells_found(file: Result<usize, Unread>) -> Result<usize, Stop>
    ensures { result ≡ cells_found file }
{
    match file {
        Ok(n) if 1 <= n && n <= 512 => Ok(n),
        Ok(_) => Err(refused_in(0, Refusal::Length)),
        Err(Unread::Broken(place)) => Err(broken(0, place, 1)),
        Err(Unread::Lost) => Err(broken(0, 0, 1)),
    }
}

// Numbers 2 to 5.
#[tactic(auto, unfolding(crate::specs::Files::accepted_then))]
fn accepted_then(table: &[u32], state: &[u32]) -> Result<usize, Stop>
    ensures { result ≡ accepted_then (answer (state_checks (corridor_of table.now state.now))) }
{
    match accept_rows::accept_state(table, state) {
        Ok(()) => Ok(1),
        Err(refusal) => Err(refused_in(0, refusal)),
    }
}

// What the state comes to: 12 for its one record, or one after it, then 2 to 5.
#[tactic(auto, unfolding(crate::specs::Files::state_found))]
pub fn state_found(file: Result<usize, Unread>, table: &[u32], state: &[u32]) -> Result<usize, Stop>
    ensures { result ≡ state_found file (corridor_of table.now state.now) }
{
    match file {
        Ok(1) => accepted_then(table, state),
        Ok(0) => Err(broken(0, 1, 2)),
        Err(Unread::Lost) => Err(broken(0, 0, 2)),
        Err(Unread::Broken(place)) if place <= 1 => Err(broken(0, 1, 2)),
        Ok(_) | Err(Unread::Broken(_)) => Err(broken(0, 2, 2)),
    }
}

// Where the demand is missing, before the first period, or can't be read on while period k is tried.
pub fn demand_lost(k: usize) -> Stop
    ensures { result ≡ demand_lost k }
{
    broken(k, 0, 3)
}
