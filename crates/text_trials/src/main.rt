// Reads good and damaged texts through the public functions and writes what was found, which is held to the stored
// output. Each list holds 7s before. Then a record is written into a buffer that it just fits, and into one that it does not.
#![tactic(auto)]

use refusals::Refusal;
use std::io;
use text_records::Read;
use text_scans::{End, Scan};

// Prints the bytes of a buffer before a position.
fn print_start(rt: &impl Print, buffer: &[u8], end: usize) -> io::Result<()> {
    if end <= buffer.len() {
        rt.write_all(&buffer[..end])?;
    }
    Ok(())
}

// Prints what was written at the start of a buffer.
fn print_written(
    rt: &impl Print,
    written: Result<usize, Refusal>,
    buffer: &[u8],
) -> io::Result<()> {
    match written {
        Ok(end) => print_start(rt, buffer, end),
        Err(refusal) => println!(rt; "{refusal}"),
    }
}

// Prints the four numbers of a list as a record.
fn print_list(rt: &impl Print, list: &[u32; 4]) -> io::Result<()> {
    let record = list.map(u64::from);
    let mut line = [0u8; 64];
    let written = text_digits::write_record(&record, &mut line, 0);
    print_written(rt, written, &line)
}

// Prints what a text was found to be, and the list that it was read into.
fn print_found(rt: &impl Print, found: Result<usize, Refusal>, list: &[u32; 4]) -> io::Result<()> {
    match found {
        Ok(records) => print!(rt; "holds {records}: ")?,
        Err(refusal) => print!(rt; "{refusal}: ")?,
    }
    print_list(rt, list)
}

// A text of two fields a record, read into a list of four numbers.
fn pairs(rt: &impl Print, bytes: &[u8]) -> io::Result<()> {
    let mut list = [7u32; 4];
    let found = text_records::read_text(bytes, 2, &mut list);
    print_found(rt, found, &list)
}

// A text of exactly one record of four fields.
fn one(rt: &impl Print, bytes: &[u8]) -> io::Result<()> {
    let mut row = [7u32; 4];
    let found = text_records::read_one(bytes, &mut row);
    print_found(rt, found, &row)
}

// Prints what the end of a text did.
fn print_end(rt: &impl Print, end: End) -> io::Result<()> {
    match end {
        End::Nothing => print!(rt; "nothing: "),
        End::Last => print!(rt; "a last record: "),
        End::Cut => print!(rt; "cut: "),
    }
}

// A record of four fields whose text ends with a piece, from where its reading stands.
fn last_piece(rt: &impl Print, scan: Scan, bytes: &[u8], given: [u32; 4]) -> io::Result<()> {
    let mut row = given;
    let read = text_records::read_record(bytes, 0, scan, &mut row);
    match read {
        Read::Record(at) => print!(rt; "a record, and the next at {at}: ")?,
        Read::Part(scan) => print_end(rt, text_records::finish(scan, &mut row))?,
        Read::Broken => print!(rt; "broken: ")?,
    }
    print_list(rt, &row)
}

// A record of four fields that comes in two pieces.
fn pieces(rt: &impl Print, first: &[u8], second: &[u8]) -> io::Result<()> {
    let mut row = [7u32; 4];
    let read = text_records::read_record(first, 0, text_scans::begin(), &mut row);
    match read {
        Read::Record(_) => {
            print!(rt; "a record in the first piece: ")?;
            print_list(rt, &row)
        }
        Read::Part(scan) => last_piece(rt, scan, second, row),
        Read::Broken => {
            print!(rt; "broken in the first piece: ")?;
            print_list(rt, &row)
        }
    }
}

fn good(rt: &impl Print) -> io::Result<()> {
    pairs(rt, b"")?;
    pairs(rt, b"0,10\r\n")?;
    pairs(rt, b"1,2\r\n3,4\r\n")?;
    pairs(rt, b"1,2\r\n3,4294967295")?;
    one(rt, b"500,8000,4000,0")?;
    pieces(rt, b"500,80", b"00,4000,0\r\n1")?;
    pieces(rt, b"500,8000,4000,0\r", b"\n")?;
    pieces(rt, b"500,8000,4000,", b"42")?;
    pieces(rt, b"", b"")
}

fn damaged(rt: &impl Print) -> io::Result<()> {
    pairs(rt, b"1,02\r\n")?;
    pairs(rt, b"1,4294967296\r\n")?;
    pairs(rt, b"1,2\r\n12345678901,1")?;
    pairs(rt, b"1,2\n3,4\n")?;
    pairs(rt, b"1,2\n")?;
    pairs(rt, b"1,2\r3,4\r\n")?;
    pairs(rt, b"1,2\r\n3,4\r")?;
    pairs(rt, b"1,2\r\n\r\n")?;
    pairs(rt, b"1,2\r\n3,\r\n")?;
    pairs(rt, b"1,2\r\n3\r\n")?;
    pairs(rt, b"1,2,3\r\n")?;
    pairs(rt, b"-1,2\r\n")?;
    pairs(rt, b"1, 2\r\n")?;
    pairs(rt, b"1,2\r\n3,4\r\n5,6\r\n")?;
    one(rt, b"")?;
    one(rt, b"1,2,3,4\r\n5")?;
    pieces(rt, b"1,2,", b"")?;
    pieces(rt, b"1,2,3,4\n", b"")
}

// A record of nine bytes, written into a buffer of nine, and from its second byte on.
fn full(rt: &impl Print) -> io::Result<()> {
    let record = [10, 20, 4];
    let mut line = [0u8; 9];
    let written = text_digits::write_record(&record, &mut line, 0);
    print_written(rt, written, &line)?;
    let late = text_digits::write_record(&record, &mut line, 1);
    print_written(rt, late, &line)
}

fn main(rt: HostRuntime) -> io::Result<()> {
    good(&rt)?;
    damaged(&rt)?;
    full(&rt)
}
