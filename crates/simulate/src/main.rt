// The run program: `cells.csv`, `state.csv` and `demand.csv` of the folder it is run in become the flow sheet on standard
// output. This file opens files and moves bytes: what is read, what is refused, in which order, and every byte that is
// written is decided by the functions of `program_files` and `program_steps`, and what one call answers is handed to the next.
#![tactic(auto)]

ghost use Rattle.std.specs.Prelude.{◌≡◌, ◌≤◌, length, [], Ok, IfErr};
ghost use Rattle.text_scans.specs.Scans.{begin};
ghost use Rattle.layout.specs.Layout.{MOST};
ghost use Rattle.layout.specs.Corridor.{corridor_of};
ghost use Rattle.period.specs.Sharing.{asymmetric};
ghost use Rattle.simulate.specs.Private.{SomeRead, FileRead, NothingLost, LostAsItCame, at_end, Goes, GoesOn};
ghost use Rattle.simulate.specs.declared.Failure.{Failure};

use layout::sheet::{SHEET_ROOM, sheet_length};
use layout::{
    DEMAND_ROOM, STATE_ROOM, TABLE_ROOM, demand_length, space, state_length, table_length, width,
};
use program_files::{Reading, Stop, Unread};
use program_steps::{Run, demand, lines};
use refusals::Refusal;
use std::fs::File;
use std::io::{Error, Read};
use std::rt::Files;
use text_scans::Scan;

// The period that is being tried, and where the reading of its record stands.
#[derive(Clone, Copy)]
pub struct Attempt {
    pub k: usize,
    pub scan: Scan,
}

// Why the demand is not followed to its end.
#[derive(Clone, Copy)]
pub enum Failure {
    // It can't be read on while this period is tried.
    Lost(usize),
    // The output can't be written on.
    Shut,
    // The lists are not those of a run, which never comes to be.
    Refused(Refusal),
}

impl From<Refusal> for Failure {
    ghost from_gives = { λ refusal failure. failure ≡ Failure.Refused refusal };

    fn from(refusal: Refusal) -> Failure {
        Failure::Refused(refusal)
    }
}

// More than the lines of a period of 512 cells take.
fn out_space() -> [u8; 131072]
    ensures { 131072 ≡ length result }
{
    [0; 131072]
}

// Says on standard error what failed, and the system's reason. Where that can't be said either, there is nobody left to tell.
fn fail(rt: &(impl Eprint + AllocGlobal), what: &str, error: Error) {
    let Ok(text) = format!(in rt.alloc(); "{error}") else {
        return;
    };
    let _said = match text.as_str().split_once(" (os error ") {
        Some((reason, _)) => eprintln!(rt; "{what}: {reason}"),
        None => eprintln!(rt; "{what}: {error}"),
    };
}

// Passes the start of the output on. Where it cannot be written, that is said on standard error.
fn pass_on(rt: &(impl Print + Eprint + AllocGlobal), out: &[u8], at: usize) -> Result<(), Failure>
    ensures { IfErr result (λ failure. failure ≡ Failure.Shut) }
{
    if out.len() < at {
        return Err(Failure::Shut);
    }
    if let Err(error) = rt.write_all(&out[..at]) {
        fail(rt, "standard output", error);
        return Err(Failure::Shut);
    }
    Ok(())
}

// Passes the last lines on. The demand is over also where they cannot be written.
fn pass_last(rt: &(impl Print + Eprint + AllocGlobal), out: &[u8], at: usize) -> Result<(), Failure>
    ensures { result ≡ Ok tt }
{
    let _passed = pass_on(rt, out, at);
    Ok(())
}

// One read of a file of records into a list, through a buffer. It answers how the reading goes on, or nothing where the file has ended.
fn read_some(
    rt: &(impl Eprint + AllocGlobal),
    file: &mut impl Read,
    name: &str,
    fields: usize,
    reading: Result<Reading, Unread>,
    buffer: &mut [u8],
    list: &mut [u32],
) -> Result<Option<Result<Reading, Unread>>, Unread>
    ensures { SomeRead result fields reading list.old list.new }
{
    match file.read(buffer) {
        Ok(0) => Ok(None),
        Ok(n) => Ok(Some(program_files::read_on(&buffer[..n], fields, reading, list))),
        Err(failed) => {
            fail(rt, name, failed);
            Err(Unread::Lost)
        }
    }
}

// Reads an open file of records to its end. A loop must end, so it counts as many reads as no file takes.
fn read_all(
    rt: &(impl Eprint + AllocGlobal),
    file: &mut impl Read,
    name: &str,
    fields: usize,
    list: &mut [u32],
) -> Result<usize, Unread>
    ensures { FileRead result fields list.old list.new }
{
    let mut buffer = [0; 65_536];
    let mut reading = Ok(program_files::start());
    'reads: for _ in 0..u64::MAX {
        match read_some(rt, file, name, fields, reading, &mut buffer, list)? {
            Some(next) => reading = next,
            None => return program_files::read_end(fields, reading, list),
        }
    }
    Err(Unread::Lost)
}

// Reads a file of records of so many fields each into a list.
fn read_file(
    rt: &(impl Eprint + AllocGlobal + Files),
    name: &str,
    fields: usize,
    list: &mut [u32],
) -> Result<usize, Unread>
    ensures { FileRead result fields list.old list.new }
{
    match File::open(rt, name) {
        Ok(mut file) => read_all(rt, &mut file, name, fields, list),
        Err(error) => {
            fail(rt, name, error);
            Err(Unread::Lost)
        }
    }
}

// Follows the demand through a chunk of it, and passes the lines of each call on. It answers what is tried then, or nothing where the last
// line is written.
fn follow_chunk(
    rt: &(impl Print + Eprint + AllocGlobal),
    chunk: &[u8],
    attempt: Attempt,
    table: &[u32],
    state: &mut [u32],
    row: &mut [u32],
    sheet: &mut [u32],
    out: &mut [u8],
) -> Result<Option<Attempt>, Failure>
    ensures loses { IfErr result NothingLost }
    ensures goes { Goes result asymmetric attempt.k attempt.scan row.old (corridor_of table.now state.old) sheet.old chunk.now [] row.new (corridor_of table.now state.new) sheet.new out.new }
{
    let Attempt { mut k, mut scan } = attempt;
    let mut from = 0;
    while from < chunk.len() {
        match demand::follow(&chunk[from..], k, scan, table, state, row, sheet, out)? {
            Run::On {
                read,
                k: period,
                scan: next,
                at,
            } => {
                pass_on(rt, out, at)?;
                from += read;
                k = period;
                scan = next;
            }
            Run::Over(at) => {
                pass_last(rt, out, at)?;
                return Ok(None);
            }
        }
    }
    Ok(Some(Attempt { k, scan }))
}

// The demand ends, and its last lines are passed on.
fn end_demand(
    rt: &(impl Print + Eprint + AllocGlobal),
    attempt: Attempt,
    table: &[u32],
    state: &mut [u32],
    row: &mut [u32],
    sheet: &mut [u32],
    out: &mut [u8],
) -> Result<(), Failure>
    ensures loses { IfErr result NothingLost }
    ensures goes { Goes (at_end result) asymmetric attempt.k attempt.scan row.old (corridor_of table.now state.old) sheet.old [] [] row.new (corridor_of table.now state.new) sheet.new out.new }
{
    match demand::end(attempt.k, attempt.scan, table, state, row, sheet, out)? {
        Run::Over(at) => pass_last(rt, out, at),
        Run::On { .. } => Err(Failure::Shut),
    }
}

// One read of the demand, through a buffer.
#[tactic(auto, using(crate::proofs::Going::read_fails))]
fn follow_some(
    rt: &(impl Print + Eprint + AllocGlobal),
    file: &mut impl Read,
    attempt: Attempt,
    table: &[u32],
    state: &mut [u32],
    row: &mut [u32],
    sheet: &mut [u32],
    buffer: &mut [u8],
    out: &mut [u8],
) -> Result<Option<Attempt>, Failure>
    ensures loses { IfErr result (λ failure. LostAsItCame failure attempt.k ((row.new ≡ row.old) × (state.new ≡ state.old) × (sheet.new ≡ sheet.old))) }
    ensures goes { GoesOn result asymmetric attempt.k attempt.scan row.old (corridor_of table.now state.old) sheet.old row.new (corridor_of table.now state.new) sheet.new out.new }
{
    match file.read(buffer) {
        Ok(0) => {
            end_demand(rt, attempt, table, state, row, sheet, out)?;
            Ok(None)
        }
        Ok(n) => follow_chunk(rt, &buffer[..n], attempt, table, state, row, sheet, out),
        Err(error) => {
            fail(rt, "demand.csv", error);
            Err(Failure::Lost(attempt.k))
        }
    }
}

// Reads the open demand, a period for each record, until it has ended or can't be read on.
fn run_demand(
    rt: &(impl Print + Eprint + AllocGlobal),
    file: &mut impl Read,
    table: &[u32],
    state: &mut [u32],
    row: &mut [u32],
    sheet: &mut [u32],
    out: &mut [u8],
) -> Result<(), Failure>
    ensures { GoesOn (at_end result) asymmetric 1 begin row.old (corridor_of table.now state.old) sheet.old row.new (corridor_of table.now state.new) sheet.new out.new }
{
    let mut buffer = [0; 65_536];
    let mut attempt = Attempt {
        k: 1,
        scan: text_scans::begin(),
    };
    'reads: for _ in 0..u64::MAX {
        match follow_some(
            rt,
            file,
            attempt,
            table,
            state,
            row,
            sheet,
            &mut buffer,
            out,
        )? {
            Some(next) => attempt = next,
            None => return Ok(()),
        }
    }
    Err(Failure::Lost(attempt.k))
}

// The demand, under an accepted table of n cells and an accepted state.
fn with_state(
    rt: &(impl Print + Eprint + AllocGlobal + Files),
    n: usize,
    table: &[u32],
    state: &mut [u32],
    out: &mut [u8],
) -> Result<(), Stop>
    requires { n ≤ MOST }
{
    let mut file = match File::open(rt, "demand.csv") {
        Ok(file) => file,
        Err(error) => {
            fail(rt, "demand.csv", error);
            return Err(program_files::demand_lost(0));
        }
    };
    let mut row = space::<DEMAND_ROOM>();
    let mut sheet = space::<SHEET_ROOM>();
    let ran = run_demand(
        rt,
        &mut file,
        table,
        state,
        &mut row[..demand_length(n)],
        &mut sheet[..sheet_length(n)],
        out,
    );
    match ran {
        Ok(()) | Err(Failure::Shut) => Ok(()),
        Err(Failure::Lost(k)) => Err(program_files::demand_lost(k)),
        Err(Failure::Refused(refusal)) => Err(program_files::refused_in(0, refusal)),
    }
}

// The state, under a table of n cells.
fn with_cells(
    rt: &(impl Print + Eprint + AllocGlobal + Files),
    n: usize,
    table: &[u32],
    out: &mut [u8],
) -> Result<(), Stop>
    requires { n ≤ MOST }
{
    let mut room = space::<STATE_ROOM>();
    let fields = state_length(n);
    let state: &mut [u32] = &mut room[..fields];
    let file = read_file(rt, "state.csv", fields, state);
    program_files::state_found(file, table, state)?;
    with_state(rt, n, table, state, out)
}

// The cells, then what follows from them. The refusal that ends the program is its answer.
fn run(rt: &(impl Print + Eprint + AllocGlobal + Files), out: &mut [u8]) -> Result<(), Stop> {
    let mut table = space::<TABLE_ROOM>();
    let file = read_file(rt, "cells.csv", width(), &mut table);
    let n = program_files::cells_found(file)?;
    with_cells(rt, n, &table[..table_length(n)], out)
}

// Passes a line on that stands at the start of the output.
fn pass_line(
    rt: &(impl Print + Eprint + AllocGlobal),
    line: Result<usize, Refusal>,
    out: &[u8],
) -> Result<(), Failure> {
    pass_on(rt, out, line?)
}

// The header, the flow sheet, and the line of a refusal.
fn main(rt: HostRuntime) {
    let mut out = out_space();
    let header = lines::header(&mut out);
    if pass_line(&rt, header, &out).is_err() {
        return;
    }
    if let Err(stop) = run(&rt, &mut out) {
        let line = lines::stop_line(stop, &mut out);
        let _passed = pass_line(&rt, line, &out);
    }
}
