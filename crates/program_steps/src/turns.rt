// One demand record at a time: read, checked, run and written.
ghost use Rattle.std.specs.Prelude.{◌≡◌, length, drop};
ghost use Rattle.text_records.specs.Reads.{read_on, row_on};
ghost use Rattle.layout.specs.Corridor.{corridor_of};
ghost use Rattle.period.specs.Sharing.{asymmetric};
ghost use Rattle.program_steps.specs.Turns.{did_row, last_read, did, demand_answer};
ghost use Rattle.program_steps.specs.Private.{Turned, written_to, ReadyAt};

use crate::Turn;
use crate::lines::{put_period, put_stop};
use layout::cells;
use program_files::{broken, refused_in};
use text_records::Read;
use text_scans::{End, Scan};

// A complete row of period k: 6 and 7, then its period and its lines.
fn run_row(
    k: usize,
    next: usize,
    table: &[u32],
    state: &mut [u32],
    row: &[u32],
    sheet: &mut [u32],
    out: &mut [u8],
    at: usize,
) -> Turn
    requires { ReadyAt (corridor_of table.now state.old) row.now sheet.old out.old at }
    ensures { Turned asymmetric (did_row (demand_answer (corridor_of table.now state.old) row.now) next) k (corridor_of table.now state.old) row.now sheet.old out.old at result (corridor_of table.now state.new) sheet.new out.new }
{
    match accept_rows::accept_demand(table, state, row) {
        Ok(()) => {
            period::run_accepted(table, state, row, sheet);
            Turn::Period {
                next,
                at: put_period(k, cells(table), state, sheet, out, at),
            }
        }
        Err(refusal) => Turn::Over(put_stop(refused_in(k, refusal), out, at)),
    }
}

// The end of the demand, as what reading on comes to: a record that ends with it is complete.
pub(crate) fn last_read(end: End) -> Read
    ensures { result ≡ last_read end }
{
    match end {
        End::Nothing => Read::Part(text_scans::begin()),
        End::Last => Read::Record(0),
        End::Cut => Read::Broken,
    }
}

// What reading on comes to: a period and its lines, a refusal's line, or nothing yet.
pub(crate) fn turn_of(
    read: Read,
    k: usize,
    table: &[u32],
    state: &mut [u32],
    row: &[u32],
    sheet: &mut [u32],
    out: &mut [u8],
    at: usize,
) -> Turn
    requires { ReadyAt (corridor_of table.now state.old) row.now sheet.old out.old at }
    ensures { Turned asymmetric (did read (demand_answer (corridor_of table.now state.old) row.now)) k (corridor_of table.now state.old) row.now sheet.old out.old at result (corridor_of table.now state.new) sheet.new out.new }
{
    match read {
        Read::Part(next) => Turn::Part { scan: next, at },
        Read::Broken => Turn::Over(put_stop(broken(k, k, 3), out, at)),
        Read::Record(next) => run_row(k, next, table, state, row, sheet, out, at),
    }
}

// Reads on in a chunk of the demand to the end of a record, and runs its period.
pub(crate) fn turn(
    chunk: &[u8],
    from: usize,
    scan: Scan,
    k: usize,
    table: &[u32],
    state: &mut [u32],
    row: &mut [u32],
    sheet: &mut [u32],
    out: &mut [u8],
    at: usize,
) -> Turn
    requires { ReadyAt (corridor_of table.now state.old) row.old sheet.old out.old at }
    ensures reads { row.new ≡ row_on (length row.old) scan row.old (drop from chunk.now) }
    ensures does { Turned asymmetric (did (read_on (length row.old) from scan (drop from chunk.now)) (demand_answer (corridor_of table.now state.old) row.new)) k (corridor_of table.now state.old) row.new sheet.old out.old at result (corridor_of table.now state.new) sheet.new out.new }
{
    let read = text_records::read_record(chunk, from, scan, row);
    turn_of(read, k, table, state, row, sheet, out, at)
}

// Where what a turn has written ends.
pub(crate) fn written_to(turn: Turn) -> usize
    ensures { result ≡ written_to turn }
{
    match turn {
        Turn::Part { at, .. } | Turn::Period { at, .. } | Turn::Over(at) => at,
    }
}
