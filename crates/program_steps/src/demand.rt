// The demand: its records followed through a chunk, a period each, until the chunk is used up or the output is full.
ghost use Rattle.std.specs.Prelude.{◌≡◌, ◌-◌, leb, length};
ghost use Rattle.refusals.specs.Checks.{answer};
ghost use Rattle.layout.specs.Layout.{Listed};
ghost use Rattle.layout.specs.Corridor.{corridor_of};
ghost use Rattle.period.specs.Sharing.{asymmetric};
ghost use Rattle.program_steps.specs.Demand.{lines_room, follow_lists_fit, follow_checks, follow, follow_end, follow_call, end_call, Leaves};
ghost use Rattle.program_steps.specs.Private.{ReadyAt};

use crate::lines::LINE_ROOM;
use crate::turns::{last_read, turn, turn_of, written_to};
use crate::{Run, Turn};
use layout::sheet::sheet_length;
use layout::{cells, demand_length};
use program_files::counted;
use refusals::Refusal;
use text_scans::Scan;

// Whether the lines of a period of n cells have room after a position.
#[tactic(auto, using(crate::proofs::Calls::lines_told))]
fn has_room(size: usize, at: usize, n: usize) -> bool
    ensures { result ≡ leb (lines_room n) (size - at) }
{
    n < size.saturating_sub(at) / LINE_ROOM
}

// Number 1 of a row, a sheet and an output under a table of n cells.
fn lists_fit(n: usize, row: &[u32], sheet: &[u32], out: &[u8]) -> bool
    requires { Listed n }
    ensures { result ≡ follow_lists_fit n row.now sheet.now out.now }
{
    (row.len() == demand_length(n)) & (sheet.len() == sheet_length(n)) & has_room(out.len(), 0, n)
}

// Whether the lists are those of a run: numbers 1 to 5.
fn accept_lists(
    table: &[u32],
    state: &[u32],
    row: &[u32],
    sheet: &[u32],
    out: &[u8],
) -> Result<(), Refusal>
    ensures { result ≡ answer (follow_checks (corridor_of table.now state.now) row.now sheet.now out.now) }
{
    if !lists_fit(cells(table), row, sheet, out) {
        return Err(Refusal::Length);
    }
    accept_rows::accept_state(table, state)
}

// Follows the demand with the lists of a run.
fn follow_run(
    chunk: &[u8],
    k: usize,
    scan: Scan,
    table: &[u32],
    state: &mut [u32],
    row: &mut [u32],
    sheet: &mut [u32],
    out: &mut [u8],
) -> Run
    requires { ReadyAt (corridor_of table.now state.old) row.old sheet.old out.old 0 }
    ensures { Leaves (follow asymmetric (length out.old) k scan row.old (corridor_of table.now state.old) sheet.old chunk.now) (length chunk.now) out.old (Ok result) row.new (corridor_of table.now state.new) sheet.new out.new }
{
    let n = cells(table);
    let mut k = k;
    let mut scan = scan;
    let mut from = 0;
    let mut at = 0;
    while from < chunk.len() {
        if !has_room(out.len(), at, n) {
            return Run::On {
                read: from,
                k,
                scan,
                at,
            };
        }
        match turn(chunk, from, scan, k, table, state, row, sheet, out, at) {
            Turn::Part { scan, at } => {
                return Run::On {
                    read: chunk.len(),
                    k,
                    scan,
                    at,
                };
            }
            Turn::Period { next, at: to } => {
                from = next;
                at = to;
                scan = text_scans::begin();
                k = counted(k);
            }
            Turn::Over(to) => return Run::Over(to),
        }
    }
    Run::On {
        read: chunk.len(),
        k,
        scan,
        at,
    }
}

// Follows the demand through a chunk of it from period k on: each record has its period and its lines, which go to the start of the
// output. Table, state, row and sheet are those that the call before left. Lists that are not those of a run, by number 1 to 5, stay as they are.
#[tactic(auto, using(crate::proofs::Calls::lists_ready, crate::proofs::Calls::refused_leaves), unfolding(crate::specs::Demand::run_of))]
pub fn follow(
    chunk: &[u8],
    k: usize,
    scan: Scan,
    table: &[u32],
    state: &mut [u32],
    row: &mut [u32],
    sheet: &mut [u32],
    out: &mut [u8],
) -> Result<Run, Refusal>
    ensures { Leaves (follow_call asymmetric k scan row.old (corridor_of table.now state.old) sheet.old out.old chunk.now) (length chunk.now) out.old result row.new (corridor_of table.now state.new) sheet.new out.new }
{
    accept_lists(table, state, row, sheet, out)?;
    Ok(follow_run(chunk, k, scan, table, state, row, sheet, out))
}

// The demand ends, with the lists of a run.
fn end_run(
    k: usize,
    scan: Scan,
    table: &[u32],
    state: &mut [u32],
    row: &mut [u32],
    sheet: &mut [u32],
    out: &mut [u8],
) -> Run
    requires { ReadyAt (corridor_of table.now state.old) row.old sheet.old out.old 0 }
    ensures { Leaves (follow_end asymmetric k scan row.old (corridor_of table.now state.old) sheet.old) 0 out.old (Ok result) row.new (corridor_of table.now state.new) sheet.new out.new }
{
    let end = text_records::finish(scan, row);
    let turn = turn_of(last_read(end), k, table, state, row, sheet, out, 0);
    Run::Over(written_to(turn))
}

// The demand ends in period k: a record that ends with it has its period.
#[tactic(auto, using(crate::proofs::Calls::lists_ready, crate::proofs::Calls::refused_leaves), unfolding(crate::specs::Demand::run_of))]
pub fn end(
    k: usize,
    scan: Scan,
    table: &[u32],
    state: &mut [u32],
    row: &mut [u32],
    sheet: &mut [u32],
    out: &mut [u8],
) -> Result<Run, Refusal>
    ensures { Leaves (end_call asymmetric k scan row.old (corridor_of table.now state.old) sheet.old out.old) 0 out.old result row.new (corridor_of table.now state.new) sheet.new out.new }
{
    accept_lists(table, state, row, sheet, out)?;
    Ok(end_run(k, scan, table, state, row, sheet, out))
}
