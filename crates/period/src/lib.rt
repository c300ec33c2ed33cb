// One period of the model: first every flow, node by node, from the state at the period's start, into the sheet; then the state, brought up
// to date from the sheet.
#![tactic(auto)]

ghost use Rattle.std.specs.Prelude.{◌≡◌, length};
ghost use Rattle.layout.specs.Layout.{cells};
ghost use Rattle.layout.specs.Sheet.{sheet_length};
ghost use Rattle.layout.specs.Corridor.{corridor_of};
ghost use Rattle.period.specs.Sharing.{asymmetric};
ghost use Rattle.period.specs.Period.{RowAccepted, PeriodDone, RowDone};

mod cell;
mod node;
mod passes;

use layout::cells;
use layout::sheet::sheet_length;
use passes::Start;
use refusals::Refusal;

// What passes at a node: on the mainline and from the on-ramp, and whether the room there leaves the mainline free.
#[derive(Clone, Copy, Debug, PartialEq, Eq)]
pub struct Passed {
    pub main: u32,
    pub ramp: u32,
    pub clear: bool,
}

// One period: numbers 1 to 7. On a refusal every list stays as it came.
pub fn period(
    table: &[u32],
    state: &mut [u32],
    demand: &[u32],
    sheet: &mut [u32],
) -> Result<(), Refusal>
    ensures { PeriodDone asymmetric (corridor_of table.now state.old) demand.now sheet.old result state.new sheet.new }
{
    if sheet.len() != sheet_length(cells(table)) {
        return Err(Refusal::Length);
    }
    accept_rows::accept_row(table, state, demand)?;
    run_accepted(table, state, demand, sheet);
    Ok(())
}

// An accepted period, for those who have made the checks already: every flow from the state as it was, then the state.
pub fn run_accepted(table: &[u32], state: &mut [u32], demand: &[u32], sheet: &mut [u32])
    requires row_accepted { RowAccepted (corridor_of table.now state.old) demand.now }
    requires sheet_len { length sheet.old ≡ sheet_length (cells table.now) }
    ensures { RowDone asymmetric (corridor_of table.now state.old) demand.now state.new sheet.new }
{
    let n = cells(table);
    let start = Start {
        n,
        table,
        state,
        demand,
    };
    start.flows(sheet);
    passes::bring_up_to_date(n, state, demand, sheet);
}
