// A run of periods, one for each demand row: the table and the state are checked once, before the first row.
#![tactic(auto)]

ghost use Rattle.std.specs.Prelude.{◌≡◌};
ghost use Rattle.layout.specs.Layout.{Listed};
ghost use Rattle.layout.specs.Corridor.{corridor_of};
ghost use Rattle.accept_limits.specs.Limits.{demand_limits};
ghost use Rattle.period.specs.Sharing.{asymmetric};
ghost use Rattle.period_run.specs.Run.{run_lists_fit, RunDone};
ghost use Rattle.period_run.specs.Private.{Runnable, RowsDone};

use layout::sheet::sheet_length;
use layout::{DEMAND_ROOM, cells, demand_length, space};
use refusals::Refusal;

// The periods that a run completed, and its answer.
#[derive(Clone, Copy, Debug, PartialEq, Eq)]
pub struct Ran {
    pub periods: usize,
    pub answer: Result<(), Refusal>,
}

// Number 1 of the demand rows and the sheet of a run of n cells.
fn run_lists_fit(n: usize, demand: &[u32], sheet: &[u32]) -> bool
    requires { Listed n }
    ensures { result ≡ run_lists_fit n demand.now sheet.now }
{
    let width = demand_length(n);
    (demand.len() % width == 0) & (demand.len() / width <= 4_096) & (sheet.len() == sheet_length(n))
}

// The rows of a run whose table and state are accepted. They are not checked again: the state after an accepted period is accepted.
fn run_rows(
    table: &[u32],
    limits: &[u32],
    state: &mut [u32],
    demand: &[u32],
    sheet: &mut [u32],
) -> Ran
    requires runnable { Runnable (corridor_of table.now state.old) demand.now sheet.old }
    requires limits_value { limits.now ≡ demand_limits table.now }
    ensures { RowsDone asymmetric (corridor_of table.now state.old) demand.now sheet.old result state.new sheet.new }
{
    let width = demand_length(cells(table));
    for (k, row) in demand.chunks_exact(width).enumerate() {
        if let Err(refusal) = accept_limits::accept_demand(table, limits, state, row) {
            return Ran {
                periods: k,
                answer: Err(refusal),
            };
        }
        period::run_accepted(table, state, row, sheet);
    }
    Ran {
        periods: demand.len() / width,
        answer: Ok(()),
    }
}

// The rows of such a run, with the limits of their numbers worked out first.
fn run_within_limits(table: &[u32], state: &mut [u32], demand: &[u32], sheet: &mut [u32]) -> Ran
    requires { Runnable (corridor_of table.now state.old) demand.now sheet.old }
    ensures { RowsDone asymmetric (corridor_of table.now state.old) demand.now sheet.old result state.new sheet.new }
{
    let width = demand_length(cells(table));
    let mut room: [u32; DEMAND_ROOM] = space();
    let limits = &mut room[..width];
    accept_limits::demand_limits(table, limits);
    run_rows(table, limits, state, demand, sheet)
}

// A run of demand rows end to end: numbers 1 to 5 first, then 6 and 7 at each row. Refused at a later row it leaves the state after the
// completed periods and the last one's sheet.
pub fn run(table: &[u32], state: &mut [u32], demand: &[u32], sheet: &mut [u32]) -> Ran
    ensures { RunDone asymmetric (corridor_of table.now state.old) demand.now sheet.old result state.new sheet.new }
{
    if !run_lists_fit(cells(table), demand, sheet) {
        return Ran {
            periods: 0,
            answer: Err(Refusal::Length),
        };
    }
    if let Err(refusal) = accept_rows::accept_state(table, state) {
        return Ran {
            periods: 0,
            answer: Err(refusal),
        };
    }
    run_within_limits(table, state, demand, sheet)
}
