// The library's face, which `figwimple_c` exports to C, Rust and Python: each function answers one word, count × 2^40 + number × 2^32 +
// place, with number 0 for accepted, and further results go to lent lists. Every function takes every input.
#![tactic(auto)]

ghost use Rattle.std.specs.Prelude.{◌<◌, ◌≡◌, length};
ghost use Rattle.refusals.specs.Checks.{answer};
ghost use Rattle.accept_tables.specs.Tables.{table_checks};
ghost use Rattle.layout.specs.Corridor.{corridor_of};
ghost use Rattle.period.specs.Sharing.{asymmetric};
ghost use Rattle.accept_rows.specs.Acceptance.{state_checks, row_checks};
ghost use Rattle.figwimple.specs.Words.{word_of};
ghost use Rattle.figwimple.specs.Private.{COUNTS, Placed};
ghost use Rattle.figwimple.specs.Calls.{PeriodCalled, RunCalled, RecutCalled, JoinCalled, settings_of, five_of, four_of, results_fit, CalibrateCalled};

use calibrate_fit::Settings;
use calibrate_rows::{Diagram, RowNumbers};
use refusals::Refusal;

// The word of a count below 2^24 and of an answer whose place is below 2^32.
fn word(count: usize, answered: Result<(), Refusal>) -> u64
    requires count_bound { count < COUNTS }
    requires placed { Placed answered }
    ensures { result ≡ word_of count answered }
{
    let counted = count as u64 * 1_099_511_627_776;
    match answered {
        Ok(()) => counted,
        Err(refusal) => {
            let number = refusal.number() as u64;
            let place = refusal.place() as u64;
            counted + number * 4_294_967_296 + place
        }
    }
}

// Whether a table is accepted: numbers 1 to 4.
pub fn figwimple_accept_table(table: &[u32]) -> u64
    ensures { result ≡ word_of 0 (answer (table_checks table.now)) }
{
    word(0, accept_tables::accept_table(table))
}

// Whether a state is accepted under a table: numbers 1 to 5.
pub fn figwimple_accept_state(table: &[u32], state: &[u32]) -> u64
    ensures { result ≡ word_of 0 (answer (state_checks (corridor_of table.now state.now))) }
{
    word(0, accept_rows::accept_state(table, state))
}

// Whether a demand row is accepted under a table and a state: numbers 1 to 7.
pub fn figwimple_accept_row(table: &[u32], state: &[u32], demand: &[u32]) -> u64
    ensures { result ≡ word_of 0 (answer (row_checks (corridor_of table.now state.now) demand.now)) }
{
    word(0, accept_rows::accept_row(table, state, demand))
}

// One period: numbers 1 to 7.
pub fn figwimple_period(table: &[u32], state: &mut [u32], demand: &[u32], sheet: &mut [u32]) -> u64
    ensures { PeriodCalled asymmetric (corridor_of table.now state.old) demand.now sheet.old result state.new sheet.new }
{
    word(0, period::period(table, state, demand, sheet))
}

// A run of demand rows end to end: numbers 1 to 5, then 6 and 7 at each row. It counts the periods completed, refused or not.
pub fn figwimple_run(table: &[u32], state: &mut [u32], demand: &[u32], sheet: &mut [u32]) -> u64
    ensures { RunCalled asymmetric (corridor_of table.now state.old) demand.now sheet.old result state.new sheet.new }
{
    let ran = period_run::run(table, state, demand, sheet);
    word(ran.periods, ran.answer)
}

// The re-cut of a table and a state into a new table: numbers 1 to 5 and 8. The new state goes to a list of its own.
pub fn figwimple_recut(
    old: &[u32],
    state: &[u32],
    pieces: &[u32],
    new: &[u32],
    list: &mut [u32],
) -> u64
    ensures { RecutCalled (corridor_of old.now state.now) pieces.now new.now list.old result list.new }
{
    word(0, recut::recut(old, state, pieces, new, list))
}

// The join of a table and a state into a new table: numbers 1 to 5 and 14. The new state goes to a list of its own.
pub fn figwimple_join(
    old: &[u32],
    state: &[u32],
    groups: &[u32],
    new: &[u32],
    list: &mut [u32],
) -> u64
    ensures { JoinCalled (corridor_of old.now state.now) groups.now new.now list.old result list.new }
{
    word(0, join::join(old, state, groups, new, list))
}

// Stores the five doubles of a diagram.
fn put_diagram(fitted: Diagram, list: &mut [f64])
    requires { length list.old ≡ 5 }
    ensures { list.new ≡ five_of fitted }
{
    list.copy_from_slice(&[
        fitted.speed,
        fitted.capacity,
        fitted.critical,
        fitted.wave,
        fitted.jam,
    ]);
}

// Stores the four numbers of a row.
fn put_row(numbers: RowNumbers, list: &mut [u32])
    requires { length list.old ≡ 4 }
    ensures { list.new ≡ four_of numbers }
{
    list.copy_from_slice(&[numbers.v, numbers.w, numbers.capacity, numbers.jam]);
}

// Number 1 of the lists for a calibration's results.
fn results_fit(diagram: &[f64], row: &[u32]) -> bool
    ensures { result ≡ results_fit diagram.now row.now }
{
    (diagram.len() == 5) & (row.len() == 4)
}

// From samples and settings to the diagram's five doubles and the row's four numbers: numbers 1, 9, 10 and 11.
pub fn figwimple_calibrate(
    flow: &[f64],
    occupancy: &[f64],
    g: f64,
    lanes: u32,
    t: u32,
    l: f64,
    start: usize,
    end: usize,
    diagram: &mut [f64],
    row: &mut [u32],
) -> u64
    ensures { CalibrateCalled (settings_of g lanes t l start end) flow.now occupancy.now diagram.old row.old result diagram.new row.new }
{
    if !results_fit(diagram, row) {
        return word(0, Err(Refusal::Length));
    }
    let settings = Settings {
        g,
        lanes,
        period: t,
        cell: l,
        start,
        end,
    };
    match calibrate_fit::calibrate(flow, occupancy, settings) {
        Ok(found) => {
            put_diagram(found.diagram, diagram);
            put_row(found.row, row);
            0
        }
        Err(refusal) => word(0, Err(refusal)),
    }
}
