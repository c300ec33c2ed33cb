// The exports for callers in C, Rust and Python, in an archive: each is the function of `figwimple` that has its name, and promises the same.
#![tactic(auto)]

ghost use Rattle.std.specs.Prelude.{◌≡◌};
ghost use Rattle.refusals.specs.Checks.{answer};
ghost use Rattle.accept_tables.specs.Tables.{table_checks};
ghost use Rattle.layout.specs.Corridor.{corridor_of};
ghost use Rattle.period.specs.Sharing.{asymmetric};
ghost use Rattle.accept_rows.specs.Acceptance.{state_checks, row_checks};
ghost use Rattle.figwimple.specs.Words.{word_of};
ghost use Rattle.figwimple.specs.Calls.{PeriodCalled, RunCalled, RecutCalled, JoinCalled, settings_of, CalibrateCalled};

// Whether a table is accepted: numbers 1 to 4.
#[unsafe(no_mangle)]
pub extern "C" fn figwimple_accept_table(table: &[u32]) -> u64
    ensures { result ≡ word_of 0 (answer (table_checks table.now)) }
{
    figwimple::figwimple_accept_table(table)
}

// Whether a state is accepted under a table: numbers 1 to 5.
#[unsafe(no_mangle)]
pub extern "C" fn figwimple_accept_state(table: &[u32], state: &[u32]) -> u64
    ensures { result ≡ word_of 0 (answer (state_checks (corridor_of table.now state.now))) }
{
    figwimple::figwimple_accept_state(table, state)
}

// Whether a demand row is accepted under a table and a state: numbers 1 to 7.
#[unsafe(no_mangle)]
pub extern "C" fn figwimple_accept_row(table: &[u32], state: &[u32], demand: &[u32]) -> u64
    ensures { result ≡ word_of 0 (answer (row_checks (corridor_of table.now state.now) demand.now)) }
{
    figwimple::figwimple_accept_row(table, state, demand)
}

// One period: numbers 1 to 7.
#[unsafe(no_mangle)]
pub extern "C" fn figwimple_period(
    table: &[u32],
    state: &mut [u32],
    demand: &[u32],
    sheet: &mut [u32],
) -> u64
    ensures { PeriodCalled asymmetric (corridor_of table.now state.old) demand.now sheet.old result state.new sheet.new }
{
    figwimple::figwimple_period(table, state, demand, sheet)
}

// A run of demand rows end to end: numbers 1 to 5, then 6 and 7 at each row. It counts the periods completed, refused or not.
#[unsafe(no_mangle)]
pub extern "C" fn figwimple_run(
    table: &[u32],
    state: &mut [u32],
    demand: &[u32],
    sheet: &mut [u32],
) -> u64
    ensures { RunCalled asymmetric (corridor_of table.now state.old) demand.now sheet.old result state.new sheet.new }
{
    figwimple::figwimple_run(table, state, demand, sheet)
}

// The re-cut of a table and a state into a new table: numbers 1 to 5 and 8. The new state goes to a list of its own.
#[unsafe(no_mangle)]
pub extern "C" fn figwimple_recut(
    old: &[u32],
    state: &[u32],
    pieces: &[u32],
    new: &[u32],
    list: &mut [u32],
) -> u64
    ensures { RecutCalled (corridor_of old.now state.now) pieces.now new.now list.old result list.new }
{
    figwimple::figwimple_recut(old, state, pieces, new, list)
}

// The join of a table and a state into a new table: numbers 1 to 5 and 14. The new state goes to a list of its own.
#[unsafe(no_mangle)]
pub extern "C" fn figwimple_join(
    old: &[u32],
    state: &[u32],
    groups: &[u32],
    new: &[u32],
    list: &mut [u32],
) -> u64
    ensures { JoinCalled (corridor_of old.now state.now) groups.now new.now list.old result list.new }
{
    figwimple::figwimple_join(old, state, groups, new, list)
}

// From samples and settings to the diagram's five doubles and the row's four numbers: numbers 1, 9, 10 and 11.
#[unsafe(no_mangle)]
pub extern "C" fn figwimple_calibrate(
    flow: &[f64],
    occupancy: &[f64],
    g: f64,
    lanes: u32,
    t: u32,
    l: f64,
    start: usize,
    end: usize,
    diagram: &mut [f64],
    row: &mut [u32],
) -> u64
    ensures { CalibrateCalled (settings_of g lanes t l start end) flow.now occupancy.now diagram.old row.old result diagram.new row.new }
{
    figwimple::figwimple_calibrate(flow, occupancy, g, lanes, t, l, start, end, diagram, row)
}
