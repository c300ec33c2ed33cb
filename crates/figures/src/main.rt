// Runs the rules' worked figures through the public functions and prints a line for each, which is held to the
// stored output. The starred ones are also proved, as one list of cases (specs/Figures.antt).
#![tactic(auto)]

mod calibrations;

use std::io;

// The two cells of the printed example.
const ROAD: [u32; 20] = [
    32_768, 16_384, 2_000, 10_000, 0, 0, 0, 0, 0, 2_000, 32_768, 16_384, 2_000, 10_000, 0, 0, 0, 0,
    0, 2_000,
];

// Three cells without ramps, of jam counts 3, 3 and 4.
const THIRDS: [u32; 30] = [
    32_768, 16_384, 2_000, 3, 0, 0, 0, 0, 0, 2_000, 32_768, 16_384, 2_000, 3, 0, 0, 0, 0, 0, 2_000,
    32_768, 16_384, 2_000, 4, 0, 0, 0, 0, 0, 2_000,
];

// The acceptance of one cell with an on-ramp, at the given v, w and x.
fn one_cell(rt: &impl Print, v: u32, w: u32, x: u32) -> io::Result<()> {
    let sum = (w as u64) + (x as u64);
    print!(rt; "v {v}, w + x {sum}: ")?;
    let table = [v, w, 2_000, 10_000, 7, x, 500, 0, 0, 2_000];
    show::answer(rt, accept_tables::accept_table(&table))
}

// Runs one period and prints its sheet (entry flow, f, s, r, modes) and the state after it (Q, n, q, modes).
fn one_period(
    rt: &impl Print,
    name: &[u8],
    table: &[u32],
    state: &mut [u32],
    demand: &[u32],
    sheet: &mut [u32],
) -> io::Result<()> {
    rt.write_all(name)?;
    let answer = period::period(table, state, demand, sheet);
    show::list(rt, b": sheet", sheet)?;
    show::list(rt, b", state", state)?;
    print!(rt; ", ")?;
    show::answer(rt, answer)
}

// Cuts a cell of jam count 10 that holds n into pieces of 3, 3 and 4, and prints the new state (Q, the counts, the queues,
// the modes).
fn one_cut(rt: &impl Print, n: u32) -> io::Result<()> {
    let mut list = [0u32; 10];
    print!(rt; "pieces of {n}")?;
    let answer = recut::recut(
        &[32_768, 16_384, 2_000, 10, 0, 0, 0, 0, 0, 2_000],
        &[0, n, 0, 0],
        &[3],
        &THIRDS,
        &mut list,
    );
    show::list(rt, b": state", &list)?;
    print!(rt; ", ")?;
    show::answer(rt, answer)
}

// The printed period, and the split.
fn first_periods(rt: &impl Print) -> io::Result<()> {
    let mut two_cells = [500u32, 8_000, 4_000, 0, 0, 0, 0];
    let mut two_sheet = [0u32; 9];
    show::vehicles(rt, b"printed, vehicles before: ", 2, &two_cells)?;
    one_period(
        rt,
        b"printed",
        &ROAD,
        &mut two_cells,
        &[300, 0, 0, 0, 0],
        &mut two_sheet,
    )?;
    show::vehicles(rt, b"printed, vehicles after: ", 2, &two_cells)?;
    let mut sheet = [0u32; 5];
    let mut split = [0u32, 1_000, 0, 0];
    one_period(
        rt,
        b"split",
        &[
            32_768, 16_384, 1_000_000, 10_000, 0, 0, 0, 7, 16_384, 1_000_000,
        ],
        &mut split,
        &[0, 0, 0],
        &mut sheet,
    )?;
    let mut held = [0u32, 1_000, 0, 0];
    one_period(
        rt,
        b"split, F 100",
        &[32_768, 16_384, 100, 10_000, 0, 0, 0, 7, 16_384, 100],
        &mut held,
        &[0, 0, 0],
        &mut sheet,
    )
}

// A given flow, a cell filled to the brim, and a count too small to move.
fn other_periods(rt: &impl Print) -> io::Result<()> {
    let mut sheet = [0u32; 5];
    let mut given = [0u32, 1_000, 0, 0];
    one_period(
        rt,
        b"given o 700",
        &[32_768, 16_384, 1_000_000, 10_000, 0, 0, 0, 7, 0, 1_000_000],
        &mut given,
        &[0, 0, 700],
        &mut sheet,
    )?;
    let mut full = [0u32, 9_000, 2_000, 0];
    one_period(
        rt,
        b"full",
        &[1, 49_152, 1, 10_000, 5, 16_384, 1_000_000, 0, 0, 1],
        &mut full,
        &[5_000, 0, 0],
        &mut sheet,
    )?;
    let mut small = [0u32, 1, 0, 0];
    one_period(
        rt,
        b"small",
        &[65_535, 16_384, 1_000, 10_000, 0, 0, 0, 0, 0, 1_000],
        &mut small,
        &[0, 0, 0],
        &mut sheet,
    )
}

// One cell with a dropped capacity, after the given mode.
fn dropping(rt: &impl Print, name: &[u8], mode: u32) -> io::Result<()> {
    let mut sheet = [0u32; 5];
    let mut state = [0u32, 3_900, 0, mode];
    one_period(
        rt,
        name,
        &[32_768, 16_384, 2_000, 10_000, 0, 0, 0, 0, 0, 1_900],
        &mut state,
        &[0, 0, 0],
        &mut sheet,
    )
}

fn main(rt: HostRuntime) -> io::Result<()> {
    one_cell(&rt, 65_536, 16_384, 16_384)?;
    one_cell(&rt, 65_537, 16_384, 16_384)?;
    one_cell(&rt, 32_768, 49_152, 16_384)?;
    one_cell(&rt, 32_768, 49_152, 16_385)?;
    first_periods(&rt)?;
    other_periods(&rt)?;
    dropping(&rt, b"dropped 1900, mode 0", 0)?;
    dropping(&rt, b"dropped 1900, mode 1", 1)?;
    one_cut(&rt, 7)?;
    one_cut(&rt, 1)?;
    one_cut(&rt, 10)?;
    calibrations::calibrations(&rt)
}
