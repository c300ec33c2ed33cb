// Cuts a cell with an on-ramp and an off-ramp into three under a running corridor, and joins the three again later, and shows that nothing
// is lost: the vehicles and the ramps along the road are as before, the queue stands on the first piece, the off-ramp and the mode on the
// last, and the periods go on.
#![tactic(auto)]

use layout::{cells, ramp_at, ramp_positions, row_at};
use recut::Share;
use refusals::Refusal;
use std::io;

// One cell with on-ramp 11 and off-ramp 12, in the columns v, w, F, J, on, x, c, off, b, dropped.
const OLD: [u32; 10] = [16_384, 8_192, 950, 12_000, 11, 16_384, 500, 12, 16_384, 900];

// The same stretch in three cells: the on-ramp on the first, the off-ramp and the drop on the last.
const NEW: [u32; 30] = [
    49_152, 24_576, 2_000, 4_000, 11, 16_384, 500, 0, 0, 2_000, 49_152, 24_576, 2_000, 4_000, 0, 0,
    0, 0, 0, 2_000, 49_152, 24_576, 950, 4_000, 0, 0, 0, 12, 16_384, 900,
];

// Ten periods of one demand row, or the refusal of the first that is not accepted.
fn ten_periods(
    table: &[u32],
    state: &mut [u32],
    row: &[u32],
    sheet: &mut [u32],
) -> Result<(), Refusal> {
    for _ in 0..10 {
        period::period(table, state, row, sheet)?;
    }
    Ok(())
}

// Prints the state of n cells, and the vehicles in its cells and queues.
fn show_state(rt: &impl Print, word: &[u8], n: usize, state: &[u32]) -> io::Result<()> {
    show::list(rt, word, state)?;
    show::vehicles(rt, b", vehicles ", n, state)
}

// Prints the ramp numbers along the road; 0 is no ramp.
fn show_ramps(rt: &impl Print, table: &[u32]) -> io::Result<()> {
    print!(rt; "ramps along the road:")?;
    for k in 0..ramp_positions(cells(table)) {
        let ramp = ramp_at(table, k);
        if ramp != 0 {
            print!(rt; " {ramp}")?;
        }
    }
    println!(rt; "")
}

// Prints the steps of one share by hand: n times the piece's J, the remainder that it got, its vehicles and the remainder that it leaves.
fn show_share(rt: &impl Print, n: u32, jam: u32, rest: u32, share: Share) -> io::Result<()> {
    let product = u64::from(n) * u64::from(jam);
    let vehicles = share.vehicles;
    let left = share.rest;
    println!(rt; "n*j {product} and remainder {rest}: share {vehicles}, leaves {left}")
}

// Shares a cell that holds n out by hand among the cells that it is cut into, each from the remainder that the one before it left.
fn show_shares(rt: &impl Print, n: u32, whole: u32, new: &[u32]) -> io::Result<()> {
    let mut rest = 0;
    for j in 0..cells(new) {
        let jam = row_at(new, j).jam;
        let share = recut::share_by_hand(n, whole, jam, rest);
        show_share(rt, n, jam, rest, share)?;
        rest = share.rest;
    }
    Ok(())
}

// Joins the three cells again under the running corridor, and goes on.
fn join_again(rt: &impl Print, cut: &[u32]) -> io::Result<()> {
    let mut joined = [0u32; 4];
    let mut sheet = [0u32; 5];
    print!(rt; "joined again: ")?;
    show::answer(rt, join::join(&NEW, cut, &[3], &OLD, &mut joined))?;
    show_state(rt, b"sums: Q n q mode", 1, &joined)?;
    show_ramps(rt, &OLD)?;
    let _ = ten_periods(&OLD, &mut joined, &[800, 600, 0], &mut sheet);
    show_state(rt, b"after ten more: Q n q mode", 1, &joined)
}

fn main(rt: HostRuntime) -> io::Result<()> {
    let mut state = [0u32, 6_001, 300, 0];
    let mut sheet = [0u32; 5];
    show::list(&rt, b"old cell (v w F J on x c off b dropped):", &OLD)?;
    println!(rt; "")?;
    show_ramps(&rt, &OLD)?;
    let _ = ten_periods(&OLD, &mut state, &[800, 600, 0], &mut sheet);
    show_state(&rt, b"after ten periods: Q n q mode", 1, &state)?;
    show::list(&rt, b"sheet (entry f s r mode):", &sheet)?;
    println!(rt; "")?;
    let mut cut = [0u32; 10];
    show::list(&rt, b"new cells:", &NEW)?;
    println!(rt; "")?;
    show_ramps(&rt, &NEW)?;
    print!(rt; "cut into three: ")?;
    show::answer(&rt, recut::recut(&OLD, &state, &[3], &NEW, &mut cut))?;
    show_shares(&rt, state[1], 12_000, &NEW)?;
    show_state(&rt, b"shares: Q, n, q, modes", 3, &cut)?;
    let mut new_sheet = [0u32; 13];
    let _ = ten_periods(&NEW, &mut cut, &[800, 600, 0, 0, 0, 0, 0], &mut new_sheet);
    show_state(&rt, b"after ten more: Q, n, q, modes", 3, &cut)?;
    show::list(&rt, b"sheet (entry, f, s, r, modes):", &new_sheet)?;
    println!(rt; "")?;
    join_again(&rt, &cut)
}
