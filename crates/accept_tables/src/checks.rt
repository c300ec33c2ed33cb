// The checks of the rules' numbers 2 to 4, each by itself.
ghost use Rattle.std.specs.Prelude.{◌≡◌, ℕ, ◌/◌, ◌%◌, ◌^◌, ◌<◌, [], ◌∷◌, not, ◌&&◌, eqb, get_or, set};
ghost use Rattle.std.specs.Int.Bits.{bit_or};
ghost use Rattle.whole.specs.Search.{pick};
ghost use Rattle.layout.specs.Layout.{cells, ramp_positions, ramp_at};
ghost use Rattle.refusals.specs.Checks.{answer};
ghost use Rattle.accept_tables.specs.Tables.{rows_in_range, rooms_shared, ramps_once};

use accept_ranges::{room_shared, row_in_range};
use layout::{cells, row_at};
use refusals::Refusal;

// Number 2.
pub(crate) fn rows_in_range(table: &[u32]) -> Result<(), Refusal>
    ensures { result ≡ answer (rows_in_range table.now ∷ []) }
{
    match (0..cells(table)).find(|i| !row_in_range(row_at(table, *i))) {
        Some(i) => Err(Refusal::TableNumber(i + 1)),
        None => Ok(()),
    }
}

// Number 3.
pub(crate) fn rooms_shared(table: &[u32]) -> Result<(), Refusal>
    ensures { result ≡ answer (rooms_shared table.now ∷ []) }
{
    match (0..cells(table)).find(|i| !room_shared(row_at(table, *i))) {
        Some(i) => Err(Refusal::RoomShares(i + 1)),
        None => Ok(()),
    }
}

// Puts a ramp number's mark up, and answers whether it was up already: bit by bit, in words of 64. Number 0 is no ramp and has no mark.
fn ramp_again(marks: &mut [u64; 1_024], ramp: usize) -> bool
    requires { ramp < 65_536 }
    ensures value { result ≡ (not (eqb ramp 0) && eqb (get_or marks.old (ramp / 64) 0 / 2 ^ (ramp % 64) % 2) 1) }
    ensures marks_after { marks.new ≡ pick (eqb ramp 0) marks.old (set marks.old (ramp / 64) (bit_or (get_or marks.old (ramp / 64) 0) (2 ^ (ramp % 64)))) }
{
    if ramp == 0 {
        return false;
    }
    let word = marks[ramp / 64];
    marks[ramp / 64] = word | (1 << (ramp % 64));
    (word >> (ramp % 64)) % 2 == 1
}

// Number 4: a mark that is up says that its ramp number stands at a position already passed. Two tables, one after the other, take the room of
// the marks once, since it is this function's own when compiled.
#[inline(never)]
pub(crate) fn ramps_once(table: &[u32]) -> Result<(), Refusal>
    requires { (k : ℕ) → k < ramp_positions (cells table.now) → ramp_at table.now k < 65_536 }
    ensures { result ≡ answer (ramps_once table.now ∷ []) }
{
    let mut marks = [0; 1_024];
    for i in 0..cells(table) {
        let row = row_at(table, i);
        if ramp_again(&mut marks, row.on as usize) || ramp_again(&mut marks, row.off as usize) {
            return Err(Refusal::RampAgain(i + 1));
        }
    }
    Ok(())
}
