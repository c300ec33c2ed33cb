// What a re-cut and a join ask: numbers 1 to 5 of their lists, and that the cells of one table are the pieces of the other's.
#![tactic(auto)]

ghost use Rattle.std.specs.Prelude.{◌≡◌, [], ◌∷◌};
ghost use Rattle.layout.specs.Layout.{cells};
ghost use Rattle.layout.specs.Corridor.{corridor_of};
ghost use Rattle.refusals.specs.Checks.{answer};
ghost use Rattle.recut_checks.specs.Pieces.{pieces_number};
ghost use Rattle.recut_checks.specs.Change.{whole_of, parts_of, refusal_of, change_lists_fit, change_checks, checks_of};

mod pieces;

use layout::{cells, state_length};
use refusals::Refusal;

// How the cells of a table change: they are cut into pieces, or they are pieces and are joined.
#[derive(Clone, Copy)]
pub enum Change {
    Cut,
    Join,
}

impl Change {
    // The table of the whole cells and that of their pieces: of a cut the old cells are the whole ones, of a join the new ones.
    fn sides<'a>(self, old: &'a [u32], new: &'a [u32]) -> (&'a [u32], &'a [u32])
        ensures whole { result.0.now ≡ whole_of self old.now new.now }
        ensures parts { result.1.now ≡ parts_of self old.now new.now }
    {
        match self {
            Change::Cut => (old, new),
            Change::Join => (new, old),
        }
    }

    // The refusal of pieces at a place.
    fn refusal(self, place: usize) -> Refusal
        ensures { result ≡ refusal_of self place }
    {
        match self {
            Change::Cut => Refusal::Pieces(place),
            Change::Join => Refusal::Groups(place),
        }
    }
}

// Number 1 of the lists under the two tables.
fn change_lists_fit(
    old: &[u32],
    state: &[u32],
    counts: &[u32],
    many: usize,
    new: &[u32],
    list: &[u32],
) -> bool
    ensures { result ≡ change_lists_fit (corridor_of old.now state.now) counts.now many new.now list.now }
{
    (state.len() == state_length(cells(old)))
        & (counts.len() == many)
        & (list.len() == state_length(cells(new)))
}

// Numbers 1 to 5 of a change from an old table and state to a new table. There are to be so many counts.
fn accept_lists(
    old: &[u32],
    state: &[u32],
    counts: &[u32],
    many: usize,
    new: &[u32],
    list: &[u32],
) -> Result<(), Refusal>
    ensures { result ≡ answer (change_checks (corridor_of old.now state.now) counts.now many new.now list.now) }
{
    if !change_lists_fit(old, state, counts, many, new, list) {
        return Err(Refusal::Length);
    }
    accept_tables::accept_both(old, new)?;
    accept_rows::accept_state_alone(old, state)
}

// Number 8 or 14: the counts sum to the number of pieces, at place 0, and each whole cell has its pieces by the rules.
fn pieces_number(
    change: Change,
    whole: &[u32],
    counts: &[u32],
    parts: &[u32],
) -> Result<(), Refusal>
    ensures { result ≡ answer (pieces_number (refusal_of change) whole.now counts.now parts.now ∷ []) }
{
    let n = cells(whole);
    if !pieces::counts_sum(counts, n, cells(parts)) {
        return Err(change.refusal(0));
    }
    let mut first = 0;
    for i in 0..n {
        if !pieces::cell_has_pieces(whole, counts, parts, i, first) {
            return Err(change.refusal(i + 1));
        }
        first += pieces::piece_count(counts, i);
    }
    Ok(())
}

// Whether a re-cut or a join is accepted: numbers 1 to 5, and 8 or 14. There is a count for each whole cell.
pub fn accept(
    change: Change,
    old: &[u32],
    state: &[u32],
    counts: &[u32],
    new: &[u32],
    list: &[u32],
) -> Result<(), Refusal>
    ensures { result ≡ answer (checks_of change (corridor_of old.now state.now) counts.now new.now list.now) }
{
    let (whole, parts) = change.sides(old, new);
    accept_lists(old, state, counts, cells(whole), new, list)?;
    pieces_number(change, whole, counts, parts)
}
