// The lists whose lengths number 1 has passed, and the rules' numbers 2 to 7 of them. A position is a cell's, counted from 1, or 0 for the
// entry.
ghost use Rattle.std.specs.Prelude.{◌≡◌, true};
ghost use Rattle.layout.specs.Corridor.{corridor_of};
ghost use Rattle.accept_rows.specs.Acceptance.{state_lengths_fit, row_lengths_fit};

use accept_ranges::{demand_fits, queue_holds, state_fits};
use accept_tables::{accept_table, table_length_fits};
use layout::*;
use refusals::Refusal;

// A table and a state.
#[derive(Clone, Copy)]
pub(crate) struct Corridor<'a> {
    pub(crate) table: &'a [u32],
    pub(crate) state: &'a [u32],
    ghost fits: { state_lengths_fit (corridor_of table.now state.now) ≡ true },
}

impl<'a> Corridor<'a> {
    ghost use Rattle.std.specs.Prelude.{false, ◌+◌, ◌<◌, [], ◌∷◌, IfOk, IfErr};
    ghost use Rattle.layout.specs.Layout.{cells};
    ghost use Rattle.refusals.specs.declared.Refusal.TheVariants.{Length};
    ghost use Rattle.refusals.specs.Checks.{answer};
    ghost use Rattle.accept_rows.specs.Acceptance.{state_in_range, state_numbers};
    ghost use Rattle.accept_rows.specs.Private.{seen};

    // Number 1.
    pub(crate) fn new(table: &'a [u32], state: &'a [u32]) -> Result<Self, Refusal>
        ensures ok { IfOk result (λ c. (c.table.now ≡ table.now) × (c.state.now ≡ state.now)) }
        ensures err { IfErr result (λ refusal. (refusal ≡ Length) × (state_lengths_fit (corridor_of table.now state.now) ≡ false)) }
    {
        let fits = table_length_fits(table) & (state.len() == state_length(cells(table)));
        if !fits {
            return Err(Refusal::Length);
        }
        Ok(Corridor { table, state })
    }

    // Number 5 at a position.
    fn state_fits_at(&self, position: usize) -> bool
        requires { position < cells self.now.table.now + 1 }
        ensures { result ≡ (state_in_range (seen self.now)).test position }
    {
        if position == 0 {
            return entry_queue(self.state) <= 1_000_000_000;
        }
        let i = position - 1;
        let n = cells(self.table);
        state_fits(row_at(self.table, i), cell_at(n, self.state, i))
    }

    // Number 5.
    pub(crate) fn state_in_range(&self) -> Result<(), Refusal>
        ensures { result ≡ answer (state_in_range (seen self.now) ∷ []) }
    {
        let positions = cells(self.table) + 1;
        match (0..positions).find(|at| !self.state_fits_at(*at)) {
            Some(at) => Err(Refusal::StateNumber(at)),
            None => Ok(()),
        }
    }

    // Numbers 2 to 5. The table's length fits, so that its own answer is never its number 1.
    pub(crate) fn state_numbers(&self) -> Result<(), Refusal>
        ensures { result ≡ answer (state_numbers (seen self.now)) }
    {
        accept_table(self.table)?;
        self.state_in_range()
    }
}

// A demand row under a table and a state.
#[derive(Clone, Copy)]
pub(crate) struct Demand<'a> {
    pub(crate) corridor: Corridor<'a>,
    pub(crate) row: &'a [u32],
    ghost fits: { row_lengths_fit (corridor_of corridor.table.now corridor.state.now) row.now ≡ true },
}

impl<'a> Demand<'a> {
    ghost use Rattle.std.specs.Prelude.{false, ◌+◌, ◌<◌, ◌&&◌, [], ◌∷◌, IfOk, IfErr};
    ghost use Rattle.whole.specs.Search.{every};
    ghost use Rattle.layout.specs.Layout.{cells};
    ghost use Rattle.refusals.specs.declared.Refusal.TheVariants.{Length};
    ghost use Rattle.refusals.specs.Checks.{answer};
    ghost use Rattle.accept_rows.specs.Acceptance.{demand_in_range, queues_hold, demand_numbers};
    ghost use Rattle.accept_rows.specs.Private.{seen};

    // Number 1.
    pub(crate) fn new(table: &'a [u32], state: &'a [u32], row: &'a [u32]) -> Result<Self, Refusal>
        ensures ok { IfOk result (λ d. (d.corridor.table.now ≡ table.now) × (d.corridor.state.now ≡ state.now) × (d.row.now ≡ row.now)) }
        ensures err { IfErr result (λ refusal. (refusal ≡ Length) × (row_lengths_fit (corridor_of table.now state.now) row.now ≡ false)) }
    {
        let corridor = Corridor::new(table, state)?;
        if row.len() != demand_length(cells(table)) {
            return Err(Refusal::Length);
        }
        Ok(Demand { corridor, row })
    }

    // Number 6 at a position.
    fn fits_at(&self, position: usize) -> bool
        requires { position < cells self.now.corridor.table.now + 1 }
        ensures { result ≡ (demand_in_range (seen self.now.corridor) self.now.row.now).test position }
    {
        if position == 0 {
            return entry_demand(self.row) <= 1_000_000;
        }
        let i = position - 1;
        let n = cells(self.corridor.table);
        let row = row_at(self.corridor.table, i);
        demand_fits(
            row,
            on_demand_at(self.row, i),
            off_demand_at(n, self.row, i),
        )
    }

    // Number 7 at a position.
    fn holds_at(&self, position: usize) -> bool
        requires { position < cells self.now.corridor.table.now + 1 }
        ensures { result ≡ (queues_hold (seen self.now.corridor) self.now.row.now).test position }
    {
        let state = self.corridor.state;
        if position == 0 {
            return queue_holds(entry_queue(state), entry_demand(self.row));
        }
        let i = position - 1;
        let n = cells(self.corridor.table);
        queue_holds(queue_at(n, state, i), on_demand_at(self.row, i))
    }

    // Whether neither 6 nor 7 applies anywhere.
    fn passes(&self) -> bool
        ensures { result ≡ every (cells self.now.corridor.table.now + 1) (λ p. (demand_in_range (seen self.now.corridor) self.now.row.now).test p && (queues_hold (seen self.now.corridor) self.now.row.now).test p) }
    {
        let positions = cells(self.corridor.table) + 1;
        (0..positions).all(|at| self.fits_at(at) & self.holds_at(at))
    }

    // Number 6.
    fn in_range(&self) -> Result<(), Refusal>
        ensures { result ≡ answer (demand_in_range (seen self.now.corridor) self.now.row.now ∷ []) }
    {
        let positions = cells(self.corridor.table) + 1;
        match (0..positions).find(|at| !self.fits_at(*at)) {
            Some(at) => Err(Refusal::Demand(at)),
            None => Ok(()),
        }
    }

    // Number 7.
    fn queues_hold(&self) -> Result<(), Refusal>
        ensures { result ≡ answer (queues_hold (seen self.now.corridor) self.now.row.now ∷ []) }
    {
        let positions = cells(self.corridor.table) + 1;
        match (0..positions).find(|at| !self.holds_at(*at)) {
            Some(at) => Err(Refusal::QueueOver(at)),
            None => Ok(()),
        }
    }

    // Numbers 6 and 7. A row that nothing refuses, the usual one, is walked over once.
    pub(crate) fn numbers(&self) -> Result<(), Refusal>
        ensures { result ≡ answer (demand_numbers (seen self.now.corridor) self.now.row.now) }
    {
        if self.passes() {
            return Ok(());
        }
        self.in_range()?;
        self.queues_hold()
    }
}
