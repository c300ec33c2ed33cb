// The limits of a demand row's numbers, worked out once for all rows of a run: a row that passes 6 and 7 is then told by two straight
// walks, and only a refused one is looked at cell by cell.
#![tactic(auto)]

ghost use Rattle.std.specs.Prelude.{◌≡◌, true, ℕ, ◌≤◌, ◌<◌, eqb, leb, length, get_or};
ghost use Rattle.whole.specs.Search.{pick, every};
ghost use Rattle.layout.specs.Layout.{cells, state_length, demand_length, queue_at, on_demand_at};
ghost use Rattle.layout.specs.Corridor.{corridor_of};
ghost use Rattle.refusals.specs.Checks.{accepted, answer};
ghost use Rattle.accept_ranges.specs.Ranges.{queue_limit, queue_holds};
ghost use Rattle.accept_rows.specs.Acceptance.{row_lengths_fit, state_numbers, demand_checks};
ghost use Rattle.accept_limits.specs.Limits.{cell_limits, demand_limits};

use layout::*;
use refusals::Refusal;

// The limits of a cell's demands.
fn cell_limits(row: Row) -> Demands
    ensures { result ≡ cell_limits row }
{
    Demands {
        on: accept_ranges::with_ramp(row.on, 1_000_000),
        off: accept_ranges::given_off(row),
    }
}

// The limits of a table, into a list of a demand row's length; a list of another length stays as it came.
pub fn demand_limits(table: &[u32], limits: &mut [u32])
    ensures { limits.new ≡ pick (eqb (length limits.old) (demand_length (cells table.now))) (demand_limits table.now) limits.old }
{
    let n = cells(table);
    if limits.len() != demand_length(n) {
        return;
    }
    for i in 0..n {
        put_demands(limits, n, i, cell_limits(row_at(table, i)));
    }
    put_entry(limits, 1_000_000);
}

// Whether each number of a row is within its limit. No number ends the walk, so that several are compared at a time.
fn within_limits(limits: &[u32], demand: &[u32]) -> bool
    requires { length limits.now ≡ length demand.now }
    ensures { result ≡ every (length demand.now) (λ i. leb (get_or demand.now i 0) (get_or limits.now i 0)) }
{
    let mut all = true;
    for (i, number) in demand.iter().enumerate() {
        all &= *number <= limits[i];
    }
    all
}

// Whether each on-ramp's queue and demand together stay within a queue's limit, which no queue exceeds by itself.
fn queues_hold(n: usize, state: &[u32], demand: &[u32]) -> bool
    requires state_len { (length state.now ≡ state_length n) × (length demand.now ≡ demand_length n) }
    requires by_index { (i : ℕ) → i < n → queue_at n state.now i ≤ queue_limit }
    ensures { result ≡ every n (λ i. queue_holds (queue_at n state.now i) (on_demand_at demand.now i)) }
{
    let mut all = true;
    for i in 0..n {
        all &= on_demand_at(demand, i) <= 1_000_000_000 - queue_at(n, state, i);
    }
    all
}

// Whether a demand row is accepted under a table with these limits and a state that are accepted already: numbers 6 and 7.
pub fn accept_demand(
    table: &[u32],
    limits: &[u32],
    state: &[u32],
    demand: &[u32],
) -> Result<(), Refusal>
    requires limits_value { limits.now ≡ demand_limits table.now }
    requires demand_value { row_lengths_fit (corridor_of table.now state.now) demand.now ≡ true }
    requires state_value { answer (state_numbers (corridor_of table.now state.now)) ≡ accepted }
    ensures { result ≡ answer (demand_checks (corridor_of table.now state.now) demand.now) }
{
    if within_limits(limits, demand)
        & accept_ranges::queue_holds(entry_queue(state), entry_demand(demand))
        & queues_hold(cells(table), state, demand)
    {
        return Ok(());
    }
    accept_rows::accept_demand(table, state, demand)
}
