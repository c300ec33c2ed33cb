// What is refused of a state under a table, and of a demand row under both, by the rules' numbers 1 to 7. Number 1 asks of all the lists
// at once; numbers 2 to 4 are the table's own.
#![tactic(auto)]

ghost use Rattle.std.specs.Prelude.{◌≡◌};
ghost use Rattle.refusals.specs.Checks.{answer};
ghost use Rattle.accept_rows.specs.Acceptance.{state_checks, row_checks, demand_checks, state_alone_checks};
ghost use Rattle.layout.specs.Corridor.{corridor_of};

mod lists;

use lists::{Corridor, Demand};
use refusals::Refusal;

// Whether a state is accepted under a table: numbers 1 to 5.
pub fn accept_state(table: &[u32], state: &[u32]) -> Result<(), Refusal>
    ensures { result ≡ answer (state_checks (corridor_of table.now state.now)) }
{
    Corridor::new(table, state)?.state_numbers()
}

// Whether a demand row is accepted under a table and a state: numbers 1 to 7.
pub fn accept_row(table: &[u32], state: &[u32], demand: &[u32]) -> Result<(), Refusal>
    ensures { result ≡ answer (row_checks (corridor_of table.now state.now) demand.now) }
{
    let demand = Demand::new(table, state, demand)?;
    demand.corridor.state_numbers()?;
    demand.numbers()
}

// Whether a demand row is accepted under a table and a state that are accepted already: numbers 1, 6 and 7.
pub fn accept_demand(table: &[u32], state: &[u32], demand: &[u32]) -> Result<(), Refusal>
    ensures { result ≡ answer (demand_checks (corridor_of table.now state.now) demand.now) }
{
    Demand::new(table, state, demand)?.numbers()
}

// Whether a state is accepted under a table that is accepted already: numbers 1 and 5.
pub fn accept_state_alone(table: &[u32], state: &[u32]) -> Result<(), Refusal>
    ensures { result ≡ answer (state_alone_checks (corridor_of table.now state.now)) }
{
    Corridor::new(table, state)?.state_in_range()
}
