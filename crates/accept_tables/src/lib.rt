// What is refused of a table, by the rules' numbers 1 to 4: of one table, and of two, where each number of the first comes before the
// second's.
#![tactic(auto)]

ghost use Rattle.std.specs.Prelude.{◌≡◌};
ghost use Rattle.refusals.specs.Checks.{answer};
ghost use Rattle.accept_tables.specs.Tables.{table_length_fits, table_numbers, table_checks, both_tables, both_tables_checks};

mod checks;

use checks::{ramps_once, rooms_shared, rows_in_range};
use layout::{cells, table_length};
use refusals::Refusal;

// Number 1 of a table.
pub fn table_length_fits(table: &[u32]) -> bool
    ensures { result ≡ table_length_fits table.now }
{
    let n = cells(table);
    (table.len() == table_length(n)) & ((1 <= n) & (n <= 512))
}

// Numbers 2 to 4.
#[tactic(auto, using(refusals::proofs::Answers::in_their_order, crate::proofs::Ramps::ramps_have_marks))]
fn table_numbers(table: &[u32]) -> Result<(), Refusal>
    ensures { result ≡ answer (table_numbers table.now) }
{
    rows_in_range(table)?;
    rooms_shared(table)?;
    ramps_once(table)
}

// Whether a table is accepted: numbers 1 to 4.
#[tactic(auto, using(refusals::proofs::Answers::in_their_order))]
pub fn accept_table(table: &[u32]) -> Result<(), Refusal>
    ensures { result ≡ answer (table_checks table.now) }
{
    if !table_length_fits(table) {
        return Err(Refusal::Length);
    }
    table_numbers(table)
}

// Numbers 2 to 4 of two tables, each number of the first before the second's.
#[tactic(auto, using(refusals::proofs::Answers::in_their_order, crate::proofs::Ramps::ramps_have_marks))]
fn both_tables(first: &[u32], second: &[u32]) -> Result<(), Refusal>
    ensures { result ≡ answer (both_tables first.now second.now) }
{
    rows_in_range(first)?;
    rows_in_range(second)?;
    rooms_shared(first)?;
    rooms_shared(second)?;
    ramps_once(first)?;
    ramps_once(second)
}

// Whether two tables are accepted: numbers 1 to 4, each number of the first before the second's.
#[tactic(auto, using(refusals::proofs::Answers::in_their_order))]
pub fn accept_both(first: &[u32], second: &[u32]) -> Result<(), Refusal>
    ensures { result ≡ answer (both_tables_checks first.now second.now) }
{
    if !(table_length_fits(first) & table_length_fits(second)) {
        return Err(Refusal::Length);
    }
    both_tables(first, second)
}
