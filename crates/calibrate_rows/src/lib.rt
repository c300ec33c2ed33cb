// The row maker: from a diagram to the four numbers v, w, F and J of a cell row, for a period T and a cell of length L. Each
// product and quotient is rounded once, in the rules' order, and then each value is rounded down.
#![tactic(auto)]

ghost use Rattle.std.specs.Prelude.{◌≡◌, [], ◌∷◌, Err};
ghost use Rattle.whole.specs.Search.{pick};
ghost use Rattle.refusals.specs.Checks.{answer, accepted};
ghost use Rattle.refusals.specs.declared.Refusal.TheVariants.{RowValue};
ghost use Rattle.calibrate_rows.specs.Doubles.{double, between};
ghost use Rattle.calibrate_rows.specs.Rows.{cell_settings_fit, values_fit, row_made};

mod row;

use refusals::Refusal;

#[derive(Clone, Copy, Debug, PartialEq)]
pub struct Diagram {
    pub speed: f64,
    pub capacity: f64,
    pub critical: f64,
    pub wave: f64,
    pub jam: f64,
}

// v, w, F and J before rounding.
#[derive(Clone, Copy, Debug, PartialEq)]
pub struct RowValues {
    pub v: f64,
    pub w: f64,
    pub capacity: f64,
    pub jam: f64,
}

// v, w, F and J of a cell row.
#[derive(Clone, Copy, Debug, PartialEq, Eq)]
pub struct RowNumbers {
    pub v: u32,
    pub w: u32,
    pub capacity: u32,
    pub jam: u32,
}

// Whether x is at least low and at most high; a NaN is not.
pub fn between(low: f64, high: f64, x: f64) -> bool
    ensures { result ≡ between low high x }
{
    (low <= x) & (x <= high)
}

// Whether T and L are in their ranges. A calibration asks the same of its settings.
pub fn cell_settings_fit(period: u32, cell: f64) -> bool
    ensures { result ≡ cell_settings_fit period cell }
{
    whole::within(1, 60, period) & between(1.0 / 64.0, 8.0, cell)
}

// Number 11 for one row value: it is at least 1 and at most its limit.
fn value_fits(place: usize, limit: f64, value: f64) -> Result<(), Refusal>
    ensures { result ≡ pick (between (double 1) limit value) accepted (Err (RowValue place)) }
{
    if !between(1.0, limit, value) {
        return Err(Refusal::RowValue(place));
    }
    Ok(())
}

// Number 11, of v, w, F and J in this order.
fn values_fit(values: RowValues) -> Result<(), Refusal>
    ensures { result ≡ answer (values_fit values ∷ []) }
{
    value_fits(1, 65_536.0, values.v)?;
    value_fits(2, 65_536.0, values.w)?;
    value_fits(3, 1_000_000.0, values.capacity)?;
    value_fits(4, 4_000_000.0, values.jam)
}

// Makes v, w, F and J of a diagram for the period T and the cell length L, or refuses with number 9 or 11.
pub fn make_row(diagram: Diagram, period: u32, cell: f64) -> Result<RowNumbers, Refusal>
    ensures { result ≡ row_made diagram period cell }
{
    if !cell_settings_fit(period, cell) {
        return Err(Refusal::Sample(0));
    }
    let values = row::row_values(diagram, period, cell);
    values_fit(values)?;
    Ok(row::row_numbers(values))
}
