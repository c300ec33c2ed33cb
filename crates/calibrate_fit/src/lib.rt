// Calibration: detector samples of flow and occupancy become a triangular diagram, and `calibrate` has `calibrate_rows` make the
// cell row of it too. Every sum and quotient is rounded once, in the rules' order.
#![tactic(auto)]

ghost use Rattle.std.specs.Prelude.{◌≡◌, ℕ, false, ◌&&◌, Float, Err};
ghost use Rattle.calibrate_fit.specs.Samples.{flow_in_range, occupancy_in_range, good_sample, sample_of};
ghost use Rattle.calibrate_fit.specs.Calibration.{fit_of, calibration_of};

mod checks;
mod detector;
mod doubles;

use calibrate_rows::{Diagram, RowNumbers, between};
use detector::Detector;
use refusals::Refusal;

// What a calibration is told beside its samples: the effective vehicle length g in miles, the lanes, the period T in whole
// seconds, the cell's length L in miles, and the stretch of samples in free flow, counted from 0, the end not included.
#[derive(Clone, Copy, Debug, PartialEq)]
pub struct Settings {
    pub g: f64,
    pub lanes: u32,
    pub period: u32,
    pub cell: f64,
    pub start: usize,
    pub end: usize,
}

// Why a sample is unusable: the first of these that applies.
#[derive(Clone, Copy, Debug, PartialEq, Eq)]
pub enum Cause {
    FlowNotFinite,
    FlowOutOfRange,
    OccupancyNotFinite,
    OccupancyOutOfRange,
}

// A usable sample: a flow with a density.
#[derive(Clone, Copy, Debug, PartialEq)]
pub struct Sample {
    pub flow: f64,
    pub density: f64,
}

// Two sums over the same samples, the one to be divided by the other.
#[derive(Clone, Copy, Debug, PartialEq)]
pub struct Sums {
    pub top: f64,
    pub bottom: f64,
}

// The diagram that was fitted to samples, and the row that was made of it.
#[derive(Clone, Copy, Debug, PartialEq)]
pub struct Calibrated {
    pub diagram: Diagram,
    pub row: RowNumbers,
}

fn flow_in_range(flow: f64) -> bool
    ensures { result ≡ flow_in_range flow }
{
    between(0.0, 20_000.0, flow)
}

fn occupancy_in_range(occupancy: f64) -> bool
    ensures { result ≡ occupancy_in_range occupancy }
{
    between(0.0, 1.0, occupancy)
}

// Why a sample is unusable whose flow and occupancy are not both in range.
#[tactic(auto, using(crate::proofs::Tests::finite_is), unfolding(crate::specs::Samples::sample_of))]
fn cause_of(flow: f64, occupancy: f64) -> Cause
    requires { (flow_in_range flow && occupancy_in_range occupancy) ≡ false }
    ensures { (g : Float) (lanes : ℕ) → sample_of g lanes flow occupancy ≡ Err result }
{
    if !flow.is_finite() {
        return Cause::FlowNotFinite;
    }
    if !flow_in_range(flow) {
        return Cause::FlowOutOfRange;
    }
    if !occupancy.is_finite() {
        return Cause::OccupancyNotFinite;
    }
    Cause::OccupancyOutOfRange
}

// The flow and the density of a sample in range.
fn good_sample(g: f64, lanes: u32, flow: f64, occupancy: f64) -> Sample
    ensures { result ≡ good_sample g lanes flow occupancy }
{
    Sample {
        flow: doubles::unsigned(flow),
        density: (doubles::unsigned(occupancy) / g) * (lanes as f64),
    }
}

// Reads one sample. A double in range is finite, so that finiteness is asked only for the cause.
#[tactic(auto, using(crate::proofs::Tests::in_range_is_finite), unfolding(crate::specs::Samples::sample_of))]
pub fn read_sample(g: f64, lanes: u32, flow: f64, occupancy: f64) -> Result<Sample, Cause>
    ensures { result ≡ sample_of g lanes flow occupancy }
{
    if !(flow_in_range(flow) & occupancy_in_range(occupancy)) {
        return Err(cause_of(flow, occupancy));
    }
    Ok(good_sample(g, lanes, flow, occupancy))
}

// Fits a diagram to samples, or refuses with number 1, 9 or 10.
pub fn fit(flow: &[f64], occupancy: &[f64], settings: Settings) -> Result<Diagram, Refusal>
    ensures { result ≡ fit_of settings flow.now occupancy.now }
{
    if !checks::lengths_fit(flow, occupancy, settings) {
        return Err(Refusal::Length);
    }
    let capacity = checks::capacity(flow, occupancy, settings)?;
    let detector = Detector {
        flow,
        occupancy,
        settings,
    };
    detector.diagram(capacity)
}

// From samples to the diagram and the row numbers, or refuses with number 1, 9, 10 or 11.
pub fn calibrate(flow: &[f64], occupancy: &[f64], settings: Settings) -> Result<Calibrated, Refusal>
    ensures { result ≡ calibration_of settings flow.now occupancy.now }
{
    let diagram = fit(flow, occupancy, settings)?;
    let row = calibrate_rows::make_row(diagram, settings.period, settings.cell)?;
    Ok(Calibrated { diagram, row })
}
