// The checks of the rules' numbers 1 and 9 on samples and settings.
ghost use Rattle.std.specs.Prelude.{◌≡◌, length};
ghost use Rattle.calibrate_fit.specs.Calibration.{lengths_fit, settings_fit};
ghost use Rattle.calibrate_fit.specs.Private.{usable_capacity};

use crate::doubles::pick;
use crate::{Settings, read_sample};
use refusals::Refusal;

// Number 1.
pub(crate) fn lengths_fit(flow: &[f64], occupancy: &[f64], settings: Settings) -> bool
    ensures { result ≡ lengths_fit settings flow.now occupancy.now }
{
    (flow.len() == occupancy.len())
        & (flow.len() <= 65_536)
        & (settings.end <= flow.len())
        & (settings.start <= settings.end)
}

// Whether each setting is in its range.
fn settings_fit(settings: Settings) -> bool
    ensures { result ≡ settings_fit settings }
{
    calibrate_rows::between(1.0 / 1_024.0, 1.0 / 16.0, settings.g)
        & whole::within(1, 12, settings.lanes)
        & calibrate_rows::cell_settings_fit(settings.period, settings.cell)
}

// Capacity, or number 9: one pass over the samples serves both. A bad setting is at place 0, a bad sample at its own, counted
// from 1.
pub(crate) fn capacity(flow: &[f64], occupancy: &[f64], settings: Settings) -> Result<f64, Refusal>
    requires { length flow.now ≡ length occupancy.now }
    ensures { result ≡ usable_capacity settings flow.now occupancy.now }
{
    if !settings_fit(settings) {
        return Err(Refusal::Sample(0));
    }
    let mut most = 0.0;
    for i in 0..flow.len() {
        let Ok(sample) = read_sample(settings.g, settings.lanes, flow[i], occupancy[i]) else {
            return Err(Refusal::Sample(i + 1));
        };
        most = pick(most < sample.flow, sample.flow, most);
    }
    Ok(most)
}
