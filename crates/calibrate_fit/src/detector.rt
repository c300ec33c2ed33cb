// The samples of a detector that numbers 1 and 9 do not refuse, and what is made of them: for each two sums one pass over the samples
// in their order, and the diagram. Samples are read anew in each pass, so that nothing is stored.
ghost use Rattle.std.specs.Prelude.{◌≡◌, ◌≤◌, ◌<◌, [], ◌∷◌, Ok, length};
ghost use Rattle.refusals.specs.Checks.{answer};
ghost use Rattle.calibrate_fit.specs.Samples.{sample_at, samples};
ghost use Rattle.calibrate_fit.specs.Private.{AllUsable};
ghost use Rattle.calibrate_fit.specs.Diagrams.{speed_sums, largest_flow, wave_sums, free_of};
ghost use Rattle.calibrate_fit.specs.Calibration.{diagram_fits, fitted_diagram, fit_as};

use crate::doubles::pick;
use crate::{Sample, Settings, Sums, good_sample};
use calibrate_rows::Diagram;
use refusals::Refusal;

#[derive(Clone, Copy)]
pub(crate) struct Detector<'a> {
    pub(crate) flow: &'a [f64],
    pub(crate) occupancy: &'a [f64],
    pub(crate) settings: Settings,
    ghost same_length: { length flow.now ≡ length occupancy.now },
    ghost end_within: { settings.end ≤ length flow.now },
    ghost all_usable: { AllUsable settings flow.now occupancy.now },
}

impl<'a> Detector<'a> {
    // The sample at a position. Every sample is usable, so nothing is tested again.
    #[tactic(auto, using(crate::proofs::Tests::usable_is_good))]
    fn sample(&self, i: usize) -> Sample
        requires { i < length self.now.flow.now }
        ensures { Ok result ≡ sample_at self.now.settings self.now.flow.now self.now.occupancy.now i }
    {
        good_sample(
            self.settings.g,
            self.settings.lanes,
            self.flow[i],
            self.occupancy[i],
        )
    }

    // The two sums of speed, over the free stretch.
    fn speed_sums(&self) -> Sums
        ensures { result ≡ speed_sums (free_of self.now.settings self.now.flow.now self.now.occupancy.now) }
    {
        let mut top = 0.0;
        let mut bottom = 0.0;
        for i in self.settings.start..self.settings.end {
            let sample = self.sample(i);
            top += sample.flow * sample.density;
            bottom += sample.density * sample.density;
        }
        Sums { top, bottom }
    }

    // The two sums of wave, over the samples with density above critical. Which samples these are is hard to foretell, so that a
    // sum is worked out for each sample and taken where it counts: a branch would cost more than the sum.
    fn wave_sums(&self, capacity: f64, critical: f64) -> Sums
        ensures { result ≡ wave_sums capacity critical (samples self.now.settings self.now.flow.now self.now.occupancy.now) }
    {
        let mut top = 0.0;
        let mut bottom = 0.0;
        for i in 0..self.flow.len() {
            let sample = self.sample(i);
            let above = sample.density > critical;
            let excess = sample.density - critical;
            top = pick(above, top + (capacity - sample.flow) * excess, top);
            bottom = pick(above, bottom + excess * excess, bottom);
        }
        Sums { top, bottom }
    }

    // The diagram, or number 10. A free stretch that is empty, and no sample above critical, leave their sum of squares at
    // zero, so no test of their own is made of these two.
    pub(crate) fn diagram(&self, capacity: f64) -> Result<Diagram, Refusal>
        requires { capacity ≡ largest_flow (samples self.now.settings self.now.flow.now self.now.occupancy.now) }
        ensures { let d = self.now in
            result ≡ fit_as (answer (diagram_fits d.settings d.flow.now d.occupancy.now ∷ [])) (fitted_diagram d.settings d.flow.now d.occupancy.now) }
    {
        let free = self.speed_sums();
        let speed = free.top / free.bottom;
        let critical = capacity / speed;
        let over = self.wave_sums(capacity, critical);
        let wave = over.top / over.bottom;
        let jam = critical + capacity / wave;
        if (free.bottom == 0.0) | (speed == 0.0) | (over.bottom == 0.0) | (wave == 0.0) {
            return Err(Refusal::Fit);
        }
        Ok(Diagram {
            speed,
            capacity,
            critical,
            wave,
            jam,
        })
    }
}
