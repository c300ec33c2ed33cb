// The rules' worked calibration, and after it a calibration that is refused with each of its numbers.
use calibrate_fit::{Calibrated, Settings};
use std::{fmt, io};

// A double as its whole part, where it is from 0 to 2^64, which is all of it for those below; else as a question mark.
#[derive(Drop)]
struct Whole(f64);

impl fmt::Display for Whole {
    fn fmt<W: fmt::Write>(&self, f: &mut fmt::Formatter<W>) -> fmt::Result {
        let x = self.0;
        if x > -1.0 && x < 18_446_744_073_709_551_616.0 {
            let whole = std::num::truncating_f64_to_u64(x);
            return write!(f, "{whole}");
        }
        write!(f, "?")
    }
}

fn print_calibrated(rt: &impl Print, found: Calibrated) -> io::Result<()> {
    let diagram = found.diagram;
    let speed = Whole(diagram.speed);
    let capacity = Whole(diagram.capacity);
    let critical = Whole(diagram.critical);
    let wave = Whole(diagram.wave);
    let jam = Whole(diagram.jam);
    print!(rt; "speed {speed}, capacity {capacity}, critical {critical}, wave {wave}, jam {jam}")?;
    let row = found.row;
    let v = row.v;
    let w = row.w;
    let capacity = row.capacity;
    let jam = row.jam;
    print!(rt; ", v {v}, w {w}, F {capacity}, J {jam}, ")
}

// Calibrates at g 1/256, one lane, T 10 and the given cell length, the first samples up to `end` in free flow, and prints
// the diagram, the row numbers and the answer.
fn one_calibration(
    rt: &impl Print,
    name: &[u8],
    flow: &[f64],
    cell: f64,
    end: usize,
) -> io::Result<()> {
    let settings = Settings {
        g: 1.0 / 256.0,
        lanes: 1,
        period: 10,
        cell,
        start: 0,
        end,
    };
    rt.write_all(name)?;
    match calibrate_fit::calibrate(flow, &[0.0625, 0.125, 0.375], settings) {
        Ok(found) => {
            print_calibrated(rt, found)?;
            show::answer(rt, Ok(()))
        }
        Err(refusal) => show::answer(rt, Err(refusal)),
    }
}

pub(crate) fn calibrations(rt: &impl Print) -> io::Result<()> {
    let nan = 0.0 / 0.0;
    let flow = [960.0, 1_920.0, 960.0];
    one_calibration(rt, b"calibrated: ", &flow, 0.5, 2)?;
    one_calibration(rt, b"stretch past the samples: ", &flow, 0.5, 4)?;
    one_calibration(rt, b"cell length not a number: ", &flow, nan, 2)?;
    let broken = [960.0, nan, 960.0];
    one_calibration(rt, b"second flow not a number: ", &broken, 0.5, 2)?;
    let still = [-0.0, -0.0, 960.0];
    one_calibration(rt, b"minus zero in the free stretch: ", &still, 0.5, 2)?;
    one_calibration(
        rt,
        b"a cell too short for its free speed: ",
        &flow,
        0.125,
        2,
    )
}
