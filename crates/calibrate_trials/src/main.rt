// Calibrates 16,384 sets of drawn samples and prints a digest of the answers' bits after each 2,048 sets. A test of the independent
// implementation (peer/model/tests/trials.rs) comes to the stored output from the same sets, so that the two are compared bit for bit. Among
// the samples are subnormal, huge, equal and boundary values, infinities and NaNs.
#![tactic(auto)]

use calibrate_fit::{Calibrated, Settings, calibrate, fit};
use calibrate_rows::{Diagram, RowNumbers};
use refusals::Refusal;
use std::io;

// The flows or the occupancies that are drawn for a set, of which it takes the first ones.
type Draws = [f64; 48];

// What is carried from set to set: the next draw, and the digest so far.
#[derive(Clone, Copy)]
struct Trials {
    draw: u64,
    digest: u64,
}

// One step of a 64-bit shift register, which no number but 0 takes to 0.
fn stepped(x: u64) -> u64 {
    let a = x ^ (x << 13);
    let b = a ^ (a >> 7);
    b ^ (b << 17)
}

// A double from 0 to 1, of 32 drawn bits.
fn unit(draw: u64) -> f64 {
    ((draw >> 32) as u32) as f64 / 4_294_967_296.0
}

// Doubles at which a slip would show.
fn edge(draw: u64) -> f64 {
    match (draw >> 40) % 16 {
        0 => 0.0,
        1 => -0.0,
        2 => 1.0,
        3 => 20_000.0,
        4 => 1.0 / 0.0,
        5 => -1.0 / 0.0,
        6 => 0.0 / 0.0,
        7 => 5e-324,
        8 => 2.2250738585072014e-308,
        9 => 1.7976931348623157e308,
        10 => 20_000.000000000004,
        11 => 1.0000000000000002,
        12 => 1e-160,
        13 => 0.125,
        14 => 960.0,
        _ => 0.9999999999999999,
    }
}

// The sizes that samples are drawn at.
fn scale(kind: u64) -> f64 {
    match kind {
        8 => 1e-155,
        9 => 1e-161,
        10 => 1e-300,
        11 => 5e-324,
        _ => 1.0,
    }
}

// A sample's flow or occupancy, up to `most`: coarse for half of the kinds, so that values are equal and exact.
fn drawn(kind: u64, draw: u64, most: f64) -> f64 {
    if (kind == 12) & ((draw >> 20) % 8 == 0) {
        return edge(draw);
    }
    if kind < 4 {
        return (((draw >> 24) % 17) as u8) as f64 / 16.0 * most;
    }
    unit(draw) * most * scale(kind)
}

// Fills a list with drawn values, the first 16 of them up to `early`, and answers the next draw.
fn fill(list: &mut Draws, kind: u64, draw: u64, early: f64, most: f64) -> u64 {
    let mut x = draw;
    for (i, value) in list.iter_mut().enumerate() {
        x = stepped(x);
        *value = drawn(kind, x, if i < 16 { early } else { most });
    }
    x
}

// The bits of a double; one pattern stands for every NaN.
fn bits(x: f64) -> u64 {
    if x.is_nan() { 1 } else { x.to_bits() }
}

fn with_words(digest: u64, words: &[u64]) -> u64 {
    words
        .iter()
        .fold(digest, |digest, word| stepped(digest ^ *word))
}

fn with_diagram(digest: u64, diagram: Diagram) -> u64 {
    with_words(
        digest,
        &[
            bits(diagram.speed),
            bits(diagram.capacity),
            bits(diagram.critical),
            bits(diagram.wave),
            bits(diagram.jam),
        ],
    )
}

fn with_row(digest: u64, row: RowNumbers) -> u64 {
    with_words(
        digest,
        &[
            u64::from(row.v),
            u64::from(row.w),
            u64::from(row.capacity),
            u64::from(row.jam),
        ],
    )
}

fn with_refusal(digest: u64, refusal: Refusal) -> u64 {
    with_words(
        digest,
        &[u64::from(refusal.number()), refusal.place() as u64],
    )
}

fn with_calibrated(digest: u64, answer: Result<Calibrated, Refusal>) -> u64 {
    match answer {
        Ok(calibrated) => with_row(with_diagram(digest, calibrated.diagram), calibrated.row),
        Err(refusal) => with_refusal(digest, refusal),
    }
}

// The fit's own answer goes into the digest too, since number 11 would hide its diagram.
fn with_fitted(digest: u64, answer: Result<Diagram, Refusal>) -> u64 {
    match answer {
        Ok(diagram) => with_diagram(digest, diagram),
        Err(refusal) => with_refusal(digest, refusal),
    }
}

// Settings, out of range or at an edge for some kinds.
fn settings(kind: u64, draw: u64, n: usize) -> Settings {
    let a = stepped(draw);
    let b = stepped(a);
    let small = ((a >> 50) % 16) as usize;
    Settings {
        g: if kind == 13 {
            edge(a)
        } else {
            1.0 / (16.0 + unit(a) * 1_008.0)
        },
        lanes: ((a >> 8) % 13) as u32,
        period: ((b >> 8) % 61) as u32,
        cell: if kind == 14 {
            edge(b)
        } else {
            0.015625 + unit(b) * 8.0
        },
        start: ((b >> 50) % 3) as usize,
        end: if kind == 15 { small } else { small.min(n) },
    }
}

// One set: a kind, the samples, two lengths that differ for one kind, and the settings.
fn trial(trials: Trials, flow: &mut Draws, occupancy: &mut Draws) -> Trials {
    let a = stepped(trials.draw);
    let kind = (a >> 32) % 16;
    let b = fill(flow, kind, a, 20_000.0, 20_000.0);
    let c = fill(occupancy, kind, b, 0.25, 1.0);
    let n = (a % 48) as usize;
    let m = if kind == 15 {
        ((a >> 8) % 48) as usize
    } else {
        n
    };
    let chosen = settings(kind, c, n);
    let fitted = with_fitted(trials.digest, fit(&flow[..n], &occupancy[..m], chosen));
    Trials {
        draw: stepped(c),
        digest: with_calibrated(fitted, calibrate(&flow[..n], &occupancy[..m], chosen)),
    }
}

// As many sets as asked for.
fn trials_of(count: u64, first: Trials, flow: &mut Draws, occupancy: &mut Draws) -> Trials {
    let mut trials = first;
    for _ in 0..count {
        trials = trial(trials, flow, occupancy);
    }
    trials
}

fn run(rt: &impl Print, flow: &mut Draws, occupancy: &mut Draws) -> io::Result<()> {
    let mut trials = Trials {
        draw: 88_172_645_463_325_252,
        digest: 1,
    };
    for _ in 0..8 {
        trials = trials_of(2_048, trials, flow, occupancy);
        let digest = trials.digest;
        println!(rt; "{digest}")?;
    }
    Ok(())
}

fn main(rt: HostRuntime) -> io::Result<()> {
    let mut flow = [0.0; 48];
    let mut occupancy = [0.0; 48];
    run(&rt, &mut flow, &mut occupancy)
}
