// The steps of the run program: how the demand is followed, what is refused and in which order, and every byte that is written; the
// cells and the state are read in `program_files`. They work on lists and values, and a file may come in chunks of any size; the program opens
// files and moves bytes.
#![tactic(auto)]

pub mod demand;
pub mod lines;
mod turns;

use text_scans::Scan;

// What reading on in the demand comes to.
#[derive(Clone, Copy, Debug, PartialEq, Eq)]
pub enum Turn {
    // The chunk is used up: the next one goes on from here, and nothing is written after this position.
    Part { scan: Scan, at: usize },
    // The period's lines end at this position, and the chunk goes on at this index.
    Period { next: usize, at: usize },
    // The program is over: its last line ends at this position.
    Over(usize),
}

// What following the demand comes to. The lines that it writes stand at the start of the output.
#[derive(Clone, Copy, Debug, PartialEq, Eq)]
pub enum Run {
    // So many bytes of the chunk are read, period k is being tried, the reading stands here, and so many bytes are written. Where bytes of the
    // chunk are left, the output has no room for another period's lines.
    On {
        read: usize,
        k: usize,
        scan: Scan,
        at: usize,
    },
    // The program is over: so many bytes are written.
    Over(usize),
}
