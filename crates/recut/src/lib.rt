// The re-cut: each old cell becomes consecutive new cells, and its vehicles, its queue, its mode and its ramps go on under the new table.
#![tactic(auto)]

ghost use Rattle.std.specs.Prelude.{◌+◌, ◌≤◌, ◌<◌, ◌≡◌, eqb, length};
ghost use Rattle.whole.specs.Search.{pick};
ghost use Rattle.layout.specs.Layout.{MOST};
ghost use Rattle.layout.specs.Corridor.{corridor_of};
ghost use Rattle.refusals.specs.Checks.{accepted, answer};
ghost use Rattle.recut.specs.Private.{rest_before, filled, Cuttable};
ghost use Rattle.recut.specs.Pieces.{next_piece};
ghost use Rattle.recut.specs.Recut.{divided, by_hand, new_state, recut_checks, RecutDone};

use layout::*;
use recut_checks::Change;
use refusals::Refusal;

// A piece of an old cell: its cell, its number there, and the sum of J before it.
#[derive(Clone, Copy)]
pub struct Piece {
    pub cell: usize,
    pub number: usize,
    pub before: u64,
}

// The share of a piece, worked out by hand: its vehicles, and the remainder that it leaves to the next piece.
#[derive(Clone, Copy)]
pub struct Share {
    pub vehicles: u64,
    pub rest: u32,
}

// A piece as it is filled: the new cell, and the remainder that it leaves.
#[derive(Clone, Copy)]
struct Filled {
    cell: Cell,
    rest: u32,
}

// What there is to share, divided by a cell's jam count. A cell of no jam count has nothing to share.
fn divide(all: u64, whole: u32) -> Share
    ensures { result ≡ divided all whole }
{
    if whole == 0 {
        return Share {
            vehicles: 0,
            rest: 0,
        };
    }
    Share {
        vehicles: all / (whole as u64),
        rest: (all % (whole as u64)) as u32,
    }
}

// The share of a piece of the given jam count, of a cell that holds n and has jam count whole, with the remainder that the piece before
// it left. That is below the cell's jam count, and is added after the division: no piece then waits for the one before it to be divided.
pub fn share_by_hand(n: u32, whole: u32, jam: u32, rest: u32) -> Share
    ensures { result ≡ by_hand n whole jam rest }
{
    let product = n as u64 * jam as u64;
    if whole <= rest {
        return divide(product + rest as u64, whole);
    }
    let own = divide(product, whole);
    let over = own.rest as u64 + rest as u64;
    if over < whole as u64 {
        return Share {
            vehicles: own.vehicles,
            rest: over as u32,
        };
    }
    Share {
        vehicles: own.vehicles + 1,
        rest: (over - whole as u64) as u32,
    }
}

// What the piece of that number gets of its cell's queue: the first piece has it.
fn piece_queue(number: usize, queue: u32) -> u32
    ensures { result ≡ pick (eqb number 0) queue 0 }
{
    if number == 0 { queue } else { 0 }
}

// What the piece of that number, one of so many, gets of its cell's mode: the last piece has it.
fn piece_mode(number: usize, count: usize, mode: u32) -> u32
    requires { number < MOST }
    ensures { result ≡ pick (eqb (number + 1) count) mode 0 }
{
    if number + 1 == count { mode } else { 0 }
}

// What a piece of the given jam count becomes, with the remainder that the piece before it left.
fn fill(old: &[u32], state: &[u32], pieces: &[u32], piece: Piece, jam: u32, rest: u32) -> Filled
    requires cuttable { Cuttable (corridor_of old.now state.now) pieces.now piece jam }
    requires rest_value { rest ≡ rest_before (corridor_of old.now state.now) piece }
    ensures { result ≡ filled (corridor_of old.now state.now) pieces.now piece jam }
{
    let i = piece.cell;
    let n = cells(old);
    let row = row_at(old, i);
    let share = share_by_hand(count_at(state, i), row.jam, jam, rest);
    let queue = piece_queue(piece.number, queue_at(n, state, i));
    let mode = piece_mode(piece.number, pieces[i] as usize, last_mode_at(n, state, i));
    let cell = Cell {
        count: share.vehicles as u32,
        queue,
        mode,
    };
    Filled {
        cell,
        rest: share.rest,
    }
}

// The piece after one of the given jam count.
fn next_piece(pieces: &[u32], piece: Piece, jam: u32) -> Piece
    requires { (piece.cell < length pieces.now) × (piece.number < MOST) × (piece.before ≤ 4_000_000) }
    ensures { result ≡ next_piece pieces.now piece jam }
{
    let cell = piece.cell;
    if piece.number + 1 < pieces[cell] as usize {
        Piece {
            cell,
            number: piece.number + 1,
            before: piece.before + jam as u64,
        }
    } else {
        Piece {
            cell: cell + 1,
            number: 0,
            before: 0,
        }
    }
}

// The vehicles, queues and modes of the old cells, shared out among their pieces.
fn cut(old: &[u32], state: &[u32], pieces: &[u32], new: &[u32], list: &mut [u32])
    requires { answer (recut_checks (corridor_of old.now state.now) pieces.now new.now list.old) ≡ accepted }
    ensures { list.new ≡ new_state (corridor_of old.now state.now) pieces.now new.now }
{
    let n = cells(new);
    let mut piece = Piece {
        cell: 0,
        number: 0,
        before: 0,
    };
    let mut rest = 0;
    for j in 0..n {
        let row = row_at(new, j);
        let filled = fill(old, state, pieces, piece, row.jam, rest);
        put_cell(list, n, j, filled.cell);
        piece = next_piece(pieces, piece, row.jam);
        rest = filled.rest;
    }
    put_entry(list, entry_queue(state));
}

// The re-cut of a table and a state into a new table, with one piece count for each old cell. The new state goes to the list; on a refusal
// that stays as it came.
pub fn recut(
    old: &[u32],
    state: &[u32],
    pieces: &[u32],
    new: &[u32],
    list: &mut [u32],
) -> Result<(), Refusal>
    ensures { RecutDone (corridor_of old.now state.now) pieces.now new.now list.old result list.new }
{
    recut_checks::accept(Change::Cut, old, state, pieces, new, list)?;
    cut(old, state, pieces, new, list);
    Ok(())
}
