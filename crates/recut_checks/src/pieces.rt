// What is asked of the pieces of each whole cell.
ghost use Rattle.std.specs.Prelude.{◌≡◌, ℕ, ◌+◌, ◌≤◌, ◌<◌, eqb};
ghost use Rattle.whole.specs.Sums.{sum};
ghost use Rattle.whole.specs.Search.{every};
ghost use Rattle.layout.specs.Layout.{cells, row_at};
ghost use Rattle.recut_checks.specs.Pieces.{piece_count, first_piece, jam_before, keeps_on_ramp, keeps_off_ramp, no_other_ramp, pieces_fit, cell_has_pieces};

use layout::*;

// The piece count of a whole cell; 0 past the end of the list.
pub(crate) fn piece_count(pieces: &[u32], i: usize) -> usize
    ensures { result ≡ piece_count pieces.now i }
{
    pieces.get(i).copied().unwrap_or(0) as usize
}

// Whether n terms sum to that many. What is left of it is counted down, so that no sum can pass it.
fn sums_to<F: Fn(usize) -> usize>(n: usize, term: F, all: usize) -> bool
    ghost terms: { ℕ → ℕ }
    requires callable { (k : ℕ) → k < n → F.pre term k }
    requires gives { (k x : ℕ) → k < n → F.post term k x → x ≡ terms k }
    ensures { result ≡ eqb (sum n terms) all }
{
    let mut left = all;
    for i in 0..n {
        let next = term(i);
        if left < next {
            return false;
        }
        left -= next;
    }
    left == 0
}

// Whether the counts of n cells sum to that many pieces.
pub(crate) fn counts_sum(pieces: &[u32], n: usize, all: usize) -> bool
    ensures { result ≡ eqb (first_piece pieces.now n) all }
{
    sums_to(n, |i| piece_count(pieces, i), all)
}

// Whether J of count pieces sums to that of their cell.
#[tactic(auto, unfolding(crate::specs::Pieces::jam_before))]
fn jams_sum(parts: &[u32], first: usize, count: usize, jam: u32) -> bool
    requires { first + count ≤ cells parts.now }
    ensures { result ≡ eqb (jam_before parts.now first count) jam }
{
    sums_to(
        count,
        |k| row_at(parts, first + k).jam as usize,
        jam as usize,
    )
}

// Whether a piece has no ramp but an on-ramp on the first and an off-ramp on the last.
fn no_other_ramp(count: usize, k: usize, piece: Row) -> bool
    requires { k < count }
    ensures { result ≡ no_other_ramp count k piece }
{
    ((k == 0) | (piece.on == 0)) & ((k + 1 == count) | (piece.off == 0))
}

// Whether that holds of each of count pieces.
fn no_other_ramps(parts: &[u32], first: usize, count: usize) -> bool
    requires { first + count ≤ cells parts.now }
    ensures { result ≡ every count (λ k. no_other_ramp count k (row_at parts.now (first + k))) }
{
    (0..count).all(|k| no_other_ramp(count, k, row_at(parts, first + k)))
}

fn keeps_on_ramp(whole: Row, piece: Row) -> bool
    ensures { result ≡ keeps_on_ramp whole piece }
{
    (piece.on == whole.on) & (piece.c == whole.c)
}

fn keeps_off_ramp(whole: Row, piece: Row) -> bool
    ensures { result ≡ keeps_off_ramp whole piece }
{
    (piece.off == whole.off) & (piece.b == whole.b)
}

// Whether the pieces of a whole cell keep its jam count and its ramps.
fn pieces_fit(whole: Row, parts: &[u32], first: usize, count: usize) -> bool
    requires { (0 < count) × (first + count ≤ cells parts.now) }
    ensures { result ≡ pieces_fit whole parts.now first count }
{
    jams_sum(parts, first, count, whole.jam)
        & keeps_on_ramp(whole, row_at(parts, first))
        & keeps_off_ramp(whole, row_at(parts, first + (count - 1)))
        & no_other_ramps(parts, first, count)
}

// Whether the whole cell of index i has its pieces by the rules; first is the first of them.
pub(crate) fn cell_has_pieces(
    whole: &[u32],
    pieces: &[u32],
    parts: &[u32],
    i: usize,
    first: usize,
) -> bool
    requires { (i < cells whole.now) × (first ≡ first_piece pieces.now i) × (first + piece_count pieces.now i ≤ cells parts.now) }
    ensures { result ≡ cell_has_pieces whole.now pieces.now parts.now i }
{
    let count = piece_count(pieces, i);
    count != 0 && pieces_fit(row_at(whole, i), parts, first, count)
}
