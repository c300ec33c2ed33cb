// The lines of the flow sheet, into an output buffer that has room for them.
ghost use Rattle.std.specs.Prelude.{◌≡◌, ◌+◌, ◌≤◌, length};
ghost use Rattle.text_digits.specs.Lines.{line_text};
ghost use Rattle.program_steps.specs.Lines.{line_room, HEADER, entry_record, period_text, stop_text, line_written, after_line};
ghost use Rattle.program_steps.specs.Private.{Put, PutLine, PutDigits, PutCell, PutCells, LineFits, EntryFits, CellFits, CellsFit, PeriodFits};

use layout::sheet::*;
use layout::*;
use program_files::Stop;
use refusals::Refusal;

// The most bytes of a line: seven numbers of at most 20 digits, each with a comma, and its end.
pub(crate) const LINE_ROOM: usize = 149;

// Copies bytes to a position of the output.
fn put_bytes(bytes: &[u8], out: &mut [u8], at: usize) -> usize
    requires { at + length bytes.now ≤ length out.old }
    ensures { Put bytes.now out.old at result out.new }
{
    out[at..at + bytes.len()].copy_from_slice(bytes);
    at + bytes.len()
}

// The header, at the start of an output.
#[tactic(auto, unfolding(crate::specs::Lines::line_written, crate::specs::Lines::after_line))]
pub fn header(out: &mut [u8]) -> Result<usize, Refusal>
    ensures answer { result ≡ line_written out.old HEADER }
    ensures stores { out.new ≡ after_line out.old HEADER }
{
    if out.len() < LINE_ROOM {
        return Err(Refusal::Length);
    }
    Ok(put_bytes(b"k,i,n,f,s,r,mode\r\n", out, 0))
}

// A line of seven numbers.
#[tactic(auto, using(text_digits::proofs::Lines::line_at_most), unfolding(text_digits::specs::Writes::written, text_digits::specs::Writes::after_writing))]
fn put_line(numbers: &[u64], out: &mut [u8], at: usize) -> usize
    requires { LineFits numbers.now out.old at }
    ensures { PutLine (line_text numbers.now) out.old at result out.new }
{
    text_digits::write_record(numbers, out, at).unwrap()
}

// A refusal's line.
#[tactic(auto, unfolding(crate::specs::Lines::stop_text))]
pub(crate) fn put_stop(stop: Stop, out: &mut [u8], at: usize) -> usize
    requires { at + line_room ≤ length out.old }
    ensures { Put (stop_text stop) out.old at result out.new }
{
    let line = [
        stop.period as u64,
        stop.place as u64,
        u64::from(stop.number),
        u64::from(stop.file),
        0,
        0,
        2,
    ];
    put_line(&line, out, at)
}

// The line that ends the program with a refusal, at the start of an output.
#[tactic(auto, unfolding(crate::specs::Lines::line_written, crate::specs::Lines::after_line))]
pub fn stop_line(stop: Stop, out: &mut [u8]) -> Result<usize, Refusal>
    ensures answer { result ≡ line_written out.old (stop_text stop) }
    ensures stores { out.new ≡ after_line out.old (stop_text stop) }
{
    if out.len() < LINE_ROOM {
        return Err(Refusal::Length);
    }
    Ok(put_stop(stop, out, 0))
}

// The entry's line.
fn put_entry(k: usize, state: &[u32], sheet: &[u32], out: &mut [u8], at: usize) -> usize
    requires { EntryFits state.now sheet.now out.old at }
    ensures { PutLine (line_text (entry_record k state.now sheet.now)) out.old at result out.new }
{
    let line = [
        k as u64,
        0,
        u64::from(entry_queue(state)),
        u64::from(flow_in(sheet, 0)),
        0,
        0,
        0,
    ];
    put_line(&line, out, at)
}

// The digits of a period's number, at the start of a space for them.
#[tactic(auto, using(text_digits::proofs::Digits::at_most_20), unfolding(text_digits::specs::Writes::written, text_digits::specs::Writes::after_writing))]
fn period_digits(k: usize, space: &mut [u8]) -> usize
    requires { 20 ≤ length space.old }
    ensures { PutDigits k space.old result space.new }
{
    text_digits::write_decimal(k as u64, space, 0).unwrap()
}

// A cell's line, under a period whose digits are given: they are written once for all of its lines.
fn put_cell(
    period: &[u8],
    n: usize,
    i: usize,
    state: &[u32],
    sheet: &[u32],
    out: &mut [u8],
    at: usize,
) -> usize
    requires { CellFits period.now n i state.now sheet.now out.old at }
    ensures { PutCell period.now n i state.now sheet.now out.old at result out.new }
{
    let to = put_bytes(period, out, at);
    let rest = [
        (i + 1) as u64,
        u64::from(count_at(state, i)),
        u64::from(flow_in(sheet, i + 1)),
        u64::from(off_flow_in(n, sheet, i)),
        u64::from(on_flow_in(n, sheet, i)),
        u64::from(mode_in(n, sheet, i)),
    ];
    text_digits::write_rest(rest, out, to).unwrap()
}

// The cells' lines.
fn put_cells(
    period: &[u8],
    n: usize,
    state: &[u32],
    sheet: &[u32],
    out: &mut [u8],
    at: usize,
) -> usize
    requires { CellsFit period.now n state.now sheet.now out.old at }
    ensures { PutCells period.now n state.now sheet.now out.old at result out.new }
{
    let mut to = at;
    for i in 0..n {
        to = put_cell(period, n, i, state, sheet, out, to);
    }
    to
}

// The lines of a period, from the state after it and its sheet. Its loops are quickest where nothing around them wants the registers.
#[inline(never)]
pub(crate) fn put_period(
    k: usize,
    n: usize,
    state: &[u32],
    sheet: &[u32],
    out: &mut [u8],
    at: usize,
) -> usize
    requires { PeriodFits n state.now sheet.now out.old at }
    ensures { Put (period_text k n state.now sheet.now) out.old at result out.new }
{
    let to = put_entry(k, state, sheet, out, at);
    let mut space: [u8; 20] = [0; 20];
    let digits = period_digits(k, &mut space);
    put_cells(&space[..digits], n, state, sheet, out, to)
}
