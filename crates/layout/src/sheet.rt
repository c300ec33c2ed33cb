// Where each number stands in a flow sheet, and how long it is.
ghost use Rattle.std.specs.Prelude.{◌≡◌, ◌+◌, ◌*◌, ◌<◌, length};
ghost use Rattle.layout.specs.Layout.{Listed};
ghost use Rattle.layout.specs.Sheet.{sheet_length, flow_in, off_flow_in, on_flow_in, mode_in, with_flow, with_off_flow, with_on_flow, with_mode};

pub fn sheet_length(n: usize) -> usize
    requires { Listed n }
    ensures { result ≡ sheet_length n }
{
    4 * n + 1
}

// The length of the sheet of 512 cells.
pub const SHEET_ROOM: usize = 2_049;

// The flow out of a position.
pub fn flow_in(sheet: &[u32], position: usize) -> u32
    requires { position < length sheet.now }
    ensures { result ≡ flow_in sheet.now position }
{
    sheet[position]
}

pub fn off_flow_in(n: usize, sheet: &[u32], i: usize) -> u32
    requires { 1 + n + i < length sheet.now }
    ensures { result ≡ off_flow_in n sheet.now i }
{
    sheet[1 + n + i]
}

pub fn on_flow_in(n: usize, sheet: &[u32], i: usize) -> u32
    requires { 1 + n + n + i < length sheet.now }
    ensures { result ≡ on_flow_in n sheet.now i }
{
    sheet[1 + n + n + i]
}

pub fn mode_in(n: usize, sheet: &[u32], i: usize) -> u32
    requires { 1 + n + n + n + i < length sheet.now }
    ensures { result ≡ mode_in n sheet.now i }
{
    sheet[1 + n + n + n + i]
}

// The writers store one number each.

pub fn put_flow(sheet: &mut [u32], position: usize, f: u32)
    requires { position < length sheet.old }
    ensures { sheet.new ≡ with_flow sheet.old position f }
{
    sheet[position] = f;
}

pub fn put_off_flow(sheet: &mut [u32], n: usize, i: usize, s: u32)
    requires { 1 + n + i < length sheet.old }
    ensures { sheet.new ≡ with_off_flow n sheet.old i s }
{
    sheet[1 + n + i] = s;
}

pub fn put_on_flow(sheet: &mut [u32], n: usize, i: usize, r: u32)
    requires { 1 + n + n + i < length sheet.old }
    ensures { sheet.new ≡ with_on_flow n sheet.old i r }
{
    sheet[1 + n + n + i] = r;
}

pub fn put_mode(sheet: &mut [u32], n: usize, i: usize, mode: u32)
    requires { 1 + n + n + n + i < length sheet.old }
    ensures { sheet.new ≡ with_mode n sheet.old i mode }
{
    sheet[1 + n + n + n + i] = mode;
}
