// Where each number stands in a table, a state, a demand row and a flow sheet, and how long each list is: no other code says where a number
// stands or works out a length. The readers and writers ask that the index is within the list.
#![tactic(auto)]

ghost use Rattle.std.specs.Prelude.{◌≡◌, ◌+◌, ◌*◌, ◌<◌, length};
ghost use Rattle.layout.specs.Laid.{Space, with_entry};
ghost use Rattle.layout.specs.Layout.{WIDTH, Listed, cells, table_length, row_at, ramp_positions, ramp_cell, ramp_at, state_length, entry_queue, count_at, queue_at, last_mode_at, cell_at, with_cell, demand_length, entry_demand, on_demand_at, off_demand_at, with_demands};

pub mod sheet;

// One row of a cell table, in the rules' order of columns.
#[derive(Clone, Copy)]
pub struct Row {
    pub v: u32,
    pub w: u32,
    pub capacity: u32,
    pub jam: u32,
    pub on: u32,
    pub x: u32,
    pub c: u32,
    pub off: u32,
    pub b: u32,
    pub dropped: u32,
}

// What a state holds of one cell: the count n, the on-ramp queue q and the mode of the period before.
#[derive(Clone, Copy)]
pub struct Cell {
    pub count: u32,
    pub queue: u32,
    pub mode: u32,
}

// What a demand row brings to one cell: the on-ramp demand d and the off-ramp demand o.
#[derive(Clone, Copy)]
pub struct Demands {
    pub on: u32,
    pub off: u32,
}

// The numbers of a row.
pub fn width() -> usize
    ensures { result ≡ WIDTH }
{
    10
}

// N, the whole rows of a table.
pub fn cells(table: &[u32]) -> usize
    ensures { result ≡ cells table.now }
{
    table.len() / 10
}

// The lengths of the lists of n cells.

pub fn table_length(n: usize) -> usize
    requires { Listed n }
    ensures { result ≡ table_length n }
{
    10 * n
}

pub fn state_length(n: usize) -> usize
    requires { Listed n }
    ensures { result ≡ state_length n }
{
    1 + n + n + n
}

pub fn demand_length(n: usize) -> usize
    requires { Listed n }
    ensures { result ≡ demand_length n }
{
    2 * n + 1
}

// The lengths of the lists of 512 cells.
pub const TABLE_ROOM: usize = 5_120;

pub const STATE_ROOM: usize = 1_537;

pub const DEMAND_ROOM: usize = 1_025;

// Room for a list of so many numbers.
pub fn space<const N: usize>() -> [u32; N]
    ensures { Space N result }
{
    [0; N]
}

// Row i of a table.
pub fn row_at(table: &[u32], i: usize) -> Row
    requires { i < cells table.now }
    ensures { result ≡ row_at table.now i }
{
    Row {
        v: table[10 * i + 0],
        w: table[10 * i + 1],
        capacity: table[10 * i + 2],
        jam: table[10 * i + 3],
        on: table[10 * i + 4],
        x: table[10 * i + 5],
        c: table[10 * i + 6],
        off: table[10 * i + 7],
        b: table[10 * i + 8],
        dropped: table[10 * i + 9],
    }
}

// The ramp positions of n cells along the road: so the on-ramp of the cell of index n stands there, its off-ramp one position on.
pub fn ramp_positions(n: usize) -> usize
    requires { Listed n }
    ensures { result ≡ ramp_positions n }
{
    n * 2
}

// The index of the cell of a ramp position.
pub fn ramp_cell(k: usize) -> usize
    ensures { result ≡ ramp_cell k }
{
    k / 2
}

// The ramp number at position k along the road.
pub fn ramp_at(table: &[u32], k: usize) -> u32
    requires { k < ramp_positions (cells table.now) }
    ensures { result ≡ ramp_at table.now k }
{
    let row = row_at(table, k / 2);
    if k % 2 == 0 { row.on } else { row.off }
}

pub fn entry_queue(state: &[u32]) -> u32
    requires { 0 < length state.now }
    ensures { result ≡ entry_queue state.now }
{
    state[0]
}

pub fn count_at(state: &[u32], i: usize) -> u32
    requires { 1 + i < length state.now }
    ensures { result ≡ count_at state.now i }
{
    state[1 + i]
}

pub fn queue_at(n: usize, state: &[u32], i: usize) -> u32
    requires { 1 + n + i < length state.now }
    ensures { result ≡ queue_at n state.now i }
{
    state[1 + n + i]
}

// The mode of the cell of index i in the period before.
pub fn last_mode_at(n: usize, state: &[u32], i: usize) -> u32
    requires { 1 + n + n + i < length state.now }
    ensures { result ≡ last_mode_at n state.now i }
{
    state[1 + n + n + i]
}

// The cell of index i in a state.
pub fn cell_at(n: usize, state: &[u32], i: usize) -> Cell
    requires { (i < n) × (length state.now ≡ state_length n) }
    ensures { result ≡ cell_at n state.now i }
{
    Cell {
        count: state[1 + i],
        queue: state[1 + n + i],
        mode: state[1 + n + n + i],
    }
}

// Stores the cell of index i in a state.
pub fn put_cell(state: &mut [u32], n: usize, i: usize, cell: Cell)
    requires { (i < n) × (length state.old ≡ state_length n) }
    ensures { state.new ≡ with_cell n state.old i cell }
{
    state[1 + i] = cell.count;
    state[1 + n + i] = cell.queue;
    state[1 + n + n + i] = cell.mode;
}

pub fn entry_demand(demand: &[u32]) -> u32
    requires { 0 < length demand.now }
    ensures { result ≡ entry_demand demand.now }
{
    demand[0]
}

pub fn on_demand_at(demand: &[u32], i: usize) -> u32
    requires { 1 + i < length demand.now }
    ensures { result ≡ on_demand_at demand.now i }
{
    demand[1 + i]
}

pub fn off_demand_at(n: usize, demand: &[u32], i: usize) -> u32
    requires { 1 + n + i < length demand.now }
    ensures { result ≡ off_demand_at n demand.now i }
{
    demand[1 + n + i]
}

// Stores the demands of the cell of index i in a demand row.
pub fn put_demands(demand: &mut [u32], n: usize, i: usize, demands: Demands)
    requires { (i < n) × (length demand.old ≡ demand_length n) }
    ensures { demand.new ≡ with_demands n demand.old i demands }
{
    demand[1 + i] = demands.on;
    demand[1 + n + i] = demands.off;
}

// Stores the entry's number: Q in a state, the entry demand in a demand row, the entry flow in a sheet.
pub fn put_entry(list: &mut [u32], value: u32)
    requires { 0 < length list.old }
    ensures { list.new ≡ with_entry list.old value }
{
    list[0] = value;
}
