// The two passes of a period over the cells, each from the last cell up the road.
ghost use Rattle.std.specs.Prelude.{◌≡◌, suc, ◌<◌, length};
ghost use Rattle.layout.specs.Layout.{cells, state_length, demand_length};
ghost use Rattle.layout.specs.Sheet.{sheet_length};
ghost use Rattle.layout.specs.Corridor.{corridor_of};
ghost use Rattle.period.specs.Sharing.{asymmetric};
ghost use Rattle.period.specs.Updated.{cell_after, updated};
ghost use Rattle.period.specs.Period.{RowAccepted, capacity_now, limit_now, sent_at, offer_at, ramp_offer_at, node_at, flow_at, sheet_of};
ghost use Rattle.period.specs.Private.{node_passed, cell_sent, cell_passed, last_passed, CellUpdatable, Updatable};

use crate::Passed;
use crate::cell::*;
use crate::node::asymmetric;
use layout::sheet::*;
use layout::*;
use whole::least;

// What a period works from: an accepted corridor of n cells, as it stands at the start, and its demand row.
#[derive(Clone, Copy)]
pub(crate) struct Start<'a> {
    pub(crate) n: usize,
    pub(crate) table: &'a [u32],
    pub(crate) state: &'a [u32],
    pub(crate) demand: &'a [u32],
    ghost all: { n ≡ cells table.now },
    ghost some: { 0 < n },
    ghost state_len: { length state.now ≡ state_length n },
    ghost demand_len: { length demand.now ≡ demand_length n },
    ghost row_accepted: { RowAccepted (corridor_of table.now state.now) demand.now },
}

impl Start<'_> {
    ghost use Rattle.period.specs.Starts.{corridor};

    // F of the cell of index i, as it holds now.
    fn capacity_now(&self, i: usize) -> u32
        requires { i < self.now.n }
        ensures { result ≡ capacity_now (corridor self.now) i }
    {
        let row = row_at(self.table, i);
        if last_mode_at(self.n, self.state, i) == 1 {
            row.dropped
        } else {
            row.capacity
        }
    }

    // c of the cell of index i, as it holds now.
    fn limit_now(&self, i: usize) -> u32
        requires { i < self.now.n }
        ensures { result ≡ limit_now (corridor self.now) i }
    {
        row_at(self.table, i).c
    }

    // What the on-ramp of the cell of index i offers. Most cells have none, and its limit is 0.
    fn ramp_offer(&self, i: usize) -> u32
        requires { i < self.now.n }
        ensures { result ≡ ramp_offer_at (corridor self.now) self.now.demand.now i }
    {
        let limit = self.limit_now(i);
        if limit == 0 {
            return 0;
        }
        let waits = queue_at(self.n, self.state, i) as u64 + on_demand_at(self.demand, i) as u64;
        least(waits, limit as u64) as u32
    }

    // The node upstream of the cell of index p, where the position p offers a: what passes is stored.
    fn pass_node(&self, sheet: &mut [u32], p: usize, a: u32) -> Passed
        requires inside { p < self.now.n }
        requires a_value { a ≡ offer_at (corridor self.now) self.now.demand.now p }
        requires sheet_len { length sheet.old ≡ sheet_length self.now.n }
        ensures passes { result ≡ node_at asymmetric (corridor self.now) self.now.demand.now p }
        ensures stores { sheet.new ≡ node_passed asymmetric (corridor self.now) self.now.demand.now self.now.n sheet.old p }
    {
        let e = self.ramp_offer(p);
        let passed = asymmetric(row_at(self.table, p), count_at(self.state, p), a, e);
        put_flow(sheet, p, passed.main);
        put_on_flow(sheet, self.n, p, passed.ramp);
        passed
    }

    // The cell of index i sends what it can of m, which it would send: the answer is f.
    fn send(&self, sheet: &mut [u32], i: usize, m: u64) -> u64
        requires inside { suc i < self.now.n }
        requires m_value { m ≡ sent_at (corridor self.now) self.now.demand.now i }
        requires sheet_len { length sheet.old ≡ sheet_length self.now.n }
        ensures sends { result ≡ flow_at asymmetric (corridor self.now) self.now.demand.now (suc i) }
        ensures stores { sheet.new ≡ cell_sent asymmetric (corridor self.now) self.now.demand.now self.now.n sheet.old i }
    {
        let capacity = self.capacity_now(i);
        let a = least(m, capacity as u64) as u32;
        let passed = self.pass_node(sheet, i + 1, a);
        put_mode(sheet, self.n, i, mode(m, capacity, passed.clear));
        passed.main as u64
    }

    // The cell of index i and the node downstream of it. The kind of the off-ramp is tested once, before the node: with tests before and after
    // it a run takes longer.
    fn pass_cell(&self, sheet: &mut [u32], i: usize)
        requires inside { suc i < self.now.n }
        requires sheet_len { length sheet.old ≡ sheet_length self.now.n }
        ensures { sheet.new ≡ cell_passed asymmetric (corridor self.now) self.now.demand.now self.now.n sheet.old i }
    {
        let row = row_at(self.table, i);
        let d = sending(row, count_at(self.state, i));
        if row.off == 0 {
            self.send(sheet, i, d);
            put_off_flow(sheet, self.n, i, 0);
            return;
        }
        if row.b == 0 {
            let s = least(off_demand_at(self.n, self.demand, i) as u64, d);
            self.send(sheet, i, d - s);
            put_off_flow(sheet, self.n, i, s as u32);
            return;
        }
        let f = self.send(sheet, i, split_stays(row.b, d));
        put_off_flow(sheet, self.n, i, split_leaves(row.b, f));
    }

    // The last cell, of index i: past it there is room for any flow.
    fn pass_last(&self, sheet: &mut [u32], i: usize)
        requires last { suc i ≡ self.now.n }
        requires sheet_len { length sheet.old ≡ sheet_length self.now.n }
        ensures { sheet.new ≡ last_passed asymmetric (corridor self.now) self.now.demand.now self.now.n sheet.old i }
    {
        let row = row_at(self.table, i);
        let count = count_at(self.state, i);
        let o = off_demand_at(self.n, self.demand, i);
        let m = would_send(row, count, o);
        let capacity = self.capacity_now(i);
        let f = least(m, capacity as u64);
        put_flow(sheet, i + 1, f as u32);
        put_mode(sheet, self.n, i, mode(m, capacity, true));
        put_off_flow(sheet, self.n, i, off_flow(row, count, o, f));
    }

    // Every flow, from the old state, into the sheet: the last cell, then node by node up the road to the entry.
    pub(crate) fn flows(&self, sheet: &mut [u32])
        requires sheet_len { length sheet.old ≡ sheet_length self.now.n }
        ensures { sheet.new ≡ sheet_of asymmetric (corridor self.now) self.now.demand.now }
    {
        self.pass_last(sheet, self.n - 1);
        for i in (0..self.n - 1).rev() {
            self.pass_cell(sheet, i);
        }
        let a = entry_queue(self.state) + entry_demand(self.demand);
        self.pass_node(sheet, 0, a);
    }
}

// A cell after the period.
fn cell_after(n: usize, state: &[u32], demand: &[u32], sheet: &[u32], i: usize) -> Cell
    requires { CellUpdatable n state.now demand.now sheet.now i }
    ensures { result ≡ cell_after n state.now demand.now sheet.now i }
{
    let r = on_flow_in(n, sheet, i);
    let comes = count_at(state, i) + flow_in(sheet, i) + r;
    Cell {
        count: comes - (flow_in(sheet, i + 1) + off_flow_in(n, sheet, i)),
        queue: queue_at(n, state, i) + on_demand_at(demand, i) - r,
        mode: mode_in(n, sheet, i),
    }
}

// The state, brought up to date from the demand row and the sheet, whoever wrote that.
pub(crate) fn bring_up_to_date(n: usize, state: &mut [u32], demand: &[u32], sheet: &[u32])
    requires { Updatable n state.old demand.now sheet.now }
    ensures { state.new ≡ updated n state.old demand.now sheet.now }
{
    for i in (0..n).rev() {
        let cell = cell_after(n, state, demand, sheet, i);
        put_cell(state, n, i, cell);
    }
    let entry = entry_queue(state) + entry_demand(demand) - flow_in(sheet, 0);
    put_entry(state, entry);
}
