// The join: consecutive old cells become one new cell, and their vehicles, the first one's queue, the last one's mode and the ramps go on
// under the new table.
#![tactic(auto)]

ghost use Rattle.std.specs.Prelude.{◌≡◌};
ghost use Rattle.layout.specs.Corridor.{corridor_of};
ghost use Rattle.refusals.specs.Checks.{accepted, answer};
ghost use Rattle.join.specs.Private.{Joinable};
ghost use Rattle.join.specs.Join.{group_vehicles, joined_state, join_checks, JoinDone};

use layout::*;
use recut_checks::Change;
use refusals::Refusal;

// The vehicles of a group of old cells.
fn group_vehicles(old: &[u32], state: &[u32], first: usize, size: usize) -> u32
    requires { Joinable (corridor_of old.now state.now) first size }
    ensures { result ≡ group_vehicles (corridor_of old.now state.now) first size }
{
    let mut sum = 0;
    for k in 0..size {
        sum += count_at(state, first + k);
    }
    sum
}

// The vehicles, queues and modes of the old cells, group by group.
fn add_up(old: &[u32], state: &[u32], groups: &[u32], new: &[u32], list: &mut [u32])
    requires { answer (join_checks (corridor_of old.now state.now) groups.now new.now list.old) ≡ accepted }
    ensures { list.new ≡ joined_state (corridor_of old.now state.now) groups.now new.now }
{
    let many = cells(old);
    let n = cells(new);
    let mut first = 0;
    for j in 0..n {
        let size = groups[j] as usize;
        let cell = Cell {
            count: group_vehicles(old, state, first, size),
            queue: queue_at(many, state, first),
            mode: last_mode_at(many, state, first + (size - 1)),
        };
        put_cell(list, n, j, cell);
        first += size;
    }
    put_entry(list, entry_queue(state));
}

// The join of a table and a state into a new table, with one group size for each new cell. The new state goes to the list; on a refusal
// that stays as it came.
pub fn join(
    old: &[u32],
    state: &[u32],
    groups: &[u32],
    new: &[u32],
    list: &mut [u32],
) -> Result<(), Refusal>
    ensures { JoinDone (corridor_of old.now state.now) groups.now new.now list.old result list.new }
{
    recut_checks::accept(Change::Join, old, state, groups, new, list)?;
    add_up(old, state, groups, new, list);
    Ok(())
}
