// What a re-cut and a join keep: vehicles, each on-ramp's queue and limit, each off-ramp's split, the ramp numbers along the road, a cell's
// mode at its end; their new state is accepted under the new table. Cut and joined again, the old state is back; and two joins are one. It
// has no code of its own: its laws are about the definitions that the promises of `recut` and `join` cite.
#![tactic(auto)]
