// Where every dropped capacity is F, the drop changes nothing: flows, counts, queues and modes are those of the rule without a drop, whatever
// the modes at the start, for one period and for a run. It has no code of its own: its laws are about the definitions that the promises of
// `period` and `period_run` cite.
#![tactic(auto)]
