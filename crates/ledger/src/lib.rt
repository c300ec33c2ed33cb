// The ledger: what the corridor holds and what has come and gone, after any sequence of periods, runs, re-cuts, joins and refusals. It has no
// code of its own: its definitions are made of those that the public promises cite, and its theorem is in proofs/.
#![tactic(auto)]
