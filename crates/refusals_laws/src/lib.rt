// That every list of checks gives the lowest number that applies, at its smallest place. It has no code of its own: the law is in proofs/,
// over any list of checks, and cited for each list that the public promises are made of.
#![tactic(auto)]
