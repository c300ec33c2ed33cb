// What a calibration's answers tell beyond the promises: no NaN is fitted, a row that was made is in range, and the worked figures. It has no
// code of its own: its theorems are about the definitions that the promises of `calibrate_rows` and `calibrate_fit` cite.
#![tactic(auto)]
