// Doubles as the rules read them, with minus zero counted as zero; and one of two picked by a test.
ghost use Rattle.std.specs.Prelude.{◌≡◌};
ghost use Rattle.whole.specs.Search.{pick};
ghost use Rattle.calibrate_rows.specs.Doubles.{unsigned};

// Minus zero counts as zero.
pub(crate) fn unsigned(x: f64) -> f64
    ensures { result ≡ unsigned x }
{
    if x == 0.0 { 0.0 } else { x }
}

// x where the test holds, else y. Both are known, so that no branch is needed.
pub(crate) fn pick(test: bool, x: f64, y: f64) -> f64
    ensures { result ≡ pick test x y }
{
    if test { x } else { y }
}
