// What passes at one node, from what the mainline offers and what the on-ramp of the receiving cell offers. A way of sharing is one function
// here.
ghost use Rattle.std.specs.Prelude.{◌≡◌, ◌-◌, ◌≤◌, min};
ghost use Rattle.whole.specs.Share.{share};
ghost use Rattle.period.specs.Cell.{R};
ghost use Rattle.period.specs.Sharing.{asymmetric};

use crate::Passed;
use layout::Row;
use whole::{least, share};

// R.
fn room(row: Row, n: u32) -> u64
    requires { n ≤ row.jam }
    ensures { result ≡ R row n }
{
    share(row.w, row.jam - n)
}

// The least of e and the on-ramp's share of the room. Most cells have no on-ramp, and where nothing is offered nothing need be worked out.
fn ramp_share(row: Row, n: u32, e: u32) -> u32
    requires { n ≤ row.jam }
    ensures { result ≡ min e (share row.x (row.jam - n)) }
{
    if e == 0 {
        return 0;
    }
    least(e as u64, share(row.x, row.jam - n)) as u32
}

// Mainline and on-ramp each have a share of the room of their own.
pub(crate) fn asymmetric(row: Row, n: u32, a: u32, e: u32) -> Passed
    requires { n ≤ row.jam }
    ensures { result ≡ asymmetric row n a e }
{
    let room = room(row, n);
    Passed {
        main: least(a as u64, room) as u32,
        ramp: ramp_share(row, n, e),
        clear: (a as u64) < room,
    }
}
