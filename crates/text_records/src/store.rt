// Where the numbers of a record go.
ghost use Rattle.std.specs.Prelude.{◌≡◌, set};

// Stores a number at its index, where the list has one. `get_mut` would not promise that the other numbers stay.
pub(crate) fn put(list: &mut [u32], at: usize, number: u32)
    ensures { list.new ≡ set list.old at number }
{
    if at < list.len() {
        list[at] = number;
    }
}
