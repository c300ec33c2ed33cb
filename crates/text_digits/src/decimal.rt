// Decimal digits, most significant first, and the line of a record, into a buffer that has room for them.
ghost use Rattle.std.specs.Prelude.{◌≡◌, ◌+◌, ◌≤◌, ◌<◌, leb, length, ◌∷◌, []};
ghost use Rattle.std.proofs.lemmas.List.Edits.{sets};
ghost use Rattle.text_digits.specs.Lines.{COMMA, CR, LF, DIGIT, digits_of, further_text, rest_text, line_text};
ghost use Rattle.text_digits.specs.Private.{comma, separated};

// How many decimal digits a number has.
fn digit_count(number: u64) -> usize
    ensures { result ≡ length (digits_of number) }
{
    let mut rest = number;
    let mut count = 1;
    while 10 <= rest {
        rest = rest / 10;
        count += 1;
    }
    count
}

// The byte of a digit.
fn digit(number: u64) -> u8
    requires { number < 10 }
    ensures { result ≡ DIGIT + number }
{
    b'0' + (number as u8)
}

// Writes the digits of a number: those before the last, by a call with a tenth of the number, and then the last.
pub(crate) fn put_digits(number: u64, buffer: &mut [u8], at: usize) -> usize
    requires { at + length (digits_of number) ≤ length buffer.old }
    ensures answer { result ≡ at + length (digits_of number) }
    ensures stores { buffer.new ≡ sets buffer.old at (digits_of number) }
{
    if number < 10 {
        buffer[at] = digit(number);
        at + 1
    } else {
        let next = put_digits(number / 10, buffer, at);
        buffer[next] = digit(number % 10);
        next + 1
    }
}

// Whether a number's digits fit a buffer of this size from a position on. No 64-bit number has more than 20, so they are
// counted only near the buffer's end.
pub(crate) fn fits(number: u64, size: usize, at: usize) -> bool
    ensures { result ≡ leb (at + length (digits_of number)) size }
{
    if size < at {
        return false;
    }
    let room = size - at;
    if 20 <= room {
        return true;
    }
    digit_count(number) <= room
}

// Whether numbers that each follow a comma fit this room.
fn further_fits(numbers: &[u64], room: usize) -> bool
    ensures { result ≡ leb (length (further_text numbers.now)) room }
{
    let mut left = room;
    for number in numbers {
        let taken = digit_count(*number);
        if left <= taken {
            return false;
        }
        left = left - taken - 1;
    }
    true
}

// Whether a record's line fits a buffer of this size from a position on. A number with its comma takes at most 21 bytes,
// so they are counted only near the buffer's end. The line has one byte more than its numbers each with a comma.
pub(crate) fn line_fits(numbers: &[u64], size: usize, at: usize) -> bool
    ensures { result ≡ leb (at + length (line_text numbers.now)) size }
{
    if size < at {
        return false;
    }
    let room = size - at;
    if numbers.len() < room / 21 {
        return true;
    }
    if room < 2 {
        return false;
    }
    if numbers.is_empty() {
        return true;
    }
    further_fits(numbers, room - 1)
}

// Writes the comma that each number of a record but the first follows.
fn put_comma(i: usize, buffer: &mut [u8], at: usize) -> usize
    requires { at + length (comma i) ≤ length buffer.old }
    ensures answer { result ≡ at + length (comma i) }
    ensures stores { buffer.new ≡ sets buffer.old at (comma i) }
{
    if i == 0 {
        return at;
    }
    buffer[at] = b',';
    at + 1
}

// Writes the number of index i of a record.
fn put_separated(i: usize, number: u64, buffer: &mut [u8], at: usize) -> usize
    requires { at + length (separated i number) ≤ length buffer.old }
    ensures answer { result ≡ at + length (separated i number) }
    ensures stores { buffer.new ≡ sets buffer.old at (separated i number) }
{
    let next = put_comma(i, buffer, at);
    put_digits(number, buffer, next)
}

// Writes a record's end.
fn put_end(buffer: &mut [u8], at: usize) -> usize
    requires { at + 2 ≤ length buffer.old }
    ensures answer { result ≡ at + 2 }
    ensures stores { buffer.new ≡ sets buffer.old at (CR ∷ LF ∷ []) }
{
    buffer[at] = b'\r';
    buffer[at + 1] = b'\n';
    at + 2
}

// Writes a record's line.
pub(crate) fn put_line(numbers: &[u64], buffer: &mut [u8], at: usize) -> usize
    requires { at + length (line_text numbers.now) ≤ length buffer.old }
    ensures answer { result ≡ at + length (line_text numbers.now) }
    ensures stores { buffer.new ≡ sets buffer.old at (line_text numbers.now) }
{
    let mut next = at;
    for (i, number) in numbers.iter().enumerate() {
        next = put_separated(i, *number, buffer, next);
    }
    put_end(buffer, next)
}

// Writes what the recursion writes for a number below 100,000, as most numbers of a flow sheet are, with no call of itself: each
// digit is stored where the number has it.
fn put_few(number: u64, buffer: &mut [u8], at: usize) -> usize
    requires { (number < 100_000) × (at + 5 ≤ length buffer.old) }
    ensures answer { result ≡ at + length (digits_of number) }
    ensures stores { buffer.new ≡ sets buffer.old at (digits_of number) }
{
    if number < 10 {
        buffer[at] = digit(number);
        return at + 1;
    }
    let mut next = at;
    if 10_000 <= number {
        buffer[next] = digit(number / 10_000);
        next += 1;
    }
    if 1_000 <= number {
        buffer[next] = digit(number / 1_000 % 10);
        next += 1;
    }
    if 100 <= number {
        buffer[next] = digit(number / 100 % 10);
        next += 1;
    }
    buffer[next] = digit(number / 10 % 10);
    buffer[next + 1] = digit(number % 10);
    next + 2
}

// Writes a number after a comma.
#[tactic(auto, using(crate::proofs::Digits::at_most_20))]
fn put_further(number: u64, buffer: &mut [u8], at: usize) -> usize
    requires { at + 21 ≤ length buffer.old }
    ensures answer { result ≡ at + length (COMMA ∷ digits_of number) }
    ensures within { result ≤ at + 21 }
    ensures stores { buffer.new ≡ sets buffer.old at (COMMA ∷ digits_of number) }
{
    buffer[at] = b',';
    if number < 100_000 {
        return put_few(number, buffer, at + 1);
    }
    put_digits(number, buffer, at + 1)
}

// Writes the rest of a record of seven numbers after its first: six numbers, each after a comma, and the end. They take at
// most 128 bytes, since each number has at most 20 digits.
pub(crate) fn put_rest(rest: [u64; 6], buffer: &mut [u8], at: usize) -> usize
    requires { at + 128 ≤ length buffer.old }
    ensures answer { result ≡ at + length (rest_text rest) }
    ensures within { result ≤ at + 128 }
    ensures stores { buffer.new ≡ sets buffer.old at (rest_text rest) }
{
    let mut next = at;
    for number in rest {
        next = put_further(number, buffer, next);
    }
    put_end(buffer, next)
}
