// What every listing program needs: text in a buffer that is written out when full, refusals, and
// input that is too long. The contracts say what a buffer holds: of what C's `read` and `write` do
// outside the program nothing is assumed, so nothing is said.
#![tactic(auto)]

ghost use Rattle.std.specs.Prelude.{◌≡◌, ◌%◌, leb, length};
ghost use Rattle.io.specs.Counts.{IsPrefixLen};
ghost use Rattle.algebra.specs.Numbers.{joined};
ghost use Rattle.algebra.specs.Reader.{pick};
ghost use Rattle.listing.specs.Buffer.{put_byte, put_all};
ghost use Rattle.listing.specs.Text.{decimal, word, digit, hex, name, bits, refusal};

// The numbers that every process has its standard input and output by.
const STDIN_FILENO: i32 = 0;

const STDOUT_FILENO: i32 = 1;

/// Puts a byte into the buffer, of which n are full, and answers how many are full then. Of a full
/// buffer all bytes are handed over first, to be written out.
// Kept: the buffer and its count as two, since the count is also what each function answers.
pub fn put(out: &mut [u8], n: usize, b: u8) -> usize
    ensures { (out.new, result) ≡ put_byte (out.old, n) b }
{
    if n < out.len() {
        out[n] = b;
        return n + 1;
    }
    if 0 < finish(out, out.len()) {
        out[0] = b;
        return 1;
    }
    0
}

/// Puts a text, and answers as `put` does; so does each function that puts.
pub fn put_text(out: &mut [u8], n: usize, text: &[u8]) -> usize
    ensures { (out.new, result) ≡ put_all (out.old, n) text.now }
{
    let mut at = n;
    for &b in text {
        at = put(out, at, b);
    }
    at
}

/// A number in decimal.
pub fn put_number(out: &mut [u8], n: usize, v: u64) -> usize
    ensures { (out.new, result) ≡ put_all (out.old, n) (decimal v) }
{
    let mut digits = [0u8; 20];
    let k = io::decimal(v, &mut digits);
    put_text(out, n, &digits[..k])
}

/// A space, and a number in decimal.
pub fn put_word(out: &mut [u8], n: usize, v: u64) -> usize
    ensures { (out.new, result) ≡ put_all (out.old, n) (word v) }
{
    let at = put(out, n, b' ');
    put_number(out, at, v)
}

// The last hexadecimal digit of a number.
fn glyph(d: u8) -> u8
    ensures { result ≡ digit (d % 16) }
{
    let x = d % 16;
    if x < 10 { b'0' + x } else { b'A' - 10 + x }
}

// Bytes, two capital hexadecimal digits each.
fn put_bytes(out: &mut [u8], n: usize, bytes: &[u8]) -> usize
    ensures { (out.new, result) ≡ put_all (out.old, n) (joined hex bytes.now) }
{
    let mut at = n;
    for &b in bytes {
        at = put(out, at, glyph(b / 16));
        at = put(out, at, glyph(b));
    }
    at
}

/// The units of a name, four capital hexadecimal digits each, or `-` for none.
pub fn put_name(out: &mut [u8], n: usize, units: &[u8]) -> usize
    ensures { (out.new, result) ≡ put_all (out.old, n) (name units.now) }
{
    if units.is_empty() {
        return put(out, n, b'-');
    }
    put_bytes(out, n, units)
}

/// The bits of a number, eight capital hexadecimal digits.
pub fn put_bits(out: &mut [u8], n: usize, v: u32) -> usize
    ensures { (out.new, result) ≡ put_all (out.old, n) (bits v) }
{
    let mut bytes = [0u8; 4];
    fields::put_number(&mut bytes, 0, v);
    put_bytes(out, n, &bytes)
}

/// The line of a refused file, in a buffer of which nothing is full.
pub fn put_refusal(out: &mut [u8], number: u32, place: usize) -> usize
    ensures { (out.new, result) ≡ put_all (out.old, 0) (refusal number place) }
{
    let mut at = put_text(out, 0, b"refused");
    at = put_word(out, at, u64::from(number));
    at = put_text(out, at, b" at");
    at = put_word(out, at, place as u64);
    put(out, at, b'\n')
}

// Reads on to the end of an input that is too long. The turns are counted, since nothing says that
// an input ends.
fn pass_rest() {
    let mut space = io::large_buffer();
    for _ in 0..u64::MAX {
        if io::read_full(STDIN_FILENO, &mut space) == 0 {
            return;
        }
    }
}

/// Takes standard input to its end: as much as the buffer holds, and passes over the rest. It
/// answers how many bytes at the buffer's start are the input's. Which they are is not said, nor that
/// those behind them stay: `io` says neither.
pub fn take_input(input: &mut [u8]) -> usize
    ensures prefix_len { IsPrefixLen result input.new }
    ensures input_len_unchanged { length input.new ≡ length input.old }
{
    let n = io::read_full(STDIN_FILENO, input);
    if n < input.len() {
        return n;
    }
    pass_rest();
    n
}

/// Hands the full bytes of a buffer over to be written out, and answers how many that were. Whether
/// they were written is not said: `io::write_all` promises nothing of its answer.
pub fn finish(out: &[u8], full: usize) -> usize
    ensures { result ≡ pick (leb full (length out.now)) full 0 }
{
    if out.len() < full {
        return 0;
    }
    io::write_all(STDOUT_FILENO, &out[..full]);
    full
}
