// Lists the descriptor on standard input: its header, a line a row, `end`; or the refusal.
#![tactic(auto)]

ghost use Rattle.std.specs.Prelude.{◌≡◌, List, ◌++◌, ◌≤◌, ◌<◌, length, take, drop};
ghost use Rattle.algebra.specs.Numbers.{joined};
ghost use Rattle.descriptor.specs.Reading.{Row, descriptor};
ghost use Rattle.listing.specs.Buffer.{put_all};
ghost use Rattle.listing.specs.Text.{ascii, word, lines, taken};
ghost use Rattle.descriptor_list.specs.scaffold.Held.{Given, Held};
ghost use Rattle.descriptor_list.specs.Listing.{heading, line, listing};
ghost use Rattle.descriptor_list.specs.Listing.{kind as Listing·kind};

use fault::Fault;
use listing::{finish, put, put_number, put_refusal, put_text, put_word, take_input};

// The longest input that is listed.
const TAKEN: usize = 16384;

// The characters of a kind, without the spaces at its end.
fn put_kind(out: &mut [u8], n: usize, kind: u32) -> usize
    ensures { (out.new, result) ≡ put_all (out.old, n) (Listing·kind kind) }
{
    let mut tag = [0u8; 4];
    fields::put_number(&mut tag, 0, kind);
    let mut k: usize = 4;
    // Kept: the spaces at the end are left out one by one.
    while 0 < k && tag[k - 1] == b' ' {
        k -= 1;
    }
    put_text(out, n, &tag[..k])
}

// Parent, first byte, length and depth.
fn put_places(out: &mut [u8], n: usize, row: &[u32]) -> usize
    requires { 5 ≤ length row.now }
    ensures { (out.new, result) ≡ put_all (out.old, n) (joined word (take 4 (drop 1 row.now))) }
{
    let mut at = n;
    for k in 1..5 {
        at = put_word(out, at, u64::from(row[k]));
    }
    at
}

// The line of the row `i`.
fn put_row(
    out: &mut [u8],
    n: usize,
    i: usize,
    kind: u32,
    parent: u32,
    first: u32,
    size: u32,
    depth: u32,
) -> usize
    ensures { (out.new, result) ≡ put_all (out.old, n) (line i (record { kind = kind; parent = parent; first = first; size = size; depth = depth; value = 0 })) }
{
    let row = [kind, parent, first, size, depth];
    let mut at = put_number(out, n, i as u64);
    at = put(out, at, b' ');
    at = put_kind(out, at, kind);
    at = put_places(out, at, &row);
    put(out, at, b'\n')
}

// The lines of all rows.
fn put_rows(
    out: &mut [u8],
    n: usize,
    first: &[u32],
    size: &[u32],
    depth: &[u32],
    kind: &[u32],
    parent: &[u32],
    rows: usize,
) -> usize
    requires { (rows ≤ length first.now) × (rows ≤ length size.now) × (rows ≤ length depth.now) × (rows ≤ length kind.now) × (rows ≤ length parent.now) }
    ensures { (rs : List Row) → Held rs first.now size.now depth.now kind.now parent.now rows → (out.new, result) ≡ put_all (out.old, n) (lines line 0 rs) }
{
    let mut at = n;
    for i in 0..rows {
        at = put_row(out, at, i, kind[i], parent[i], first[i], size[i], depth[i]);
    }
    at
}

// What is listed of an accepted file, by its columns.
fn put_accepted(
    out: &mut [u8],
    first: &[u32],
    size: &[u32],
    depth: &[u32],
    kind: &[u32],
    rows: usize,
) -> usize
    requires { (rows ≤ length first.now) × (rows ≤ length size.now) × (rows ≤ length depth.now) × (rows ≤ length kind.now) × (rows ≤ 3276) }
    ensures { (rs : List Row) → Given rs first.now size.now depth.now kind.now rows → (out.new, result) ≡ put_all (out.old, 0) (heading rows ++ lines line 0 rs ++ ascii "end\n") }
{
    let mut parent = [0u32; 3276];
    let _rows = descriptor_columns::parents(&depth[..rows], &mut parent);
    let mut at = put_text(out, 0, b"DESC");
    at = put_word(out, at, rows as u64);
    at = put(out, at, b'\n');
    at = put_rows(out, at, first, size, depth, kind, &parent, rows);
    put_text(out, at, b"end\n")
}

// The runs have room for 3,276 rows, the most that the longest input holds.
fn put_listing(out: &mut [u8], file: &[u8]) -> usize
    ensures { (out.new, result) ≡ put_all (out.old, 0) (taken 16384 file.now (listing (descriptor file.now))) }
{
    if TAKEN < file.len() {
        return put_refusal(out, Fault::TooLong.number(), 0);
    }
    let mut first = [0u32; 3276];
    let mut size = [0u32; 3276];
    let mut next = [0u32; 3276];
    let mut depth = [0u32; 3276];
    let mut kind = [0u32; 3276];
    match descriptor_columns::read(
        file, &mut first, &mut size, &mut next, &mut depth, &mut kind,
    ) {
        Err(refused) => put_refusal(out, refused.0.number(), refused.1),
        Ok(rows) => put_accepted(out, &first, &size, &depth, &kind, rows),
    }
}

// Takes standard input. The buffer has room for a byte more than is listed, so that a longer input is
// not cut to one that is.
fn take_file(input: &mut [u8]) -> usize
    requires { 16384 < length input.old }
    ensures { (result ≤ length input.new) × (result ≡ length (take result input.new)) }
{
    take_input(input)
}

fn main() {
    let mut input = [0u8; TAKEN + 1];
    let mut out = [0u8; 16384];
    let n = take_file(&mut input);
    let full = put_listing(&mut out, &input[..n]);
    finish(&out, full);
}
