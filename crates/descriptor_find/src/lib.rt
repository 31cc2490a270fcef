// Keys looked up among the pairs of the root, by a table of the file's rows.
//
// The table is compared with the file once. Then all keys are read, and each goes from one child of the
// root to the next, by the next sibling, up to the first that has it.
#![tactic(auto)]

ghost use Rattle.std.specs.Prelude.{◌≡◌, ◌+◌, ◌*◌, ◌≤◌, ◌<◌, length};
ghost use Rattle.algebra.specs.Numbers.{nums};
ghost use Rattle.descriptor.specs.Reading.{descriptor};
ghost use Rattle.descriptor_find.specs.Find.{body_size, key, keys_of, equal_bytes, has_key, row_of, told, found};
ghost use Rattle.descriptor_find.specs.declared.Rejection.TheVariants.{Refused};
ghost use Rattle.descriptor_find.specs.scaffold.Finding.{Lent, rows_in, counted, told_count, Keyed, answers_in, found_in};

use fault::{Fault, Refusal};

/// Why no key is answered: a refusal of the file, of the table or of the answers; or that of a key, at a
/// place of the keys.
#[derive(Clone, Copy, Debug, PartialEq, Eq)]
pub enum Rejection {
    Refused(Refusal),
    InKeys(Refusal),
}

impl From<Refusal> for Rejection {
    ghost from_gives = { λ r e. e ≡ Refused r };

    fn from(refusal: Refusal) -> Rejection {
        Rejection::Refused(refusal)
    }
}

// ---- keys

// How many bytes follow a key's length field.
fn body_size(length: u32) -> usize
    ensures { (result ≡ body_size length) × (result < 4294967296) }
{
    if length == 0 {
        return 4;
    }
    length as usize
}

// How many keys a buffer has.
fn count_keys(keys: &[u8]) -> Result<usize, Refusal>
    ensures { told_count result ≡ counted 0 (keys_of keys.now) }
{
    let mut at: usize = 0;
    let mut n: usize = 0;
    // Kept: a turn goes to the place behind a key, which only the key tells.
    while at < keys.len() {
        at = descriptor_fields::id_at(keys, at)?;
        n += 1;
    }
    Ok(n)
}

// Whether so many words of a file, eight bytes each, are those of a key's body.
fn same_words(file: &[u8], start: usize, keys: &[u8], body: usize, words: usize) -> bool
    requires { (start + 8 * words ≤ length file.now) × (body + 8 * words ≤ length keys.now) }
    ensures { result ≡ equal_bytes (nums 1 (8 * words) file.now start) (nums 1 (8 * words) keys.now body) }
{
    for i in 0..words {
        let at = 8 * i;
        let word = fields::number_or_zero::<u64>(file, start + at);
        if word != fields::number_or_zero::<u64>(keys, body + at) {
            return false;
        }
    }
    true
}

// Whether the bytes of a file from `start` are those of a key's body, one by one.
fn same_bytes(file: &[u8], start: usize, keys: &[u8], body: usize, size: usize) -> bool
    requires { (start + size ≤ length file.now) × (body + size ≤ length keys.now) }
    ensures { result ≡ equal_bytes (nums 1 size file.now start) (nums 1 size keys.now body) }
{
    for i in 0..size {
        if file[start + i] != keys[body + i] {
            return false;
        }
    }
    true
}

// The same, words first and then the few that are left.
fn same_body(file: &[u8], start: usize, keys: &[u8], body: usize, size: usize) -> bool
    requires { (start + size ≤ length file.now) × (body + size ≤ length keys.now) }
    ensures { result ≡ equal_bytes (nums 1 size file.now start) (nums 1 size keys.now body) }
{
    let words = size / 8;
    if same_words(file, start, keys, body, words) {
        let whole = 8 * words;
        return same_bytes(file, start + whole, keys, body + whole, size - whole);
    }
    false
}

// Whether the key at `first` of a file is that with this length field and body.
fn same_key(file: &[u8], first: usize, keys: &[u8], tag: u32, body: usize, size: usize) -> bool
    requires { (first < 4294967296) × (size < 4294967296) × (size ≡ body_size tag) × (body + size ≤ length keys.now) }
    ensures { result ≡ has_key (key file.now first) (tag, nums 1 size keys.now body) }
{
    if file.len() < first + 4 + size {
        return false;
    }
    if fields::number_or_zero::<u32>(file, first) != tag {
        return false;
    }
    same_body(file, first + 4, keys, body, size)
}

// ---- the walk

// The first child of the root that has the key, else the number of rows.
fn row_of(
    file: &[u8],
    first: &[u32],
    next: &[u32],
    rows: usize,
    keys: &[u8],
    tag: u32,
    body: usize,
    size: usize,
) -> usize
    requires { (Lent file.now first.now next.now rows) × (size < 4294967296) × (size ≡ body_size tag) × (body + size ≤ length keys.now) }
    ensures { (result ≡ row_of file.now (rows_in (descriptor file.now)) (tag, nums 1 size keys.now body)) × (result ≤ rows) }
{
    let mut j: usize = 1;
    // Kept: a turn goes to the next sibling, which only the row tells.
    while j < rows {
        if same_key(file, first[j] as usize, keys, tag, body, size) {
            return j;
        }
        j = next[j] as usize;
    }
    rows
}

// The answers of all keys.
fn answer_all(
    file: &[u8],
    first: &[u32],
    next: &[u32],
    rows: usize,
    keys: &[u8],
    answers: &mut [u32],
)
    requires { (Lent file.now first.now next.now rows) × Keyed keys.now (length answers.old) }
    ensures { answers.new ≡ answers_in file.now (rows_in (descriptor file.now)) (keys_of keys.now) answers.old }
{
    let mut at: usize = 0;
    let mut i: usize = 0;
    // Kept: a turn goes to the place behind a key, which only the key tells.
    while at < keys.len() {
        let tag = fields::number_or_zero::<u32>(keys, at);
        let size = body_size(tag);
        let row = row_of(file, first, next, rows, keys, tag, at + 4, size);
        answers[i] = row as u32;
        at = at + 4 + size;
        i += 1;
    }
}

// ---- the call

// The keys, where the table is the file's.
fn answer(
    file: &[u8],
    first: &[u32],
    next: &[u32],
    rows: usize,
    keys: &[u8],
    answers: &mut [u32],
) -> Result<usize, Rejection>
    requires { Lent file.now first.now next.now rows }
    ensures { (told result, answers.new) ≡ found_in file.now (rows_in (descriptor file.now)) (keys_of keys.now) answers.old }
{
    match count_keys(keys) {
        Err(refusal) => Err(Rejection::InKeys(refusal)),
        Ok(count) => {
            if answers.len() < count {
                return Err(Rejection::Refused(Refusal(Fault::NoRoom, 0)));
            }
            answer_all(file, first, next, rows, keys, answers);
            Ok(count)
        }
    }
}

/// Which row of a file has each of some keys, IDs one after another, as a pair of the root: the first,
/// or the number of rows where none has it. Refused are the file by its own, then a table that does not
/// begin with its rows by 5, then a key that is cut by 2 at a place of the keys, then too few answers by
/// 11; a refusal changes nothing. Past the answers the run keeps its contents.
pub fn find(
    file: &[u8],
    first: &[u32],
    size: &[u32],
    next: &[u32],
    depth: &[u32],
    kind: &[u32],
    keys: &[u8],
    answers: &mut [u32],
) -> Result<usize, Rejection>
    ensures { (told result, answers.new) ≡ found file.now (descriptor file.now) first.now size.now next.now depth.now kind.now keys.now answers.old }
{
    let table = descriptor_check::check(file, first, size, next, depth, kind)?;
    let Some(rows) = table else {
        return Err(Rejection::Refused(Refusal(Fault::OutOfRange, 0)));
    };
    answer(file, first, next, rows, keys, answers)
}
