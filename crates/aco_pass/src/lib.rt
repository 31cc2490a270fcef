// What stands whole in a chunk, passed at once: colours of list 1, records of list 2, a name's units.
#![tactic(auto)]

ghost use Rattle.std.specs.Prelude.{◌≡◌, ℕ, ◌+◌, ◌*◌, ◌≤◌, ◌<◌, List, IfSome, true, length};
ghost use Rattle.algebra.specs.Reader.{limit, pick};
ghost use Rattle.algebra.specs.Numbers.{nums};
ghost use Rattle.algebra.specs.Text.{any_zero};
ghost use Rattle.aco_chunks.specs.Chunks.{size};
ghost use Rattle.aco_pass.specs.scaffold.Parts.{Passes, PassesWith, Sounds, Closed, SameAs, Headed};

use aco_chunks::Stage;
use fields::{number_or_zero, put_run};

/// What is passed at once: the stage behind it, and where it ends.
#[derive(Clone, Copy, Debug, PartialEq, Eq)]
pub struct Passed {
    pub stage: Stage,
    pub at: usize,
}

// Whether one of k units from `at` is zero, or one before them was.
fn zero_in(bytes: &[u8], at: usize, k: u32, zero: bool) -> bool
    requires { at + k * 2 ≤ length bytes.now }
    ensures { result ≡ pick (any_zero (nums 2 k bytes.now at)) true zero }
{
    match names::text_at(bytes, at, k) {
        Ok(_) => zero,
        Err(_) => true,
    }
}

// The units of a name from `at` that stand whole.
fn pass_units(
    count: u16,
    index: u16,
    place: u32,
    left: u32,
    zero: bool,
    bytes: &[u8],
    at: usize,
) -> Passed
    requires { (at ≤ length bytes.now) × (length bytes.now ≤ limit) }
    ensures { (start : ℕ) (store : List ℕ) → start + length bytes.now ≤ limit → Passes start bytes.now (Stage.Unit count index place left zero) at store result.stage result.at store }
{
    let whole = (bytes.len() - at) / 2;
    if whole == 0 {
        let stage = Stage::Unit(count, index, place, left, zero);
        return Passed { stage, at };
    }
    let k = whole.min(left.saturating_sub(1) as usize) as u32;
    let found = zero_in(bytes, at, k, zero);
    let end = at + 2 * (k as usize);
    let more = left - k;
    if more != 1 {
        let stage = Stage::Unit(count, index, place, more, found);
        return Passed { stage, at: end };
    }
    if bytes.len() - end < 2 {
        let stage = Stage::Unit(count, index, place, 1, found);
        return Passed { stage, at: end };
    }
    let u = number_or_zero::<u16>(bytes, end);
    Passed {
        stage: aco_items::unit_of(count, index, place, 1, found, u as u32),
        at: end + 2,
    }
}

// The least of `whole`, count - index and room - index.
fn due_of(count: usize, index: usize, whole: usize, room: usize) -> usize
    requires { (count ≤ 65535) × (index ≤ 65535) }
    ensures { (result ≤ whole) × (0 < result → (index + result ≤ count) × (index + result ≤ room)) }
{
    count.min(room).saturating_sub(index).min(whole)
}

// How many of n colours from `at` have no fault, up to the first that has one.
fn sound_in(bytes: &[u8], at: usize, n: usize) -> usize
    requires { (at + 10 * n ≤ length bytes.now) × (length bytes.now ≤ limit) }
    ensures { (result ≤ n) × (Sounds result bytes.now at) }
{
    for k in 0..n {
        let p = at + 10 * k;
        let e = p + 10;
        match aco_judge::colour_at(&bytes[p..e], 0) {
            Ok(_) => {}
            Err(_) => return k,
        }
    }
    n
}

// The colours of list 1 from `at` that stand whole, up to the first with a fault.
fn pass_colours(count: u16, index: u16, store: &mut [u8], bytes: &[u8], at: usize) -> Passed
    requires { (at ≤ length bytes.now) × (length bytes.now ≤ limit) }
    ensures { (start : ℕ) → start + length bytes.now ≤ limit → Passes start bytes.now (Stage.Colour count index) at store.old result.stage result.at store.new }
{
    let left = bytes.len() - at;
    if left < 10 {
        return Passed {
            stage: Stage::Colour(count, index),
            at,
        };
    }
    let n = due_of(count as usize, index as usize, left / 10, store.len() / 10);
    let k = sound_in(bytes, at, n);
    if k == 0 {
        return Passed {
            stage: Stage::Colour(count, index),
            at,
        };
    }
    let end = at + 10 * k;
    put_run(store, 10 * (index as usize), &bytes[at..end]);
    Passed {
        stage: aco_items::colours_of(count, (index as usize) + k),
        at: end,
    }
}

// Where m units from `at` end, if they are all there, the last is zero and no other.
fn name_end(bytes: &[u8], at: usize, m: u32) -> Option<usize>
    requires { (at ≤ length bytes.now) × (length bytes.now ≤ limit) }
    ensures { IfSome result (λ q. Closed m bytes.now at q) }
{
    let rest = bytes.len() - at;
    if m == 0 {
        return None;
    }
    if rest / 2 < (m as usize) {
        return None;
    }
    let k = m - 1;
    let last = at + 2 * (k as usize);
    if number_or_zero::<u16>(bytes, last) != 0 {
        return None;
    }
    match names::text_at(bytes, at, k) {
        Ok(_) => Some(last + 2),
        Err(_) => None,
    }
}

// Whether a head begins with the ten bytes that stand in a store from `first`.
fn is_same(head: &[u8], store: &[u8], first: usize) -> bool
    requires { length head.now ≡ 14 }
    ensures { result ≡ true → SameAs head.now store.now first }
{
    let n = store.len();
    if n < 10 {
        return false;
    }
    if n - 10 < first {
        return false;
    }
    let last = first + 10;
    let colour = &store[first..last];
    if number_or_zero::<u64>(head, 0) != number_or_zero::<u64>(colour, 0) {
        return false;
    }
    number_or_zero::<u16>(head, 8) == number_or_zero::<u16>(colour, 8)
}

// How many units the name of record `index` of list 2 has, whose head stands whole from `at` and
// has no fault.
fn head_of(store: &[u8], bytes: &[u8], index: u16, at: usize) -> Option<u32>
    requires { at ≤ length bytes.now }
    ensures { IfSome result (λ m. (0 < m) × Headed index store.now bytes.now at m) }
{
    if bytes.len() - at < 14 {
        return None;
    }
    let end = at + 14;
    let head = &bytes[at..end];
    if !is_same(head, store, 10 * (index as usize)) {
        return None;
    }
    let m = number_or_zero::<u32>(head, 10);
    if m == 0 {
        return None;
    }
    Some(m)
}

// The records of list 2 from `at` that stand whole and have no fault, and the head of the next.
fn pass_records(
    count: u16,
    index: u16,
    start: usize,
    store: &[u8],
    bytes: &[u8],
    at: usize,
) -> Passed
    requires { (at ≤ length bytes.now) × (start + length bytes.now ≤ limit) }
    ensures { Passes start bytes.now (Stage.Entry count index) at store.now result.stage result.at store.now }
{
    if count <= index {
        let stage = Stage::Entry(count, index);
        return Passed { stage, at };
    }
    let mut p = at;
    for i in index..count {
        let Some(m) = head_of(store, bytes, i, p) else {
            let stage = Stage::Entry(count, i);
            return Passed { stage, at: p };
        };
        let body = p + 14;
        let Some(q) = name_end(bytes, body, m) else {
            let stage = Stage::Unit(count, i, (start + p + 10) as u32, m, false);
            return Passed { stage, at: body };
        };
        p = q;
    }
    Passed {
        stage: Stage::End(count),
        at: p,
    }
}

// What can be passed at once from `at`, with nothing carried; after a fault all.
fn pass_within(stage: Stage, start: usize, store: &mut [u8], bytes: &[u8], at: usize) -> Passed
    requires { (at < length bytes.now) × (start + length bytes.now ≤ limit) }
    ensures { Passes start bytes.now stage at store.old result.stage result.at store.new }
{
    match stage {
        Stage::Colour(count, index) => pass_colours(count, index, store, bytes, at),
        Stage::Entry(count, index) => pass_records(count, index, start, store, bytes, at),
        Stage::Unit(count, index, place, left, zero) => pass_units(
            count, index, place, left, zero, bytes, at,
        ),
        Stage::Fault(number, place, record, field) => Passed {
            stage: Stage::Fault(number, place, record, field),
            at: bytes.len(),
        },
        Stage::First => Passed {
            stage: Stage::First,
            at,
        },
        Stage::Second(count) => Passed {
            stage: Stage::Second(count),
            at,
        },
        Stage::End(count) => Passed {
            stage: Stage::End(count),
            at,
        },
    }
}

/// What can be passed at once from `at`, where `got` bytes are carried: nothing within an item that has begun.
pub fn pass(
    stage: Stage,
    got: usize,
    start: usize,
    store: &mut [u8],
    bytes: &[u8],
    at: usize,
) -> Passed
    requires { (at < length bytes.now) × (start + length bytes.now ≤ limit) × (got < size stage) }
    ensures { PassesWith got start bytes.now stage at store.old result.stage result.at store.new }
{
    if 0 < got {
        return Passed { stage, at };
    }
    pass_within(stage, start, store, bytes, at)
}
