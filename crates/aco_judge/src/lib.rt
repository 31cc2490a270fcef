// ACO swatches: judging a file by the layout.
#![tactic(auto)]

ghost use Rattle.std.specs.Prelude.{◌≡◌, true, ◌+◌, ◌*◌, ◌≤◌, ◌<◌, length, get_or};
ghost use Rattle.algebra.specs.Reader.{done, each};
ghost use Rattle.algebra.specs.Table.{verdict};
ghost use Rattle.fault.specs.Answer.{told_end, told_at};
ghost use Rattle.aco.specs.Reading.{samples, colour, entry, zero_colour, second, aco};
ghost use Rattle.aco.specs.scaffold.Raw.{raw_colours, headed, after_heading, SoundAt, SameAt};
ghost use Rattle.aco_judge.specs.Answer.{told, report};
ghost use Rattle.aco_judge.specs.scaffold.Answer.{told_repeated};
ghost use Rattle.aco_judge.specs.declared.Rejection.TheVariants as rejection;

use aco::{LIMIT, MOST};
use fault::{Fault, Refusal};

/// What an accepted file holds.
#[derive(Clone, Copy, Debug, PartialEq, Eq)]
pub struct Counts {
    pub colours: usize,
    pub lists: usize,
}

/// Why a file is not accepted.
#[derive(Clone, Copy, Debug, PartialEq, Eq)]
pub enum Rejection {
    Refused(Refusal),
    /// The two lists differ: the first differing record, and in it the first differing field.
    Differ {
        place: usize,
        record: usize,
        field: usize,
    },
}

impl From<Refusal> for Rejection {
    ghost from_gives = { λ refusal r. r ≡ rejection.Refused refusal };

    fn from(refusal: Refusal) -> Rejection {
        Rejection::Refused(refusal)
    }
}

// The four samples from `at` of a colour of a space.
fn samples_at(file: &[u8], at: usize, space: u16) -> Result<usize, Refusal>
    ensures { told_end result ≡ done (samples space file.now at) }
{
    let mut p = at;
    for k in 0..4 {
        let (v, next) = fields::number_at::<u16>(file, p)?;
        if !colour::is_allowed(space, k, v) {
            return Err(Refusal(Fault::OutOfRange, p));
        }
        p = next;
    }
    Ok(p)
}

// The colour at `at`, field by field up to its first fault.
fn fields_at(file: &[u8], at: usize) -> Result<usize, Refusal>
    ensures { told_end result ≡ done (colour file.now at) }
{
    let (space, next) = fields::number_at::<u16>(file, at)?;
    if !colour::is_known(space) {
        return Err(Refusal(Fault::Unknown, at));
    }
    samples_at(file, next, space)
}

// Whether a colour stands at `at` that is whole and has no fault. A part of known length is loaded
// from without tests.
fn is_sound(file: &[u8], at: usize) -> bool
    ensures { result ≡ true → SoundAt file.now at }
{
    let n = file.len();
    if n < 10 {
        return false;
    }
    if n - 10 < at {
        return false;
    }
    let end = at + 10;
    let part = &file[at..end];
    let space = fields::number_or_zero::<u16>(part, 0);
    let a = fields::number_or_zero::<u16>(part, 2);
    let b = fields::number_or_zero::<u16>(part, 4);
    let c = fields::number_or_zero::<u16>(part, 6);
    let d = fields::number_or_zero::<u16>(part, 8);
    colour::is_sound(space, a, b, c, d)
}

/// The place after the colour at `at`.
pub fn colour_at(file: &[u8], at: usize) -> Result<usize, Refusal>
    ensures { told_end result ≡ done (colour file.now at) }
{
    // Nearly all are sound, and only another is looked into.
    if is_sound(file, at) {
        return Ok(at + 10);
    }
    fields_at(file, at)
}

// The n colours of list 1 from `at`.
fn colours_at(file: &[u8], at: usize, n: u16) -> Result<usize, Refusal>
    requires { at ≤ length file.now }
    ensures { told_end result ≡ done (each n 0 (λ i. colour) file.now at) }
{
    let mut p = at;
    for _i in 0..n {
        p = colour_at(file, p)?;
    }
    Ok(p)
}

// Whether ten bytes stand at `at`, the same as the ten at `first`.
fn is_same(file: &[u8], at: usize, first: usize) -> bool
    requires { first + 10 ≤ length file.now }
    ensures { result ≡ true → SameAt file.now at first }
{
    let n = file.len();
    if n - 10 < at {
        return false;
    }
    let end = at + 10;
    let last = first + 10;
    let a = &file[at..end];
    let b = &file[first..last];
    if fields::number_or_zero::<u64>(a, 0) != fields::number_or_zero::<u64>(b, 0) {
        return false;
    }
    fields::number_or_zero::<u16>(a, 8) == fields::number_or_zero::<u16>(b, 8)
}

// The n records of list 2 from `at`, compared with list 1, which stands at 4. Nearly all are the
// same, and only in another is a field looked for that differs.
fn entries_at(file: &[u8], at: usize, n: u16) -> Result<usize, Rejection>
    requires { 4 + 10 * n ≤ length file.now }
    ensures { told_repeated result ≡ done (each n 0 (λ i. entry i (get_or (raw_colours n file.now 4) i zero_colour)) file.now at) }
{
    let count = n as usize;
    let mut i: usize = 0;
    let mut f: usize = 0;
    let mut p = at;
    // Kept: the form that rule F3 names; record and field stand behind the label.
    'records: while i < count {
        f = 0;
        if is_same(file, p, 4 + 10 * i) {
            f = 5;
            p += 10;
        }
        while f < 5 {
            let Ok((v, next)) = fields::number_at::<u16>(file, p) else {
                return Err(Rejection::Refused(Refusal(Fault::Short, p)));
            };
            if v != fields::number_or_zero::<u16>(file, 4 + 10 * i + 2 * f) {
                break 'records;
            }
            p = next;
            f += 1;
        }
        match names::name_at::<u32>(file, p) {
            Ok((_, next)) => {
                p = next;
            }
            Err(refusal) => {
                return Err(Rejection::Refused(refusal));
            }
        }
        i += 1;
    }
    if i < count {
        return Err(Rejection::Differ {
            place: p,
            record: i,
            field: f,
        });
    }
    Ok(p)
}

/// A list's count, which is not judged here, and the next place, where its version is this one.
pub fn heading_at(file: &[u8], at: usize, version: u16) -> Result<(u16, usize), Refusal>
    ensures { told_at (λ n. n) result ≡ headed version file.now at }
{
    let count = fields::number_is(file, at, version, Fault::WrongTag)?;
    fields::number_at::<u16>(file, count)
}

// List 2 from `at`, where list 1 has n colours, and the file's end.
fn second_at(file: &[u8], at: usize, n: u16) -> Result<usize, Rejection>
    requires { (4 + 10 * n ≤ at) × (at ≤ length file.now) }
    ensures { told_repeated result ≡ done (second (raw_colours n file.now 4) file.now at) }
{
    let (m, first) = heading_at(file, at, 2)?;
    if m != n {
        return Err(Rejection::Differ {
            place: at + 2,
            record: 0,
            field: 5,
        });
    }
    let end = entries_at(file, first, n)?;
    if end != file.len() {
        return Err(Rejection::Refused(Refusal(Fault::LeftOver, end)));
    }
    Ok(end)
}

// The lists after the first heading: n colours from 4, and what follows them.
fn lists_at(file: &[u8], n: u16) -> Result<Counts, Rejection>
    requires { 4 ≤ length file.now }
    ensures { told result ≡ verdict report (after_heading n file.now 4) }
{
    let colours = n as usize;
    let end = colours_at(file, 4, n)?;
    if end == file.len() {
        return Ok(Counts { colours, lists: 1 });
    }
    second_at(file, end, n)?;
    Ok(Counts { colours, lists: 2 })
}

/// The whole file.
pub fn judge(file: &[u8]) -> Result<Counts, Rejection>
    ensures { told result ≡ verdict report (aco file.now) }
{
    if LIMIT < file.len() {
        return Err(Rejection::Refused(Refusal(Fault::TooLong, 0)));
    }
    let (n, _) = heading_at(file, 0, 1)?;
    if MOST < n {
        return Err(Rejection::Refused(Refusal(Fault::OutOfRange, 2)));
    }
    lists_at(file, n)
}
