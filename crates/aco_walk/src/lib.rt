// ACO swatches one a call: a step from any place of any file, and the walker above it.
#![tactic(auto)]

ghost use Rattle.std.specs.Prelude.{◌≡◌, length};
ghost use Rattle.algebra.specs.Reader.{refuse};
ghost use Rattle.walk.specs.Walk.{answered};
ghost use Rattle.aco.specs.Reading.{colour, aco};
ghost use Rattle.aco_walk.specs.Walking.{is_plain, first_place, labelled, walk, lent_of, start_of};
ghost use Rattle.aco_walk.specs.Answer.{told_colour_step, call_and_place, told_turn, walker_call, told_start};
ghost use Rattle.aco_walk.specs.scaffold.Answer.{tested};

use aco_judge::Rejection;
use aco_read::SwatchRecord;
use colour::{Colour, Ink};
use fault::{Fault, Refusal};
use names::Name;

/// What a call gives: a colour, none where the walk is done, or a refusal; and the place of the next
/// call.
#[derive(Clone, Copy)]
pub struct ColourStep {
    pub given: Result<Option<SwatchRecord>, Refusal>,
    pub next: usize,
}

// The colour at `at`, if one stands there that the layout allows.
fn colour_at(file: &[u8], at: usize) -> Option<Colour>
    ensures { result ≡ tested (colour file.now at) }
{
    let n = file.len();
    if n < 10 {
        return None;
    }
    if n - 10 < at {
        return None;
    }
    let found = aco_read::colour_at(file, at);
    let samples = found.samples;
    if !colour::is_sound(found.space, samples[0], samples[1], samples[2], samples[3]) {
        return None;
    }
    Some(found)
}

// Whether the file is list 1 and no more.
fn is_plain(file: &[u8]) -> bool
    ensures { result ≡ is_plain file.now }
{
    let count = fields::number_or_zero::<u16>(file, 2);
    file.len() == 4 + 10 * (count as usize)
}

// Nothing that the layout allows: the walk is left past the end, so that it is refused ever after.
fn lost(file: &[u8]) -> ColourStep
    ensures { told_colour_step result ≡ call_and_place (answered (length file.now) (refuse 5 0 0 0)) }
{
    ColourStep {
        given: Err(Refusal(Fault::OutOfRange, 0)),
        next: file.len() + 1,
    }
}

// A colour and its name, which stands at `at` where the file has names.
fn labelled_at(file: &[u8], at: usize, colour: Colour) -> ColourStep
    ensures { told_colour_step result ≡ call_and_place (answered (length file.now) (labelled colour file.now at)) }
{
    let ink = Ink::NotStated;
    if is_plain(file) {
        let name = Name { first: 0, units: 0 };
        return ColourStep {
            given: Ok(Some(SwatchRecord { colour, name, ink })),
            next: at,
        };
    }
    match names::name_at::<u32>(file, at) {
        Ok((name, next)) => ColourStep {
            given: Ok(Some(SwatchRecord { colour, name, ink })),
            next,
        },
        Err(_) => lost(file),
    }
}

/// One call from any place of any file. It costs no more than the bytes that it passes.
pub fn step_at(file: &[u8], at: usize) -> ColourStep
    ensures { told_colour_step result ≡ call_and_place (walk file.now at) }
{
    if at == file.len() {
        return ColourStep {
            given: Ok(None),
            next: at,
        };
    }
    match colour_at(file, at) {
        Some(colour) => labelled_at(file, at + 10, colour),
        None => lost(file),
    }
}

/// Where a walk of an accepted file starts.
pub fn first_at(file: &[u8]) -> usize
    ensures { result ≡ first_place file.now }
{
    let n = file.len();
    if is_plain(file) {
        return 4;
    }
    let count = fields::number_or_zero::<u16>(file, 2);
    let place = 8 + 10 * (count as usize);
    if place <= n {
        return place;
    }
    n
}

/// Where a walk starts, which it does only on an accepted file, or the file's rejection.
pub fn start_at(file: &[u8]) -> Result<usize, Rejection>
    ensures { told_start result ≡ start_of (aco file.now) file.now }
{
    aco_judge::judge(file)?;
    Ok(first_at(file))
}

// An accepted file, or no bytes where it is refused.
fn lent(file: &[u8]) -> &[u8]
    ensures { result.now ≡ lent_of (aco file.now) file.now }
{
    match aco_judge::judge(file) {
        Ok(_) => file,
        Err(_) => &file[..0],
    }
}

// ---- the walker

/// A walker: the lent file, and the place of the next colour.
#[derive(Clone, Copy)]
pub struct Walker<'a> {
    pub file: &'a [u8],
    pub at: usize,
}

/// A walker over an accepted file; over no bytes where it is refused, so that it is done. The
/// refusal is `start_at`'s.
pub fn start<'a>(file: &'a [u8]) -> Walker<'a>
    ensures { (result.file.now ≡ lent_of (aco file.now) file.now) × (result.at ≡ first_place (lent_of (aco file.now) file.now)) }
{
    let part = lent(file);
    let at = first_at(part);
    Walker { file: part, at }
}

/// What a call of `next` hands back: what it gave, and the walker that follows.
#[derive(Clone, Copy)]
pub struct WalkerStep<'a> {
    pub step: ColourStep,
    pub walker: Walker<'a>,
}

/// One call: the colour, and the walker that follows.
// Kept: it takes the walker by value and not by `&mut`, as docs/DECISIONS.md says ("Walkers").
pub fn next<'a>(w: Walker<'a>) -> WalkerStep<'a>
    ensures { told_turn result ≡ walker_call w.entry }
{
    let step = step_at(w.file, w.at);
    WalkerStep {
        step,
        walker: Walker {
            file: w.file,
            at: step.next,
        },
    }
}
