// ASE palettes one a call: a block step and a colour step from any place of any file, and the
// walker above them.
#![tactic(auto)]

ghost use Rattle.std.specs.Prelude.{◌≡◌, ◌+◌, ◌≤◌, length};
ghost use Rattle.ase.specs.Reading.{ase};
ghost use Rattle.ase_read.specs.Answer.{shown};
ghost use Rattle.walk.specs.Walk.{gives, answered};
ghost use Rattle.ase_walk.specs.Walking.{block_from, block_walk, walk, first_place, lent_of, start_of};
ghost use Rattle.ase_walk.specs.scaffold.Walking.{Stands};
ghost use Rattle.ase_walk.specs.Answer.{told_block, told_block_step, told_colour_step, call_and_place, told_turn, walker_call, told_start};
ghost use Rattle.ase_walk.specs.scaffold.Answer.{Given};

use ase::{GROUP_END, GROUP_START};
use ase_read::{NamedColour, Record};
use colour::Channels;
use fault::{Fault, Refusal};

/// What a call of the block step answers, a block, done, or a refusal; and the place of the next call.
#[derive(Clone, Copy)]
pub struct BlockStep {
    pub block: Result<Option<Record>, Refusal>,
    pub next: usize,
}

/// What a call of the colour step answers, a colour, done, or a refusal; and the place of the next
/// call.
#[derive(Clone, Copy)]
pub struct ColourStep {
    pub given: Result<Option<NamedColour>, Refusal>,
    pub next: usize,
}

// Nothing stands there that the layout allows.
const LOST: Refusal = Refusal(Fault::OutOfRange, 0);

// ---- a block

// Kept: not `numbers_in` of `ase_read`, whose places have 32 bits; a walk goes over any length.
// The block from `at` to `end`, which is judged. All is loaded from the file up to its end, so that
// what a shorter payload does not have is 0.
fn block_of(file: &[u8], at: usize, end: usize) -> Record
    requires { (at + 6 ≤ end) × (end ≤ length file.now) × Stands file.now at end }
    ensures { (gives (shown result), end) ≡ call_and_place (answered (length file.now) (block_from file.now at)) }
{
    let part = &file[..end];
    let kind = fields::number_or_zero::<u16>(part, at);
    let count = fields::number_or_zero::<u16>(part, at + 6);
    let model = at + 8 + 2 * count as usize;
    let tag = fields::number_or_zero::<u32>(part, model);
    let a = fields::number_or_zero::<u32>(part, model + 4);
    let b = fields::number_or_zero::<u32>(part, model + 8);
    let c = fields::number_or_zero::<u32>(part, model + 12);
    let d = fields::number_or_zero::<u32>(part, model + 16);
    let last = fields::number_or_zero::<u16>(part, part.len() - 2);
    let place = ase_read::name_place(count, at);
    let units = count.saturating_sub(1) as u32;
    match kind {
        GROUP_START => Record::GroupStart { place, units },
        GROUP_END => Record::GroupEnd,
        _ => Record::Colour(NamedColour {
            place,
            units,
            colour: Channels::from_tag(tag, a, b, c, d).unwrap(),
            ink: ase_read::ink_of(last as u32),
        }),
    }
}

/// One call from any place of any file that gives blocks. It costs no more than the bytes that it
/// passes; where nothing stands that the layout allows, the walk is left past the end, so that it is
/// refused ever after.
pub fn block_at(file: &[u8], at: usize) -> BlockStep
    ensures { told_block_step result ≡ call_and_place (block_walk file.now at) }
{
    if at == file.len() {
        return BlockStep {
            block: Ok(None),
            next: at,
        };
    }
    match ase_judge::block_at(file, at, 1) {
        Ok(passed) => BlockStep {
            block: Ok(Some(block_of(file, at, passed.next))),
            next: passed.next,
        },
        Err(_) => BlockStep {
            block: Err(LOST),
            next: file.len() + 1,
        },
    }
}

// ---- a colour

// What the colour step answers where the block step answered so; none where it passes over a group.
fn given_of(block: Result<Option<Record>, Refusal>) -> Option<Result<Option<NamedColour>, Refusal>>
    ensures { Given result (told_block block) }
{
    match block {
        Ok(Some(Record::Colour(colour))) => Some(Ok(Some(colour))),
        Ok(Some(Record::GroupStart { .. })) => None,
        Ok(Some(Record::GroupEnd)) => None,
        Ok(None) => Some(Ok(None)),
        Err(e) => Some(Err(e)),
    }
}

// One call from the file's end, which is done, or from past it, which is refused.
fn ended_at(file: &[u8], at: usize) -> ColourStep
    requires { length file.now ≤ at }
    ensures { told_colour_step result ≡ call_and_place (walk file.now at) }
{
    let end = file.len();
    if at == end {
        return ColourStep {
            given: Ok(None),
            next: at,
        };
    }
    ColourStep {
        given: Err(LOST),
        next: end + 1,
    }
}

/// One call from any place of any file that gives colours, and passes over groups.
pub fn step_at(file: &[u8], at: usize) -> ColourStep
    ensures { told_colour_step result ≡ call_and_place (walk file.now at) }
{
    let mut p = at;
    // Kept: a turn goes to the place behind a block, which only the block tells.
    while p < file.len() {
        let step = block_at(file, p);
        match given_of(step.block) {
            Some(given) => {
                return ColourStep {
                    given,
                    next: step.next,
                };
            }
            None => p = step.next,
        }
    }
    ended_at(file, p)
}

// ---- the start

/// Where a walk of an accepted file starts.
pub fn first_at(file: &[u8]) -> usize
    ensures { result ≡ first_place file.now }
{
    let n = file.len();
    if 12 <= n {
        return 12;
    }
    n
}

/// Where a walk starts, which it does only on an accepted file.
pub fn start_at(file: &[u8]) -> Result<usize, Refusal>
    ensures { told_start result ≡ start_of (ase file.now) file.now }
{
    ase_judge::judge(file)?;
    Ok(first_at(file))
}

// An accepted file, or no bytes where it is refused.
fn lent(file: &[u8]) -> &[u8]
    ensures { result.now ≡ lent_of (ase file.now) file.now }
{
    match ase_judge::judge(file) {
        Ok(_) => file,
        Err(_) => &file[..0],
    }
}

// ---- the walker

/// A walker: the lent file, and the place of the next block.
#[derive(Clone, Copy)]
pub struct Walker<'a> {
    pub file: &'a [u8],
    pub at: usize,
}

/// A walker over an accepted file; over no bytes where it is refused, so that it is done. The
/// refusal is `start_at`'s.
pub fn start<'a>(file: &'a [u8]) -> Walker<'a>
    ensures { (result.file.now ≡ lent_of (ase file.now) file.now) × (result.at ≡ first_place (lent_of (ase file.now) file.now)) }
{
    let part = lent(file);
    let at = first_at(part);
    Walker { file: part, at }
}

// Kept: by value (docs/DECISIONS.md), so that the walker that was passed stays as it was.
/// What a call of `next` hands back: what it gave, and the walker that follows.
#[derive(Clone, Copy)]
pub struct WalkerStep<'a> {
    pub step: ColourStep,
    pub walker: Walker<'a>,
}

/// One call: the colour, and the walker that follows.
pub fn next<'a>(w: Walker<'a>) -> WalkerStep<'a>
    ensures { told_turn result ≡ walker_call w.entry }
{
    let step = step_at(w.file, w.at);
    WalkerStep {
        step,
        walker: Walker {
            file: w.file,
            at: step.next,
        },
    }
}
