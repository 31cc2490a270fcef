// ASE palettes: judging a file by the layout.
#![tactic(auto)]

ghost use Rattle.std.specs.Prelude.{◌≡◌, ◌+◌, ◌-◌, ◌≤◌, ◌<◌, length};
ghost use Rattle.algebra.specs.Reader.{done, each, judged, map_res, chain};
ghost use Rattle.fault.specs.Answer.{told_at, told_end};
ghost use Rattle.ase.specs.Reading.{type, colour_content, group_content, inside, is_block_type, content, block, open_after_entry, heading, ase};
ghost use Rattle.ase_judge.specs.scaffold.Parts.{channel_in, after_name, group_start_of, group_end_of, colour_of, whole};
ghost use Rattle.algebra.specs.Table.{verdict};
ghost use Rattle.ase_judge.specs.Answer.{report, told, told_passed, passed};
ghost use Rattle.ase_judge.specs.scaffold.Answer.{tally};

use ase::{COLOUR, DEEPEST, GROUP_END, GROUP_START, LIMIT, SIGNATURE};
use colour::Model;
use fault::{Fault, Refusal};

/// How many blocks an accepted file has, and how many of them are colours.
#[derive(Clone, Copy, Debug, PartialEq, Eq)]
pub struct Counts {
    pub blocks: usize,
    pub colours: usize,
}

/// What stands behind blocks that were passed: the next place, how many groups then stand open, and
/// how many of the blocks were colours.
#[derive(Clone, Copy, Debug, PartialEq, Eq)]
pub struct Passed {
    pub next: usize,
    pub depth: usize,
    pub colours: usize,
}

// ---- a payload's content, in a file that ends with it

// The n channels from `at`, which may be any finite float where they are wide, else one from 0 to 1.
fn channels_at(file: &[u8], at: usize, wide: bool, n: u16) -> Result<usize, Refusal>
    ensures { told_end result ≡ done (each n 0 (λ i. judged 4 (channel_in wide)) file.now at) }
{
    let mut p = at;
    for _i in 0..n {
        let (bits, next) = fields::number_at::<u32>(file, p)?;
        if !colour::is_channel(wide, bits) {
            return Err(Refusal(Fault::OutOfRange, p));
        }
        p = next;
    }
    Ok(p)
}

// The model, channels and type from `at`.
fn after_name_at(file: &[u8], at: usize) -> Result<usize, Refusal>
    ensures { told_end result ≡ after_name file.now at }
{
    let (tag, first) = fields::number_at::<u32>(file, at)?;
    let Some(model) = Model::from_tag(tag) else {
        return Err(Refusal(Fault::Unknown, at));
    };
    let end = channels_at(file, first, model.is_wide(), model.traits().channels)?;
    type_at(file, end)
}

// The type of a colour at `at`.
fn type_at(file: &[u8], at: usize) -> Result<usize, Refusal>
    ensures { told_end result ≡ done (judged 2 type file.now at) }
{
    let (kind, next) = fields::number_at::<u16>(file, at)?;
    if 2 < kind {
        return Err(Refusal(Fault::OutOfRange, at));
    }
    Ok(next)
}

// A colour's content from `at`.
fn colour_content_at(file: &[u8], at: usize) -> Result<usize, Refusal>
    ensures { told_end result ≡ done (colour_content file.now at) }
{
    let (_, next) = names::name_at::<u16>(file, at)?;
    after_name_at(file, next)
}

// A group's name from `at`.
fn group_at(file: &[u8], at: usize) -> Result<usize, Refusal>
    ensures { told_end result ≡ done (group_content file.now at) }
{
    let (_, next) = names::name_at::<u16>(file, at)?;
    Ok(next)
}

// What a content's reader answers of a payload that ends at `end`, whose length stands at `place`.
fn inside_of(step: Result<usize, Refusal>, place: usize, end: usize) -> Result<usize, Refusal>
    ensures { told_end result ≡ inside place end (told_end step) }
{
    match step {
        Ok(p) => {
            if p == end {
                return Ok(p);
            }
            Err(Refusal(Fault::WrongLength, place))
        }
        Err(e) => {
            if e.0 == Fault::Short {
                return Err(Refusal(Fault::WrongLength, place));
            }
            Err(e)
        }
    }
}

// ---- a block

// A group start at `at`, whose payload ends at `end`.
fn group_start_at(file: &[u8], at: usize, end: usize, depth: usize) -> Result<Passed, Refusal>
    requires { (at + 6 ≤ end) × (end ≤ length file.now) }
    ensures { told_passed result ≡ map_res (passed depth) (group_start_of depth end file.now at) }
{
    if DEEPEST <= depth {
        return Err(Refusal(Fault::TooDeep, at));
    }
    let next = inside_of(group_at(&file[..end], at + 6), at + 2, end)?;
    Ok(Passed {
        next,
        depth: depth + 1,
        colours: 0,
    })
}

// A group end at `at`, whose payload ends at `end`.
fn group_end_at(at: usize, end: usize, depth: usize) -> Result<Passed, Refusal>
    requires { at + 6 ≤ end }
    ensures { told_passed result ≡ map_res (passed depth) (group_end_of depth end at) }
{
    if end != at + 6 {
        return Err(Refusal(Fault::WrongLength, at + 2));
    }
    if depth == 0 {
        return Err(Refusal(Fault::Unbalanced, at));
    }
    Ok(Passed {
        next: end,
        depth: depth - 1,
        colours: 0,
    })
}

// A colour at `at`, whose payload ends at `end`.
fn colour_at(file: &[u8], at: usize, end: usize, depth: usize) -> Result<Passed, Refusal>
    requires { (at + 6 ≤ end) × (end ≤ length file.now) }
    ensures { told_passed result ≡ map_res (passed depth) (colour_of end file.now at) }
{
    let next = inside_of(colour_content_at(&file[..end], at + 6), at + 2, end)?;
    Ok(Passed {
        next,
        depth,
        colours: 1,
    })
}

fn is_block_type(kind: u16) -> bool
    ensures { result ≡ is_block_type kind }
{
    matches!(kind, GROUP_START | GROUP_END | COLOUR)
}

// The content of a block at `at` of a known type, whose payload ends at `end`. It stands by itself:
// behind the tests of `block_at` the compiler takes these calls for rare, and does not inline them.
fn content_at(
    file: &[u8],
    at: usize,
    end: usize,
    kind: u16,
    depth: usize,
) -> Result<Passed, Refusal>
    requires { (at + 6 ≤ end) × (end ≤ length file.now) }
    ensures { told_passed result ≡ map_res (passed depth) (content kind depth (end - (at + 6)) file.now at) }
{
    match kind {
        GROUP_START => group_start_at(file, at, end, depth),
        GROUP_END => group_end_at(at, end, depth),
        _ => colour_at(file, at, end, depth),
    }
}

/// The block at `at`, where `depth` groups stand open.
pub fn block_at(file: &[u8], at: usize, depth: usize) -> Result<Passed, Refusal>
    ensures { told_passed result ≡ map_res (passed depth) (block depth file.now at) }
{
    let (kind, a) = fields::number_at::<u16>(file, at)?;
    let (n, b) = fields::number_at::<u32>(file, a)?;
    if !is_block_type(kind) {
        return Err(Refusal(Fault::Unknown, at));
    }
    if file.len() - b < n as usize {
        return Err(Refusal(Fault::Short, b));
    }
    content_at(file, at, b + n as usize, kind, depth)
}

// ---- the file

// The n blocks from `at`: how many groups are left open, and how many of them are colours.
fn blocks_at(file: &[u8], at: usize, n: u32) -> Result<Passed, Refusal>
    ensures { told_passed result ≡ map_res (tally 0) (chain open_after_entry block n 0 file.now at) }
{
    let mut p = at;
    let mut depth: usize = 0;
    let mut colours: usize = 0;
    for _i in 0..n {
        let passed = block_at(file, p, depth)?;
        p = passed.next;
        depth = passed.depth;
        colours += passed.colours;
    }
    Ok(Passed {
        next: p,
        depth,
        colours,
    })
}

// What follows the heading: n blocks from `at`, no group left open, and the file's end.
fn whole_at(file: &[u8], at: usize, n: u32) -> Result<Counts, Refusal>
    ensures { told result ≡ verdict report (whole n file.now at) }
{
    let passed = blocks_at(file, at, n)?;
    if passed.depth != 0 {
        return Err(Refusal(Fault::Unbalanced, passed.next));
    }
    if passed.next != file.len() {
        return Err(Refusal(Fault::LeftOver, passed.next));
    }
    Ok(Counts {
        blocks: n as usize,
        colours: passed.colours,
    })
}

// `ASEF`, 1, 0, and the block count, with the first block's place.
fn heading_at(file: &[u8]) -> Result<(u32, usize), Refusal>
    ensures { told_at (λ n. n) result ≡ heading file.now 0 }
{
    let (signature, a) = fields::number_at::<u32>(file, 0)?;
    if signature != SIGNATURE {
        return Err(Refusal(Fault::WrongTag, 0));
    }
    let b = fields::number_is(file, a, 1, Fault::WrongTag)?;
    let c = fields::number_is(file, b, 0, Fault::WrongTag)?;
    fields::number_at::<u32>(file, c)
}

/// Judges a whole file.
pub fn judge(file: &[u8]) -> Result<Counts, Refusal>
    ensures { told result ≡ verdict report (ase file.now) }
{
    if LIMIT < file.len() {
        return Err(Refusal(Fault::TooLong, 0));
    }
    let (n, first) = heading_at(file)?;
    whole_at(file, first, n)
}
