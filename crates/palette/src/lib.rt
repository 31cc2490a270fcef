// Palettes: the colours of an ACO or an ASE file, groups left aside, judged and handed out one a
// call in one form for both.
#![tactic(auto)]

ghost use Rattle.std.specs.Prelude.{◌≡◌, Err, length};
ghost use Rattle.algebra.specs.Table.{verdict};
ghost use Rattle.aco_walk.specs.Walking.{walk};
ghost use Rattle.aco_walk.specs.Answer.{call_and_place};
ghost use Rattle.ase_walk.specs.Walking.{walk as aseWalk};
ghost use Rattle.ase_walk.specs.Answer.{call_and_place as aseCall};
ghost use Rattle.palette.specs.Palette.{colours};
ghost use Rattle.palette.specs.PaletteStep.{first_at, view_of, channel_numbers, no_numbers, colour_numbers, no_colour, aco_step, ase_step, step_of, told_numbers, told_palette_step};
ghost use Rattle.palette.specs.Answer.{told, IsExact, Exact};
ghost use Rattle.palette.specs.declared.Kind.TheVariants.{Aco, Ase};
ghost use Rattle.palette.specs.declared.View.TheVariants.{Samples, Counterparts};

use aco_judge::Rejection;
use colour::{Channels, Colour};
use fault::{Fault, Refusal};

#[derive(Clone, Copy)]
pub enum Kind {
    Aco,
    Ase,
}

// Which numbers a step gives of a colour: an ACO colour's samples, the channels that it converts to,
// or an ASE colour's channels.
#[derive(Clone, Copy)]
pub enum View {
    Samples,
    Counterparts,
    Channels,
}

// A colour: its space and samples, or its model's tag and the bits of its channels.
#[derive(Clone, Copy, Debug, PartialEq, Eq)]
pub struct Numbers {
    pub tag: u32,
    pub numbers: [u32; 4],
}

// A colour, where its name lies, and the place of the next call.
#[derive(Clone, Copy)]
pub struct PaletteStep {
    pub numbers: Numbers,
    pub place: usize,
    pub units: u32,
    pub next: usize,
}

// ---- judging

// The same rejection, in which `Differ` alone says that lists differ.
fn exact(rejection: Rejection) -> Rejection
    ensures { (told (Err result) ≡ told (Err rejection)) × IsExact result }
{
    match rejection {
        Rejection::Refused(Refusal(Fault::ListsDiffer, place)) => Rejection::Differ {
            place,
            record: 0,
            field: 0,
        },
        _ => rejection,
    }
}

fn judge_aco(file: &[u8]) -> Result<usize, Rejection>
    ensures { (told result ≡ verdict length (colours Aco file.now)) × Exact result }
{
    match aco_judge::judge(file) {
        Ok(counts) => Ok(counts.colours),
        Err(rejection) => Err(exact(rejection)),
    }
}

fn judge_ase(file: &[u8]) -> Result<usize, Rejection>
    ensures { (told result ≡ verdict length (colours Ase file.now)) × Exact result }
{
    match ase_judge::judge(file) {
        Ok(counts) => Ok(counts.colours),
        Err(refusal) => Err(exact(Rejection::Refused(refusal))),
    }
}

/// How many colours a whole file has, which the caller says to be of a kind. Where an ACO file's
/// lists differ, `Differ` says so, in the first field too.
pub fn judge(kind: Kind, file: &[u8]) -> Result<usize, Rejection>
    ensures { (told result ≡ verdict length (colours kind file.now)) × Exact result }
{
    match kind {
        Kind::Aco => judge_aco(file),
        Kind::Ase => judge_ase(file),
    }
}

// How a colour of a kind is seen beside one of another kind.
pub fn view_of(kind: Kind, other: Kind) -> View
    ensures { result ≡ view_of kind other }
{
    match kind {
        Kind::Aco => match other {
            Kind::Aco => View::Samples,
            Kind::Ase => View::Counterparts,
        },
        Kind::Ase => View::Channels,
    }
}

// ---- a colour

fn zeros() -> Numbers
    ensures { told_numbers result ≡ no_numbers }
{
    Numbers {
        tag: 0,
        numbers: [0; 4],
    }
}

fn none(next: usize) -> PaletteStep
    ensures { told_palette_step result ≡ no_colour next }
{
    PaletteStep {
        numbers: zeros(),
        place: 0,
        units: 0,
        next,
    }
}

// An ACO colour as it is.
fn own(colour: Colour) -> Numbers
    ensures { told_numbers result ≡ colour_numbers Samples colour }
{
    let samples = colour.samples;
    let a = u32::from(samples[0]);
    let b = u32::from(samples[1]);
    let c = u32::from(samples[2]);
    let d = u32::from(samples[3]);
    Numbers {
        tag: u32::from(colour.space),
        numbers: [a, b, c, d],
    }
}

// An ASE colour.
fn channels_of(colour: Channels) -> Numbers
    ensures { told_numbers result ≡ channel_numbers colour }
{
    let traits = colour.model().traits();
    let numbers = colour.bits();
    Numbers {
        tag: traits.tag,
        numbers,
    }
}

// The ASE colour that an ACO colour converts to; zeros where it has no counterpart.
fn counterpart(colour: Colour) -> Numbers
    ensures { told_numbers result ≡ colour_numbers Counterparts colour }
{
    match convert::to_channels(colour) {
        Ok(made) => channels_of(made),
        Err(_) => zeros(),
    }
}

fn numbers_of(view: View, colour: Colour) -> Numbers
    ensures { told_numbers result ≡ colour_numbers view colour }
{
    match view {
        View::Samples => own(colour),
        View::Counterparts => counterpart(colour),
        View::Channels => zeros(),
    }
}

// ---- one call

fn aco_step(view: View, file: &[u8], at: usize) -> PaletteStep
    ensures { told_palette_step result ≡ aco_step view (call_and_place (walk file.now at)) }
{
    let step = aco_walk::step_at(file, at);
    let next = step.next;
    match step.given {
        Ok(Some(swatch)) => PaletteStep {
            numbers: numbers_of(view, swatch.colour),
            place: swatch.name.first,
            units: swatch.name.units,
            next,
        },
        _ => none(next),
    }
}

fn ase_step(file: &[u8], at: usize) -> PaletteStep
    ensures { told_palette_step result ≡ ase_step (aseCall (aseWalk file.now at)) }
{
    let step = ase_walk::step_at(file, at);
    let next = step.next;
    match step.given {
        Ok(Some(given)) => PaletteStep {
            numbers: channels_of(given.colour),
            place: given.place,
            units: given.units,
            next,
        },
        _ => none(next),
    }
}

// One call from any place of any file: the colour there, zeros where none stands there.
pub fn step_at(view: View, file: &[u8], at: usize) -> PaletteStep
    ensures { told_palette_step result ≡ step_of view file.now at }
{
    match view {
        View::Samples => aco_step(view, file, at),
        View::Counterparts => aco_step(view, file, at),
        View::Channels => ase_step(file, at),
    }
}

// The place of the first colour of an accepted file.
pub fn first_at(kind: Kind, file: &[u8]) -> usize
    ensures { result ≡ first_at kind file.now }
{
    match kind {
        Kind::Aco => aco_walk::first_at(file),
        Kind::Ase => ase_walk::first_at(file),
    }
}
