// Walks for C: a step over a file and a place.
ghost use Rattle.std.specs.Prelude.{◌≡◌};
ghost use Rattle.aco.specs.Reading.{aco};
ghost use Rattle.ase.specs.Reading.{ase};
ghost use Rattle.ase_read.specs.Answer.{shown_colour};
ghost use Rattle.walk.specs.Walk.{gives};
ghost use Rattle.aco_walk.specs.Walking.{walk, start_of};
ghost use Rattle.aco_walk.specs.Answer.{call_and_place, told_start};
ghost use Rattle.ase_walk.specs.Walking.{walk as walkAse, block_walk, start_of as startOfAse};
ghost use Rattle.ase_walk.specs.Answer.{call_and_place as handedAse, told_start as toldStartAse};
ghost use Rattle.khuyurek.specs.Walk.{aco_start, aco_step, aco_plain, ase_start, ase_plain, ase_given, ase_step};

use aco_judge::Rejection;
use aco_walk::ColourStep;
use ase_read::{NamedColour, Record};
use ase_walk::BlockStep;
use fault::{Fault, Refusal};

// Number 0 is accepted, with the place where the walk starts; else the refusal with its place, and
// for 7 the record and field.
#[repr(C)]
#[derive(Drop)]
pub struct AcoStart {
    pub number: u32,
    pub place: usize,
    pub rec: usize,
    pub field: usize,
    pub at: usize,
}

// Number 0 is given, with the colour, where its name lies and its ink, or done with 1 there; else the
// refusal, whose place is 0. `next` is the place of the next call.
#[repr(C)]
#[derive(Drop)]
pub struct AcoStep {
    pub number: u32,
    pub done: u32,
    pub next: usize,
    pub name: usize,
    pub units: u32,
    pub space: u16,
    pub samples: [u16; 4],
    pub ink: u32,
}

// Number 0 is accepted, with the place where the walk starts; else the refusal.
#[repr(C)]
#[derive(Drop)]
pub struct AseStart {
    pub number: u32,
    pub place: usize,
    pub at: usize,
}

// Number 0 is given, with the block's type, where its name lies and a colour's model, channels and
// ink, or done with 1 there; else the refusal, whose place is 0. `next` is the place of the next
// call.
#[repr(C)]
#[derive(Drop)]
pub struct AseStep {
    pub number: u32,
    pub done: u32,
    pub block: u32,
    pub units: u32,
    pub next: usize,
    pub name: usize,
    pub model: u32,
    pub channels: [u32; 4],
    pub ink: u32,
}

fn aco_started(o: Result<usize, Rejection>) -> AcoStart
    ensures { result ≡ aco_start (told_start o) }
{
    match o {
        Ok(at) => AcoStart {
            number: 0,
            place: 0,
            rec: 0,
            field: 0,
            at,
        },
        Err(Rejection::Refused(Refusal(fault, place))) => AcoStart {
            number: fault.number(),
            place,
            rec: 0,
            field: 0,
            at: 0,
        },
        Err(
            Rejection::Differ {
                place,
                record,
                field,
            },
        ) => AcoStart {
            number: Fault::ListsDiffer.number(),
            place,
            rec: record,
            field,
            at: 0,
        },
    }
}

// Where a walk of an ACO file starts.
#[unsafe(no_mangle)]
pub extern "C" fn khuyurek_aco_walk_start(file: &[u8]) -> AcoStart
    ensures { result ≡ aco_start (start_of (aco file.now) file.now) }
{
    aco_started(aco_walk::start_at(file))
}

// A step that gives no colour.
fn aco_plain(number: u32, done: u32, next: usize) -> AcoStep
    ensures { result ≡ aco_plain number done next }
{
    AcoStep {
        number,
        done,
        next,
        name: 0,
        units: 0,
        space: 0,
        samples: [0; 4],
        ink: 0,
    }
}

// One colour of an ACO file, from any place.
#[unsafe(no_mangle)]
pub extern "C" fn khuyurek_aco_walk(file: &[u8], at: usize) -> AcoStep
    ensures { result ≡ aco_step (call_and_place (walk file.now at)) }
{
    let ColourStep { given, next } = aco_walk::step_at(file, at);
    match given {
        Ok(Some(swatch)) => {
            let samples = swatch.colour.samples;
            AcoStep {
                number: 0,
                done: 0,
                next,
                name: swatch.name.first,
                units: swatch.name.units,
                space: swatch.colour.space,
                samples,
                ink: swatch.ink.number(),
            }
        }
        Ok(None) => aco_plain(0, 1, next),
        Err(Refusal(fault, _)) => aco_plain(fault.number(), 0, next),
    }
}

fn ase_started(o: Result<usize, Refusal>) -> AseStart
    ensures { result ≡ ase_start (toldStartAse o) }
{
    match o {
        Ok(at) => AseStart {
            number: 0,
            place: 0,
            at,
        },
        Err(Refusal(fault, place)) => AseStart {
            number: fault.number(),
            place,
            at: 0,
        },
    }
}

// Where a walk of an ASE file starts.
#[unsafe(no_mangle)]
pub extern "C" fn khuyurek_ase_walk_start(file: &[u8]) -> AseStart
    ensures { result ≡ ase_start (startOfAse (ase file.now) file.now) }
{
    ase_started(ase_walk::start_at(file))
}

fn ase_colour(given: NamedColour, next: usize) -> AseStep
    ensures { result ≡ ase_given next (gives (shown_colour given)) }
{
    AseStep {
        number: 0,
        done: 0,
        block: ase::COLOUR as u32,
        units: given.units,
        next,
        name: given.place,
        model: given.colour.model().traits().tag,
        channels: given.colour.bits(),
        ink: given.ink.number(),
    }
}

fn ase_plain(number: u32, done: u32, block: u16, name: usize, units: u32, next: usize) -> AseStep
    ensures { result ≡ ase_plain number done block name units next }
{
    AseStep {
        number,
        done,
        block: block as u32,
        units,
        next,
        name,
        model: 0,
        channels: [0, 0, 0, 0],
        ink: 0,
    }
}

// One colour of an ASE file, from any place; groups are passed over.
#[unsafe(no_mangle)]
pub extern "C" fn khuyurek_ase_walk(file: &[u8], at: usize) -> AseStep
    ensures { result ≡ ase_step (handedAse (walkAse file.now at)) }
{
    let step = ase_walk::step_at(file, at);
    match step.given {
        Ok(Some(given)) => ase_colour(given, step.next),
        Ok(None) => ase_plain(0, 1, 0, 0, 0, step.next),
        Err(Refusal(fault, _)) => ase_plain(fault.number(), 0, 0, 0, 0, step.next),
    }
}

// One block of an ASE file, from any place.
#[unsafe(no_mangle)]
pub extern "C" fn khuyurek_ase_walk_block(file: &[u8], at: usize) -> AseStep
    ensures { result ≡ ase_step (handedAse (block_walk file.now at)) }
{
    let BlockStep { block, next } = ase_walk::block_at(file, at);
    match block {
        Ok(Some(Record::GroupStart { place, units })) => {
            ase_plain(0, 0, ase::GROUP_START, place, units, next)
        }
        Ok(Some(Record::GroupEnd)) => ase_plain(0, 0, ase::GROUP_END, 0, 0, next),
        Ok(Some(Record::Colour(given))) => ase_colour(given, next),
        Ok(None) => ase_plain(0, 1, 0, 0, 0, next),
        Err(Refusal(fault, _)) => ase_plain(fault.number(), 0, 0, 0, 0, next),
    }
}
