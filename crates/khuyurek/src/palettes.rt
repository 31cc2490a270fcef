// ASE for C.
ghost use Rattle.std.specs.Prelude.{◌≡◌};
ghost use Rattle.ase.specs.Reading.{ase};
ghost use Rattle.algebra.specs.Table.{accepted, verdict, whole};
ghost use Rattle.ase.specs.Row.{width, taken};
ghost use Rattle.ase_read.specs.Answer.{shown_colour};
ghost use Rattle.ase_judge.specs.Answer.{report, told};
ghost use Rattle.ase_read.specs.Table.{filled, record_at};
ghost use Rattle.ase_writing.specs.Writing.{needed, written};
ghost use Rattle.colour.specs.Models.{traits_of};
ghost use Rattle.colour.specs.Channels.{bits_of, model_in};
ghost use Rattle.colour.specs.Inks.{ink_number};
ghost use Rattle.khuyurek.specs.Written.{written_of, wrote_of};
ghost use Rattle.khuyurek.specs.Ase.{palette_of, palette_read_of, plain, block_of};

use crate::{Length, exported_length};
use ase_judge::Counts;
use ase_read::{NamedColour, Record};
use fault::Refusal;

// Number 0 is accepted, with the number of blocks and of colours; else the refusal.
#[repr(C)]
#[derive(Drop)]
pub struct AseAnswer {
    pub number: u32,
    pub place: usize,
    pub blocks: usize,
    pub colours: usize,
}

// Number 0 is accepted, with the block's type, the place of the name's first unit and its units,
// and a colour's model, channels and ink; else the refusal.
#[repr(C)]
#[derive(Drop)]
pub struct AseRecord {
    pub number: u32,
    pub block: u32,
    pub place: usize,
    pub name: usize,
    pub units: u32,
    pub model: u32,
    pub channels: [u32; 4],
    pub ink: u32,
}

fn exported(a: Result<Counts, Refusal>) -> AseAnswer
    ensures { result ≡ palette_of (told a) }
{
    match a {
        Ok(counts) => AseAnswer {
            number: 0,
            place: 0,
            blocks: counts.blocks,
            colours: counts.colours,
        },
        Err(Refusal(fault, place)) => AseAnswer {
            number: fault.number(),
            place,
            blocks: 0,
            colours: 0,
        },
    }
}

// Judges an ASE file.
#[unsafe(no_mangle)]
pub extern "C" fn khuyurek_ase_judge(file: &[u8]) -> AseAnswer
    ensures { result ≡ palette_of (verdict report (ase file.now)) }
{
    exported(ase_judge::judge(file))
}

// Reads an ASE file into a table, nine numbers a record.
#[unsafe(no_mangle)]
pub extern "C" fn khuyurek_ase_read(file: &[u8], table: &mut [u32]) -> AseAnswer
    ensures { (result, table.new) ≡ palette_read_of (filled (ase file.now) table.old) }
{
    exported(ase_read::read(file, table))
}

fn no_colour(number: u32, block: u16, place: usize, name: usize, units: u32) -> AseRecord
    ensures { result ≡ plain number block place name units }
{
    AseRecord {
        number,
        block: block as u32,
        place,
        name,
        units,
        model: 0,
        channels: [0, 0, 0, 0],
        ink: 0,
    }
}

fn exported_colour(given: NamedColour) -> AseRecord
    ensures { result ≡ block_of (accepted (shown_colour given)) }
{
    AseRecord {
        number: 0,
        block: ase::COLOUR as u32,
        place: 0,
        name: given.place,
        units: given.units,
        model: given.colour.model().traits().tag,
        channels: given.colour.bits(),
        ink: given.ink.number(),
    }
}

// Record i of an ASE file.
#[unsafe(no_mangle)]
pub extern "C" fn khuyurek_ase_record_at(file: &[u8], i: usize) -> AseRecord
    ensures { result ≡ block_of (record_at i (ase file.now)) }
{
    match ase_read::record_at(file, i) {
        Ok(Record::GroupStart { place, units }) => no_colour(0, ase::GROUP_START, 0, place, units),
        Ok(Record::GroupEnd) => no_colour(0, ase::GROUP_END, 0, 0, 0),
        Ok(Record::Colour(given)) => exported_colour(given),
        Err(Refusal(fault, place)) => no_colour(fault.number(), 0, place, 0, 0),
    }
}

// How many bytes writing ASE records takes.
#[unsafe(no_mangle)]
pub extern "C" fn khuyurek_ase_length(records: &[u32], text: &[u8]) -> Length
    ensures { result ≡ written_of (needed text.now (whole width taken records.now)) }
{
    exported_length(ase_write_judge::write_length(records, text))
}

// Writes ASE records.
#[unsafe(no_mangle)]
pub extern "C" fn khuyurek_ase_write(records: &[u32], text: &[u8], out: &mut [u8]) -> Length
    ensures { (result, out.new) ≡ wrote_of (written text.now (whole width taken records.now) out.old) }
{
    exported_length(ase_write::write(records, text, out))
}
