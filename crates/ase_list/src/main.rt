// Lists the ASE file on standard input: its header, a line a block, `end`; or the refusal.
#![tactic(auto)]

ghost use Rattle.std.specs.Prelude.{◌≡◌, ◌≤◌, ◌<◌, length, take};
ghost use Rattle.walk.specs.Names.{name_part};
ghost use Rattle.algebra.specs.Numbers.{joined};
ghost use Rattle.colour.specs.Inks.{ink_number};
ghost use Rattle.ase.specs.Reading.{ase};
ghost use Rattle.ase_walk.specs.Walking.{first_place};
ghost use Rattle.walk.specs.scaffold.Walk.{answers};
ghost use Rattle.ase_walk.specs.Answer.{told_block};
ghost use Rattle.listing.specs.Buffer.{put_all};
ghost use Rattle.listing.specs.Text.{lines, taken};
ghost use Rattle.ase_list.specs.Listing.{channel, type, listing};
ghost use Rattle.ase_list.specs.scaffold.Listing.{colour_text, answer, answer_line, shown_walk};
ghost use Rattle.ase_list.specs.Listing.{model as Listing·model};

use ase_read::{NamedColour, Record};
use colour::{Ink, Model};
use fault::{Fault, Refusal};
use listing::{
    finish, put, put_bits, put_name, put_number, put_refusal, put_text, put_word, take_input,
};
use walk::name_part;

// The longest input that is listed.
const TAKEN: usize = 65536;

fn put_model(out: &mut [u8], n: usize, model: Model) -> usize
    ensures { (out.new, result) ≡ put_all (out.old, n) (Listing·model model) }
{
    match model {
        Model::Rgb => put_text(out, n, b"RGB"),
        Model::Cmyk => put_text(out, n, b"CMYK"),
        Model::Lab => put_text(out, n, b"LAB"),
        Model::Gray => put_text(out, n, b"Gray"),
    }
}

fn put_channels(out: &mut [u8], n: usize, channels: &[u32]) -> usize
    ensures { (out.new, result) ≡ put_all (out.old, n) (joined channel channels.now) }
{
    let mut at = n;
    for &bits in channels {
        at = put(out, at, b' ');
        at = put_bits(out, at, bits);
    }
    at
}

fn put_ink(out: &mut [u8], n: usize, ink: Ink) -> usize
    ensures { (out.new, result) ≡ put_all (out.old, n) (type (ink_number ink)) }
{
    match ink {
        Ink::Global => put_text(out, n, b" global "),
        Ink::Spot => put_text(out, n, b" spot "),
        Ink::Normal | Ink::Process | Ink::NotStated => put_text(out, n, b" normal "),
    }
}

// A colour: its model, channels, type and name.
fn put_colour(out: &mut [u8], n: usize, file: &[u8], given: NamedColour) -> usize
    ensures { (out.new, result) ≡ put_all (out.old, n) (colour_text given.colour (ink_number given.ink) (name_part file.now given.place given.units)) }
{
    let model = given.colour.model();
    let bits = given.colour.bits();
    let channels = &bits[..model.traits().channels as usize];
    let mut at = put_model(out, n, model);
    at = put_channels(out, at, channels);
    at = put_ink(out, at, given.ink);
    put_name(out, at, name_part(file, given.place, given.units))
}

// What stands in a block's line after its number.
fn put_block(out: &mut [u8], n: usize, file: &[u8], block: Result<Option<Record>, Refusal>) -> usize
    ensures { (out.new, result) ≡ put_all (out.old, n) (answer file.now (told_block block)) }
{
    match block {
        Ok(Some(Record::GroupStart { place, units })) => {
            let at = put_text(out, n, b" group ");
            put_name(out, at, name_part(file, place, units))
        }
        Ok(Some(Record::GroupEnd)) => put_text(out, n, b" close"),
        Ok(Some(Record::Colour(given))) => {
            let at = put_text(out, n, b" colour ");
            put_colour(out, at, file, given)
        }
        Ok(None) => n,
        Err(_) => n,
    }
}

// The blocks of an accepted file, one a step.
fn put_blocks(out: &mut [u8], n: usize, file: &[u8], blocks: usize) -> usize
    ensures { (out.new, result) ≡ put_all (out.old, n) (lines (answer_line file.now) 0 (answers (shown_walk file.now) blocks (first_place file.now))) }
{
    let mut at = n;
    let mut p = ase_walk::first_at(file);
    for i in 0..blocks {
        let step = ase_walk::block_at(file, p);
        at = put_number(out, at, i as u64);
        at = put_block(out, at, file, step.block);
        at = put(out, at, b'\n');
        p = step.next;
    }
    at
}

fn put_listing(out: &mut [u8], file: &[u8]) -> usize
    ensures { (out.new, result) ≡ put_all (out.old, 0) (taken 65536 file.now (listing file.now (ase file.now))) }
{
    if TAKEN < file.len() {
        return put_refusal(out, Fault::TooLong.number(), 0);
    }
    match ase_judge::judge(file) {
        Ok(counts) => {
            let mut at = put_text(out, 0, b"ASE");
            at = put_word(out, at, counts.blocks as u64);
            at = put(out, at, b'\n');
            at = put_blocks(out, at, file, counts.blocks);
            put_text(out, at, b"end\n")
        }
        Err(refused) => put_refusal(out, refused.0.number(), refused.1),
    }
}

// Takes standard input. The buffer has room for a byte more than is listed, so that a longer input is
// not cut to one that is.
fn take_file(input: &mut [u8]) -> usize
    requires { 65536 < length input.old }
    ensures { (result ≤ length input.new) × (result ≡ length (take result input.new)) }
{
    take_input(input)
}

fn main() {
    let mut input = [0u8; TAKEN + 1];
    let mut out = [0u8; 16384];
    let n = take_file(&mut input);
    let full = put_listing(&mut out, &input[..n]);
    finish(&out, full);
}
