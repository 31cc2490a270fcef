// Lists the ACO file on standard input: its header, a line a colour, `end`; or the refusal.
#![tactic(auto)]

ghost use Rattle.std.specs.Prelude.{◌≡◌, ◌<◌, length};
ghost use Rattle.io.specs.Counts.{IsPrefixLen};
ghost use Rattle.algebra.specs.Numbers.{joined};
ghost use Rattle.aco.specs.Reading.{aco};
ghost use Rattle.aco_walk.specs.Walking.{first_place, walk};
ghost use Rattle.listing.specs.Buffer.{put_all};
ghost use Rattle.listing.specs.Text.{word, lines, taken};
ghost use Rattle.aco_list.specs.Listing.{colour_line, line, heading, listing};
ghost use Rattle.walk.specs.scaffold.Walk.{given};

use aco_judge::{Counts, Rejection};
use colour::Colour;
use fault::Fault;
use listing::{finish, put, put_name, put_number, put_refusal, put_text, put_word, take_input};
use walk::name_part;

// The longest input that is listed.
const TAKEN: usize = 65536;

fn put_samples(out: &mut [u8], n: usize, samples: [u16; 4]) -> usize
    ensures { (out.new, result) ≡ put_all (out.old, n) (joined word samples) }
{
    let mut at = n;
    for &v in &samples {
        at = put_word(out, at, u64::from(v));
    }
    at
}

// A colour's line: its number, space, samples and name.
fn put_colour(out: &mut [u8], n: usize, i: usize, colour: Colour, name: &[u8]) -> usize
    ensures { (out.new, result) ≡ put_all (out.old, n) (colour_line i colour name.now) }
{
    let mut at = put_number(out, n, i as u64);
    at = put_word(out, at, u64::from(colour.space));
    at = put_samples(out, at, colour.samples);
    at = put(out, at, b' ');
    at = put_name(out, at, name);
    put(out, at, b'\n')
}

// The colours of an accepted file, one a step.
fn put_colours(out: &mut [u8], n: usize, file: &[u8], colours: usize) -> usize
    ensures { (out.new, result) ≡ put_all (out.old, n) (lines line 0 (given (walk file.now) colours (first_place file.now))) }
{
    let mut at = n;
    let mut p = aco_walk::first_at(file);
    for i in 0..colours {
        let step = aco_walk::step_at(file, p);
        let Ok(given) = step.given else {
            return at;
        };
        let Some(swatch) = given else {
            return at;
        };
        let name = name_part(file, swatch.name.first, swatch.name.units);
        at = put_colour(out, at, i, swatch.colour, name);
        p = step.next;
    }
    at
}

fn put_heading(out: &mut [u8], counts: Counts) -> usize
    ensures { (out.new, result) ≡ put_all (out.old, 0) (heading counts.colours counts.lists) }
{
    let mut at = put_text(out, 0, b"ACO");
    at = put_word(out, at, counts.colours as u64);
    if counts.lists == 1 {
        return put_text(out, at, b" plain\n");
    }
    put_text(out, at, b" names\n")
}

fn put_listing(out: &mut [u8], file: &[u8]) -> usize
    ensures { (out.new, result) ≡ put_all (out.old, 0) (taken 65536 file.now (listing (aco file.now))) }
{
    if TAKEN < file.len() {
        return put_refusal(out, Fault::TooLong.number(), 0);
    }
    match aco_judge::judge(file) {
        Ok(counts) => {
            let head = put_heading(out, counts);
            let end = put_colours(out, head, file, counts.colours);
            put_text(out, end, b"end\n")
        }
        Err(Rejection::Refused(refused)) => put_refusal(out, refused.0.number(), refused.1),
        Err(
            Rejection::Differ {
                place,
                record: _,
                field: _,
            },
        ) => put_refusal(out, Fault::ListsDiffer.number(), place),
    }
}

// Takes standard input. The buffer has room for a byte more than is listed, so that a longer input is
// not cut to one that is.
fn take_file(input: &mut [u8]) -> usize
    requires { 65536 < length input.old }
    ensures { IsPrefixLen result input.new }
{
    take_input(input)
}

fn main() {
    let mut input = [0u8; TAKEN + 1];
    let mut out = [0u8; 16384];
    let n = take_file(&mut input);
    let full = put_listing(&mut out, &input[..n]);
    finish(&out, full);
}
