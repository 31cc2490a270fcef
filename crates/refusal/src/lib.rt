// The refusal table in words: the sentence of each number, in ASCII in lent bytes.
#![tactic(auto)]

ghost use Rattle.std.specs.Prelude.{◌≡◌, length};
ghost use Rattle.algebra.specs.Writing.{writes};
ghost use Rattle.fault.specs.Answer.{told_written};
ghost use Rattle.refusal.specs.Sentences.{written};

use fault::Fault;

// Stores a text, where it has room.
fn put(out: &mut [u8], text: &[u8]) -> Result<usize, Fault>
    ensures { (told_written result, out.new) ≡ writes 0 (length text.now) text.now out.old }
{
    if out.len() < text.len() {
        return Err(Fault::NoRoom);
    }
    fields::put_run(out, 0, text);
    Ok(text.len())
}

/// The sentence of a number of the refusal table, 0 among them; `NoRecord` for any other number.
pub fn sentence(number: u32, out: &mut [u8]) -> Result<usize, Fault>
    ensures { (told_written result, out.new) ≡ written number out.old }
{
    match number {
        0 => put(out, b"accepted"),
        1 => put(
            out,
            b"the file read, or the output to be written, is longer than the limit",
        ),
        2 => put(out, b"a field needs more bytes than remain"),
        3 => put(out, b"wrong signature, version or closing tag"),
        4 => put(
            out,
            b"unknown colour space, block type, model, item type, form or unit",
        ),
        5 => put(out, b"a field outside its stated range"),
        6 => put(out, b"bytes left over after the end"),
        7 => put(out, b"the two ACO lists disagree"),
        8 => put(out, b"a name badly closed"),
        9 => put(out, b"groups unbalanced"),
        10 => put(out, b"nested too deep"),
        11 => put(out, b"the lent output is shorter than the exact need"),
        12 => put(out, b"no record or page of that number"),
        13 => put(out, b"ASE block length disagrees with its content"),
        14 => put(out, b"colour has no counterpart in the other format"),
        _ => Err(Fault::NoRecord),
    }
}
