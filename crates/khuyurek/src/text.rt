// Text for people, for C: names in UTF-8, and refusals in words.
ghost use Rattle.std.specs.Prelude.{◌≡◌};
ghost use Rattle.unicode_utf8.specs.Answer.{length_of, written, length_of_name, name_written};
ghost use Rattle.refusal.specs.Sentences.{written as sentenceWritten};
ghost use Rattle.khuyurek.specs.Written.{written_of, wrote_of};

use crate::{Length, exported_length};

// How many bytes units have in UTF-8.
#[unsafe(no_mangle)]
pub extern "C" fn khuyurek_utf8_length(units: &[u16]) -> Length
    ensures { result ≡ written_of (length_of units.now) }
{
    exported_length(unicode_utf8::utf8_length(units))
}

// Units in UTF-8.
#[unsafe(no_mangle)]
pub extern "C" fn khuyurek_utf8(units: &[u16], out: &mut [u8]) -> Length
    ensures { (result, out.new) ≡ wrote_of (written units.now out.old) }
{
    exported_length(unicode_utf8::utf8(units, out))
}

// How many bytes the name of so many units at a place of a file has in UTF-8.
#[unsafe(no_mangle)]
pub extern "C" fn khuyurek_name_utf8_length(file: &[u8], place: usize, units: usize) -> Length
    ensures { result ≡ written_of (length_of_name file.now place units) }
{
    exported_length(unicode_utf8::name_utf8_length(file, place, units))
}

// The name of so many units at a place of a file in UTF-8.
#[unsafe(no_mangle)]
pub extern "C" fn khuyurek_name_utf8(
    file: &[u8],
    place: usize,
    units: usize,
    out: &mut [u8],
) -> Length
    ensures { (result, out.new) ≡ wrote_of (name_written file.now place units out.old) }
{
    exported_length(unicode_utf8::name_utf8(file, place, units, out))
}

// The sentence of a number of the refusal table.
#[unsafe(no_mangle)]
pub extern "C" fn khuyurek_refusal_sentence(number: u32, out: &mut [u8]) -> Length
    ensures { (result, out.new) ≡ wrote_of (sentenceWritten number out.old) }
{
    exported_length(refusal::sentence(number, out))
}
