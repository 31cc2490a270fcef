// Descriptors built from a run of entries, and the entries of a descriptor, for C.
ghost use Rattle.std.specs.Prelude.{◌≡◌};
ghost use Rattle.descriptor_entry.specs.Entries.{given, needed, built};
ghost use Rattle.descriptor_entries.specs.Answered.{entered};
ghost use Rattle.khuyurek.specs.Descriptor.{read_of};
ghost use Rattle.khuyurek.specs.Written.{written_of, wrote_of};

use crate::descriptors::exported;
use crate::{DescriptorAnswer, Length, exported_length};

// How many bytes building needs.
#[unsafe(no_mangle)]
pub extern "C" fn khuyurek_descriptor_build_length(entries: &[u32], text: &[u8]) -> Length
    ensures { result ≡ written_of (needed text.now (given entries.now)) }
{
    exported_length(descriptor_build_judge::write_length(entries, text))
}

// Builds the descriptor of entries, whose parts lie in `text`, in `out`.
#[unsafe(no_mangle)]
pub extern "C" fn khuyurek_descriptor_build(entries: &[u32], text: &[u8], out: &mut [u8]) -> Length
    ensures { (result, out.new) ≡ wrote_of (built text.now (given entries.now) out.old) }
{
    exported_length(descriptor_build::write(entries, text, out))
}

// The entries of a descriptor, its own bytes being their text, in a lent run.
#[unsafe(no_mangle)]
pub extern "C" fn khuyurek_descriptor_entries(file: &[u8], entries: &mut [u32]) -> DescriptorAnswer
    ensures { (result, entries.new) ≡ read_of (entered file.now entries.old) }
{
    exported(descriptor_entries_read::entries(file, entries))
}
