// What a walk is, and the law of its calls, for every format: specs/Walk.antt and proofs/Calls.antt.
// Names that a walk gives, as parts of the file.
#![tactic(auto)]

ghost use Rattle.std.specs.Prelude.{◌≡◌};
ghost use Rattle.walk.specs.Names.{name_part};

/// The bytes of a name that a call gave by its place and number of units; none where they do not lie
/// inside the file.
pub fn name_part(file: &[u8], place: usize, units: u32) -> &[u8]
    ensures { result.now ≡ name_part file.now place units }
{
    let size = 2 * (units as usize);
    if file.len() < place {
        return &file[..0];
    }
    if file.len() - place < size {
        return &file[..0];
    }
    let end = place + size;
    &file[place..end]
}
