// The units of a name as they stand in a file.
ghost use Rattle.std.specs.Prelude.{◌≡◌};
ghost use Rattle.fault.specs.Answer.{told_written};
ghost use Rattle.unicode_utf8.specs.Answer.{length_of_name, name_written};
ghost use Rattle.unicode_utf8.specs.scaffold.Steps.{units_within, Found};

use crate::LIMIT;
use crate::units::{Units, count, fill, has_room};
use fault::Fault;

// The bytes of a name, two a unit.
impl Units for &[u8] {
    ghost units = { λ s. units_within s.now };

    fn many(self) -> usize {
        self.len() / 2
    }

    fn unit_at(self, i: usize) -> u32 {
        u32::from(fields::number_or_zero::<u16>(self, 2 * i))
    }
}

// The bytes of so many units from `at`.
fn bytes_at(file: &[u8], at: usize, units: usize) -> Result<&[u8], Fault>
    ensures { Found file.now at units result }
{
    let n = file.len();
    if LIMIT < n {
        return Err(Fault::TooLong);
    }
    if units == 0 {
        return Ok(&file[..0]);
    }
    if n < at {
        return Err(Fault::Short);
    }
    if (n - at) / 2 < units {
        return Err(Fault::Short);
    }
    let end = at + 2 * units;
    Ok(&file[at..end])
}

/// How many bytes the name of so many units from `at` has in UTF-8.
pub fn name_utf8_length(file: &[u8], at: usize, units: usize) -> Result<usize, Fault>
    ensures { told_written result ≡ length_of_name file.now at units }
{
    let bytes = bytes_at(file, at, units)?;
    Ok(count(bytes))
}

/// The name of so many units from `at` in UTF-8, in lent bytes.
pub fn name_utf8(file: &[u8], at: usize, units: usize, out: &mut [u8]) -> Result<usize, Fault>
    ensures { (told_written result, out.new) ≡ name_written file.now at units out.old }
{
    let bytes = bytes_at(file, at, units)?;
    if !has_room(bytes, out.len()) {
        return Err(Fault::NoRoom);
    }
    Ok(fill(bytes, out))
}
