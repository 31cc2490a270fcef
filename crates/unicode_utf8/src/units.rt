// UTF-8 of 16-bit units that stand in a row.
ghost use Rattle.std.specs.Prelude.{◌≡◌, ◌≤◌, ◌<◌, ℕ, List, leb, length, get_or};
ghost use Rattle.std.proofs.lemmas.List.Edits.{sets};
ghost use Rattle.fault.specs.Answer.{told_written};
ghost use Rattle.unicode_text.specs.Grammar.{Units as Small};
ghost use Rattle.unicode_text.specs.Reading.{utf8 as bytes_of};
ghost use Rattle.unicode_utf8.specs.Answer.{length_of, written};

use crate::{LIMIT, scalar};
use fault::Fault;

// 16-bit units in a row.
pub(crate) trait Units: Copy {
    ghost units: { Self → List ℕ };

    // How many there are.
    fn many(self) -> usize
        ensures { (result ≡ length (units self)) × Small (units self) };

    // Unit i, or 0, which is no surrogate, where there is none.
    fn unit_at(self, i: usize) -> u32
        requires { i ≤ 8388608 }
        ensures { (result ≡ get_or (units self) i 0) × (result < 65536) };
}

impl Units for &[u16] {
    ghost units = { λ s. s.now };

    fn many(self) -> usize {
        self.len()
    }

    fn unit_at(self, i: usize) -> u32 {
        if self.len() <= i {
            return 0;
        }
        u32::from(self[i])
    }
}

// How many bytes they have.
// Kept: a loop that counts, since a turn takes one unit or a pair of them.
pub(crate) fn count<U: Units>(units: U) -> usize
    requires { length (U.units units) ≤ 8388608 }
    ensures { result ≡ length (bytes_of (U.units units)) }
{
    let end = units.many();
    let mut n: usize = 0;
    let mut i: usize = 0;
    while i < end {
        let u = units.unit_at(i);
        if u < scalar::ONE_BYTE {
            n += 1;
            i += 1;
            continue;
        }
        let v = units.unit_at(i + 1);
        n += scalar::width(scalar::scalar_at(u, v));
        i += scalar::taken_at(u, v);
    }
    n
}

// Whether so many bytes are enough. A unit has at most three, so that a long run need not be counted.
pub(crate) fn has_room<U: Units>(units: U, room: usize) -> bool
    requires { length (U.units units) ≤ 8388608 }
    ensures { result ≡ leb (length (bytes_of (U.units units))) room }
{
    if 3 * units.many() <= room {
        return true;
    }
    count(units) <= room
}

// Stores them, and answers how many bytes that are.
// Kept: the same.
pub(crate) fn fill<U: Units>(units: U, out: &mut [u8]) -> usize
    requires { (length (U.units units) ≤ 8388608) × (length (bytes_of (U.units units)) ≤ length out.old) }
    ensures { (result ≡ length (bytes_of (U.units units))) × (out.new ≡ sets out.old 0 (bytes_of (U.units units))) }
{
    let end = units.many();
    let mut n: usize = 0;
    let mut i: usize = 0;
    while i < end {
        let u = units.unit_at(i);
        if u < scalar::ONE_BYTE {
            out[n] = u as u8;
            n += 1;
            i += 1;
            continue;
        }
        let v = units.unit_at(i + 1);
        n = scalar::put(out, n, scalar::scalar_at(u, v));
        i += scalar::taken_at(u, v);
    }
    n
}

/// How many bytes units have in UTF-8.
pub fn utf8_length(units: &[u16]) -> Result<usize, Fault>
    ensures { told_written result ≡ length_of units.now }
{
    if LIMIT / 2 < units.len() {
        return Err(Fault::TooLong);
    }
    Ok(count(units))
}

/// Units in UTF-8, in lent bytes.
pub fn utf8(units: &[u16], out: &mut [u8]) -> Result<usize, Fault>
    ensures { (told_written result, out.new) ≡ written units.now out.old }
{
    if LIMIT / 2 < units.len() {
        return Err(Fault::TooLong);
    }
    if !has_room(units, out.len()) {
        return Err(Fault::NoRoom);
    }
    Ok(fill(units, out))
}
