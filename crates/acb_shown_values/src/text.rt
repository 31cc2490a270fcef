// The shown text of a header string: what stands after the first `=`, where it begins with `$$$/`.
ghost use Rattle.std.specs.Prelude.{◌≡◌, ◌/◌, length};
ghost use Rattle.acb_shown_values.specs.Texts.{behind_equals, shown_start, shown_text};

use fields::number_at;

// The units of `$$$/`.
const MARK: u64 = 0x0024_0024_0024_002F;

// The unit `=`.
const EQUALS: u16 = 0x003D;

// The place behind the first unit `=`, or 0 where there is none.
fn behind_equals(string: &[u8]) -> usize
    ensures { result ≡ behind_equals (length string.now / 2) string.now 0 }
{
    let mut at: usize = 0;
    // Kept: a turn takes the next unit as a reader gives it, up to the first that is not whole.
    while let Ok((unit, next)) = number_at::<u16>(string, at) {
        if unit == EQUALS {
            return next;
        }
        at = next;
    }
    0
}

/// Where the shown text of a string begins in it: 0 where all of it is shown.
pub fn shown_start(string: &[u8]) -> usize
    ensures { result ≡ shown_start string.now }
{
    let Ok((four, _)) = number_at::<u64>(string, 0) else {
        return 0;
    };
    if four != MARK {
        return 0;
    }
    behind_equals(string)
}

/// The shown text of a string, a part of it.
pub fn shown_text(string: &[u8]) -> &[u8]
    ensures { result.now ≡ shown_text string.now }
{
    &string[shown_start(string)..]
}
