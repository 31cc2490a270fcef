// The scalar value at the front of units, and its bytes.
ghost use Rattle.std.specs.Prelude.{◌≡◌, ◌+◌, ◌≤◌, ◌<◌, length};
ghost use Rattle.std.proofs.lemmas.List.Edits.{sets};
ghost use Rattle.unicode_text.specs.Reading.{scalar_bytes};
ghost use Rattle.unicode_text.specs.scaffold.Steps.{is_pair, scalar_at, taken};

// Below these a scalar value has one byte, two bytes and three.
pub(crate) const ONE_BYTE: u32 = 0x80;

const TWO_BYTES: u32 = 0x800;

const THREE_BYTES: u32 = 0x10000;

// Whether u is the high surrogate and v the low one of a pair: 0xD800 to 0xDBFF, and 0xDC00 to 0xDFFF.
fn is_pair(u: u32, v: u32) -> bool
    ensures { result ≡ is_pair u v }
{
    if u / 1024 != 54 {
        return false;
    }
    v / 1024 == 55
}

// The scalar value of u, with v behind it.
pub(crate) fn scalar_at(u: u32, v: u32) -> u32
    requires { u < 65536 }
    ensures { (result ≡ scalar_at u v) × (result < 1114112) }
{
    if is_pair(u, v) {
        return 0x10000 + (u - 0xD800) * 0x400 + (v - 0xDC00);
    }
    if u / 2048 == 27 {
        return 0xFFFD;
    }
    u
}

// How many units it takes.
pub(crate) fn taken_at(u: u32, v: u32) -> usize
    ensures { (result ≡ taken u v) × (0 < result) }
{
    if is_pair(u, v) {
        return 2;
    }
    1
}

// How many bytes a scalar value has.
pub(crate) fn width(c: u32) -> usize
    ensures { (result ≡ length (scalar_bytes c)) × (result ≤ 4) }
{
    if c < ONE_BYTE {
        return 1;
    }
    if c < TWO_BYTES {
        return 2;
    }
    if c < THREE_BYTES {
        return 3;
    }
    4
}

// Stores a scalar value's bytes from `at`, and answers the next place.
pub(crate) fn put(out: &mut [u8], at: usize, c: u32) -> usize
    requires { (c < 1114112) × (at + length (scalar_bytes c) ≤ length out.old) }
    ensures { (result ≡ at + length (scalar_bytes c)) × (out.new ≡ sets out.old at (scalar_bytes c)) }
{
    if c < ONE_BYTE {
        out[at] = c as u8;
        return at + 1;
    }
    if c < TWO_BYTES {
        out[at] = (0xC0 + c / 64) as u8;
        out[at + 1] = (0x80 + c % 64) as u8;
        return at + 2;
    }
    if c < THREE_BYTES {
        out[at] = (0xE0 + c / 4096) as u8;
        out[at + 1] = (0x80 + c / 64 % 64) as u8;
        out[at + 2] = (0x80 + c % 64) as u8;
        return at + 3;
    }
    out[at] = (0xF0 + c / 262_144) as u8;
    out[at + 1] = (0x80 + c / 4096 % 64) as u8;
    out[at + 2] = (0x80 + c / 64 % 64) as u8;
    out[at + 3] = (0x80 + c % 64) as u8;
    at + 4
}
