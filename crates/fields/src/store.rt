// Numbers, runs of bytes and names stored in lent bytes: all of one, or nothing where there is no room.
ghost use Rattle.std.specs.Prelude.{◌≡◌, ◌+◌, ◌≤◌, ◌++◌, leb, length};
ghost use Rattle.algebra.specs.Numbers.{be};
ghost use Rattle.algebra.specs.Text.{counted_units};
ghost use Rattle.algebra.specs.Store.{stored};

use crate::number::{Number, has_bytes};

/// A number that is stored, its highest byte first.
pub trait Stored: Number {
    // Its bytes from `at`, or nothing where they have no room.
    fn store(self, out: &mut [u8], at: usize)
        ensures { out.new ≡ stored out.old at (be Self.WIDTH (Self.value self)) };
}

impl Stored for u16 {
    fn store(self, out: &mut [u8], at: usize) {
        if !has_bytes(out.len(), at, 2) {
            return;
        }
        out[at] = (self / 256 % 256) as u8;
        out[at + 1] = (self % 256) as u8;
    }
}

impl Stored for u32 {
    fn store(self, out: &mut [u8], at: usize) {
        if !has_bytes(out.len(), at, 4) {
            return;
        }
        out[at] = (self / 256 / 256 / 256 % 256) as u8;
        out[at + 1] = (self / 256 / 256 % 256) as u8;
        out[at + 2] = (self / 256 % 256) as u8;
        out[at + 3] = (self % 256) as u8;
    }
}

pub fn put_number<N: Stored>(out: &mut [u8], at: usize, v: N)
    ensures { out.new ≡ stored out.old at (be N.WIDTH (N.value v)) }
{
    v.store(out, at);
}

pub fn put_run(out: &mut [u8], at: usize, run: &[u8])
    ensures { out.new ≡ stored out.old at run.now }
{
    let k = run.len();
    let n = out.len();
    if n < k {
        return;
    }
    if n - k < at {
        return;
    }
    for i in 0..k {
        out[at + i] = run[i];
    }
}

// Whether n bytes have room from `at` for w bytes and k. What n has beyond w comes first, which a
// loop over names asks once.
fn has_room(n: usize, at: usize, w: usize, k: usize) -> bool
    ensures { result ≡ leb (at + (w + k)) n }
{
    if n < w {
        return false;
    }
    if n - w < k {
        return false;
    }
    at <= n - w - k
}

// The bytes of a name's units, and the closing zero.
fn put_closed(out: &mut [u8], at: usize, units: &[u8])
    requires { at + (length units.now + 2) ≤ length out.old }
    ensures { out.new ≡ stored out.old at (units.now ++ be 2 0) }
{
    put_run(out, at, units);
    put_number::<u16>(out, at + units.len(), 0);
}

/// A name: its count, the bytes of its units, and the closing zero.
pub fn put_name<N: Stored>(out: &mut [u8], at: usize, count: N, units: &[u8])
    ensures { out.new ≡ stored out.old at (counted_units N.WIDTH (N.value count) units.now) }
{
    let width = N::WIDTH;
    if !has_room(out.len(), at, width + 2, units.len()) {
        return;
    }
    put_number(out, at, count);
    put_closed(out, at + width, units);
}
