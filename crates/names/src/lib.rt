// Names: counted text units with a closing zero.
#![tactic(auto)]

ghost use Rattle.std.specs.Prelude.{◌≡◌, ◌+◌, ◌*◌, ◌/◌, ◌%◌, ◌<◌, ◌≤◌, true, false, length};
ghost use Rattle.algebra.specs.Numbers.{num, nums};
ghost use Rattle.algebra.specs.Reader.{done};
ghost use Rattle.algebra.specs.Text.{any_zero, closed, text, closed_units, name, place};
ghost use Rattle.algebra.specs.Lanes.{lanes, any_high_bit};
ghost use Rattle.fault.specs.Answer.{told_end};
ghost use Rattle.names.specs.Answer.{told_name};

use fault::{Fault, Refusal};
use fields::Number;

/// Where a name lies: the place of its first unit, and its number of units without the closing zero.
#[derive(Clone, Copy)]
pub struct Name {
    pub first: usize,
    pub units: u32,
}

/// A number that may count the units of a name.
pub trait Count: Number {
    fn count(self) -> u32
        ensures { result ≡ Self.value self };
}

impl Count for u16 {
    fn count(self) -> u32 {
        u32::from(self)
    }
}

impl Count for u32 {
    fn count(self) -> u32 {
        self
    }
}

// The unit at `at` with its bytes swapped.
fn swapped(s: &[u8], at: usize) -> u16
    requires { at + 2 ≤ length s.now }
    ensures { 256 * (result % 256) + result / 256 ≡ num 2 s.now at }
{
    let a = u16::from(s[at]);
    let b = u16::from(s[at + 1]);
    a + 256 * b
}

// Four units from `at` in one word, each with its bytes swapped. Joined by `|` and shifts the eight
// bytes become one load before loops are compiled to vectors; as a sum of products only afterwards.
fn four_at(s: &[u8], at: usize) -> u64
    requires { at + 8 ≤ length s.now }
    ensures { any_zero (lanes 4 result) ≡ any_zero (nums 2 4 s.now at) }
{
    u64::from(s[at])
        | u64::from(s[at + 1]) << 8
        | u64::from(s[at + 2]) << 16
        | u64::from(s[at + 3]) << 24
        | u64::from(s[at + 4]) << 32
        | u64::from(s[at + 5]) << 40
        | u64::from(s[at + 6]) << 48
        | u64::from(s[at + 7]) << 56
}

// A word that is marked exactly where one of the four lanes of x is zero: less one, a zero lane
// borrows and gets the highest bit, which its complement has too.
fn marks(x: u64) -> u64
    ensures { any_high_bit 4 result ≡ any_zero (lanes 4 x) }
{
    std::num::wrapping_sub_u64(x, 0x0001_0001_0001_0001) & !x
}

// Whether one of four times k units from `at` is zero. The loop has no way out but its end, and
// keeps a word, not a bool, so that it is compiled to vectors.
fn any_in_fours(s: &[u8], at: usize, k: usize) -> bool
    requires { at + k * 8 ≤ length s.now }
    ensures { result ≡ any_zero (nums 2 (4 * k) s.now at) }
{
    let mut found: u64 = 0;
    for i in 0..k {
        found = found | marks(four_at(s, at + 8 * i));
    }
    found & 0x8000_8000_8000_8000 != 0
}

// Whether one of n units from `at` is zero, one by one; a unit is where it is with its bytes swapped.
fn any_one_by_one(s: &[u8], at: usize, n: usize) -> bool
    requires { at + n * 2 ≤ length s.now }
    ensures { result ≡ any_zero (nums 2 n s.now at) }
{
    let mut found = false;
    for i in 0..n {
        if swapped(s, at + 2 * i) == 0 {
            found = true;
        }
    }
    found
}

// Whether one of n units from `at` is zero: four at a time, and the one to three that are left.
fn any_in_few(s: &[u8], at: usize, n: usize) -> bool
    requires { at + n * 2 ≤ length s.now }
    ensures { result ≡ any_zero (nums 2 n s.now at) }
{
    let k = n / 4;
    if any_in_fours(s, at, k) {
        return true;
    }
    any_one_by_one(s, at + 8 * k, n % 4)
}

// A word that is marked wherever one of the four lanes of x is zero, and where a lane is above
// 0x8000: what it does not mark has no zero, and it costs less than `marks`.
fn less(x: u64) -> u64
    ensures { any_high_bit 4 result ≡ false → any_zero (lanes 4 x) ≡ false }
{
    std::num::wrapping_sub_u64(x, 0x0001_0001_0001_0001)
}

// Whether the 128 units from `at` are clear at a glance: where they are, none is zero. The loop of
// known length is unrolled.
fn is_clear(s: &[u8], at: usize) -> bool
    requires { at + 256 ≤ length s.now }
    ensures { result ≡ true → any_zero (nums 2 128 s.now at) ≡ false }
{
    let mut found: u64 = 0;
    for i in 0..32 {
        found = found | less(four_at(s, at + 8 * i));
    }
    found & 0x8000_8000_8000_8000 == 0
}

// How many of k fours from `at` are clear at a glance, from the first on.
fn clear_fours(s: &[u8], at: usize, k: usize) -> usize
    requires { at + k * 8 ≤ length s.now }
    ensures { (result ≤ k) × (any_zero (nums 2 (4 * result) s.now at) ≡ false) }
{
    for i in 0..k / 32 {
        if !is_clear(s, at + 8 * (32 * i)) {
            return 32 * i;
        }
    }
    32 * (k / 32)
}

// How many of k fours from `at` have no zero, from the first on, by 32 of them at a time.
fn sound_fours(s: &[u8], at: usize, k: usize) -> usize
    requires { at + k * 8 ≤ length s.now }
    ensures { (result ≤ k) × (any_zero (nums 2 (4 * result) s.now at) ≡ false) }
{
    for i in 0..k / 32 {
        if any_in_fours(s, at + 8 * (32 * i), 32) {
            return 32 * i;
        }
    }
    32 * (k / 32)
}

// The same, as far as they are clear at a glance, and then by the exact test.
fn passed_fours(s: &[u8], at: usize, k: usize) -> usize
    requires { at + k * 8 ≤ length s.now }
    ensures { (result ≤ k) × (any_zero (nums 2 (4 * result) s.now at) ≡ false) }
{
    let i = clear_fours(s, at, k);
    i + sound_fours(s, at + 8 * i, k - i)
}

// Whether one of n units from `at` is zero. A long name is first passed over by 128 units at a time.
fn any_zero(s: &[u8], at: usize, n: usize) -> bool
    requires { at + n * 2 ≤ length s.now }
    ensures { result ≡ any_zero (nums 2 n s.now at) }
{
    if n < 256 {
        return any_in_few(s, at, n);
    }
    let k = passed_fours(s, at, n / 4);
    any_in_few(s, at + 8 * k, n - 4 * k)
}

/// The place after n units from `at`, none of them zero.
pub fn text_at(s: &[u8], at: usize, n: u32) -> Result<usize, Refusal>
    ensures { told_end result ≡ done (text n s.now at) }
{
    if n == 0 {
        return Ok(at);
    }
    let k = n as usize;
    let len = s.len();
    if len < 2 * k {
        return Err(Refusal(Fault::Short, at));
    }
    if len - 2 * k < at {
        return Err(Refusal(Fault::Short, at));
    }
    if any_zero(s, at, k) {
        return Err(Refusal(Fault::BadlyClosed, at));
    }
    Ok(at + 2 * k)
}

// Whether the last of n units from `at` is zero, and no other.
fn is_closed(s: &[u8], at: usize, n: usize) -> bool
    requires { at + n * 2 ≤ length s.now }
    ensures { result ≡ closed (nums 2 n s.now at) }
{
    if n == 0 {
        return false;
    }
    // The last unit first: in a long file what stands behind the name is then on its way.
    if swapped(s, at + 2 * (n - 1)) != 0 {
        return false;
    }
    !any_zero(s, at, n - 1)
}

// A name's n units from `first`, behind a count that stands at `at`, and the next place.
fn units_at(s: &[u8], at: usize, first: usize, n: u32) -> Result<(Name, usize), Refusal>
    requires { first ≤ length s.now }
    ensures { told_name result ≡ place (closed_units at n s.now first) }
{
    if n == 0 {
        return Err(Refusal(Fault::BadlyClosed, at));
    }
    let k = n as usize;
    if s.len() - first < 2 * k {
        return Err(Refusal(Fault::Short, first));
    }
    if !is_closed(s, first, k) {
        return Err(Refusal(Fault::BadlyClosed, at));
    }
    let units = n - 1;
    Ok((Name { first, units }, first + 2 * k))
}

/// The name at `at`, with a count of the given width, and the next place.
pub fn name_at<N: Count>(s: &[u8], at: usize) -> Result<(Name, usize), Refusal>
    ensures { told_name result ≡ place (name N.WIDTH s.now at) }
{
    let (n, first) = fields::number_at::<N>(s, at)?;
    units_at(s, at, first, n.count())
}
