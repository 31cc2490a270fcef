// Big-endian numbers and runs of bytes at a place of a file.
ghost use Rattle.std.specs.Prelude.{◌≡◌, ◌+◌, ◌*◌, ◌/◌, ◌%◌, ◌≤◌, ◌<◌, ℕ, eqb, leb, length};
ghost use Rattle.std.proofs.Common.{rules};
ghost use Rattle.algebra.specs.Numbers.{num};
ghost use Rattle.algebra.specs.Reader.{field, body, done, judged, or_zero, unless};
ghost use Rattle.fault.specs.Fault.{number_of};
ghost use Rattle.fault.specs.Answer.{told_at, told_end};
ghost use Rattle.fields.specs.Answer.{told_numbered};

use fault::{Fault, Refusal};

/// A number of some width, whose highest byte comes first in a file.
pub trait Number: Copy {
    ghost WIDTH: { ℕ };

    ghost ZERO: { Self };

    ghost value: { Self → ℕ };

    // Its bytes.
    const WIDTH: usize;

    const ZERO: Self;

    // The number whose first byte stands at `at`, or zero where fewer bytes remain.
    fn load(s: &[u8], at: usize) -> Self
        ensures { value result ≡ or_zero (field WIDTH s.now at) };

    ghost zero_is: { value ZERO ≡ 0 };

    ghost at_least: { 0 < WIDTH };

    ghost at_most: { WIDTH ≤ 8 };
}

// Whether k bytes stand at `at`, of n.
pub(crate) fn has_bytes(n: usize, at: usize, k: usize) -> bool
    ensures { result ≡ leb (at + k) n }
{
    if n < k {
        return false;
    }
    at <= n - k
}

// Two bytes with the low one first: the load that compilers join with its neighbours, where a
// function of its own has it. Swapped, it is the number.
fn swapped(s: &[u8], at: usize) -> u16
    requires { at + 2 ≤ length s.now }
    ensures { 256 * (result % 256) + result / 256 ≡ num 2 s.now at }
{
    let a = u16::from(s[at]);
    let b = u16::from(s[at + 1]);
    a + 256 * b
}

// A number of 16 bits that is there.
fn u16_in(s: &[u8], at: usize) -> u16
    requires { at + 2 ≤ length s.now }
    ensures { result ≡ num 2 s.now at }
{
    let x = swapped(s, at);
    256 * (x % 256) + x / 256
}

// A number of 32 bits that is there.
fn u32_in(s: &[u8], at: usize) -> u32
    requires { at + 4 ≤ length s.now }
    ensures { result ≡ num 4 s.now at }
{
    let a = u32::from(s[at]);
    let b = u32::from(s[at + 1]);
    let c = u32::from(s[at + 2]);
    let d = u32::from(s[at + 3]);
    ((a * 256 + b) * 256 + c) * 256 + d
}

// A number of 64 bits that is there: its two halves.
fn u64_in(s: &[u8], at: usize) -> u64
    requires { at + 8 ≤ length s.now }
    ensures { result ≡ num 8 s.now at }
{
    let high = u64::from(u32_in(s, at));
    let low = u64::from(u32_in(s, at + 4));
    high * 4294967296 + low
}

impl Number for u8 {
    ghost WIDTH = { 1 };

    ghost ZERO = { 0 };

    ghost value = { λ x. x };

    ghost zero_is = { Prim.search rules };

    ghost at_least = { Prim.search rules };

    ghost at_most = { Prim.search rules };

    const WIDTH: usize = 1;

    const ZERO: u8 = 0;

    fn load(s: &[u8], at: usize) -> u8 {
        if !has_bytes(s.len(), at, 1) {
            return 0;
        }
        s[at]
    }
}

impl Number for u16 {
    ghost WIDTH = { 2 };

    ghost ZERO = { 0 };

    ghost value = { λ x. x };

    ghost zero_is = { Prim.search rules };

    ghost at_least = { Prim.search rules };

    ghost at_most = { Prim.search rules };

    const WIDTH: usize = 2;

    const ZERO: u16 = 0;

    fn load(s: &[u8], at: usize) -> u16 {
        if !has_bytes(s.len(), at, 2) {
            return 0;
        }
        u16_in(s, at)
    }
}

impl Number for u32 {
    ghost WIDTH = { 4 };

    ghost ZERO = { 0 };

    ghost value = { λ x. x };

    ghost zero_is = { Prim.search rules };

    ghost at_least = { Prim.search rules };

    ghost at_most = { Prim.search rules };

    const WIDTH: usize = 4;

    const ZERO: u32 = 0;

    fn load(s: &[u8], at: usize) -> u32 {
        if !has_bytes(s.len(), at, 4) {
            return 0;
        }
        u32_in(s, at)
    }
}

impl Number for u64 {
    ghost WIDTH = { 8 };

    ghost ZERO = { 0 };

    ghost value = { λ x. x };

    ghost zero_is = { Prim.search rules };

    ghost at_least = { Prim.search rules };

    ghost at_most = { Prim.search rules };

    const WIDTH: usize = 8;

    const ZERO: u64 = 0;

    fn load(s: &[u8], at: usize) -> u64 {
        if !has_bytes(s.len(), at, 8) {
            return 0;
        }
        u64_in(s, at)
    }
}

/// The number at `at` and the next place.
pub fn number_at<N: Number>(s: &[u8], at: usize) -> Result<(N, usize), Refusal>
    ensures { told_at N.value result ≡ field N.WIDTH s.now at }
{
    let n = s.len();
    let width = N::WIDTH;
    if n < width {
        return Err(Refusal(Fault::Short, at));
    }
    if n - width < at {
        return Err(Refusal(Fault::Short, at));
    }
    Ok((N::load(s, at), at + width))
}

/// The number at `at`, or 0 where fewer bytes remain.
pub fn number_or_zero<N: Number>(s: &[u8], at: usize) -> N
    ensures { N.value result ≡ or_zero (field N.WIDTH s.now at) }
{
    match number_at(s, at) {
        Ok((v, _)) => v,
        Err(_) => N::ZERO,
    }
}

/// The place after k bytes from `at`.
pub fn run_at(s: &[u8], at: usize, k: usize) -> Result<usize, Refusal>
    ensures { told_end result ≡ done (body 1 k s.now at) }
{
    if k == 0 {
        return Ok(at);
    }
    let n = s.len();
    if n < k {
        return Err(Refusal(Fault::Short, at));
    }
    if n - k < at {
        return Err(Refusal(Fault::Short, at));
    }
    Ok(at + k)
}

/// The place after a 16-bit field that must be `want`; another number there is the fault.
pub fn number_is(s: &[u8], at: usize, want: u16, fault: Fault) -> Result<usize, Refusal>
    ensures { told_end result ≡ done (judged 2 (λ v. unless (eqb v want) (number_of fault)) s.now at) }
{
    let (v, next) = number_at::<u16>(s, at)?;
    if v != want {
        return Err(Refusal(fault, at));
    }
    Ok(next)
}

/// The same, where another number there is refused by a number of the caller's own, any at all.
pub fn u16_is(s: &[u8], at: usize, want: u16, number: u32) -> Result<usize, (u32, usize)>
    ensures { told_numbered result ≡ done (judged 2 (λ v. unless (eqb v want) number) s.now at) }
{
    match number_at::<u16>(s, at) {
        Ok((v, next)) => {
            if v != want {
                return Err((number, at));
            }
            Ok(next)
        }
        Err(Refusal(fault, place)) => Err((fault.number(), place)),
    }
}
