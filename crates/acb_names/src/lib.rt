// ACB colour books: the names of records at places of a file, and which of two comes first. Any place
// is taken: where no count stands a name has no units, and units past the file's end are left out.
#![tactic(auto)]

ghost use Rattle.std.specs.Prelude.{◌≡◌, ◌+◌, ◌-◌, ◌*◌, ◌^◌, ◌≤◌, ◌<◌, min, length};
ghost use Rattle.algebra.specs.Numbers.{num, nums};
ghost use Rattle.acb_order.specs.Names.{compare_names};
ghost use Rattle.acb_order.specs.Places.{units_at, name_at};
ghost use Rattle.acb_order.specs.scaffold.Places.{next_record};
ghost use Rattle.acb_names.specs.Answer.{told};
ghost use Rattle.acb_names.specs.scaffold.Units.{Held, left};

use std::cmp::Ordering;

// The units of a name in a file: the place of the first, and how many there are.
#[derive(Clone, Copy)]
struct Span {
    first: usize,
    count: usize,
}

fn unit_at(file: &[u8], at: usize) -> u16
    requires { at + 2 ≤ length file.now }
    ensures { result ≡ num 2 file.now at }
{
    256 * u16::from(file[at]) + u16::from(file[at + 1])
}

// Two units in one number.
fn pair_at(file: &[u8], at: usize) -> u32
    requires { at + 4 ≤ length file.now }
    ensures { result ≡ num 4 file.now at }
{
    let a = u32::from(file[at]);
    let b = u32::from(file[at + 1]);
    let c = u32::from(file[at + 2]);
    let d = u32::from(file[at + 3]);
    ((a * 256 + b) * 256 + c) * 256 + d
}

// Four units in one number.
fn word_at(file: &[u8], at: usize) -> u64
    requires { at + 8 ≤ length file.now }
    ensures { result ≡ num 8 file.now at }
{
    let high = u64::from(pair_at(file, at));
    let low = u64::from(pair_at(file, at + 4));
    high * 4294967296 + low
}

/// How many units the name of the record at `at` has.
pub fn units_at(file: &[u8], at: usize) -> usize
    ensures { (result ≡ units_at file.now at) × (0 < result → at + 4 + 2 * result ≤ length file.now) }
{
    let Ok((n, first)) = fields::number_at::<u32>(file, at) else {
        return 0;
    };
    (n as usize).min((file.len() - first) / 2)
}

// The units of the name of the record at p.
fn units_of(file: &[u8], p: u32) -> Span
    ensures { (result.first ≡ p + 4) × (result.count ≡ units_at file.now p) × Held file.now result.first result.count }
{
    let at = p as usize;
    Span {
        first: at + 4,
        count: units_at(file, at),
    }
}

// Two names from unit `from` on.
fn compare_rest(file: &[u8], a: Span, b: Span, from: usize) -> Ordering
    requires { Held file.now a.first a.count × Held file.now b.first b.count × (from ≤ a.count) × (from ≤ b.count) }
    ensures { told result ≡ left file.now a.first a.count b.first b.count from }
{
    for k in from..a.count.min(b.count) {
        let u = unit_at(file, a.first + 2 * k);
        let v = unit_at(file, b.first + 2 * k);
        if u != v {
            return u.cmp(&v);
        }
    }
    a.count.cmp(&b.count)
}

// Two names, four units at a time.
fn compare_units(file: &[u8], a: Span, b: Span) -> Ordering
    requires { Held file.now a.first a.count × Held file.now b.first b.count }
    ensures { told result ≡ compare_names (nums 2 a.count file.now a.first) (nums 2 b.count file.now b.first) }
{
    let fours = a.count.min(b.count) / 4;
    for k in 0..fours {
        let u = word_at(file, a.first + 8 * k);
        let v = word_at(file, b.first + 8 * k);
        if u != v {
            return u.cmp(&v);
        }
    }
    compare_rest(file, a, b, 4 * fours)
}

/// The name of the record at p against that of the record at q.
pub fn compare(file: &[u8], p: u32, q: u32) -> Ordering
    ensures { told result ≡ compare_names (name_at file.now p) (name_at file.now q) }
{
    compare_units(file, units_of(file, p), units_of(file, q))
}

/// A name against that of the record at p.
pub fn against(file: &[u8], p: u32, name: &[u16]) -> Ordering
    ensures { told result ≡ compare_names name.now (name_at file.now p) }
{
    let units = units_of(file, p);
    for k in 0..name.len().min(units.count) {
        let u = name[k];
        let v = unit_at(file, units.first + 2 * k);
        if u != v {
            return u.cmp(&v);
        }
    }
    name.len().cmp(&units.count)
}

/// The records of a book in its file: how many there are, the place of the first, and how many
/// components each has.
#[derive(Clone, Copy)]
pub struct Records<'a> {
    pub file: &'a [u8],
    pub count: usize,
    pub first: usize,
    pub components: usize,
}

impl Records<'_> {
    /// How many units the name of the record at `at` has, and the place behind the record, or the
    /// largest number where it is past that.
    pub fn pass(&self, at: usize) -> (usize, usize)
        ensures { (result.0 ≡ units_at self.now.file.now at) × (result.1 ≡ min (next_record self.now.components self.now.file.now at) (2 ^ 64 - 1)) }
    {
        let units = units_at(self.file, at);
        let behind = at.saturating_add(4 + 2 * units + 6);
        (units, behind.saturating_add(self.components))
    }
}
