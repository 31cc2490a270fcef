// Two palettes, ACO or ASE each, compared by position into a lent table.
#![tactic(auto)]

ghost use Rattle.std.specs.Prelude.{◌≡◌, ◌+◌, ◌*◌, ◌-◌, ◌^◌, ◌≤◌, ◌<◌, eqb, length, drop, replicate};
ghost use Rattle.std.proofs.lemmas.List.Edits.{sets};
ghost use Rattle.algebra.specs.Reader.{pick};
ghost use Rattle.algebra.specs.Filling.{Accepted};
ghost use Rattle.palette.specs.Palette.{colours};
ghost use Rattle.palette.specs.PaletteStep.{told_numbers};
ghost use Rattle.palette.specs.scaffold.Turn.{colours_in};
ghost use Rattle.palette_compare.specs.Compare.{same_numbers, kind_by, rows, filled, comparison};
ghost use Rattle.palette_compare.specs.Answer.{Exact, told, told_kind};
ghost use Rattle.palette_compare.specs.scaffold.Parts.{kinds_in, kind_at, StoredTo, Positions};

use aco_judge::Rejection;
use palette::{Kind, PaletteStep, first_at, judge, step_at, view_of};
use walk::name_part;

/// How many positions the longer palette has, and how many of them differ.
#[derive(Clone, Copy, Debug, PartialEq, Eq)]
pub struct Comparison {
    pub positions: usize,
    pub differences: usize,
}

/// Why two palettes are not compared: a file's own refusal, or a table that is too short.
#[derive(Clone, Copy, Debug, PartialEq, Eq)]
pub enum CompareError {
    First(Rejection),
    Second(Rejection),
    NoRoom,
}

/// How the colours of one position differ, by the number that its row has.
#[derive(Clone, Copy, Debug, PartialEq, Eq)]
pub enum Difference {
    Same = 0,
    Name = 1,
    Colour = 2,
    Both = 3,
    OnlyFirst = 4,
    OnlySecond = 5,
}

impl Difference {
    fn number(self) -> u32
        ensures { result ≡ told_kind self }
    {
        self as u32
    }
}

// Numbers of a row.
const WIDTH: usize = 2;

// ---- two colours

// 1 where two bytes differ.
fn unequal(x: u8, y: u8) -> u8
    ensures { result ≡ pick (eqb x y) 0 1 }
{
    if x == y {
        return 0;
    }
    1
}

// Whether all bytes are equal. The loop goes on where two are not, and joins numbers, so that it is
// compiled to vectors.
fn same_bytes(x: &[u8], y: &[u8]) -> bool
    ensures { result ≡ same_numbers x.now y.now }
{
    if x.len() != y.len() {
        return false;
    }
    let mut any: u8 = 0;
    for i in 0..x.len() {
        any |= unequal(x[i], y[i]);
    }
    any == 0
}

fn kind_by(value: bool, name: bool) -> Difference
    ensures { told_kind result ≡ kind_by value name }
{
    if value {
        if name {
            return Difference::Same;
        }
        return Difference::Name;
    }
    if name {
        return Difference::Colour;
    }
    Difference::Both
}

// The kind of two colours, one of each file.
fn kind_at(first: &[u8], x: PaletteStep, second: &[u8], y: PaletteStep) -> Difference
    ensures { told_kind result ≡ kind_at first.now x second.now y }
{
    let value = x.numbers == y.numbers;
    let name = name_part(first, x.place, x.units);
    let beside = name_part(second, y.place, y.units);
    kind_by(value, same_bytes(name, beside))
}

// 1 where a kind is a difference.
fn counted(kind: Difference) -> usize
    ensures { result ≡ pick (eqb (told_kind kind) 0) 0 1 }
{
    usize::from(kind != Difference::Same)
}

// ---- the table

// Stores the row of a position. No other function stores one.
fn put_row(table: &mut [u32], i: usize, kind: Difference)
    requires { (2 * i + 2 ≤ length table.old) × (i < 2 ^ 32) }
    ensures { table.new ≡ sets table.old (2 * i) (rows i (replicate 1 (told_kind kind))) }
{
    table[WIDTH * i] = i as u32;
    table[WIDTH * i + 1] = kind.number();
}

// Stores the rows of the n positions that both palettes have, by a step over each of them a turn;
// answers how many differ.
fn fill_both(
    one: Kind,
    first: &[u8],
    other: Kind,
    second: &[u8],
    n: usize,
    table: &mut [u32],
) -> usize
    requires { (n ≤ length (colours_in one first.now)) × (n ≤ length (colours_in other second.now)) × (2 * n ≤ length table.old) }
    ensures { StoredTo (kinds_in one first.now other second.now) table.old table.new n result }
{
    let seen = view_of(one, other);
    let beside = view_of(other, one);
    let mut p = first_at(one, first);
    let mut q = first_at(other, second);
    let mut differences: usize = 0;
    for i in 0..n {
        let x = step_at(seen, first, p);
        let y = step_at(beside, second, q);
        let kind = kind_at(first, x, second, y);
        put_row(table, i, kind);
        differences += counted(kind);
        p = x.next;
        q = y.next;
    }
    differences
}

// Stores the rows of the positions from `from` to `to` that one palette has, all of one kind.
fn fill_rest(table: &mut [u32], from: usize, to: usize, kind: Difference)
    requires { (from ≤ to) × (2 * to ≤ length table.old) × (to < 2 ^ 32) }
    ensures { table.new ≡ sets table.old (2 * from) (rows from (replicate (to - from) (told_kind kind))) }
{
    for i in from..to {
        put_row(table, i, kind);
    }
}

// The table of two palettes of which the longer has the kind `rest` past the shorter.
fn fill_to(
    one: Kind,
    first: &[u8],
    other: Kind,
    second: &[u8],
    shorter: usize,
    longer: usize,
    rest: Difference,
    table: &mut [u32],
) -> Result<Comparison, CompareError>
    requires { Positions one first.now other second.now shorter longer (told_kind rest) }
    ensures { ((told result, table.new) ≡ filled (kinds_in one first.now other second.now) table.old) × Exact result }
{
    if table.len() / WIDTH < longer {
        return Err(CompareError::NoRoom);
    }
    let both = fill_both(one, first, other, second, shorter, table);
    fill_rest(table, shorter, longer, rest);
    Ok(Comparison {
        positions: longer,
        differences: both + (longer - shorter),
    })
}

// The table of two accepted palettes of n and m colours.
fn fill(
    one: Kind,
    first: &[u8],
    n: usize,
    other: Kind,
    second: &[u8],
    m: usize,
    table: &mut [u32],
) -> Result<Comparison, CompareError>
    requires { Accepted length (colours one first.now) n × Accepted length (colours other second.now) m }
    ensures { ((told result, table.new) ≡ comparison (colours one first.now) (colours other second.now) table.old) × Exact result }
{
    if m < n {
        return fill_to(
            one,
            first,
            other,
            second,
            m,
            n,
            Difference::OnlyFirst,
            table,
        );
    }
    fill_to(
        one,
        first,
        other,
        second,
        n,
        m,
        Difference::OnlySecond,
        table,
    )
}

/// Compares two files, each said to be of a kind; a refusal leaves the table as it was.
pub fn compare(
    one: Kind,
    first: &[u8],
    other: Kind,
    second: &[u8],
    table: &mut [u32],
) -> Result<Comparison, CompareError>
    ensures { ((told result, table.new) ≡ comparison (colours one first.now) (colours other second.now) table.old) × Exact result }
{
    let n = judge(one, first).map_err(CompareError::First)?;
    let m = judge(other, second).map_err(CompareError::Second)?;
    fill(one, first, n, other, second, m, table)
}
