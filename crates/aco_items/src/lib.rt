// An item of an ACO file, read from its own bytes by the whole-file reader, and the stage behind it.
#![tactic(auto)]

ghost use Rattle.std.specs.Prelude.{◌≡◌, ◌+◌, ◌-◌, ◌*◌, ◌≤◌, ◌<◌, eqb};
ghost use Rattle.algebra.specs.Reader.{ok};
ghost use Rattle.aco_chunks.specs.Chunks.{size, item, kept, entry_head, loaded, colours, entries, unit_done};
ghost use Rattle.aco_items.specs.scaffold.Answer.{told_item, flawed};

use aco::MOST;
use aco_chunks::Stage;
use fault::{Fault, Refusal};
use fields::{number_at, number_or_zero, put_run};

/// Why an item is refused: the fault and its place, and for `ListsDiffer` the record and the field.
// Kept: not the whole-file reader's `Rejection`, since the end of a stream that was altered gives any
// fault with any record and field.
#[derive(Clone, Copy, Debug, PartialEq, Eq)]
pub struct Flaw {
    pub fault: Fault,
    pub place: usize,
    pub rec: u16,
    pub field: u16,
}

impl From<Refusal> for Flaw {
    ghost from_gives = { λ refusal flaw. flaw ≡ flawed refusal };

    fn from(refusal: Refusal) -> Flaw {
        Flaw {
            fault: refusal.0,
            place: refusal.1,
            rec: 0,
            field: 0,
        }
    }
}

/// The bytes of a stage's item.
pub fn size_of(stage: Stage) -> usize
    ensures { result ≡ size stage }
{
    match stage {
        Stage::First => 4,
        Stage::Colour(_, _) => 10,
        Stage::Second(_) => 4,
        Stage::Entry(_, _) => 14,
        Stage::Unit(_, _, _, _, _) => 2,
        Stage::End(_) => 1,
        Stage::Fault(_, _, _, _) => 1,
    }
}

// Record `index` of list 2 up to its count of units, compared with the colour in the store.
fn entry_of(bytes: &[u8], store: &[u8], index: u16) -> Result<(u32, usize), Flaw>
    ensures { told_item result ≡ entry_head index (loaded store.now (10 * index)) bytes.now 0 }
{
    let first = 10 * (index as usize);
    let mut p: usize = 0;
    for f in 0..5u16 {
        let (v, next) = number_at::<u16>(bytes, p)?;
        if v != number_or_zero::<u16>(store, first + 2 * (f as usize)) {
            return Err(Flaw {
                fault: Fault::ListsDiffer,
                place: p,
                rec: index,
                field: f,
            });
        }
        p = next;
    }
    let (n, next) = number_at::<u32>(bytes, p)?;
    if n == 0 {
        return Err(Flaw {
            fault: Fault::BadlyClosed,
            place: p,
            rec: 0,
            field: 0,
        });
    }
    Ok((n, next))
}

// What a byte behind the last item is.
const EXCESS: Flaw = Flaw {
    fault: Fault::LeftOver,
    place: 0,
    rec: 0,
    field: 0,
};

/// A stage's item, from its bytes alone: what it gives, and the next place.
pub fn item_of(stage: Stage, store: &[u8], bytes: &[u8]) -> Result<(u32, usize), Flaw>
    ensures { told_item result ≡ item store.now stage bytes.now 0 }
{
    match stage {
        Stage::First => {
            let (n, next) = aco_judge::heading_at(bytes, 0, 1)?;
            if MOST < n {
                return Err(Flaw {
                    fault: Fault::OutOfRange,
                    place: 2,
                    rec: 0,
                    field: 0,
                });
            }
            Ok((n as u32, next))
        }
        Stage::Colour(_, _) => {
            let next = aco_judge::colour_at(bytes, 0)?;
            Ok((0, next))
        }
        Stage::Second(count) => {
            let (m, next) = aco_judge::heading_at(bytes, 0, 2)?;
            if m != count {
                return Err(Flaw {
                    fault: Fault::ListsDiffer,
                    place: 2,
                    rec: 0,
                    field: 5,
                });
            }
            Ok((m as u32, next))
        }
        Stage::Entry(_, index) => entry_of(bytes, store, index),
        Stage::Unit(_, _, _, _, _) => {
            let (u, next) = number_at::<u16>(bytes, 0)?;
            Ok((u as u32, next))
        }
        Stage::End(_) => Err(EXCESS),
        Stage::Fault(_, _, _, _) => Err(EXCESS),
    }
}

/// Colour `index` of `count`, or what follows list 1.
pub fn colours_of(count: u16, index: usize) -> Stage
    ensures { result ≡ colours count index }
{
    if index < (count as usize) {
        return Stage::Colour(count, index as u16);
    }
    Stage::Second(count)
}

/// Record `index` of `count`, or the end.
pub fn entries_of(count: u16, index: usize) -> Stage
    ensures { result ≡ entries count index }
{
    if index < (count as usize) {
        return Stage::Entry(count, index as u16);
    }
    Stage::End(count)
}

/// The stage behind a unit u of a name.
pub fn unit_of(count: u16, index: u16, place: u32, left: u32, zero: bool, u: u32) -> Stage
    ensures { result ≡ unit_done count index place left zero (eqb u 0) }
{
    if left == 1 {
        if u == 0 {
            if zero {
                return Stage::Fault(8, place as usize, 0, 0);
            }
            return entries_of(count, (index as usize) + 1);
        }
        return Stage::Fault(8, place as usize, 0, 0);
    }
    let rest = left.saturating_sub(1);
    if u == 0 {
        return Stage::Unit(count, index, place, rest, true);
    }
    Stage::Unit(count, index, place, rest, zero)
}

/// A colour of list 1 without a fault goes into the store.
pub fn keep(stage: Stage, store: &mut [u8], bytes: &[u8])
    ensures { store.new ≡ kept stage (ok 0 0) bytes.now store.old }
{
    match stage {
        Stage::Colour(_, index) => {
            put_run(store, 10 * (index as usize), bytes);
        }
        Stage::First => {}
        Stage::Second(_) => {}
        Stage::Entry(_, _) => {}
        Stage::Unit(_, _, _, _, _) => {}
        Stage::End(_) => {}
        Stage::Fault(_, _, _, _) => {}
    }
}
