// Two palettes compared, for C.
ghost use Rattle.std.specs.Prelude.{◌≡◌};
ghost use Rattle.palette_compare.specs.Answer.{told, rejected_by};
ghost use Rattle.khuyurek.specs.Seasons.{palette_kind, comparison_of, unknown_kind, compared_by};

use aco_judge::Rejection;
use fault::{Fault, Refusal};
use palette::Kind;
use palette_compare::{CompareError, Comparison};

// Number 0 is compared, with the positions of the longer palette and how many of them differ; else
// the refusal: of file 1 or 2, with its place and for 7 the record and field, or 0 for 4 and 11.
#[repr(C)]
#[derive(Drop)]
pub struct ComparedAnswer {
    pub number: u32,
    pub file: u32,
    pub place: usize,
    pub rec: usize,
    pub field: usize,
    pub positions: usize,
    pub differences: usize,
}

// The kind of palette that a number says.
fn palette_kind(number: u32) -> Option<Kind>
    ensures { result ≡ palette_kind number }
{
    match number {
        0 => Some(Kind::Aco),
        1 => Some(Kind::Ase),
        _ => None,
    }
}

fn unknown() -> ComparedAnswer
    ensures { result ≡ unknown_kind }
{
    ComparedAnswer {
        number: 4,
        file: 0,
        place: 0,
        rec: 0,
        field: 0,
        positions: 0,
        differences: 0,
    }
}

fn refused(file: u32, rejection: Rejection) -> ComparedAnswer
    ensures { result ≡ comparison_of (rejected_by file rejection) }
{
    match rejection {
        Rejection::Refused(Refusal(fault, place)) => ComparedAnswer {
            number: fault.number(),
            file,
            place,
            rec: 0,
            field: 0,
            positions: 0,
            differences: 0,
        },
        Rejection::Differ {
            place,
            record,
            field,
        } => ComparedAnswer {
            number: Fault::ListsDiffer.number(),
            file,
            place,
            rec: record,
            field,
            positions: 0,
            differences: 0,
        },
    }
}

fn exported_comparison(a: Result<Comparison, CompareError>) -> ComparedAnswer
    ensures { result ≡ comparison_of (told a) }
{
    match a {
        Ok(comparison) => ComparedAnswer {
            number: 0,
            file: 0,
            place: 0,
            rec: 0,
            field: 0,
            positions: comparison.positions,
            differences: comparison.differences,
        },
        Err(CompareError::First(rejection)) => refused(1, rejection),
        Err(CompareError::Second(rejection)) => refused(2, rejection),
        Err(CompareError::NoRoom) => refused(0, Rejection::Refused(Refusal(Fault::NoRoom, 0))),
    }
}

// Compares two palettes, each of the kind that a number says, by position.
#[unsafe(no_mangle)]
pub extern "C" fn khuyurek_compare(
    first_kind: u32,
    first: &[u8],
    second_kind: u32,
    second: &[u8],
    table: &mut [u32],
) -> ComparedAnswer
    ensures { (result, table.new) ≡ compared_by (palette_kind first_kind) first.now (palette_kind second_kind) second.now table.old }
{
    match palette_kind(first_kind) {
        None => unknown(),
        Some(one) => match palette_kind(second_kind) {
            None => unknown(),
            Some(other) => {
                exported_comparison(palette_compare::compare(one, first, other, second, table))
            }
        },
    }
}
