// Descriptors to be built: the numbers of an entry, and the fields that the head of each kind has.
#![tactic(auto)]

ghost use Rattle.std.specs.Prelude.{◌≡◌, ◌+◌, ◌<◌};
ghost use Rattle.descriptor_raw.specs.Raw.{due_of};
ghost use Rattle.descriptor_entry.specs.Shapes.{number_in, count_of, id_length, bare, holding, object, no_shape, wanted, item_shape, form_shape, column_shape, shape_of};
ghost use Rattle.descriptor_entry.specs.Entries.{keyed};
ghost use Rattle.descriptor_entry.specs.declared.Field.TheVariants as fs;

use descriptor::{
    ALIAS, ARRAY, BOOL, CLASS, COLUMN, COMP, DOUBLE, ENUMERATED, FORM_CLASS, FORM_ENUMERATED,
    FORM_IDENTIFIER, FORM_INDEX, FORM_NAME, FORM_OFFSET, FORM_PROPERTY, GLOBAL_CLASS,
    GLOBAL_OBJECT, LIST, LONG, OBJECT, PATH, RAW, REFERENCE, TEXT, UNIT_DOUBLE,
};
use descriptor_entry::{Field, Shape};

/// Number i of an entry; 0 where there is none.
pub fn number_in(row: &[u32], i: usize) -> u32
    ensures { result ≡ number_in row.now i }
{
    row.get(i).copied().unwrap_or(0)
}

/// The number behind number i of an entry: where the bytes of its length or count lie.
pub fn place_in(row: &[u32], i: usize) -> usize
    ensures { (result ≡ number_in row.now (i + 1)) × (result < 4294967296) }
{
    if i < row.len() {
        return number_in(row, i + 1) as usize;
    }
    0
}

/// How many bytes stand behind an ID's length.
pub fn id_length(n: u32) -> usize
    ensures { (result ≡ id_length n) × (result < 4294967296) }
{
    if n == 0 { 4 } else { n as usize }
}

// ---- the fields of each kind

// Of a row with no child.
fn leaf(first: Field, second: Field, third: Field, fourth: Field) -> Shape
    ensures { result ≡ bare first second third fourth }
{
    Shape {
        known: true,
        first,
        second,
        third,
        fourth,
        below: None,
    }
}

// Of a row with children.
fn holder(what: u32, first: Field, second: Field, third: Field, fourth: Field) -> Shape
    ensures { result ≡ holding what first second third fourth }
{
    Shape {
        known: true,
        first,
        second,
        third,
        fourth,
        below: Some(what),
    }
}

// Of a kind that may not stand there.
fn unknown() -> Shape
    ensures { result ≡ no_shape }
{
    Shape {
        known: false,
        first: Field::Nothing,
        second: Field::Nothing,
        third: Field::Nothing,
        fourth: Field::Nothing,
        below: None,
    }
}

// A single field.
fn only(first: Field) -> Shape
    ensures { result ≡ bare first fs.Nothing fs.Nothing fs.Nothing }
{
    leaf(first, Field::Nothing, Field::Nothing, Field::Nothing)
}

// A class, and what follows it.
fn classed(third: Field, fourth: Field) -> Shape
    ensures { result ≡ bare (fs.Text 3) (fs.Id 5) third fourth }
{
    leaf(Field::Text(3), Field::Id(5), third, fourth)
}

// The count of members alone.
fn counted(what: u32) -> Shape
    ensures { result ≡ holding what (fs.Word 14) fs.Nothing fs.Nothing fs.Nothing }
{
    holder(
        what,
        Field::Word(14),
        Field::Nothing,
        Field::Nothing,
        Field::Nothing,
    )
}

// An item's, by its type.
fn item_shape(kind: u32) -> Shape
    ensures { result ≡ item_shape kind }
{
    match kind {
        BOOL => only(Field::Flag),
        CLASS | GLOBAL_CLASS => classed(Field::Nothing, Field::Nothing),
        DOUBLE => only(Field::Double),
        ENUMERATED => leaf(Field::Id(7), Field::Id(9), Field::Nothing, Field::Nothing),
        ALIAS | PATH | RAW => only(Field::Run(7)),
        LONG => only(Field::Word(13)),
        COMP => only(Field::Wide),
        TEXT => only(Field::Text(7)),
        UNIT_DOUBLE => leaf(
            Field::Measure,
            Field::Double,
            Field::Nothing,
            Field::Nothing,
        ),
        LIST => counted(0),
        OBJECT | GLOBAL_OBJECT => holder(
            1,
            Field::Text(3),
            Field::Id(5),
            Field::Word(14),
            Field::Nothing,
        ),
        REFERENCE => counted(2),
        ARRAY => holder(
            3,
            Field::Word(15),
            Field::Text(3),
            Field::Id(5),
            Field::Word(14),
        ),
        _ => unknown(),
    }
}

// A reference item's, by its form.
fn form_shape(kind: u32) -> Shape
    ensures { result ≡ form_shape kind }
{
    match kind {
        FORM_CLASS => classed(Field::Nothing, Field::Nothing),
        FORM_ENUMERATED => classed(Field::Id(7), Field::Id(9)),
        FORM_PROPERTY => classed(Field::Id(7), Field::Nothing),
        FORM_NAME => classed(Field::Text(7), Field::Nothing),
        FORM_IDENTIFIER | FORM_INDEX | FORM_OFFSET => classed(Field::Word(13), Field::Nothing),
        _ => unknown(),
    }
}

// That of an object array's pair.
fn column_shape(kind: u32) -> Shape
    ensures { result ≡ column_shape kind }
{
    if kind == COLUMN {
        return leaf(
            Field::ArrayMeasure,
            Field::Doubles(7),
            Field::Nothing,
            Field::Nothing,
        );
    }
    unknown()
}

/// The fields of a kind, where such members are due.
pub fn shape_of(what: u32, kind: u32) -> Shape
    ensures { result ≡ shape_of (due_of what 0) kind }
{
    if what < 2 {
        return item_shape(kind);
    }
    if what == 2 {
        return form_shape(kind);
    }
    column_shape(kind)
}

/// The root's.
pub fn root_shape() -> Shape
    ensures { result ≡ object }
{
    holder(
        1,
        Field::Text(3),
        Field::Id(5),
        Field::Word(14),
        Field::Nothing,
    )
}

// ---- what a head has besides

/// Whether a pair is due, which has a key.
pub fn is_keyed(what: u32) -> bool
    ensures { result ≡ keyed (due_of what 0) }
{
    what == 1 || 2 < what
}

/// How many members an entry wants.
pub fn members_in(row: &[u32], shape: Shape) -> u32
    ensures { result ≡ wanted shape.below (count_of row.now) }
{
    match shape.below {
        Some(_) => number_in(row, 14),
        None => 0,
    }
}
