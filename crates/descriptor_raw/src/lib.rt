// One head of an accepted descriptor at a place, found without judging it again. Missing bytes count
// 0, and of a file that is not accepted nothing is said.
//
// These readers are not those of judging: a reader that both call would be a call for every field in
// both.
#![tactic(auto)]

ghost use Rattle.std.specs.Prelude.{◌≡◌, ◌+◌, ◌≤◌, ◌<◌, eqb};
ghost use Rattle.algebra.specs.Reader.{field, or_zero};
ghost use Rattle.descriptor.specs.Reading.{id, unicode, class, enumerated, raw_bytes};
ghost use Rattle.descriptor_fields.specs.scaffold.Answer.{reader_of};
ghost use Rattle.descriptor_heads.specs.Heads.{forms, columns, member_head, root_head};
ghost use Rattle.descriptor_judge.specs.scaffold.Cycle.{optional};
ghost use Rattle.descriptor_raw.specs.Raw.{due_of, Sees};
ghost use Rattle.descriptor_raw.specs.scaffold.Raw.{Ends, Values, Leaf, Object, Array};

use descriptor::{
    ALIAS, ARRAY, BOOL, CLASS, COMP, DOUBLE, ENUMERATED, GLOBAL_CLASS, GLOBAL_OBJECT, LIST, LONG,
    OBJECT, PATH, RAW, REFERENCE, TEXT, UNIT_DOUBLE,
};
use descriptor_fields::Form;
use descriptor_judge::LIMIT;

// A head: its kind, what its children are (0 items, 1 pairs, 2 reference items, 3 the pairs of an
// object array) with the number of objects, how many there are, where the row's value begins, and
// where the head ends.
#[derive(Clone, Copy)]
pub struct RawHead {
    pub kind: u32,
    pub what: u32,
    pub objects: u32,
    pub count: u32,
    pub value: usize,
    pub end: usize,
}

fn count_at(file: &[u8], at: usize) -> usize
    ensures { (result ≡ or_zero (field 4 file.now at)) × (result < 4294967296) }
{
    fields::number_or_zero::<u32>(file, at) as usize
}

// Behind an ID.
fn id_end(file: &[u8], at: usize) -> usize
    requires { at < 1152921504606846976 }
    ensures { Ends (id file.now at) (at + 8589934592) result }
{
    let n = count_at(file, at);
    if n == 0 {
        return at + 8;
    }
    at + 4 + n
}

// Behind a Unicode string.
fn text_end(file: &[u8], at: usize) -> usize
    requires { at < 1152921504606846976 }
    ensures { Ends (unicode file.now at) (at + 17179869184) result }
{
    at + 4 + 2 * count_at(file, at)
}

// Behind a class.
fn class_end(file: &[u8], at: usize) -> usize
    requires { at < 576460752303423488 }
    ensures { Ends (class file.now at) (at + 34359738368) result }
{
    id_end(file, text_end(file, at))
}

// Behind two IDs.
fn enumerated_end(file: &[u8], at: usize) -> usize
    requires { at < 576460752303423488 }
    ensures { Ends (enumerated file.now at) (at + 34359738368) result }
{
    id_end(file, id_end(file, at))
}

// Behind a length and that many bytes.
fn run_end(file: &[u8], at: usize) -> usize
    requires { at < 1152921504606846976 }
    ensures { Ends (raw_bytes file.now at) (at + 8589934592) result }
{
    at + 4 + count_at(file, at)
}

// A head with no children.
fn leaf(kind: u32, value: usize, end: usize) -> RawHead
    ensures { result ≡ record { kind = kind; what = 0; objects = 0; count = 0; value = value; end = end } }
{
    RawHead {
        kind,
        what: 0,
        objects: 0,
        count: 0,
        value,
        end,
    }
}

// A head that ends in the count of its children, at `at`.
fn opens(file: &[u8], kind: u32, what: u32, objects: u32, value: usize, at: usize) -> RawHead
    requires { at < 1152921504606846976 }
    ensures { result ≡ record { kind = kind; what = what; objects = objects; count = or_zero (field 4 file.now at); value = value; end = at + 4 } }
{
    RawHead {
        kind,
        what,
        objects,
        count: fields::number_or_zero::<u32>(file, at),
        value,
        end: at + 4,
    }
}

// ---- items, by what follows their type; `v` is where that begins

// So many bytes.
fn fixed(kind: u32, v: usize, size: usize) -> RawHead
    requires { (v < 288230376151711744) × (size ≤ 12) }
    ensures { result ≡ record { kind = kind; what = 0; objects = 0; count = 0; value = v; end = v + size } }
{
    leaf(kind, v, v + size)
}

// A length and that many bytes.
fn run_head(file: &[u8], kind: u32, v: usize) -> RawHead
    requires { v < 288230376151711744 }
    ensures { Leaf raw_bytes file.now kind v result }
{
    leaf(kind, v, run_end(file, v))
}

// A Unicode string.
fn text_head(file: &[u8], kind: u32, v: usize) -> RawHead
    requires { v < 288230376151711744 }
    ensures { Leaf unicode file.now kind v result }
{
    leaf(kind, v, text_end(file, v))
}

// Two IDs.
fn enumerated_head(file: &[u8], kind: u32, v: usize) -> RawHead
    requires { v < 288230376151711744 }
    ensures { Leaf enumerated file.now kind v result }
{
    leaf(kind, v, enumerated_end(file, v))
}

// A class.
fn class_head(file: &[u8], kind: u32, v: usize) -> RawHead
    requires { v < 288230376151711744 }
    ensures { Leaf class file.now kind v result }
{
    leaf(kind, v, class_end(file, v))
}

// A count, of items or of reference items.
fn list_head(file: &[u8], kind: u32, what: u32, v: usize) -> RawHead
    requires { v < 288230376151711744 }
    ensures { result ≡ record { kind = kind; what = what; objects = 0; count = or_zero (field 4 file.now v); value = v; end = v + 4 } }
{
    opens(file, kind, what, 0, v, v)
}

// A class and the count of the pairs.
fn object_head(file: &[u8], kind: u32, v: usize) -> RawHead
    requires { v < 288230376151711744 }
    ensures { Object file.now kind v result }
{
    opens(file, kind, 1, 0, v, class_end(file, v))
}

// The number of objects, a class and the count of the pairs.
fn array_head(file: &[u8], kind: u32, objects: u32, v: usize) -> RawHead
    requires { v < 288230376151711744 }
    ensures { Array objects file.now kind v result }
{
    opens(file, kind, 3, objects, v, class_end(file, v + 4))
}

// Behind what follows a reference item's class.
fn form_end(file: &[u8], form: Form, at: usize) -> usize
    requires { at < 576460752303423488 }
    ensures { Ends (reader_of form file.now at) (at + 34359738368) result }
{
    match form {
        Form::Nothing => at,
        Form::Enumerated => enumerated_end(file, at),
        Form::Id => id_end(file, at),
        Form::Text => text_end(file, at),
        Form::Long => at + 4,
    }
}

// A reference item's head.
fn form_head(file: &[u8], at: usize) -> RawHead
    requires { at < 144115188075855872 }
    ensures { Sees (λ d. member_head d forms file.now at) result }
{
    let kind = fields::number_or_zero::<u32>(file, at);
    let class = class_end(file, at + 4);
    match descriptor_fields::form_of(kind) {
        Some(form) => leaf(kind, at + 4, form_end(file, form, class)),
        None => leaf(kind, at + 4, class),
    }
}

// The head of an object array's pair.
fn column_head(file: &[u8], objects: u32, at: usize) -> RawHead
    requires { at < 144115188075855872 }
    ensures { Sees (λ d. member_head d (columns objects) file.now at) result }
{
    let value = id_end(file, at) + 4;
    leaf(
        descriptor::COLUMN,
        value,
        value + 8 + 8 * (objects as usize),
    )
}

// Behind a key, where there is one.
fn key_end(file: &[u8], there: bool, at: usize) -> usize
    requires { at < 72057594037927936 }
    ensures { Ends (optional there id file.now at) (at + 8589934592) result }
{
    if there {
        return id_end(file, at);
    }
    at
}

// The root's head.
pub fn root_head(file: &[u8]) -> RawHead
    ensures { Sees (λ d. root_head file.now 0) result }
{
    opens(file, OBJECT, 1, 0, 4, class_end(file, 4))
}

// ---- heads, for four loops. Each has an instance of its own of the two functions that follow, called from it
// alone, which so becomes a part of it; what they call is above, and small enough to become a part of each
// (docs/DECISIONS.md)

// An item of this type, whose value begins at `v`.
fn item<const LOOP: u32>(file: &[u8], kind: u32, v: usize) -> RawHead
    requires { v < 288230376151711744 }
    ensures { Values file.now kind v result }
{
    match kind {
        BOOL => fixed(kind, v, 1),
        LONG => fixed(kind, v, 4),
        COMP => fixed(kind, v, 8),
        DOUBLE => fixed(kind, v, 8),
        UNIT_DOUBLE => fixed(kind, v, 12),
        ALIAS | PATH | RAW => run_head(file, kind, v),
        TEXT => text_head(file, kind, v),
        ENUMERATED => enumerated_head(file, kind, v),
        CLASS | GLOBAL_CLASS => class_head(file, kind, v),
        LIST => list_head(file, kind, 0, v),
        REFERENCE => list_head(file, kind, 2, v),
        OBJECT | GLOBAL_OBJECT => object_head(file, kind, v),
        ARRAY => array_head(file, kind, fields::number_or_zero::<u32>(file, v), v),
        _ => fixed(kind, v, 0),
    }
}

// The head at a place where such members are due.
fn head<const LOOP: u32>(file: &[u8], what: u32, objects: u32, at: usize) -> RawHead
    ensures { at ≤ 16777216 → Sees (λ d. member_head d (due_of what objects) file.now at) result }
{
    if LIMIT < at {
        return leaf(0, at, at);
    }
    if what < 2 {
        let start = key_end(file, what == 1, at);
        return item::<LOOP>(file, fields::number_or_zero::<u32>(file, start), start + 4);
    }
    if what == 2 {
        return form_head(file, at);
    }
    column_head(file, objects, at)
}

/// For the loop that looks for one row: the head at a place where such members are due.
pub fn head_at(file: &[u8], what: u32, objects: u32, at: usize) -> RawHead
    ensures { at ≤ 16777216 → Sees (λ d. member_head d (due_of what objects) file.now at) result }
{
    head::<0>(file, what, objects, at)
}

/// The same for the loop that fills columns.
pub fn head_to_fill(file: &[u8], what: u32, objects: u32, at: usize) -> RawHead
    ensures { at ≤ 16777216 → Sees (λ d. member_head d (due_of what objects) file.now at) result }
{
    head::<1>(file, what, objects, at)
}

/// The same for the loop that stores where values begin.
pub fn head_to_value(file: &[u8], what: u32, objects: u32, at: usize) -> RawHead
    ensures { at ≤ 16777216 → Sees (λ d. member_head d (due_of what objects) file.now at) result }
{
    head::<2>(file, what, objects, at)
}

/// The same for the loop that compares a table.
pub fn head_to_compare(file: &[u8], what: u32, objects: u32, at: usize) -> RawHead
    ensures { at ≤ 16777216 → Sees (λ d. member_head d (due_of what objects) file.now at) result }
{
    head::<3>(file, what, objects, at)
}
