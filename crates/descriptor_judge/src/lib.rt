// Descriptors: judging a file by the layout.
//
// The readers of item, list, object and pair call each other in a cycle while the remaining bytes
// fall, and count rows. Siblings are read in loops, so that the stack grows with the nesting alone,
// and that stops at 32.
//
// In the cycle only `list` is called at several places; `unkeyed` and `object`, which only hand on to
// it, count for nothing. The compiler then makes one function of all, and a member without members
// costs no call. An answer through memory needs a cleared place in the caller's frame: `item` itself
// asks for none, and whatever hands on asks for its own, so that such a member clears none either.
#![tactic(auto)]

ghost use Rattle.std.specs.Prelude.{◌≡◌, ◌≤◌, ◌<◌, length};
ghost use Rattle.fault.specs.Answer.{told_end};
ghost use Rattle.descriptor.specs.Reading.{id, class, children, ref_item, reference_of, array_pair, array_of, item, list_of, object_of, root, descriptor};
ghost use Rattle.descriptor_judge.specs.Answer.{verdict, told};
ghost use Rattle.descriptor_judge.specs.scaffold.Cycle.{optional, member_of, holder_of, held_of};
ghost use Rattle.descriptor_judge.specs.scaffold.Counting.{told_rows, told_row, walked, own_too, Small, Within};

use descriptor_fields::Value;
use fault::{Fault, Refusal};

/// The longest file that is read.
pub const LIMIT: usize = 16777216;

// The rows below a row, and that row.
fn with_own(below: Result<(usize, usize), Refusal>) -> Result<(usize, usize), Refusal>
    requires { Small (told_rows below) }
    ensures { told_rows result ≡ own_too (told_rows below) }
{
    let (rows, next) = below?;
    Ok((rows + 1, next))
}

// ---- members that hold no items

// The reference item at `at`: one row.
fn ref_item(file: &[u8], left: usize, at: usize) -> Result<usize, Refusal>
    ensures { told_row result ≡ walked (ref_item left 0 0 file.now at) }
{
    if left == 0 {
        return Err(Refusal(Fault::TooDeep, at));
    }
    let (kind, value) = fields::number_at::<u32>(file, at)?;
    let Some(form) = descriptor_fields::form_of(kind) else {
        return Err(Refusal(Fault::Unknown, at));
    };
    descriptor_fields::ref_value_at(file, form, value)
}

// The pair of an object array at `at`: one row.
fn array_pair(file: &[u8], objects: u32, left: usize, at: usize) -> Result<usize, Refusal>
    ensures { told_row result ≡ walked (array_pair objects left 0 0 file.now at) }
{
    if left == 0 {
        return Err(Refusal(Fault::TooDeep, at));
    }
    let key = descriptor_fields::id_at(file, at)?;
    let (kind, value) = fields::number_at::<u32>(file, key)?;
    if kind != descriptor::COLUMN {
        return Err(Refusal(Fault::Unknown, key));
    }
    descriptor_fields::column_at(file, objects, value)
}

// ---- members of a row with `left` levels below it: how many rows they are, and the next place

// The items of a reference, from their count on.
fn reference(file: &[u8], left: usize, at: usize) -> Result<(usize, usize), Refusal>
    requires { Within file.now left at at }
    ensures { told_rows result ≡ walked (reference_of left 0 file.now at) }
{
    let (n, from) = fields::number_at::<u32>(file, at)?;
    let mut next = from;
    for _i in 0..n {
        next = ref_item(file, left, next)?;
    }
    Ok((n as usize, next))
}

// The pairs of an object array, from their count on.
fn array_pairs(file: &[u8], objects: u32, left: usize, at: usize) -> Result<(usize, usize), Refusal>
    requires { Within file.now left at at }
    ensures { told_rows result ≡ walked (children (array_pair objects left 0) 0 file.now at) }
{
    let (n, from) = fields::number_at::<u32>(file, at)?;
    let mut next = from;
    for _i in 0..n {
        next = array_pair(file, objects, left, next)?;
    }
    Ok((n as usize, next))
}

// An object array, from its number of objects on.
fn array(file: &[u8], left: usize, at: usize) -> Result<(usize, usize), Refusal>
    requires { Within file.now left at at }
    ensures { told_rows result ≡ walked (array_of left 0 file.now at) }
{
    let (objects, class) = fields::number_at::<u32>(file, at)?;
    let pairs = descriptor_fields::class_at(file, class)?;
    array_pairs(file, objects, left, pairs)
}

// A reference, or, with `columns`, an object array: neither holds items. It is called at two places
// and so not inlined, which keeps the frame of the readers of items small.
fn held(file: &[u8], columns: bool, left: usize, at: usize) -> Result<(usize, usize), Refusal>
    requires { Within file.now left at at }
    ensures { told_rows result ≡ walked (held_of columns left 0 file.now at) }
{
    if columns {
        return array(file, left, at);
    }
    reference(file, left, at)
}

// A reference; and an object array. Each is called at one place.
fn referred(file: &[u8], left: usize, at: usize) -> Result<(usize, usize), Refusal>
    requires { Within file.now left at at }
    ensures { told_rows result ≡ walked (reference_of left 0 file.now at) }
{
    held(file, false, left, at)
}

fn columns(file: &[u8], left: usize, at: usize) -> Result<(usize, usize), Refusal>
    requires { Within file.now left at at }
    ensures { told_rows result ≡ walked (array_of left 0 file.now at) }
{
    held(file, true, left, at)
}

// ---- the cycle

// A class, where there is one.
fn class_if(file: &[u8], there: bool, at: usize) -> Result<usize, Refusal>
    ensures { told_end result ≡ optional there class file.now at }
{
    if there {
        return descriptor_fields::class_at(file, at);
    }
    Ok(at)
}

// A key, where there is one.
fn key_if(file: &[u8], there: bool, at: usize) -> Result<usize, Refusal>
    ensures { told_end result ≡ optional there id file.now at }
{
    if there {
        return descriptor_fields::id_at(file, at);
    }
    Ok(at)
}

// The item at `at`, whose row starts at `first`: at its key in a pair, else at its own first byte.
#[cycle(item_list_object_pair)]
fn item(file: &[u8], left: usize, first: usize, at: usize) -> Result<(usize, usize), Refusal>
    requires { Within file.now left first at }
    ensures { told_rows result ≡ walked (item left 0 0 first file.now at) }
{
    if left == 0 {
        return Err(Refusal(Fault::TooDeep, first));
    }
    let (kind, value) = fields::number_at::<u32>(file, at)?;
    let sort = descriptor_fields::begin(file, kind, value)?;
    let Some(what) = sort else {
        return Err(Refusal(Fault::Unknown, at));
    };
    match what {
        Value::Ends(end) => Ok((1, end)),
        Value::List => with_own(unkeyed(file, left - 1, value)),
        Value::Object => with_own(object(file, left - 1, value)),
        Value::Reference => with_own(referred(file, left - 1, value)),
        Value::Array => with_own(columns(file, left - 1, value)),
    }
}

// A list, from its count on; or, `keyed`, an object, from its class on, whose members are pairs.
#[cycle(item_list_object_pair)]
fn list(file: &[u8], keyed: bool, left: usize, at: usize) -> Result<(usize, usize), Refusal>
    requires { Within file.now left at at }
    ensures { told_rows result ≡ walked (holder_of keyed left 0 file.now at) }
{
    let count = class_if(file, keyed, at)?;
    let (n, from) = fields::number_at::<u32>(file, count)?;
    let mut next = from;
    let mut rows: usize = 0;
    for _i in 0..n {
        let (more, end) = pair(file, keyed, left, next)?;
        rows += more;
        next = end;
    }
    Ok((rows, next))
}

// A list, from its count on.
#[cycle(item_list_object_pair)]
fn unkeyed(file: &[u8], left: usize, at: usize) -> Result<(usize, usize), Refusal>
    requires { Within file.now left at at }
    ensures { told_rows result ≡ walked (list_of (item left) 0 file.now at) }
{
    list(file, false, left, at)
}

// An object, from its class on.
#[cycle(item_list_object_pair)]
fn object(file: &[u8], left: usize, at: usize) -> Result<(usize, usize), Refusal>
    requires { Within file.now left at at }
    ensures { told_rows result ≡ walked (object_of (item left) left 0 file.now at) }
{
    list(file, true, left, at)
}

// A key and an item; in a list, where there is no key, an item.
#[cycle(item_list_object_pair)]
fn pair(file: &[u8], keyed: bool, left: usize, at: usize) -> Result<(usize, usize), Refusal>
    requires { Within file.now left at at }
    ensures { told_rows result ≡ walked (member_of keyed left 0 0 file.now at) }
{
    if left == 0 {
        return Err(Refusal(Fault::TooDeep, at));
    }
    let next = key_if(file, keyed, at)?;
    item(file, left, at, next)
}

// ---- the file

// Version 16, and the root object.
fn root(file: &[u8]) -> Result<(usize, usize), Refusal>
    requires { length file.now ≤ 16777216 }
    ensures { told_rows result ≡ walked (root file.now 0) }
{
    let (version, value) = fields::number_at::<u32>(file, 0)?;
    if version != 16 {
        return Err(Refusal(Fault::WrongTag, 0));
    }
    with_own(object(file, 32, value))
}

/// How many rows a file has, or the refusal.
pub fn judge(file: &[u8]) -> Result<usize, Refusal>
    ensures { told result ≡ verdict (descriptor file.now) }
{
    if LIMIT < file.len() {
        return Err(Refusal(Fault::TooLong, 0));
    }
    let (rows, end) = root(file)?;
    if end != file.len() {
        return Err(Refusal(Fault::LeftOver, end));
    }
    Ok(rows)
}
