// Whether a lent table, five runs of numbers, begins with the rows of a file.
//
// The file is judged first, so that the number of its rows is known. Then the loop that fills columns
// goes over its heads, with a comparison in place of each store; it needs no room but for the open
// levels.
#![tactic(auto)]

ghost use Rattle.std.specs.Prelude.{◌≡◌, ◌≤◌, ◌<◌, length, get_or};
ghost use Rattle.descriptor.specs.Reading.{descriptor};
ghost use Rattle.descriptor_columns.specs.scaffold.Filling.{Begun, Rooted, rest, Done, Whole};
ghost use Rattle.descriptor_check.specs.Check.{told, checked};
ghost use Rattle.descriptor_check.specs.scaffold.Decided.{Decides};

use descriptor_columns::Level;
use fault::Refusal;

// ---- comparisons

// What a head says of its row.
fn same_head(
    first: &[u32],
    depth: &[u32],
    kind: &[u32],
    row: usize,
    at: usize,
    level: usize,
    tag: u32,
) -> bool
    requires { (row < length first.now) × (row < length depth.now) × (row < length kind.now) }
    ensures { Decides result ((get_or first.now row 0 ≡ at) × (get_or depth.now row 0 ≡ level) × (get_or kind.now row 0 ≡ tag)) }
{
    if first[row] as usize != at {
        return false;
    }
    if depth[row] as usize != level {
        return false;
    }
    if kind[row] != tag {
        return false;
    }
    true
}

// What a row's end says of it.
fn same_end(size: &[u32], next: &[u32], row: usize, bytes: usize, sibling: usize) -> bool
    requires { (row < length size.now) × (row < length next.now) }
    ensures { Decides result ((get_or size.now row 0 ≡ bytes) × (get_or next.now row 0 ≡ sibling)) }
{
    if size[row] as usize != bytes {
        return false;
    }
    if next[row] as usize != sibling {
        return false;
    }
    true
}

// ---- the loop

// Whether the rows behind the root's, and the ends of all, are there; the root's head ends at `start`.
fn compare(
    file: &[u8],
    first: &[u32],
    size: &[u32],
    next: &[u32],
    depth: &[u32],
    kind: &[u32],
    rows: usize,
    due: u32,
    arity: u32,
    count: u32,
    start: usize,
) -> bool
    requires { (Begun file.now due arity count start rows) × (rows ≤ length first.now) × (rows ≤ length size.now) × (rows ≤ length next.now) × (rows ≤ length depth.now) × (rows ≤ length kind.now) }
    ensures { Decides result (Done file.now rows (rest file.now due arity count start) first.now size.now next.now depth.now kind.now first.now size.now next.now depth.now kind.now) }
{
    let mut saved = [Level {
        what: 0,
        objects: 0,
        left: 0,
        row: 0,
        first: 0,
    }; 33];
    let mut d: usize = 0;
    let mut what = due;
    let mut objects = arity;
    let mut left = count;
    let mut row: usize = 0;
    let mut from: usize = 0;
    let mut at = start;
    let mut k: usize = 1;
    loop {
        if left == 0 {
            let bytes = at - from;
            let closed = row;
            if d == 0 {
                return same_end(size, next, closed, bytes, rows);
            }
            d -= 1;
            let level = saved[d];
            what = level.what;
            objects = level.objects;
            left = level.left;
            row = level.row;
            from = level.first;
            if same_end(
                size,
                next,
                closed,
                bytes,
                descriptor_columns::sibling(left, k, rows),
            ) {
                continue;
            }
            return false;
        }
        left -= 1;
        let head = descriptor_raw::head_to_compare(file, what, objects, at);
        let end = head.end;
        if same_head(first, depth, kind, k, at, d + 1, head.kind) {
            if head.count == 0 {
                let after = descriptor_columns::sibling(left, k + 1, rows);
                if same_end(size, next, k, end - at, after) {
                    at = end;
                    k += 1;
                    continue;
                }
                return false;
            }
            saved[d] = Level {
                what,
                objects,
                left,
                row,
                first: from,
            };
            d += 1;
            what = head.what;
            objects = head.objects;
            left = head.count;
            row = k;
            from = at;
            at = end;
            k += 1;
            continue;
        }
        return false;
    }
}

// Whether all rows of an accepted file are there.
fn compare_all(
    file: &[u8],
    first: &[u32],
    size: &[u32],
    next: &[u32],
    depth: &[u32],
    kind: &[u32],
    rows: usize,
) -> bool
    requires { (Rooted file.now rows) × (rows ≤ length first.now) × (rows ≤ length size.now) × (rows ≤ length next.now) × (rows ≤ length depth.now) × (rows ≤ length kind.now) }
    ensures { Decides result (Whole file.now first.now size.now next.now depth.now kind.now first.now size.now next.now depth.now kind.now) }
{
    let head = descriptor_raw::root_head(file);
    if same_head(first, depth, kind, 0, 0, 0, head.kind) {
        return compare(
            file,
            first,
            size,
            next,
            depth,
            kind,
            rows,
            head.what,
            head.objects,
            head.count,
            head.end,
        );
    }
    false
}

// ---- the call

/// How many rows a file has, where a table begins with them, and none where it does not; or the file's
/// refusal. A run that is shorter than the rows does not begin with them.
pub fn check(
    file: &[u8],
    first: &[u32],
    size: &[u32],
    next: &[u32],
    depth: &[u32],
    kind: &[u32],
) -> Result<Option<usize>, Refusal>
    ensures { told result ≡ checked (descriptor file.now) first.now size.now next.now depth.now kind.now }
{
    let rows = descriptor_judge::judge(file)?;
    if !descriptor_columns::is_room(first, size, next, depth, kind, rows) {
        return Ok(None);
    }
    if compare_all(file, first, size, next, depth, kind, rows) {
        return Ok(Some(rows));
    }
    Ok(None)
}
