// Descriptors into five lent runs: first byte, length, next sibling, depth, kind; where the rows'
// values begin; and parents from depths.
//
// A file is judged first, so that the number of its rows is known. Then a loop goes over its heads,
// without judging again. The levels that are open stand in an array, and a level that ends gives its
// row's length and next sibling.
#![tactic(auto)]

ghost use Rattle.std.specs.Prelude.{◌≡◌, ◌+◌, ◌≤◌, ◌<◌, eqb, length, set, ◌∷◌, []};
ghost use Rattle.algebra.specs.Reader.{pick};
ghost use Rattle.descriptor.specs.Reading.{descriptor};
ghost use Rattle.descriptor_judge.specs.Answer.{told};
ghost use Rattle.descriptor_columns.specs.Columns.{parents_of};
ghost use Rattle.descriptor_columns.specs.Filled.{answered, Read, valued, parented, fits, onto};
ghost use Rattle.descriptor_columns.specs.scaffold.Filling.{Begun, Done, Rooted, Whole, rest, puts, value_in};
ghost use Rattle.descriptor_columns.specs.scaffold.Parents.{Parented, parent_at};

use fault::{Fault, Refusal};

// A level that is open: what its members are and how many are left, the row in which they stand, and
// that row's first byte.
#[derive(Clone, Copy)]
pub struct Level {
    pub what: u32,
    pub objects: u32,
    pub left: u32,
    pub row: usize,
    pub first: usize,
}

// ---- stores

// What a head says of its row.
fn put_head(
    first: &mut [u32],
    depth: &mut [u32],
    kind: &mut [u32],
    row: usize,
    at: usize,
    level: usize,
    tag: u32,
)
    requires { (row < length first.old) × (row < length depth.old) × (row < length kind.old) × (at < 4294967296) × (level < 4294967296) }
    ensures { (first.new ≡ set first.old row at) × (depth.new ≡ set depth.old row level) × (kind.new ≡ set kind.old row tag) }
{
    first[row] = at as u32;
    depth[row] = level as u32;
    kind[row] = tag;
}

// What a row's end says of it.
fn put_end(size: &mut [u32], next: &mut [u32], row: usize, bytes: usize, sibling: usize)
    requires { (row < length size.old) × (row < length next.old) × (bytes < 4294967296) × (sibling < 4294967296) }
    ensures { (size.new ≡ set size.old row bytes) × (next.new ≡ set next.old row sibling) }
{
    size[row] = bytes as u32;
    next[row] = sibling as u32;
}

// The next sibling of a row at whose level so many members are left, in a file of so many rows.
pub fn sibling(left: u32, row: usize, rows: usize) -> usize
    ensures { result ≡ pick (eqb left 0) rows row }
{
    if left == 0 {
        return rows;
    }
    row
}

// ---- the loop

// The rows behind the root's, and the ends of all; the root's head ends at `start`.
fn fill(
    file: &[u8],
    first: &mut [u32],
    size: &mut [u32],
    next: &mut [u32],
    depth: &mut [u32],
    kind: &mut [u32],
    rows: usize,
    due: u32,
    arity: u32,
    count: u32,
    start: usize,
)
    requires { (Begun file.now due arity count start rows) × (rows ≤ length first.old) × (rows ≤ length size.old) × (rows ≤ length next.old) × (rows ≤ length depth.old) × (rows ≤ length kind.old) }
    ensures { Done file.now rows (rest file.now due arity count start) first.old size.old next.old depth.old kind.old first.new size.new next.new depth.new kind.new }
{
    let mut saved = [Level {
        what: 0,
        objects: 0,
        left: 0,
        row: 0,
        first: 0,
    }; 33];
    let mut d: usize = 0;
    let mut what = due;
    let mut objects = arity;
    let mut left = count;
    let mut row: usize = 0;
    let mut from: usize = 0;
    let mut at = start;
    let mut k: usize = 1;
    loop {
        if left == 0 {
            let bytes = at - from;
            let closed = row;
            if d == 0 {
                put_end(size, next, closed, bytes, rows);
                return;
            }
            d -= 1;
            let level = saved[d];
            what = level.what;
            objects = level.objects;
            left = level.left;
            row = level.row;
            from = level.first;
            put_end(size, next, closed, bytes, sibling(left, k, rows));
            continue;
        }
        left -= 1;
        let head = descriptor_raw::head_to_fill(file, what, objects, at);
        let end = head.end;
        put_head(first, depth, kind, k, at, d + 1, head.kind);
        if head.count == 0 {
            put_end(size, next, k, end - at, sibling(left, k + 1, rows));
            at = end;
            k += 1;
            continue;
        }
        saved[d] = Level {
            what,
            objects,
            left,
            row,
            first: from,
        };
        d += 1;
        what = head.what;
        objects = head.objects;
        left = head.count;
        row = k;
        from = at;
        at = end;
        k += 1;
    }
}

// All rows of an accepted file.
fn fill_all(
    file: &[u8],
    first: &mut [u32],
    size: &mut [u32],
    next: &mut [u32],
    depth: &mut [u32],
    kind: &mut [u32],
    rows: usize,
)
    requires { (Rooted file.now rows) × (rows ≤ length first.old) × (rows ≤ length size.old) × (rows ≤ length next.old) × (rows ≤ length depth.old) × (rows ≤ length kind.old) }
    ensures { Whole file.now first.old size.old next.old depth.old kind.old first.new size.new next.new depth.new kind.new }
{
    let head = descriptor_raw::root_head(file);
    put_head(first, depth, kind, 0, 0, 0, head.kind);
    fill(
        file,
        first,
        size,
        next,
        depth,
        kind,
        rows,
        head.what,
        head.objects,
        head.count,
        head.end,
    );
}

// Whether there is room for so many rows in each run.
pub fn is_room(
    first: &[u32],
    size: &[u32],
    next: &[u32],
    depth: &[u32],
    kind: &[u32],
    rows: usize,
) -> bool
    ensures { result ≡ fits rows (first.now ∷ size.now ∷ next.now ∷ depth.now ∷ kind.now ∷ []) }
{
    if first.len() < rows {
        return false;
    }
    if size.len() < rows {
        return false;
    }
    if next.len() < rows {
        return false;
    }
    if depth.len() < rows {
        return false;
    }
    if kind.len() < rows {
        return false;
    }
    true
}

// Where the values of the rows behind the root's begin.
fn fill_values(
    file: &[u8],
    values: &mut [u32],
    rows: usize,
    due: u32,
    arity: u32,
    count: u32,
    start: usize,
)
    requires { (Begun file.now due arity count start rows) × (rows ≤ length values.old) }
    ensures { values.new ≡ puts value_in 1 (rest file.now due arity count start) values.old }
{
    let mut saved = [Level {
        what: 0,
        objects: 0,
        left: 0,
        row: 0,
        first: 0,
    }; 33];
    let mut d: usize = 0;
    let mut what = due;
    let mut objects = arity;
    let mut left = count;
    let mut at = start;
    let mut k: usize = 1;
    loop {
        if left == 0 {
            if d == 0 {
                return;
            }
            d -= 1;
            let level = saved[d];
            what = level.what;
            objects = level.objects;
            left = level.left;
            continue;
        }
        left -= 1;
        let head = descriptor_raw::head_to_value(file, what, objects, at);
        values[k] = head.value as u32;
        if head.count == 0 {
            at = head.end;
            k += 1;
            continue;
        }
        saved[d] = Level {
            what,
            objects,
            left,
            row: 0,
            first: 0,
        };
        d += 1;
        what = head.what;
        objects = head.objects;
        left = head.count;
        at = head.end;
        k += 1;
    }
}

// ---- parents

// The parent of the row `i`, where those of the rows before it stand in `parents`: from the row before
// it one goes from parent to parent, up to one that is less deep.
fn parent_of(depth: &[u32], parents: &[u32], i: usize) -> usize
    requires { (Parented depth.now parents.now i) × (i < length depth.now) × (i < length parents.now) }
    ensures { (result ≡ parent_at depth.now i) × (result ≤ i) }
{
    if i == 0 {
        return 0;
    }
    let own = depth[i];
    let mut j = i - 1;
    loop {
        if j == 0 {
            return 0;
        }
        if depth[j] < own {
            return j;
        }
        j = parents[j] as usize;
    }
}

// All parents.
fn fill_parents(depth: &[u32], parents: &mut [u32])
    requires { (length depth.now ≤ length parents.old) × (length depth.now ≤ 4294967295) }
    ensures { parents.new ≡ onto (parents_of depth.now) parents.old }
{
    for i in 0..depth.len() {
        let p = parent_of(depth, parents, i);
        parents[i] = p as u32;
    }
}

// ---- the calls

// Reads a file into five runs: how many rows it has, or the refusal, which changes nothing; 11 where a
// run has room for fewer. Past the rows the runs keep their contents.
pub fn read(
    file: &[u8],
    first: &mut [u32],
    size: &mut [u32],
    next: &mut [u32],
    depth: &mut [u32],
    kind: &mut [u32],
) -> Result<usize, Refusal>
    ensures { (told result ≡ answered (descriptor file.now) (first.old ∷ size.old ∷ next.old ∷ depth.old ∷ kind.old ∷ [])) × (Read file.now first.old size.old next.old depth.old kind.old first.new size.new next.new depth.new kind.new) }
{
    let rows = descriptor_judge::judge(file)?;
    if !is_room(first, size, next, depth, kind, rows) {
        return Err(Refusal(Fault::NoRoom, 0));
    }
    fill_all(file, first, size, next, depth, kind, rows);
    Ok(rows)
}

// Where the value of every row begins: how many rows a file has, or the refusal, which changes
// nothing; 11 where the run has room for fewer. Past the rows it keeps its contents.
pub fn values(file: &[u8], values: &mut [u32]) -> Result<usize, Refusal>
    ensures { (told result, values.new) ≡ valued file.now values.old }
{
    let rows = descriptor_judge::judge(file)?;
    if values.len() < rows {
        return Err(Refusal(Fault::NoRoom, 0));
    }
    let head = descriptor_raw::root_head(file);
    values[0] = 4;
    fill_values(
        file,
        values,
        rows,
        head.what,
        head.objects,
        head.count,
        head.end,
    );
    Ok(rows)
}

// The parent of every row from the depths alone: the last row before it that is less deep, 0 where
// there is none. How many rows there are; 11 where the run has room for fewer, and 1 where they are
// more than 32 bits count: both change nothing. Past the rows the run keeps its contents.
pub fn parents(depth: &[u32], parents: &mut [u32]) -> Result<usize, Refusal>
    ensures { (told result, parents.new) ≡ parented depth.now parents.old }
{
    let rows = depth.len();
    if 4294967295 < rows {
        return Err(Refusal(Fault::TooLong, 0));
    }
    if parents.len() < rows {
        return Err(Refusal(Fault::NoRoom, 0));
    }
    fill_parents(depth, parents);
    Ok(rows)
}
