// Descriptors to be built: a run of entries, judged as the reader would judge the file made of them.
//
// One loop goes over the entries. The levels that still want members stand in an array, as where
// columns are filled.
#![tactic(auto)]

ghost use Rattle.std.specs.Prelude.{◌≡◌, ◌+◌, ◌*◌, ◌≤◌, length, ltb};
ghost use Rattle.algebra.specs.Table.{row_at, rows};
ghost use Rattle.algebra.specs.Writing.{needs};
ghost use Rattle.algebra.specs.Reader.{pick};
ghost use Rattle.fault.specs.Answer.{told_written};
ghost use Rattle.descriptor_raw.specs.Raw.{due_of};
ghost use Rattle.descriptor_entry.specs.Shapes.{width, kind_of, object, shape_of};
ghost use Rattle.descriptor_entry.specs.Entries.{given, head_pieces, root_pieces, asks, needed};
ghost use Rattle.descriptor_entry_judge.specs.Judging.{told_fault, Judges};
ghost use Rattle.descriptor_build_judge.specs.scaffold.Judging.{Begun};

use descriptor_columns::Level;
use descriptor_entry::WIDTH;
use descriptor_entry_judge::Judged;
use descriptor_judge::LIMIT;
use fault::Fault;

// ---- an entry of the run

// What is found of the entry k, where such a member is due.
fn judge_at(entries: &[u32], text: &[u8], k: usize, what: u32, objects: u32) -> Judged
    requires { width * k + width ≤ length entries.now }
    ensures { Judges text.now (head_pieces (due_of what objects) (row_at width entries.now k)) (asks (shape_of (due_of what objects) (kind_of (row_at width entries.now k))) 0 0 0 (row_at width entries.now k)) result }
{
    let at = WIDTH * k;
    descriptor_entry_judge::judge_head(&entries[at..at + WIDTH], text, what, objects)
}

// The same of the first entry, which is the root's.
fn judge_first(entries: &[u32], text: &[u8]) -> Judged
    requires { width ≤ length entries.now }
    ensures { Judges text.now (root_pieces (row_at width entries.now 0)) (asks object 0 0 0 (row_at width entries.now 0)) result }
{
    descriptor_entry_judge::judge_root(&entries[..WIDTH], text)
}

// ---- the run

// Whether no entry is left over.
fn none_left(k: usize, n: usize) -> Result<(), Fault>
    ensures { told_fault result ≡ pick (ltb k n) 6 0 }
{
    if k < n {
        return Err(Fault::LeftOver);
    }
    Ok(())
}

// The length, where all is sound.
fn finish(total: usize, sound: Result<(), Fault>) -> Result<usize, Fault>
    ensures { told_written result ≡ needs (told_fault sound) total }
{
    sound?;
    Ok(total)
}

// The n entries, the root's head being judged.
fn judge_members(entries: &[u32], text: &[u8], n: usize, root: Judged) -> Result<usize, Fault>
    requires { Begun text.now entries.now n root }
    ensures { told_written result ≡ needed text.now (rows width (λ row. row) entries.now n 0) }
{
    let mut saved = [Level {
        what: 0,
        objects: 0,
        left: 0,
        row: 0,
        first: 0,
    }; 33];
    let mut d: usize = 0;
    let mut what = root.what;
    let mut objects = root.objects;
    let mut left = root.count;
    let mut total = root.size;
    let mut sound = root.sound;
    let mut k: usize = 1;
    loop {
        if left == 0 {
            if d == 0 {
                return finish(total, sound.and(none_left(k, n)));
            }
            d -= 1;
            let level = saved[d];
            what = level.what;
            objects = level.objects;
            left = level.left;
            continue;
        }
        if d == 32 {
            return finish(total, sound.and(Err(Fault::TooDeep)));
        }
        if k == n {
            return finish(total, sound.and(Err(Fault::Short)));
        }
        let head = judge_at(entries, text, k, what, objects);
        total += head.size;
        if LIMIT < total {
            return Err(Fault::TooLong);
        }
        sound = sound.and(head.sound);
        left -= 1;
        k += 1;
        if head.count == 0 {
            continue;
        }
        saved[d] = Level {
            what,
            objects,
            left,
            row: 0,
            first: 0,
        };
        d += 1;
        what = head.what;
        objects = head.objects;
        left = head.count;
    }
}

/// The exact length that building needs, or the refusal.
pub fn write_length(entries: &[u32], text: &[u8]) -> Result<usize, Fault>
    ensures { told_written result ≡ needed text.now (given entries.now) }
{
    let n = entries.len() / WIDTH;
    if n == 0 {
        return Err(Fault::Short);
    }
    let root = judge_first(entries, text);
    if LIMIT < root.size {
        return Err(Fault::TooLong);
    }
    judge_members(entries, text, n, root)
}
