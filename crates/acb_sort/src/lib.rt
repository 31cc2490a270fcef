// ACB colour books: records sorted by their names. A record's key is 256 times its place and the low
// byte of its number. Any keys are taken; where no record stands a name has no units.
#![tactic(auto)]

ghost use Rattle.std.specs.Prelude.{◌≡◌, ◌+◌, ◌<◌, length};
ghost use Rattle.std.specs.List.Sorted.{IsPermutation};
ghost use Rattle.order.specs.Order.{is_less};
ghost use Rattle.order.specs.Run.{Ordered};
ghost use Rattle.acb_names.specs.Answer.{told};
ghost use Rattle.acb_sort.specs.Keys.{key_order, SortedKeys};
ghost use Rattle.acb_sort.specs.scaffold.Stretch.{Stretch};

use std::cmp::Ordering;

// Up to here a run is sorted by binary insertion. A comparison reads two names and is nearly the whole
// cost: for 64 keys it takes 379 at most, in whatever order. But it moves up to n keys for each.
const SHORT: usize = 128;

// Two keys.
fn compare(file: &[u8], x: u32, y: u32) -> Ordering
    ensures { told result ≡ key_order file.now x y }
{
    acb_names::compare(file, x / 256, y / 256).then(x.cmp(&y))
}

// Whether key x stands before key y.
fn before(file: &[u8], x: u32, y: u32) -> bool
    ensures { result ≡ is_less (key_order file.now x y) }
{
    compare(file, x, y).is_lt()
}

// Whether a run begins with keys that fall, and how many keys go that way from its first on.
fn stretch(file: &[u8], run: &[u32]) -> (bool, usize)
    ensures { Stretch (key_order file.now) run.now result.0 result.1 }
{
    if run.len() < 2 {
        return (false, run.len());
    }
    let down = before(file, run[1], run[0]);
    for k in 2..run.len() {
        if before(file, run[k], run[k - 1]) != down {
            return (down, k);
        }
    }
    (down, run.len())
}

// Moves the key at place i among those before it, which are in order. Two reversals turn by one, and
// need no `memmove` of C, as `rotate_right` does.
fn insert(file: &[u8], run: &mut [u32], i: usize)
    requires { (i < length run.old) × Ordered (key_order file.now) i run.old }
    ensures { IsPermutation run.old run.new × Ordered (key_order file.now) (i + 1) run.new }
{
    let x = run[i];
    let k = run[..i].partition_point(|y| before(file, *y, x));
    run[k..i].reverse();
    run[k..=i].reverse();
}

// Sorts a run by binary insertion, behind the keys that rise or fall from its first on.
fn sort_short(file: &[u8], run: &mut [u32])
    ensures { IsPermutation run.old run.new × Ordered (key_order file.now) (length run.old) run.new }
{
    let (down, n) = stretch(file, run);
    if down {
        run[..n].reverse();
    }
    for i in n..run.len() {
        insert(file, run, i);
    }
}

/// Sorts a run of keys.
pub fn sort(file: &[u8], run: &mut [u32])
    ensures { SortedKeys file.now (length run.old) run.old run.new }
{
    if run.len() <= SHORT {
        sort_short(file, run);
        return;
    }
    run.sort_unstable_by(|x, y| compare(file, *x, *y));
}
