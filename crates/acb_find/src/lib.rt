// ACB colour books: a record by its name, with an index that is first compared with the file.
//
// An index holds record numbers alone. A pass over the file keeps the places of every d-th record in
// 4,096 marks, d as small as they allow, so that every other record is less than d, at most 15, steps
// behind a mark: in books of fewer than 4,096 records none.
#![tactic(auto)]

ghost use Rattle.std.specs.Prelude.{◌≡◌, [], Some, None, true, ◌<◌, eqb, ltb, length, get_or};
ghost use Rattle.algebra.specs.Reader.{pick};
ghost use Rattle.order.specs.Order.{less, is_less};
ghost use Rattle.acb.specs.Reading.{acb};
ghost use Rattle.acb_order.specs.Names.{compare_names};
ghost use Rattle.acb_order.specs.Index.{shown_from, index_of};
ghost use Rattle.acb_order.specs.Search.{begins, lowest, searched};
ghost use Rattle.acb_order.specs.scaffold.Places.{place_order, record_place, names_in};
ghost use Rattle.acb_names.specs.Answer.{told as toldOrder};
ghost use Rattle.acb_names.specs.scaffold.Judged.{Judged};
ghost use Rattle.acb_find.specs.Answer.{told};
ghost use Rattle.acb_find.specs.scaffold.Marks.{Spaced, Marked, is_after, Bracket};
ghost use Rattle.acb_find.specs.scaffold.Surveyed.{Surveyed};

use acb_names::Records;
use fault::{Fault, Refusal};
use std::cmp::Ordering;

// How far marks are apart.
fn spacing(count: usize) -> usize
    requires { count < 65536 }
    ensures { Spaced count result }
{
    count / 4096 + 1
}

// How many records are shown; marks are kept on the way.
fn survey(book: &Records, d: usize, marks: &mut [u32; 4096]) -> usize
    requires { Judged book.now × Spaced book.now.count d × (length marks.old ≡ 4096) }
    ensures { (result ≡ length (shown_from 0 (names_in book.now.file.now))) × Marked book.now.file.now book.now.components book.now.first d book.now.count marks.new }
{
    let mut shown = 0;
    let mut at = book.first;
    let mut j = 0;
    let mut due = 0;
    for _i in 0..book.count {
        if due == 0 {
            marks[j] = at as u32;
            j += 1;
            due = d;
        }
        due -= 1;
        let (units, next) = book.pass(at);
        if units != 0 {
            shown += 1;
        }
        at = next;
    }
    shown
}

// A book with the marks of every d-th record.
#[derive(Clone, Copy)]
struct Guide<'a> {
    book: Records<'a>,
    d: usize,
    marks: &'a [u32; 4096],
}

impl Guide<'_> {
    // The place of record i, from the mark before it.
    fn place_of(&self, i: u32) -> Option<u32>
        requires { Surveyed self.now }
        ensures { result ≡ pick (ltb i self.now.book.count) (Some (record_place self.now.book.components self.now.book.file.now self.now.book.first i)) None }
    {
        let n = i as usize;
        if self.book.count <= n {
            return None;
        }
        let j = n / self.d;
        let mut at = self.marks[j] as usize;
        for _k in self.d * j..n {
            let (_, next) = self.book.pass(at);
            at = next;
        }
        Some(at as u32)
    }

    // A name against that of record i. A name is less than that of no record.
    fn against(&self, name: &[u16], i: u32) -> Ordering
        requires { Surveyed self.now }
        ensures { toldOrder result ≡ pick (ltb i self.now.book.count) (compare_names name.now (get_or (names_in self.now.book.file.now) i [])) less }
    {
        match self.place_of(i) {
            Some(at) => acb_names::against(self.book.file, at, name),
            None => Ordering::Less,
        }
    }

    // Whether a name comes after that of record i.
    fn is_after(&self, name: &[u16], i: u32) -> bool
        requires { Surveyed self.now }
        ensures { result ≡ is_after (names_in self.now.book.file.now) self.now.book.count name.now i }
    {
        self.against(name, i).is_gt()
    }

    // Whether an index begins with that of the file: as many entries as there are shown records, each
    // a shown record, each behind the one before it.
    fn is_index(&self, index: &[u32], shown: usize) -> bool
        requires { Surveyed self.now × (shown ≡ length (shown_from 0 (names_in self.now.book.file.now))) }
        ensures { result ≡ begins (index_of (names_in self.now.book.file.now)) index.now }
    {
        if index.len() < shown {
            return false;
        }
        let mut last = 0;
        for k in 0..shown {
            let Some(at) = self.place_of(index[k]) else {
                return false;
            };
            if acb_names::units_at(self.book.file, at as usize) == 0 {
                return false;
            }
            if !follows(self.book.file, k, last, at) {
                return false;
            }
            last = at;
        }
        true
    }

    // The first entry of an index whose name does not come before a name.
    fn lower_bound(&self, index: &[u32], shown: usize, name: &[u16]) -> usize
        requires { Surveyed self.now × (shown ≡ length (shown_from 0 (names_in self.now.book.file.now))) × (begins (index_of (names_in self.now.book.file.now)) index.now ≡ true) }
        ensures { Bracket (names_in self.now.book.file.now) index.now shown name.now result }
    {
        index[..shown].partition_point(|i| self.is_after(name, *i))
    }

    // The lowest record of a name, by an index of the file.
    fn lowest_of(&self, index: &[u32], shown: usize, name: &[u16]) -> Result<usize, Refusal>
        requires { Surveyed self.now × (shown ≡ length (shown_from 0 (names_in self.now.book.file.now))) × (begins (index_of (names_in self.now.book.file.now)) index.now ≡ true) }
        ensures { told result ≡ lowest name.now (shown_from 0 (names_in self.now.book.file.now)) }
    {
        let k = self.lower_bound(index, shown, name);
        if shown <= k {
            return Err(Refusal(Fault::NoRecord, 0));
        }
        let record = index[k];
        if self.against(name, record).is_ne() {
            return Err(Refusal(Fault::NoRecord, 0));
        }
        Ok(record as usize)
    }
}

// Whether the record at `at` may stand at place k of an index, behind the one at `last`.
fn follows(file: &[u8], k: usize, last: u32, at: u32) -> bool
    ensures { result ≡ pick (eqb k 0) true (is_less (place_order file.now last at)) }
{
    if k == 0 {
        return true;
    }
    acb_names::compare(file, last, at)
        .then(last.cmp(&at))
        .is_lt()
}

/// The lowest shown record of a name, by an index that must begin with that of the file.
pub fn find(file: &[u8], index: &[u32], name: &[u16]) -> Result<usize, Refusal>
    ensures { told result ≡ searched index.now name.now (acb file.now) }
{
    let judged = acb_judge::judge(file)?;
    let book = Records {
        file,
        count: judged.count,
        first: judged.first,
        components: acb_judge::components_of(judged.header.space),
    };
    let d = spacing(book.count);
    let mut marks = [0; 4096];
    let shown = survey(&book, d, &mut marks);
    let guide = Guide {
        book,
        d,
        marks: &marks,
    };
    if !guide.is_index(index, shown) {
        return Err(Refusal(Fault::OutOfRange, 0));
    }
    guide.lowest_of(index, shown, name)
}
