// ACB colour books: the index of a book by the names of its records, built in a lent run.
//
// The run first takes a key for each shown record, 256 times the record's place and the low byte of
// its number; they are sorted by name there; and each is turned into the record's number, by a table of
// a record of every 2,048 bytes: a record takes 13 bytes and more, so that the low byte tells it from
// the others of its 2,048.
#![tactic(auto)]

ghost use Rattle.std.specs.Prelude.{◌≡◌, ℕ, ◌<◌, length, get_or};
ghost use Rattle.acb.specs.Reading.{acb};
ghost use Rattle.acb_order.specs.Index.{shown_from, index_of, indexed};
ghost use Rattle.acb_order.specs.scaffold.Places.{names_in};
ghost use Rattle.acb_names.specs.scaffold.Judged.{Judged};
ghost use Rattle.acb_index.specs.Answer.{told};
ghost use Rattle.acb_index.specs.scaffold.Drawn.{key_at, KeyOf, Drawing, Tabled, Numbered};

use acb_names::Records;
use fault::{Fault, Refusal};

// How many records are shown.
fn shown_in(book: &Records) -> usize
    requires { Judged book.now }
    ensures { result ≡ length (shown_from 0 (names_in book.now.file.now)) }
{
    let mut shown = 0;
    let mut at = book.first;
    for _i in 0..book.count {
        let (units, next) = book.pass(at);
        if units != 0 {
            shown += 1;
        }
        at = next;
    }
    shown
}

// Stores the keys of the shown records.
fn draw(book: &Records, run: &mut [u32])
    requires { Judged book.now × (length run.old ≡ length (shown_from 0 (names_in book.now.file.now))) }
    ensures { Drawing book.now.file.now book.now.components book.now.first book.now.count (length run.old) run.new }
{
    let mut at = book.first;
    let mut k = 0;
    for i in 0..book.count {
        let (units, next) = book.pass(at);
        if units != 0 {
            run[k] = (256 * at + i % 256) as u32;
            k += 1;
        }
        at = next;
    }
}

// Keeps for every 2,048 bytes the last record that begins there.
fn tabulate(book: &Records, table: &mut [u16; 8192])
    requires { Judged book.now × (length table.old ≡ 8192) }
    ensures { Tabled book.now.file.now book.now.components book.now.first book.now.count table.new }
{
    let mut at = book.first;
    for i in 0..book.count {
        table[at / 2048] = i as u16;
        let (_, next) = book.pass(at);
        at = next;
    }
}

// The number of the record of a key.
fn number_of(book: &Records, table: &[u16; 8192], key: u32) -> u32
    requires { Judged book.now × Tabled book.now.file.now book.now.components book.now.first book.now.count table.now × KeyOf book.now.file.now book.now.components book.now.first book.now.count key }
    ensures { (result < book.now.count) × (key ≡ key_at book.now.components book.now.file.now book.now.first result) }
{
    let last = u32::from(table[(key / 524288) as usize]);
    last - (last % 256 + 256 - key % 256) % 256
}

// Puts for each key of a run the number of its record.
fn number(book: &Records, table: &[u16; 8192], run: &mut [u32])
    requires { Judged book.now × Tabled book.now.file.now book.now.components book.now.first book.now.count table.now × ((k : ℕ) → k < length run.old → KeyOf book.now.file.now book.now.components book.now.first book.now.count (get_or run.old k 0)) }
    ensures { Numbered book.now.file.now book.now.components book.now.first book.now.count (length run.old) run.old run.new }
{
    for k in 0..run.len() {
        run[k] = number_of(book, table, run[k]);
    }
}

// Fills a run of one number a shown record.
fn fill(book: &Records, run: &mut [u32])
    requires { Judged book.now × (length run.old ≡ length (shown_from 0 (names_in book.now.file.now))) }
    ensures { run.new ≡ index_of (names_in book.now.file.now) }
{
    // Before the calls, so that it is cleared once.
    let mut table = [0; 8192];
    draw(book, run);
    acb_sort::sort(book.file, run);
    tabulate(book, &mut table);
    number(book, &table, run);
}

/// Builds the index of a file: the numbers of its shown records by their names. Answers with how many
/// there are. A refusal changes nothing, and past the entries the run keeps what it has.
pub fn build(file: &[u8], index: &mut [u32]) -> Result<usize, Refusal>
    ensures { (told result, index.new) ≡ indexed (acb file.now) index.old }
{
    let book = acb_judge::judge(file)?;
    let records = Records {
        file,
        count: book.count,
        first: book.first,
        components: acb_judge::components_of(book.header.space),
    };
    let shown = shown_in(&records);
    if index.len() < shown {
        return Err(Refusal(Fault::NoRoom, 0));
    }
    fill(&records, &mut index[..shown]);
    Ok(shown)
}
