// Image resource blocks: a section's records into a lent table, a record by its number, views of
// its name and data, and the first block with an ID.
#![tactic(auto)]

ghost use Rattle.std.specs.Prelude.{◌≡◌, ◌+◌, ◌*◌, ◌≤◌, ◌<◌, length};
ghost use Rattle.std.proofs.lemmas.List.Edits.{sets};
ghost use Rattle.algebra.specs.Numbers.{joined};
ghost use Rattle.algebra.specs.Reader.{ok, map_res};
ghost use Rattle.algebra.specs.Table.{accepted};
ghost use Rattle.resource.specs.Reading.{block, resources};
ghost use Rattle.resource.specs.Rows.{to_record, width, row};
ghost use Rattle.resource_judge.specs.Answer.{told};
ghost use Rattle.resource_read.specs.Table.{entry_row, tabled, record_in, name_of, payload_of, found_in};
ghost use Rattle.resource_read.specs.scaffold.Parts.{rest, Sound, Small};

use fault::{Fault, Refusal};
use fields::number_or_zero;
use resource::{Record, WIDTH};
use resource_judge::judge;

// The record of the block at `at` of a section that was accepted, by its lengths alone, and the place
// behind the block: nothing in it is judged again.
fn given_at(file: &[u8], at: usize) -> (Record, usize)
    requires { Sound file.now at × (at < length file.now) }
    ensures { ok result.0 result.1 ≡ map_res to_record (block file.now at) }
{
    let letters = file[at + 6] as usize;
    let p = at + 8 + letters / 2 * 2;
    let payload = p + 4;
    let size = number_or_zero::<u32>(file, p) as usize;
    let next = (payload + size + 1) / 2 * 2;
    (
        Record {
            id: u32::from(number_or_zero::<u16>(file, at + 4)),
            name: at + 7,
            letters,
            payload,
            size,
        },
        next,
    )
}

// Stores a record's numbers from `to`: no other function stores them.
fn put_row(table: &mut [u32], to: usize, given: Record)
    requires { (to + width ≤ length table.old) × Small given }
    ensures { table.new ≡ sets table.old to (row given) }
{
    table[to] = given.id;
    table[to + 1] = given.name as u32;
    table[to + 2] = given.letters as u32;
    table[to + 3] = given.payload as u32;
    table[to + 4] = given.size as u32;
}

// Stores the rows of a section that was accepted, of so many blocks.
fn fill(file: &[u8], blocks: usize, table: &mut [u32])
    requires { Sound file.now 0 × (length (rest file.now 0) ≡ blocks) × (width * blocks ≤ length table.old) }
    ensures { table.new ≡ sets table.old 0 (joined entry_row (rest file.now 0)) }
{
    let mut at: usize = 0;
    for i in 0..blocks {
        let (given, next) = given_at(file, at);
        put_row(table, WIDTH * i, given);
        at = next;
    }
}

// Record i of a section that was accepted, which has it.
fn nth(file: &[u8], i: usize) -> Record
    requires { Sound file.now 0 × (i < length (rest file.now 0)) }
    ensures { accepted result ≡ record_in i (ok (rest file.now 0) 0) }
{
    let mut at: usize = 0;
    for _k in 0..i {
        let (_, next) = given_at(file, at);
        at = next;
    }
    let (given, _) = given_at(file, at);
    given
}

// The number of the first block with an ID in a section that was accepted, of so many blocks.
fn index_of(file: &[u8], blocks: usize, id: u32) -> Result<usize, Refusal>
    requires { Sound file.now 0 × (length (rest file.now 0) ≡ blocks) }
    ensures { told result ≡ found_in id (ok (rest file.now 0) 0) }
{
    let mut at: usize = 0;
    for i in 0..blocks {
        let (given, next) = given_at(file, at);
        if given.id == id {
            return Ok(i);
        }
        at = next;
    }
    Err(Refusal(Fault::NoRecord, 0))
}

/// Reads a section into a table, which a refusal leaves as it was: its number of blocks.
pub fn read(file: &[u8], table: &mut [u32]) -> Result<usize, Refusal>
    ensures { (told result, table.new) ≡ tabled (resources file.now) table.old }
{
    let blocks = judge(file)?;
    if table.len() / WIDTH < blocks {
        return Err(Refusal(Fault::NoRoom, 0));
    }
    fill(file, blocks, table);
    Ok(blocks)
}

/// Record i of a section.
pub fn record_at(file: &[u8], i: usize) -> Result<Record, Refusal>
    ensures { told result ≡ record_in i (resources file.now) }
{
    let blocks = judge(file)?;
    if blocks <= i {
        return Err(Refusal(Fault::NoRecord, 0));
    }
    Ok(nth(file, i))
}

/// The bytes of the name of record i, a part of the section; none where `record_at` refuses.
pub fn name_at(file: &[u8], i: usize) -> &[u8]
    ensures { result.now ≡ name_of file.now (record_in i (resources file.now)) }
{
    match record_at(file, i) {
        Ok(given) => {
            let from = given.name;
            let end = from + given.letters;
            &file[from..end]
        }
        Err(_) => &file[..0],
    }
}

/// The data of record i, a part of the section; none where `record_at` refuses.
pub fn data_at(file: &[u8], i: usize) -> &[u8]
    ensures { result.now ≡ payload_of file.now (record_in i (resources file.now)) }
{
    match record_at(file, i) {
        Ok(given) => {
            let from = given.payload;
            let end = from + given.size;
            &file[from..end]
        }
        Err(_) => &file[..0],
    }
}

/// The number of the first block with an ID.
pub fn find(file: &[u8], id: u16) -> Result<usize, Refusal>
    ensures { told result ≡ found_in id (resources file.now) }
{
    let blocks = judge(file)?;
    index_of(file, blocks, u32::from(id))
}
