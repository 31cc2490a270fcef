// Image resource blocks: the records of a run of numbers, judged as a section made of them would be.
#![tactic(auto)]

ghost use Rattle.std.specs.Prelude.{◌≡◌, [], ◌+◌, ◌*◌, ◌%◌, ◌≤◌, ◌<◌, leb, length};
ghost use Rattle.algebra.specs.Reader.{pick, limit};
ghost use Rattle.algebra.specs.Table.{row_at};
ghost use Rattle.algebra.specs.Faults.{faults};
ghost use Rattle.algebra.specs.Writing.{bytes, refused};
ghost use Rattle.fault.specs.Answer.{told_written};
ghost use Rattle.resource.specs.Rows.{width, taken};
ghost use Rattle.resource.specs.Tiling.{even};
ghost use Rattle.resource_writing.specs.Writing.{given, size_within, sizes, part_fault, record_fault, needed};
ghost use Rattle.resource_write_judge.specs.scaffold.Writing.{givens};
ghost use Rattle.resource_write_judge.specs.Parts.{record_in};
ghost use Rattle.resource_write_judge.specs.scaffold.Parts.{Counted, told_judged};

use fault::Fault;
use resource::{LIMIT, Record, WIDTH};

// Record k of a run that has it; no other function takes one out of a run.
fn whole_at(run: &[u32], k: usize) -> Record
    requires { width * k + width ≤ length run.now }
    ensures { (result ≡ taken (row_at width run.now k)) × Counted result }
{
    let at = WIDTH * k;
    Record {
        id: run[at],
        name: run[at + 1] as usize,
        letters: run[at + 2] as usize,
        payload: run[at + 3] as usize,
        size: run[at + 4] as usize,
    }
}

// What a run gives for a record that it does not have whole.
const NO_RECORD: Record = Record {
    id: 0,
    name: 0,
    letters: 0,
    payload: 0,
    size: 0,
};

/// Record k of a run, all zeros where the run does not have it whole.
pub fn record_at(run: &[u32], k: usize) -> Record
    ensures { result ≡ record_in run.now k }
{
    if run.len() / WIDTH <= k {
        return NO_RECORD;
    }
    whole_at(run, k)
}

// ---- how long the section is

fn even_of(n: usize) -> usize
    requires { n ≤ 4294967296 }
    ensures { result ≡ even n }
{
    n + n % 2
}

// How many bytes a record takes.
fn size_in(given: Record) -> usize
    requires { Counted given }
    ensures { result ≡ size_within given }
{
    6 + even_of(1 + given.letters) + 4 + even_of(given.size)
}

// How many bytes the n records take. It stops at the limit, so that no sum passes 64 bits.
fn size_of(run: &[u32], n: usize) -> Result<usize, Fault>
    requires { width * n ≤ length run.now }
    ensures { told_written result ≡ pick (leb (sizes (givens run.now n 0)) limit) (bytes (sizes (givens run.now n 0))) (refused 1 0) }
{
    let mut total: usize = 0;
    for i in 0..n {
        total += size_in(whole_at(run, i));
        if LIMIT < total {
            return Err(Fault::TooLong);
        }
    }
    Ok(total)
}

// ---- judging

// A name or data.
fn judge_part(text: &[u8], first: usize, n: usize) -> Result<(), Fault>
    ensures { told_judged result ≡ part_fault text.now first n }
{
    match fields::run_at(text, first, n) {
        Ok(_) => Ok(()),
        Err(refusal) => Err(refusal.0),
    }
}

// A record.
fn judge_record(text: &[u8], given: Record) -> Result<(), Fault>
    ensures { told_judged result ≡ record_fault text.now given }
{
    if 65535 < given.id {
        return Err(Fault::OutOfRange);
    }
    if 255 < given.letters {
        return Err(Fault::OutOfRange);
    }
    judge_part(text, given.name, given.letters)?;
    judge_part(text, given.payload, given.size)
}

// The n records, up to the first with a fault.
fn judge_records(run: &[u32], text: &[u8], n: usize) -> Result<(), Fault>
    requires { width * n ≤ length run.now }
    ensures { told_judged result ≡ faults (record_fault text.now) (givens run.now n 0) }
{
    for i in 0..n {
        judge_record(text, whole_at(run, i))?;
    }
    Ok(())
}

/// The exact length that writing needs, or the refusal.
pub fn write_length(records: &[u32], text: &[u8]) -> Result<usize, Fault>
    ensures { told_written result ≡ needed text.now (given records.now) }
{
    let n = records.len() / WIDTH;
    let size = size_of(records, n)?;
    judge_records(records, text, n)?;
    Ok(size)
}
