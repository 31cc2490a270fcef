// ACO swatches that arrive in chunks, cut anywhere.
//
// What is kept between two chunks is a Stream, handed in and back by value, and a lent store of
// STORE bytes for the colours of list 1. A file is a row of items: list 1's heading, its colours,
// list 2's heading, its records, each up to its name's units, and the units. Bytes of an item that
// is not whole yet are carried. An item is read from its bytes alone, by the whole-file reader.
#![tactic(auto)]

ghost use Rattle.std.specs.Prelude.{◌≡◌, ◌+◌, ◌≤◌, ◌<◌, length, true, false};
ghost use Rattle.algebra.specs.Reader.{limit};
ghost use Rattle.algebra.specs.Table.{refused};
ghost use Rattle.aco_chunks.specs.Chunks.{size, item, next, after, kept, chunk, cut, ending, answer};
ghost use Rattle.aco_stream.specs.Answer.{progress, told, told_fed, known, usable, Starts, Feeds, Finishes};
ghost use Rattle.aco_stream.specs.scaffold.Parts.{open_stream, call_number, Known, FeedsIn, FinishesIn};

use aco::LIMIT;
use aco_chunks::Stage;
use aco_items::Flaw;
use aco_judge::Counts;
use fault::Fault;

/// The bytes of a store.
pub const STORE: usize = 40960;

/// What is kept between two chunks.
#[derive(Clone, Copy, Debug, PartialEq, Eq)]
pub struct Stream {
    pub stage: Stage,
    pub total: usize,
    pub got: usize,
    // at most 14 bytes count; sixteen are copied as one
    pub carry: [u8; 16],
    pub ended: bool,
}

// The stage behind an item that began at `from` and gave u.
fn next_of(stage: Stage, from: usize, u: u32) -> Stage
    requires { (from ≤ limit) × (stage ≡ Stage.First → u ≤ 65535) }
    ensures { result ≡ next stage from u }
{
    match stage {
        Stage::First => aco_items::colours_of(u as u16, 0),
        Stage::Colour(count, index) => aco_items::colours_of(count, (index as usize) + 1),
        Stage::Second(count) => aco_items::entries_of(count, 0),
        Stage::Entry(count, index) => Stage::Unit(count, index, (from + 10) as u32, u, false),
        Stage::Unit(count, index, place, left, zero) => aco_items::unit_of(
            count, index, place, left, zero, u,
        ),
        Stage::End(count) => Stage::End(count),
        Stage::Fault(number, place, record, field) => Stage::Fault(number, place, record, field),
    }
}

// A stage's item is whole: the next stage; a colour of list 1 without a fault goes into the store.
fn settle(stage: Stage, store: &mut [u8], bytes: &[u8], from: usize) -> Stage
    requires { (from ≤ limit) × (length bytes.now ≤ 14) }
    ensures { (result ≡ after stage from (item store.old stage bytes.now 0)) × (store.new ≡ kept stage (item store.old stage bytes.now 0) bytes.now store.old) }
{
    match aco_items::item_of(stage, store, bytes) {
        Err(flaw) => Stage::Fault(flaw.fault.number(), from + flaw.place, flaw.rec, flaw.field),
        Ok((u, _)) => {
            aco_items::keep(stage, store, bytes);
            next_of(stage, from, u)
        }
    }
}

// A stream that has not ended.
fn opened(stage: Stage, total: usize, got: usize, carry: [u8; 16]) -> Stream
    ensures { result ≡ open_stream stage total got carry }
{
    Stream {
        stage,
        total,
        got,
        carry,
        ended: false,
    }
}

// Bytes that stay within the limit.
fn feed_within(state: Stream, store: &mut [u8], bytes: &[u8]) -> Stream
    requires { (state.got < size state.stage) × (state.total + length bytes.now ≤ limit) }
    ensures { (progress result store.new ≡ chunk (progress state store.old) bytes.now) × (result.got < size result.stage) × (result.ended ≡ false) × (length store.new ≡ length store.old) }
{
    let start = state.total;
    let end = bytes.len();
    let mut stage = state.stage;
    let mut got = state.got;
    let mut carry = state.carry;
    let mut at: usize = 0;
    // Kept: a turn takes as many bytes as stand whole, which only the item tells.
    while at < end {
        let next = aco_pass::pass(stage, got, start, store, bytes, at);
        stage = next.stage;
        if at < next.at {
            at = next.at;
        } else {
            carry[got] = bytes[at];
            got += 1;
            at += 1;
            if got == aco_items::size_of(stage) {
                let from = (start + at).saturating_sub(got);
                stage = settle(stage, store, &carry[..got], from);
                got = 0;
            }
        }
    }
    opened(stage, start + end, got, carry)
}

// Whether a call may go on: not with a stream that has ended or is none, nor with a store that is too
// short.
fn admit(state: Stream, store: &[u8]) -> Result<(), Fault>
    ensures { told_fed result ≡ call_number state store.now }
{
    if state.ended {
        return Err(Fault::OutOfRange);
    }
    if aco_items::size_of(state.stage) <= state.got {
        return Err(Fault::OutOfRange);
    }
    if store.len() < STORE {
        return Err(Fault::NoRoom);
    }
    Ok(())
}

/// What a start or a chunk is answered: the stream for the next call, or with a fault the stream as it
/// came; a start's has then ended.
#[derive(Clone, Copy, Debug, PartialEq, Eq)]
pub struct Fed {
    pub state: Stream,
    pub answer: Result<(), Fault>,
}

/// The stream before the first chunk; no room, and one that has ended, where the store is too short.
pub fn start(store: &[u8]) -> Fed
    ensures { Starts store.now result.state (told_fed result.answer) }
{
    let mut state = opened(Stage::First, 0, 0, [0u8; 16]);
    if store.len() < STORE {
        state.ended = true;
        return Fed {
            state,
            answer: Err(Fault::NoRoom),
        };
    }
    Fed {
        state,
        answer: Ok(()),
    }
}

// A chunk for a stream that is usable.
fn feed_usable(state: Stream, store: &mut [u8], bytes: &[u8]) -> Stream
    requires { usable state ≡ true }
    ensures { (usable result ≡ true) × (progress result store.new ≡ chunk (progress state store.old) bytes.now) × (length store.new ≡ length store.old) }
{
    let total = state.total;
    if bytes.len() == 0 {
        return state;
    }
    if LIMIT < total {
        let mut over = state;
        over.total = LIMIT + 1;
        return over;
    }
    let room = LIMIT - total;
    let n = room.min(bytes.len());
    let mut next = feed_within(state, store, &bytes[..n]);
    if room < bytes.len() {
        next.total = LIMIT + 1;
        return next;
    }
    next
}

fn feed_in(state: Stream, store: &mut [u8], bytes: &[u8]) -> Fed
    ensures { FeedsIn state store.old bytes.now result.state (told_fed result.answer) store.new }
{
    match admit(state, store) {
        Err(fault) => Fed {
            state,
            answer: Err(fault),
        },
        Ok(_) => Fed {
            state: feed_usable(state, store, bytes),
            answer: Ok(()),
        },
    }
}

/// What the end is answered: what the whole file is found to be, and the stream, which has then ended.
#[derive(Clone, Copy, Debug, PartialEq, Eq)]
pub struct Finished {
    pub state: Stream,
    pub answer: Result<Counts, Flaw>,
}

// What the end of a stream is that was altered.
const ALTERED: Flaw = Flaw {
    fault: Fault::OutOfRange,
    place: 0,
    rec: 0,
    field: 0,
};

// An item that the end cuts.
fn cut_of(stage: Stage, store: &[u8], bytes: &[u8], from: usize) -> Result<Counts, Flaw>
    requires { (from ≤ limit) × (length bytes.now ≤ 14) }
    ensures { told result ≡ known (cut from (item store.now stage bytes.now 0)) }
{
    match aco_items::item_of(stage, store, bytes) {
        Err(flaw) => Err(Flaw {
            fault: flaw.fault,
            place: from + flaw.place,
            rec: flaw.rec,
            field: flaw.field,
        }),
        Ok(_) => Err(ALTERED),
    }
}

// The fault of a number that a file may have; another stands only in an altered stream.
fn fault_of(number: u32) -> Option<Fault>
    ensures { Known result number }
{
    match number {
        1 => Some(Fault::TooLong),
        2 => Some(Fault::Short),
        3 => Some(Fault::WrongTag),
        4 => Some(Fault::Unknown),
        5 => Some(Fault::OutOfRange),
        6 => Some(Fault::LeftOver),
        7 => Some(Fault::ListsDiffer),
        8 => Some(Fault::BadlyClosed),
        _ => None,
    }
}

// What the first fault of a stream is answered.
fn fault_end(number: u32, place: usize, rec: u16, field: u16) -> Result<Counts, Flaw>
    ensures { told result ≡ known (refused number place rec field) }
{
    match fault_of(number) {
        Some(fault) => Err(Flaw {
            fault,
            place,
            rec,
            field,
        }),
        None => Err(ALTERED),
    }
}

fn ending_of(stage: Stage, store: &[u8], bytes: &[u8], from: usize) -> Result<Counts, Flaw>
    requires { (from ≤ limit) × (length bytes.now ≤ 14) }
    ensures { told result ≡ known (ending stage from bytes.now store.now) }
{
    match stage {
        Stage::Second(count) => {
            if bytes.len() == 0 {
                return Ok(Counts {
                    colours: count as usize,
                    lists: 1,
                });
            }
            cut_of(stage, store, bytes, from)
        }
        Stage::Unit(_, _, place, _, _) => Err(Flaw {
            fault: Fault::Short,
            place: (place as usize) + 4,
            rec: 0,
            field: 0,
        }),
        Stage::End(count) => Ok(Counts {
            colours: count as usize,
            lists: 2,
        }),
        Stage::Fault(number, place, rec, field) => fault_end(number, place, rec, field),
        Stage::First => cut_of(stage, store, bytes, from),
        Stage::Colour(_, _) => cut_of(stage, store, bytes, from),
        Stage::Entry(_, _) => cut_of(stage, store, bytes, from),
    }
}

// The end of a stream that is usable.
fn end_of(state: Stream, store: &[u8]) -> Result<Counts, Flaw>
    requires { usable state ≡ true }
    ensures { told result ≡ known (answer (progress state store.now)) }
{
    let total = state.total;
    let got = state.got;
    let carry = state.carry;
    if LIMIT < total {
        return Err(Flaw {
            fault: Fault::TooLong,
            place: 0,
            rec: 0,
            field: 0,
        });
    }
    let from = total.saturating_sub(got);
    ending_of(state.stage, store, &carry[..got], from)
}

fn finish_in(state: Stream, store: &[u8]) -> Finished
    ensures { FinishesIn state store.now result.state (told result.answer) }
{
    match admit(state, store) {
        Err(fault) => Finished {
            state,
            answer: Err(Flaw {
                fault,
                place: 0,
                rec: 0,
                field: 0,
            }),
        },
        Ok(_) => {
            let answer = end_of(state, store);
            let mut last = state;
            last.ended = true;
            Finished {
                state: last,
                answer,
            }
        }
    }
}

/// A chunk. Of the store only its first STORE bytes are lent on.
pub fn feed(state: Stream, store: &mut [u8], bytes: &[u8]) -> Fed
    ensures { Feeds state store.old bytes.now result.state (told_fed result.answer) store.new }
{
    let n = STORE.min(store.len());
    feed_in(state, &mut store[..n], bytes)
}

/// The end: what the whole file is found to be.
pub fn finish(state: Stream, store: &[u8]) -> Finished
    ensures { Finishes state store.now result.state (told result.answer) }
{
    if store.len() < STORE {
        return finish_in(state, store);
    }
    finish_in(state, &store[..STORE])
}
