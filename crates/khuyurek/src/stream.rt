// ACO files in chunks, for C: what is kept between two chunks, in numbers.
ghost use Rattle.std.specs.Prelude.{◌≡◌, ◌<◌};
ghost use Rattle.aco_stream.specs.Answer.{Starts, Feeds, told as toldEnd, told_fed};
ghost use Rattle.khuyurek.specs.Aco.{answer_of};
ghost use Rattle.khuyurek.specs.Stream.{is_set, is_ended, stage_of, stream_of, ended_numbers, finished_of};
ghost use Rattle.khuyurek.specs.scaffold.StreamParts.{flag_of, plain_of};

use crate::AcoAnswer;
use aco_chunks::Stage;
use aco_items::Flaw;
use aco_judge::Counts;
use aco_stream::Stream;
use fault::Fault;

// What is kept between two chunks. `stage` says which item comes next, in the order of Stage; of
// the numbers behind it those count that this stage has.
#[repr(C)]
#[derive(Clone, Copy)]
pub struct AcoStream {
    pub total: usize,
    pub got: usize,
    pub place: usize,
    pub stage: u32,
    pub ended: u32,
    pub number: u32,
    pub at: u32,
    pub left: u32,
    pub zero: u32,
    pub count: u16,
    pub index: u16,
    pub rec: u16,
    pub field: u16,
    pub carry: [u8; 16],
}

// Number 0 is taken, with the stream for the next call; else the refusal, whose place is 0, and
// the stream as it came.
#[repr(C)]
#[derive(Drop)]
pub struct AcoFed {
    pub number: u32,
    pub stream: AcoStream,
}

// What the whole file is found to be, and the stream, which has then ended.
#[repr(C)]
#[derive(Drop)]
pub struct AcoFinished {
    pub answer: AcoAnswer,
    pub stream: AcoStream,
}

// ---- from numbers

fn is_set(n: u32) -> bool
    ensures { result ≡ is_set n }
{
    n != 0
}

// The stage of a number; an unknown one is the first, of a stream that has ended.
fn stage_of(x: AcoStream) -> Stage
    ensures { result ≡ stage_of x }
{
    if x.stage == 0 {
        return Stage::First;
    }
    if x.stage == 1 {
        return Stage::Colour(x.count, x.index);
    }
    if x.stage == 2 {
        return Stage::Second(x.count);
    }
    if x.stage == 3 {
        return Stage::Entry(x.count, x.index);
    }
    if x.stage == 4 {
        return Stage::Unit(x.count, x.index, x.at, x.left, is_set(x.zero));
    }
    if x.stage == 5 {
        return Stage::End(x.count);
    }
    if x.stage == 6 {
        return Stage::Fault(x.number, x.place, x.rec, x.field);
    }
    Stage::First
}

fn is_ended(ended: u32, stage: u32) -> bool
    ensures { result ≡ is_ended ended stage }
{
    if ended == 0 {
        return 6 < stage;
    }
    true
}

fn stream_of(x: AcoStream) -> Stream
    ensures { result ≡ stream_of x }
{
    let carry = x.carry;
    Stream {
        stage: stage_of(x),
        total: x.total,
        got: x.got,
        carry,
        ended: is_ended(x.ended, x.stage),
    }
}

// ---- to numbers

fn flag(set: bool) -> u32
    ensures { result ≡ flag_of set }
{
    if set {
        return 1;
    }
    0
}

// A stage with no more numbers than these; the others are 0.
fn plain(s: Stream, stage: u32, count: u16, index: u16) -> AcoStream
    ensures { result ≡ plain_of s stage count index }
{
    let carry = s.carry;
    AcoStream {
        total: s.total,
        got: s.got,
        place: 0,
        stage,
        ended: flag(s.ended),
        number: 0,
        at: 0,
        left: 0,
        zero: 0,
        count,
        index,
        rec: 0,
        field: 0,
        carry,
    }
}

fn numbers_of(s: Stream) -> AcoStream
    ensures { stream_of result ≡ s }
{
    let stage = s.stage;
    match stage {
        Stage::First => plain(s, 0, 0, 0),
        Stage::Colour(count, index) => plain(s, 1, count, index),
        Stage::Second(count) => plain(s, 2, count, 0),
        Stage::Entry(count, index) => plain(s, 3, count, index),
        Stage::Unit(count, index, at, left, zero) => {
            let mut x = plain(s, 4, count, index);
            x.at = at;
            x.left = left;
            x.zero = flag(zero);
            x
        }
        Stage::End(count) => plain(s, 5, count, 0),
        Stage::Fault(number, place, record, field) => {
            let mut x = plain(s, 6, 0, 0);
            x.number = number;
            x.place = place;
            x.rec = record;
            x.field = field;
            x
        }
    }
}

// ---- the calls

// The number of a call that takes bytes: 0 where it takes them.
fn fed_number(answer: Result<(), Fault>) -> u32
    ensures { result ≡ told_fed answer }
{
    match answer {
        Ok(()) => 0,
        Err(fault) => fault.number(),
    }
}

// The stream before the first chunk; 11, and one that has ended, where the store is too short.
#[unsafe(no_mangle)]
pub extern "C" fn khuyurek_aco_stream_start(store: &[u8]) -> AcoFed
    ensures { Starts store.now (stream_of result.stream) result.number }
{
    let fed = aco_stream::start(store);
    AcoFed {
        number: fed_number(fed.answer),
        stream: numbers_of(fed.state),
    }
}

// A chunk.
#[unsafe(no_mangle)]
pub extern "C" fn khuyurek_aco_stream_feed(
    stream: AcoStream,
    store: &mut [u8],
    chunk: &[u8],
) -> AcoFed
    ensures { (Feeds (stream_of stream) store.old chunk.now (stream_of result.stream) result.number store.new) × (0 < result.number → result.stream ≡ stream) }
{
    let fed = aco_stream::feed(stream_of(stream), store, chunk);
    let number = fed_number(fed.answer);
    if number == 0 {
        return AcoFed {
            number: 0,
            stream: numbers_of(fed.state),
        };
    }
    AcoFed { number, stream }
}

fn exported_end(a: Result<Counts, Flaw>) -> AcoAnswer
    ensures { result ≡ answer_of (toldEnd a) }
{
    match a {
        Ok(counts) => AcoAnswer {
            number: 0,
            place: 0,
            rec: 0,
            field: 0,
            colours: counts.colours,
            lists: counts.lists,
        },
        Err(flaw) => AcoAnswer {
            number: flaw.fault.number(),
            place: flaw.place,
            rec: flaw.rec as usize,
            field: flaw.field as usize,
            colours: 0,
            lists: 0,
        },
    }
}

fn ended_numbers(x: AcoStream) -> AcoStream
    ensures { result ≡ ended_numbers x }
{
    let mut last = x;
    last.ended = 1;
    last
}

// The end: what the whole file is found to be.
#[unsafe(no_mangle)]
pub extern "C" fn khuyurek_aco_stream_finish(stream: AcoStream, store: &[u8]) -> AcoFinished
    ensures { result ≡ finished_of stream store.now }
{
    let before = stream_of(stream);
    let ended = before.ended;
    let finished = aco_stream::finish(before, store);
    let left = finished.state;
    let last = left.ended;
    let found = finished.answer;
    let answer = exported_end(found);
    if ended {
        return AcoFinished { answer, stream };
    }
    if last {
        return AcoFinished {
            answer,
            stream: ended_numbers(stream),
        };
    }
    AcoFinished { answer, stream }
}
