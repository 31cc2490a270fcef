// A season's report: exact totals over files, a file a call.
#![tactic(auto)]

ghost use Rattle.std.specs.Prelude.{◌≡◌, true, map, ◌+◌, ◌<◌, ◌^◌, length, get_or};
ghost use Rattle.acb.specs.Reading.{acb};
ghost use Rattle.acb_read.specs.Walked.{walked};
ghost use Rattle.descriptor.specs.Reading.{descriptor};
ghost use Rattle.fault.specs.Fault.{number_of};
ghost use Rattle.palette.specs.Palette.{colours};
ghost use Rattle.palette.specs.scaffold.Turn.{colours_in};
ghost use Rattle.palette.specs.declared.View.TheVariants.{Samples, Channels as ChannelBits};
ghost use Rattle.report.specs.Report.{many, one, plus, sum, book_place, palette_totals, book_totals, row_totals, report_of, file_report, fits, merged, added};
ghost use Rattle.report.specs.Answer.{told_added, told_merged};
ghost use Rattle.report.specs.scaffold.Parts.{told_totals, refused_report, rejected_report, Low, tag_place, units_place, book_row, row_of};

use aco_judge::Rejection;
use colour::Model;
use fault::{Fault, Refusal};
use palette::{View, first_at, step_at, view_of};

#[derive(Clone, Copy)]
pub enum Kind {
    Aco,
    Ase,
    Acb,
    Descriptor,
}

// 0 accepted; 1 to 14 refused by that number; 15 to 19 ACO colours of space 0, 1, 2, 7, 8; 20 to 23
// ASE colours RGB, CMYK, LAB, Gray; 24 to 26 ACB colours of space 0, 2, 7; 27 named; 28 unnamed; 29
// dummies; 30 descriptor rows.
#[derive(Clone, Copy)]
pub struct Report {
    pub totals: [u32; 31],
}

/// What a file was found to be, and the report with it; where a total would pass the bound, a fault,
/// and the report as it was.
#[derive(Clone, Copy)]
pub struct Added {
    pub file: Result<(), Refusal>,
    pub answer: Result<(), Fault>,
    pub report: Report,
}

/// The sum; where a total would pass the bound, a fault and the first report.
#[derive(Clone, Copy)]
pub struct Merged {
    pub answer: Result<(), Fault>,
    pub report: Report,
}

// What one file was found to be, and its totals.
#[derive(Clone, Copy)]
struct FileTotals {
    file: Result<(), Refusal>,
    totals: [u32; 31],
}

const TOTALS: usize = 31;

const MOST: u32 = 4294967295;

const NAMED: usize = 27;

const UNNAMED: usize = 28;

const DUMMIES: usize = 29;

const ROWS: usize = 30;

// ---- one total

// Adds n to total k; there is none past the last.
fn tally(totals: &mut [u32], k: usize, n: u32)
    requires { (length totals.old ≡ 31) × (get_or totals.old k 0 + n < 2 ^ 32) }
    ensures { totals.new ≡ plus totals.old (many k n) }
{
    if TOTALS <= k {
        return;
    }
    totals[k] += n;
}

fn aco_place(space: u32) -> usize
    ensures { result ≡ tag_place Samples space }
{
    match space {
        0 => 15,
        1 => 16,
        2 => 17,
        7 => 18,
        _ => 19,
    }
}

fn ase_place(tag: u32) -> usize
    ensures { result ≡ tag_place ChannelBits tag }
{
    if tag == Model::RGB.tag {
        return 20;
    }
    if tag == Model::CMYK.tag {
        return 21;
    }
    if tag == Model::LAB.tag {
        return 22;
    }
    23
}

fn tag_place(view: View, tag: u32) -> usize
    ensures { result ≡ tag_place view tag }
{
    match view {
        View::Samples => aco_place(tag),
        View::Counterparts => aco_place(tag),
        View::Channels => ase_place(tag),
    }
}

fn units_place(units: u32) -> usize
    ensures { result ≡ units_place units }
{
    if units == 0 {
        return UNNAMED;
    }
    NAMED
}

fn book_place(space: u16) -> usize
    ensures { result ≡ book_place space }
{
    match space {
        colour::RGB => 24,
        colour::CMYK => 25,
        _ => 26,
    }
}

// ---- one record

// One more in two totals.
fn tally_two(totals: &mut [u32], a: usize, b: usize)
    requires { Low totals.old 4294967293 }
    ensures { totals.new ≡ plus totals.old (plus (one a) (one b)) }
{
    tally(totals, a, 1);
    tally(totals, b, 1);
}

// A record of a book: a dummy and nothing else, or a named colour of the space's total.
fn tally_record(totals: &mut [u32], space: u16, units: u32)
    requires { Low totals.old 4294967293 }
    ensures { totals.new ≡ plus totals.old (book_row space units) }
{
    if units == 0 {
        tally(totals, DUMMIES, 1);
        return;
    }
    tally_two(totals, book_place(space), NAMED);
}

// ---- one file

// Counts the n colours of an accepted palette, by a step over each of them.
fn count_colours(kind: palette::Kind, file: &[u8], n: usize, totals: &mut [u32])
    requires { (n ≡ length (colours_in kind file.now)) × Low totals.old 1 }
    ensures { totals.new ≡ plus totals.old (palette_totals (colours_in kind file.now)) }
{
    let view = view_of(kind, kind);
    let mut p = first_at(kind, file);
    for _i in 0..n {
        let x = step_at(view, file, p);
        let place = tag_place(view, x.numbers.tag);
        tally_two(totals, place, units_place(x.units));
        p = x.next;
    }
}

// Counts n records of a book from `first` on.
fn count_records(space: u16, file: &[u8], first: usize, n: usize, totals: &mut [u32])
    requires { (n < 65536) × Low totals.old 1 }
    ensures { totals.new ≡ plus totals.old (sum (map (row_of space) (walked space file.now first n))) }
{
    let mut p = first;
    for _i in 0..n {
        let (units, next) = acb_read::units_at(file, p, space);
        tally_record(totals, space, units);
        p = next;
    }
}

// A refused file: one in its own number, and nothing else.
fn refused(refusal: Refusal) -> FileTotals
    ensures { told_totals result ≡ refused_report (number_of refusal.0) refusal.1 }
{
    let Refusal(fault, _) = refusal;
    let mut totals = [0u32; 31];
    tally(&mut totals, fault.number() as usize, 1);
    FileTotals {
        file: Err(refusal),
        totals,
    }
}

// The same of a palette: of two lists that differ the place is counted, and no record.
fn rejected(rejection: Rejection) -> FileTotals
    ensures { told_totals result ≡ rejected_report rejection }
{
    match rejection {
        Rejection::Refused(refusal) => refused(refusal),
        Rejection::Differ {
            place,
            record: _,
            field: _,
        } => refused(Refusal(Fault::ListsDiffer, place)),
    }
}

fn palette_totals(kind: palette::Kind, file: &[u8]) -> FileTotals
    ensures { told_totals result ≡ report_of palette_totals (colours kind file.now) }
{
    match palette::judge(kind, file) {
        Err(rejection) => rejected(rejection),
        Ok(colours) => {
            let mut totals = [0u32; 31];
            tally(&mut totals, 0, 1);
            count_colours(kind, file, colours, &mut totals);
            FileTotals {
                file: Ok(()),
                totals,
            }
        }
    }
}

fn book_totals(file: &[u8]) -> FileTotals
    ensures { told_totals result ≡ report_of book_totals (acb file.now) }
{
    match acb_judge::judge(file) {
        Err(refusal) => refused(refusal),
        Ok(book) => {
            let mut totals = [0u32; 31];
            tally(&mut totals, 0, 1);
            count_records(book.header.space, file, book.first, book.count, &mut totals);
            FileTotals {
                file: Ok(()),
                totals,
            }
        }
    }
}

fn descriptor_totals(file: &[u8]) -> FileTotals
    ensures { told_totals result ≡ report_of row_totals (descriptor file.now) }
{
    match descriptor_judge::judge(file) {
        Err(refusal) => refused(refusal),
        Ok(rows) => {
            let mut totals = [0u32; 31];
            tally(&mut totals, 0, 1);
            tally(&mut totals, ROWS, rows as u32);
            FileTotals {
                file: Ok(()),
                totals,
            }
        }
    }
}

fn file_totals(kind: Kind, file: &[u8]) -> FileTotals
    ensures { told_totals result ≡ file_report kind file.now }
{
    match kind {
        Kind::Aco => palette_totals(palette::Kind::Aco, file),
        Kind::Ase => palette_totals(palette::Kind::Ase, file),
        Kind::Acb => book_totals(file),
        Kind::Descriptor => descriptor_totals(file),
    }
}

// ---- two reports

// Whether no total would pass the bound. All are looked at before one is added.
fn all_fit(totals: &[u32], more: &[u32]) -> bool
    requires { (length totals.now ≡ 31) × (length more.now ≡ 31) }
    ensures { result ≡ fits (plus totals.now more.now) }
{
    for i in 0..TOTALS {
        if MOST - totals[i] < more[i] {
            return false;
        }
    }
    true
}

fn add_all(totals: &mut [u32], more: &[u32])
    requires { (length totals.old ≡ 31) × (length more.now ≡ 31) × (fits (plus totals.old more.now) ≡ true) }
    ensures { totals.new ≡ plus totals.old more.now }
{
    for i in 0..TOTALS {
        totals[i] += more[i];
    }
}

fn sum_of(first: [u32; 31], second: [u32; 31]) -> Merged
    ensures { told_merged result ≡ merged first second }
{
    if !all_fit(&first, &second) {
        return Merged {
            answer: Err(Fault::OutOfRange),
            report: Report { totals: first },
        };
    }
    let mut totals = first;
    add_all(&mut totals, &second);
    Merged {
        answer: Ok(()),
        report: Report { totals },
    }
}

/// Adds a file's report. Where a total would pass the bound, the report is handed back as it was.
pub fn add(report: Report, kind: Kind, file: &[u8]) -> Added
    ensures { told_added result ≡ added report.totals (file_report kind file.now) }
{
    let found = file_totals(kind, file);
    let Merged { answer, report } = sum_of(report.totals, found.totals);
    Added {
        file: found.file,
        answer,
        report,
    }
}

/// The sum of two reports; where a total would pass the bound, the first is handed back.
pub fn merge(first: Report, second: Report) -> Merged
    ensures { told_merged result ≡ merged first.totals second.totals }
{
    sum_of(first.totals, second.totals)
}
