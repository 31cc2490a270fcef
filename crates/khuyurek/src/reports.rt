// A season's report, for C.
ghost use Rattle.std.specs.Prelude.{◌≡◌};
ghost use Rattle.report.specs.Answer.{told_answer, told_added, told_merged};
ghost use Rattle.report.specs.Report.{merged};
ghost use Rattle.khuyurek.specs.Reports.{report_kind, reported_of, reported_by, merged_of};

use fault::{Fault, Refusal};
use report::{Added, Kind, Merged, Report};

// The totals of a report, in the order of `report::Report`.
#[repr(C)]
#[derive(Drop)]
pub struct SeasonReport {
    pub totals: [u32; 31],
}

// The report's own number, the file's number and place, and the new totals, or those given where the
// number is not 0.
#[repr(C)]
#[derive(Drop)]
pub struct Reported {
    pub number: u32,
    pub file_number: u32,
    pub file_place: usize,
    pub report: SeasonReport,
}

// Number 0 and the sum, or the refusal and the first report.
#[repr(C)]
#[derive(Drop)]
pub struct MergedReport {
    pub number: u32,
    pub report: SeasonReport,
}

// The kind of file that a number says.
fn report_kind(number: u32) -> Option<Kind>
    ensures { result ≡ report_kind number }
{
    match number {
        0 => Some(Kind::Aco),
        1 => Some(Kind::Ase),
        2 => Some(Kind::Acb),
        3 => Some(Kind::Descriptor),
        _ => None,
    }
}

// The number of a call that hands back a report.
fn answer_number(answer: Result<(), Fault>) -> u32
    ensures { result ≡ told_answer answer }
{
    match answer {
        Ok(()) => 0,
        Err(fault) => fault.number(),
    }
}

fn exported_report(a: Added) -> Reported
    ensures { result ≡ reported_of (told_added a) }
{
    let number = answer_number(a.answer);
    let totals = a.report.totals;
    let report = SeasonReport { totals };
    match a.file {
        Ok(()) => Reported {
            number,
            file_number: 0,
            file_place: 0,
            report,
        },
        Err(Refusal(fault, place)) => Reported {
            number,
            file_number: fault.number(),
            file_place: place,
            report,
        },
    }
}

// Adds the report of a file of the kind that a number says.
#[unsafe(no_mangle)]
pub extern "C" fn khuyurek_report_add(report: SeasonReport, kind: u32, file: &[u8]) -> Reported
    ensures { result ≡ reported_by (report_kind kind) report.totals file.now }
{
    match report_kind(kind) {
        None => Reported {
            number: 4,
            file_number: 0,
            file_place: 0,
            report,
        },
        Some(known) => {
            let totals = report.totals;
            exported_report(report::add(Report { totals }, known, file))
        }
    }
}

fn exported_merge(m: Merged) -> MergedReport
    ensures { result ≡ merged_of (told_merged m) }
{
    let number = answer_number(m.answer);
    let totals = m.report.totals;
    MergedReport {
        number,
        report: SeasonReport { totals },
    }
}

// The sum of two reports.
#[unsafe(no_mangle)]
pub extern "C" fn khuyurek_report_merge(first: SeasonReport, second: SeasonReport) -> MergedReport
    ensures { result ≡ merged_of (merged first.totals second.totals) }
{
    let one = first.totals;
    let other = second.totals;
    exported_merge(report::merge(Report { totals: one }, Report { totals: other }))
}
