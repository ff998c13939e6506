// The whole report.
ghost use Rattle.std.specs.Prelude.{◌≡◌, ◌+◌, ◌*◌, ◌≤◌, length};
ghost use Rattle.num_text.specs.Put.{Put};
ghost use Rattle.file_part.specs.Part.{part_of};
ghost use Rattle.fault_lines.specs.Lines.{lines_of};
ghost use Rattle.report_faces.specs.fault_merge.specs.Work.{faults_to};
ghost use Rattle.report_faces.specs.Work.{Kept, Ready};
ghost use Rattle.report.specs.Text.{report_text};
ghost use Rattle.report.specs.Report.{Reported};
ghost use Rattle.report.specs.Work.{leads_of};

use crate::head::put_head;
use crate::line::put_lines;
use crate::order::put_leads;
use fault_row::summary::Summary;
use num_text::text::Text;
use refusal::Refusal;
use report_faces::fault_merge::merge::merge;
use report_faces::links::put_links;
use report_faces::marks::Listing;

// The report of faults whose lines are known, from the start of `out` on.
fn put_report(
    out: &mut [u8],
    file: &[u8],
    words: &[u32],
    given: Listing,
    work: &[u32],
    order: &[u32],
    cells: &[u32],
    numbers: &[f64],
    summary: Summary,
) -> usize
    requires fact_1 { Ready file.now words.now given work.now cells.now numbers.now }
    requires fact_2 { order.now ≡ leads_of (faults_to (part_of file.now) cells.now numbers.now given.faults) }
    ensures { Put out.old 0 (report_text summary (lines_of (faults_to (part_of file.now) cells.now numbers.now given.faults))) out.new result }
{
    let mut marks = [0u32; 1024];
    let mut text = Text { out, at: 0 };
    put_head(&mut text, order.len(), summary);
    put_lines(
        &mut text, &mut marks, file, words, given, work, order, cells, numbers,
    );
    text.at
}

// The report of a part whose faults stand as rows: measured first, and written if it fits. How many bytes it has. The work slice has four cells for each fault, and then one
// for each polygon; `order` has one for each fault.
fn write_with(
    work: &mut [u32],
    order: &mut [u32],
    report: &mut [u8],
    file: &[u8],
    words: &[u32],
    given: Listing,
    cells: &[u32],
    numbers: &[f64],
    summary: Summary,
) -> Result<usize, Refusal>
    requires fact_1 { Kept file.now words.now given cells.now numbers.now }
    requires fact_2 { 4 * given.faults + given.at.polygons ≤ length work.old }
    requires fact_3 { given.faults ≤ length order.old }
    ensures { Reported (report_text summary (lines_of (faults_to (part_of file.now) cells.now numbers.now given.faults))) report.old report.new result }
{
    merge(work, file, cells, numbers, given.faults);
    put_links(work, 4 * given.faults, words, given.at);
    let lines = put_leads(order, file, work, cells, numbers, given.faults);
    let start: usize = 0;
    let mut none = [0u8; 0];
    let length = put_report(
        &mut none,
        file,
        words,
        given,
        work,
        &order[start..lines],
        cells,
        numbers,
        summary,
    );
    if report.len() < length {
        return Err(Refusal::ReportTooLong);
    }
    put_report(
        report,
        file,
        words,
        given,
        work,
        &order[start..lines],
        cells,
        numbers,
        summary,
    );
    Ok(length)
}

// The report of a part whose faults stand as rows: how many bytes it has, or 12. A small part is spared the cells of a large one.
pub fn write_report(
    report: &mut [u8],
    file: &[u8],
    words: &[u32],
    given: Listing,
    cells: &[u32],
    numbers: &[f64],
    summary: Summary,
) -> Result<usize, Refusal>
    requires { Kept file.now words.now given cells.now numbers.now }
    ensures { Reported (report_text summary (lines_of (faults_to (part_of file.now) cells.now numbers.now given.faults))) report.old report.new result }
{
    let need = 4 * given.faults + given.at.polygons;
    if need <= 256 {
        let mut work = [0u32; 256];
        let mut order = [0u32; 64];
        return write_with(
            &mut work, &mut order, report, file, words, given, cells, numbers, summary,
        );
    }
    let mut work = [0u32; 12_288];
    let mut order = [0u32; 2048];
    write_with(
        &mut work, &mut order, report, file, words, given, cells, numbers, summary,
    )
}
