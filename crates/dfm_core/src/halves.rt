// The two halves of the check. Between them the faults stand as rows, and whoever holds those may pass them on.
ghost use Rattle.std.specs.Prelude.{◌≡◌, length, Ok};
ghost use Rattle.scratch.specs.Refusal.{body_refusal_of};
ghost use Rattle.dfm_core.specs.Work.{refusal_in, faults_in, Finding, Ready, Answered, Ended};
ghost use Rattle.dfm_core.specs.declared.halves.Findings.{Findings};

use crate::answer::keeps_buffers;
use crate::find::{find, stages_of};
use fault_row::row::rows_lent;
use fault_row::summary::Summary;
use list_cells::fill;
use refusal::Refusal;
use report::fault_text::job::job_of;
use report::report::write_report;
use report::report_faces::marks::Listing;
use scratch::body::put_body;
use scratch::regions::Regions;
use scratch::verdict::body_refusal;

// What the first half leaves beside the rows, of a part that is not turned back.
#[derive(Clone, Copy)]
pub struct Findings {
    // How many faults stand as rows.
    pub faults: usize,
    // How many faces the part has.
    pub faces: usize,
    pub summary: Summary,
}

// What is found of a part that none of 1 to 10 turns back.
fn find_part(
    file: &[u8],
    words: &mut [u32],
    reals: &mut [f64],
    cells: &mut [u32],
    numbers: &mut [f64],
    lent: usize,
) -> Result<Findings, Refusal>
    requires { body_refusal_of file.now (length words.old) (length reals.old) ≡ 0 }
    ensures { Finding file.now words.old words.new reals.old reals.new cells.old cells.new numbers.old numbers.new lent result }
{
    let at = Regions::of(file, stages_of(job_of(file).process));
    let faces = put_body(file, words, reals, at);
    let found = find(file, words, reals, cells, numbers, at, faces);
    if rows_lent(cells.len(), numbers.len()).min(lent) < found.faults {
        return Err(Refusal::TooManyFaults);
    }
    Ok(Findings {
        faults: found.faults,
        faces,
        summary: found.summary,
    })
}

// The first half: the part's faults as rows of cells and numbers, or a refusal from 1 to 11, where `lent` rows are lent. What stands in the cells
// does not matter.
pub fn find_faults(
    file: &[u8],
    words: &mut [u32],
    reals: &mut [f64],
    cells: &mut [u32],
    numbers: &mut [f64],
    lent: usize,
) -> Result<Findings, Refusal>
    ensures { Finding file.now words.old words.new reals.old reals.new cells.old cells.new numbers.old numbers.new lent result }
{
    body_refusal(file, words.len(), reals.len())?;
    find_part(file, words, reals, cells, numbers, lent)
}

// How many faults stand as rows: none where the part is turned back.
pub fn fault_count(found: Result<Findings, Refusal>) -> usize
    ensures { result ≡ faults_in found }
{
    match found {
        Ok(found) => found.faults,
        Err(_) => 0,
    }
}

// The report of a part that was found good, or 12; its refusal where it was not.
fn answer_part(
    file: &[u8],
    words: &[u32],
    cells: &[u32],
    numbers: &[f64],
    found: Result<Findings, Refusal>,
    report: &mut [u8],
) -> Result<usize, Refusal>
    requires { (f : Findings) → found ≡ Ok f → Ready file.now words.now cells.now numbers.now f }
    ensures { Answered file.now (refusal_in found) report.old report.new result }
{
    let found = found?;
    let given = Listing {
        at: Regions::of(file, stages_of(job_of(file).process)),
        faces: found.faces,
        faults: found.faults,
    };
    write_report(report, file, words, given, cells, numbers, found.summary)
}

// The second half: the report of the faults that stand in cells and numbers, or a refusal. The scratch is all zero then, where 1 to 10 did not turn the
// part back.
pub fn finish(
    file: &[u8],
    words: &mut [u32],
    reals: &mut [f64],
    cells: &[u32],
    numbers: &[f64],
    found: Result<Findings, Refusal>,
    report: &mut [u8],
) -> Result<usize, Refusal>
    requires { (f : Findings) → found ≡ Ok f → Ready file.now words.old cells.now numbers.now f }
    ensures { Ended file.now words.old words.new reals.old reals.new (refusal_in found) report.old report.new result }
{
    let answer = answer_part(file, words, cells, numbers, found, report);
    if keeps_buffers(answer) {
        return answer;
    }
    fill(words, 0);
    fill(reals, 0.0);
    answer
}
