// The faults of a part by the rules of its job's process.
ghost use Rattle.std.specs.Prelude.{◌≡◌, true};
ghost use Rattle.file_part.specs.Part.{part_of};
ghost use Rattle.solid_faces.specs.Faces.{faces_of};
ghost use Rattle.scratch.specs.Standing.{Standing};
ghost use Rattle.dfm_core.specs.Work.{StagesFor, Asked, MachinedPut, FaultsFound};

use fault_row::summary::{Found, Summary};
use file_job::Process;
use report::fault_text::job::job_of;
use rule_machining::machining::{Body, machining};
use rule_printing::hollows::traps_hollows;
use rule_printing::printing::printing;
use rule_sheet::sheet::sheet_metal;
use scratch::regions::{Regions, Stages};

// What the rules of a process ask for.
pub(crate) fn stages_of(process: Process) -> Stages
    ensures { StagesFor process result }
{
    Stages {
        segments: true,
        bodies: traps_hollows(process),
    }
}

// Machining measures nothing beside its faults.
fn machined(
    file: &[u8],
    words: &mut [u32],
    reals: &mut [f64],
    cells: &mut [u32],
    numbers: &mut [f64],
    at: Regions,
    n: usize,
) -> Found
    requires fact_1 { Standing file.now at words.old reals.old }
    requires fact_2 { n ≡ faces_of (part_of file.now) }
    requires fact_3 { at.segments ≡ true }
    ensures { MachinedPut file.now at words.old words.new reals.old reals.new cells.old cells.new numbers.old numbers.new result }
{
    let body = Body { at, faces: n };
    let faults = machining(file, words, reals, cells, numbers, body);
    Found {
        faults,
        summary: Summary::none(),
    }
}

// The faults of a part of n faces that stands in the scratch, as rows from 0 on, as many as are lent, and what else is found.
// A match, not a table of closures: each process has its own rules, and leaves other things standing.
pub(crate) fn find(
    file: &[u8],
    words: &mut [u32],
    reals: &mut [f64],
    cells: &mut [u32],
    numbers: &mut [f64],
    at: Regions,
    n: usize,
) -> Found
    requires fact_1 { Standing file.now at words.old reals.old }
    requires fact_2 { n ≡ faces_of (part_of file.now) }
    requires fact_3 { Asked (part_of file.now) at }
    ensures { FaultsFound file.now at words.old words.new reals.old reals.new cells.old cells.new numbers.old numbers.new result }
{
    if n == 0 {
        return Found {
            faults: 0,
            summary: Summary::none(),
        };
    }
    match job_of(file).process {
        Process::CncMachining => machined(file, words, reals, cells, numbers, at, n),
        Process::SheetMetal => sheet_metal(file, words, reals, cells, numbers, at, n),
        Process::Fdm | Process::Sla | Process::Sls => {
            printing(file, words, reals, cells, numbers, at, n)
        }
    }
}
