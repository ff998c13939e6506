// `Enclosed hollow`.
ghost use Rattle.std.specs.Prelude.{◌≡◌, true, ◌+◌, ◌≤◌, ◌<◌};
ghost use Rattle.file_part.specs.Part.{part_of};
ghost use Rattle.scratch.specs.Standing.{Standing};
ghost use Rattle.fault_row.specs.Flaws.{FlawsPut};
ghost use Rattle.print_walls.specs.fault_text.specs.Good.{Good};
ghost use Rattle.rule_printing.specs.Rules.{hollows, traps_hollows_of, is_sls};
ghost use Rattle.rule_printing.specs.Work.{HollowPut};

use fault_row::flaw::{Flaw, put_flaw};
use file_job::Process;
use print_walls::fault_text::job::job_of;
use scratch::regions::Regions;

// Whether hollows trap what the part is made from.
#[tactic(auto, unfolding(crate::specs::Rules::traps_hollows_of))]
pub fn traps_hollows(process: Process) -> bool
    ensures { result ≡ traps_hollows_of process }
{
    matches!(process, Process::Sla | Process::Sls)
}

#[tactic(auto, unfolding(crate::specs::Rules::is_sls))]
fn is_sls(process: Process) -> bool
    ensures { result ≡ is_sls process }
{
    matches!(process, Process::Sls)
}

// The row of a hollow, after `from` others: that of the body whose lowest polygon is b, where its volume is negative. How many there are then.
fn put_hollow(
    cells: &mut [u32],
    numbers: &mut [f64],
    from: usize,
    b: usize,
    volume: f64,
    sls: bool,
) -> usize
    requires fact_1 { from < 4294967296 }
    requires fact_2 { b < 4294967296 }
    ensures { HollowPut sls b volume from cells.old cells.new numbers.old numbers.new result }
{
    if !(volume < -1e-9) {
        return from;
    }
    if sls {
        let flaw = Flaw::EnclosedHollowSls(b as u32, -volume);
        return put_flaw(cells, numbers, from, flaw);
    }
    let flaw = Flaw::EnclosedHollowSla(b as u32, -volume);
    put_flaw(cells, numbers, from, flaw)
}

// The hollows of a print whose bodies stand in the scratch, in the order of their lowest polygons, as rows after `from` others. How many faults there are then.
pub fn put_hollows(
    file: &[u8],
    words: &[u32],
    reals: &[f64],
    cells: &mut [u32],
    numbers: &mut [f64],
    at: Regions,
    from: usize,
) -> usize
    requires fact_1 { Standing file.now at words.now reals.now }
    requires fact_2 { from ≤ 65536 }
    requires fact_3 { at.bodies ≡ true }
    ensures fact_1 { FlawsPut (Good (part_of file.now)) from (hollows (part_of file.now)) cells.old cells.new numbers.old numbers.new result }
    ensures fact_2 { result ≤ from + 4096 }
{
    let volumes = at.volumes;
    let job = job_of(file);
    let sls = is_sls(job.process);
    let mut k = from;
    for b in 0..at.polygons {
        k = put_hollow(cells, numbers, k, b, reals[volumes + b], sls);
    }
    k
}
