// `Small hole` of a print.
ghost use Rattle.std.specs.Prelude.{◌≡◌, ◌+◌, ◌≤◌, ◌<◌};
ghost use Rattle.file_part.specs.Part.{part_of};
ghost use Rattle.solid_faces.specs.Faces.{faces_of};
ghost use Rattle.scratch.specs.Standing.{Standing};
ghost use Rattle.round_all.specs.Kept.{Rounds};
ghost use Rattle.fault_row.specs.Flaws.{FlawsPut};
ghost use Rattle.print_walls.specs.fault_text.specs.Good.{Good};
ghost use Rattle.rule_printing.specs.Rules.{print_holes};
ghost use Rattle.rule_printing.specs.Work.{HolePut};

use fault_row::flaw::{Flaw, put_flaw};
use print_walls::fault_text::job::job_of;
use round_all::round::{Round, round_at};
use scratch::regions::Regions;

// The row of a hole that is too small, after `from` others. How many there are then.
fn put_small_hole(
    cells: &mut [u32],
    numbers: &mut [f64],
    from: usize,
    hole: Round,
    least: f64,
) -> usize
    requires fact_1 { from < 4294967296 }
    requires fact_2 { hole.face < 4294967296 }
    ensures { HolePut hole least from cells.old cells.new numbers.old numbers.new result }
{
    let d = 2.0 * hole.radius;
    if d + 1e-9 < least {
        let flaw = Flaw::PrintSmallHole(hole.face as u32, d);
        return put_flaw(cells, numbers, from, flaw);
    }
    from
}

// The small holes of a print of n faces, as rows after `from` others. How many faults there are then.
pub fn put_small_holes(
    file: &[u8],
    words: &[u32],
    reals: &[f64],
    cells: &mut [u32],
    numbers: &mut [f64],
    at: Regions,
    n: usize,
    from: usize,
) -> usize
    requires fact_1 { Standing file.now at words.now reals.now }
    requires fact_2 { Rounds (part_of file.now) at words.now reals.now }
    requires fact_3 { n ≡ faces_of (part_of file.now) }
    requires fact_4 { from ≤ 65536 }
    ensures fact_1 { FlawsPut (Good (part_of file.now)) from (print_holes (part_of file.now)) cells.old cells.new numbers.old numbers.new result }
    ensures fact_2 { result ≤ from + 1024 }
{
    let kinds = at.kinds;
    let job = job_of(file);
    let print = job.print;
    let least = print.min_hole;
    let mut k = from;
    for face in 0..n {
        if words[kinds + face] != 3 {
            continue;
        }
        let hole = round_at(file, words, reals, at, face);
        k = put_small_hole(cells, numbers, k, hole, least);
    }
    k
}
