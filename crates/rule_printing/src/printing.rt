// All rules of printing, one after the other, as dfm.rs's `printing` has them.
ghost use Rattle.std.specs.Prelude.{◌≡◌, true, cond, [], ◌+◌, ◌≤◌, ◌<◌};
ghost use Rattle.file_part.specs.Part.{part_of};
ghost use Rattle.solid_faces.specs.Faces.{faces_of, Checked};
ghost use Rattle.scratch.specs.Standing.{Standing};
ghost use Rattle.round_all.specs.Kept.{Rounds};
ghost use Rattle.print_walls.specs.Walls.{print_walls_of};
ghost use Rattle.print_overhang.specs.Overhang.{lean_of_word};
ghost use Rattle.print_overhang.specs.Kept.{Marks};
ghost use Rattle.fault_row.specs.Flaws.{FlawsPut};
ghost use Rattle.print_walls.specs.fault_text.specs.Good.{Good};
ghost use Rattle.rule_printing.specs.Rules.{print_holes, overhangs, hollows, traps_hollows_of};
ghost use Rattle.rule_printing.specs.All.{PrintingPut};
ghost use Rattle.rule_printing.specs.Work.{Ready, RulePut, UprightIs};

use crate::closed::put_not_closed;
use crate::hollows::{put_hollows, traps_hollows};
use crate::overhang::{lean_of, put_overhang};
use crate::small_holes::put_small_holes;
use fault_row::summary::{Found, Summary};
use math::Vec3;
use print_height::heights;
use print_overhang::put_overhangs;
use print_walls::fault_text::job::job_of;
use print_walls::put_print_walls;
use round_all::round::put_rounds;
use round_frame::extent::Extent;
use scratch::regions::Regions;
use solid_ranks::put_ranks;
use wall_pairs::{Counts, order_walls};
use wall_samples::store::put_samples;

// The build direction, and the lowest and the highest of a part along it.
#[derive(Clone, Copy)]
struct Upright {
    up: Vec3,
    heights: Extent,
}

// What a rule is given of a part that stands in the scratch: where, how many faces it has, and how many faults came before.
#[derive(Clone, Copy)]
struct Given {
    at: Regions,
    faces: usize,
    from: usize,
}

fn upright_of(file: &[u8]) -> Upright
    requires { Checked file.now }
    ensures { UprightIs (part_of file.now) result }
{
    let job = job_of(file);
    let print = job.print;
    let along = print.up;
    let up = along.normalized();
    Upright {
        up,
        heights: heights(file, up),
    }
}

// The ranks, the readings by their pairs of faces, and the walls, floors and roofs. How many faults there are then.
fn wall_rule(
    file: &[u8],
    words: &mut [u32],
    reals: &mut [f64],
    cells: &mut [u32],
    numbers: &mut [f64],
    given: Given,
) -> usize
    requires fact_1 { Standing file.now given.at words.old reals.old }
    requires fact_2 { given.faces ≡ faces_of (part_of file.now) }
    requires fact_3 { given.from ≤ 1 }
    ensures { RulePut print_walls_of 4096 file.now given.at given.from words.old words.new reals.old reals.new cells.old cells.new numbers.old numbers.new result }
{
    let at = given.at;
    let n = given.faces;
    let from = given.from;
    put_ranks(file, words, reals, at, n);
    let m = put_samples(file, words, reals, at, n);
    let counts = Counts {
        faces: n,
        readings: m,
    };
    order_walls(file, words, reals, at, counts);
    let counted = print_walls::Given { at, counts, from };
    put_print_walls(file, words, reals, cells, numbers, counted)
}

// The rounds, and the holes that are too small. How many faults there are then.
fn hole_rule(
    file: &[u8],
    words: &mut [u32],
    reals: &mut [f64],
    cells: &mut [u32],
    numbers: &mut [f64],
    given: Given,
) -> usize
    requires fact_1 { Ready file.now given.at words.old reals.old }
    requires fact_2 { given.faces ≡ faces_of (part_of file.now) }
    requires fact_3 { given.from ≤ 4097 }
    ensures fact_1 { RulePut print_holes 1024 file.now given.at given.from words.old words.new reals.old reals.new cells.old cells.new numbers.old numbers.new result }
    ensures fact_2 { Rounds (part_of file.now) given.at words.new reals.new }
{
    let at = given.at;
    let n = given.faces;
    let from = given.from;
    put_rounds(file, words, reals, at, n);
    put_small_holes(file, words, reals, cells, numbers, at, n, from)
}

// What hangs over, where there is a limit; its faces stay marked in the scratch. How many faults there are then.
fn overhang_rule(
    file: &[u8],
    words: &mut [u32],
    reals: &mut [f64],
    cells: &mut [u32],
    numbers: &mut [f64],
    given: Given,
    upright: Upright,
) -> usize
    requires ready_1 { Ready file.now given.at words.old reals.old }
    requires ready_2 { Rounds (part_of file.now) given.at words.old reals.old }
    requires ready_3 { given.faces ≡ faces_of (part_of file.now) }
    requires faces_nonzero_1 { 0 < given.faces }
    requires faces_nonzero_2 { given.from ≤ 5121 }
    requires faces_nonzero_3 { UprightIs (part_of file.now) upright }
    ensures fact_1 { RulePut overhangs 1 file.now given.at given.from words.old words.new reals.old reals.new cells.old cells.new numbers.old numbers.new result }
    ensures fact_2 { ((part_of file.now).job.print.has_overhang ≡ true → Marks (part_of file.now) (lean_of_word (part_of file.now)) given.at words.new) }
{
    let at = given.at;
    let n = given.faces;
    let from = given.from;
    let job = job_of(file);
    let print = job.print;
    if !print.has_overhang {
        return from;
    }
    let up = upright.up;
    let heights = upright.heights;
    let lean = lean_of(file, up, heights, print.overhang);
    let found = put_overhangs(file, words, reals, at, n, lean);
    put_overhang(cells, numbers, from, found)
}

// The hollows, where they trap what the part is made from. How many faults there are then.
fn hollow_rule(
    file: &[u8],
    words: &[u32],
    reals: &[f64],
    cells: &mut [u32],
    numbers: &mut [f64],
    at: Regions,
    from: usize,
) -> usize
    requires fact_1 { Standing file.now at words.now reals.now }
    requires fact_2 { from ≤ 5122 }
    requires fact_3 { (traps_hollows_of (part_of file.now).job.process ≡ true → at.bodies ≡ true) }
    ensures fact_1 { FlawsPut (Good (part_of file.now)) from (cond (traps_hollows_of (part_of file.now).job.process) (hollows (part_of file.now)) []) cells.old cells.new numbers.old numbers.new result }
    ensures fact_2 { result ≤ from + 4096 }
{
    let job = job_of(file);
    let process = job.process;
    if !traps_hollows(process) {
        return from;
    }
    put_hollows(file, words, reals, cells, numbers, at, from)
}

// The faults of printing of a part of n faces, one at least, that stands in the scratch, as rows from 0 on, as many as are lent; and its height.
pub fn printing(
    file: &[u8],
    words: &mut [u32],
    reals: &mut [f64],
    cells: &mut [u32],
    numbers: &mut [f64],
    at: Regions,
    n: usize,
) -> Found
    requires standing_1 { Standing file.now at words.old reals.old }
    requires standing_2 { n ≡ faces_of (part_of file.now) }
    requires standing_3 { 0 < n }
    requires segments_value_1 { at.segments ≡ true }
    requires segments_value_2 { (traps_hollows_of (part_of file.now).job.process ≡ true → at.bodies ≡ true) }
    ensures { PrintingPut file.now at words.old words.new reals.old reals.new cells.old cells.new numbers.old numbers.new result }
{
    let upright = upright_of(file);
    let heights = upright.heights;
    let first = Given {
        at,
        faces: n,
        from: put_not_closed(file, words, reals, cells, numbers, at),
    };
    let walls = wall_rule(file, words, reals, cells, numbers, first);
    let given = Given {
        at,
        faces: n,
        from: walls,
    };
    let holes = hole_rule(file, words, reals, cells, numbers, given);
    let rest = Given {
        at,
        faces: n,
        from: holes,
    };
    let over = overhang_rule(file, words, reals, cells, numbers, rest, upright);
    Found {
        faults: hollow_rule(file, words, reals, cells, numbers, at, over),
        summary: Summary::print(heights.hi - heights.lo),
    }
}
