// Holes and inside corners: `Small hole`, `Deep hole`, `Tight inside radius`, `Deep inside corner`.
ghost use Rattle.std.specs.Prelude.{◌+◌, ◌*◌, ◌≤◌, ◌<◌};
ghost use Rattle.file_part.specs.Part.{part_of};
ghost use Rattle.solid_faces.specs.Faces.{faces_of};
ghost use Rattle.scratch.specs.Standing.{Standing};
ghost use Rattle.round_all.specs.Kept.{Rounds};
ghost use Rattle.wall_pairs.specs.Work.{Counted};
ghost use Rattle.fault_row.specs.Flaws.{FlawsPut};
ghost use Rattle.rule_corners.specs.fault_text.specs.Good.{Good};
ghost use Rattle.rule_machining.specs.Machining.{small_holes, deep_holes, tight_radii, deep_corners, hole_flaws, inside_flaws, round_flaws, rounds_flaws};
ghost use Rattle.rule_machining.specs.Work.{RoundPut};

use crate::Given;
use fault_row::flaw::{Flaw, put_flaw};
use round_all::round::{Round, round_at};
use rule_corners::fault_text::machining::{MIN_DRILL, MIN_MILL_RADIUS};

// How many diameters deep a standard drill or end mill reaches.
const STANDARD_REACH: f64 = 4.0;

// Beyond this many diameters, special tooling (gun drills, long reach mills).
const MAX_REACH: f64 = 10.0;

// A hole below the smallest common drill.
// Each process has its own: the tests differ, and the flaws have other fields.
fn put_small_hole(cells: &mut [u32], numbers: &mut [f64], from: usize, round: Round) -> usize
    requires fact_1 { from < 4294967296 }
    requires fact_2 { round.face < 4294967296 }
    ensures { RoundPut small_holes 1 round from cells.old cells.new numbers.old numbers.new result }
{
    let d = 2.0 * round.radius;
    if d < MIN_DRILL {
        let flaw = Flaw::SmallHole(round.face as u32, d);
        return put_flaw(cells, numbers, from, flaw);
    }
    from
}

// A hole that is deep for its diameter.
fn put_deep_hole(cells: &mut [u32], numbers: &mut [f64], from: usize, round: Round) -> usize
    requires fact_1 { from < 4294967296 }
    requires fact_2 { round.face < 4294967296 }
    ensures { RoundPut deep_holes 1 round from cells.old cells.new numbers.old numbers.new result }
{
    let d = 2.0 * round.radius;
    let ratio = round.length / d;
    if ratio > MAX_REACH {
        let flaw = Flaw::DeepHoleMax(round.face as u32, ratio, d, round.length);
        return put_flaw(cells, numbers, from, flaw);
    }
    if ratio > STANDARD_REACH {
        let flaw = Flaw::DeepHoleStandard(round.face as u32, ratio);
        return put_flaw(cells, numbers, from, flaw);
    }
    from
}

// An inside corner below the smallest radius that a common end mill leaves.
fn put_tight_radius(cells: &mut [u32], numbers: &mut [f64], from: usize, round: Round) -> usize
    requires fact_1 { from < 4294967296 }
    requires fact_2 { round.face < 4294967296 }
    ensures { RoundPut tight_radii 1 round from cells.old cells.new numbers.old numbers.new result }
{
    if round.radius < MIN_MILL_RADIUS {
        let flaw = Flaw::TightInsideRadius(round.face as u32, round.radius);
        return put_flaw(cells, numbers, from, flaw);
    }
    from
}

// An inside corner that is deep for the tool that cuts it, which is no larger than its radius.
fn put_deep_corner(cells: &mut [u32], numbers: &mut [f64], from: usize, round: Round) -> usize
    requires fact_1 { from < 4294967296 }
    requires fact_2 { round.face < 4294967296 }
    ensures { RoundPut deep_corners 1 round from cells.old cells.new numbers.old numbers.new result }
{
    let ratio = round.length / (2.0 * round.radius);
    if ratio > STANDARD_REACH {
        let flaw = Flaw::DeepInsideCorner(round.face as u32, ratio, round.radius, round.length);
        return put_flaw(cells, numbers, from, flaw);
    }
    from
}

// Beside put_inside: one function for both would take two closures with contracts over lent cells, longer than the two.
fn put_hole(cells: &mut [u32], numbers: &mut [f64], from: usize, round: Round) -> usize
    requires fact_1 { from + 1 < 4294967296 }
    requires fact_2 { round.face < 4294967296 }
    ensures { RoundPut hole_flaws 2 round from cells.old cells.new numbers.old numbers.new result }
{
    let next = put_small_hole(cells, numbers, from, round);
    put_deep_hole(cells, numbers, next, round)
}

fn put_inside(cells: &mut [u32], numbers: &mut [f64], from: usize, round: Round) -> usize
    requires fact_1 { from + 1 < 4294967296 }
    requires fact_2 { round.face < 4294967296 }
    ensures { RoundPut inside_flaws 2 round from cells.old cells.new numbers.old numbers.new result }
{
    let next = put_tight_radius(cells, numbers, from, round);
    put_deep_corner(cells, numbers, next, round)
}

fn put_round(cells: &mut [u32], numbers: &mut [f64], from: usize, round: Round) -> usize
    requires fact_1 { from + 1 < 4294967296 }
    requires fact_2 { round.face < 4294967296 }
    ensures { RoundPut round_flaws 2 round from cells.old cells.new numbers.old numbers.new result }
{
    if !round.concave {
        return from;
    }
    if round.hole {
        return put_hole(cells, numbers, from, round);
    }
    put_inside(cells, numbers, from, round)
}

// The faults of a part's rounds, which stand in the scratch. How many faults there are then.
pub fn put_round_faults(
    file: &[u8],
    words: &[u32],
    reals: &[f64],
    cells: &mut [u32],
    numbers: &mut [f64],
    given: Given,
) -> usize
    requires standing_1 { Standing file.now given.at words.now reals.now }
    requires standing_2 { Rounds (part_of file.now) given.at words.now reals.now }
    requires counted_1 { Counted (part_of file.now) given.counts }
    requires counted_2 { given.from ≤ 65536 }
    ensures fact_1 { FlawsPut (Good (part_of file.now)) given.from (rounds_flaws (part_of file.now)) cells.old cells.new numbers.old numbers.new result }
    ensures fact_2 { result ≤ given.from + 2 * faces_of (part_of file.now) }
{
    let at = given.at;
    let kinds = at.kinds;
    let mut k = given.from;
    for face in 0..given.counts.faces {
        if words[kinds + face] == 0 {
            continue;
        }
        k = put_round(cells, numbers, k, round_at(file, words, reals, at, face));
    }
    k
}
