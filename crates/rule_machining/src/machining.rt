// All rules of machining, one after the other, as dfm.rs's `machining` has them.
ghost use Rattle.std.specs.Prelude.{◌≡◌, true, ◌+◌, ◌*◌, ◌≤◌};
ghost use Rattle.file_part.specs.Part.{part_of};
ghost use Rattle.solid_faces.specs.Faces.{faces_of};
ghost use Rattle.scratch.specs.Standing.{Standing};
ghost use Rattle.wall_pairs.specs.Work.{Counted};
ghost use Rattle.rule_corners.specs.Sharp.{sharp_corners};
ghost use Rattle.rule_machining.specs.All.{MachiningPut};
ghost use Rattle.rule_machining.specs.Machining.{rounds_flaws};
ghost use Rattle.rule_machining.specs.Work.{Ready, RulePut, WallsFound};

use crate::Given;
use crate::rounds::put_round_faults;
use crate::walls::put_thin_walls;
use round_all::round::put_rounds;
use rule_corners::corner::order_corners;
use rule_corners::sharp::put_sharp_corners;
use scratch::regions::Regions;
use solid_ranks::put_ranks;
use wall_pairs::{Counts, order_walls};
use wall_samples::store::put_samples;

// A part that stands in the scratch: where, and how many faces it has.
#[derive(Clone, Copy)]
pub struct Body {
    pub at: Regions,
    pub faces: usize,
}

// How many readings a part has, and how many faults its walls.
#[derive(Clone, Copy)]
struct WallCounts {
    readings: usize,
    faults: usize,
}

// The readings, by their pairs of faces, and the thin walls.
fn wall_rule(
    file: &[u8],
    words: &mut [u32],
    reals: &mut [f64],
    cells: &mut [u32],
    numbers: &mut [f64],
    body: Body,
) -> WallCounts
    requires fact_1 { Standing file.now body.at words.old reals.old }
    requires fact_2 { body.faces ≡ faces_of (part_of file.now) }
    ensures { WallsFound file.now body.at words.old words.new reals.old reals.new cells.old cells.new numbers.old numbers.new result }
{
    let at = body.at;
    let n = body.faces;
    let m = put_samples(file, words, reals, at, n);
    put_ranks(file, words, reals, at, n);
    let counts = Counts {
        faces: n,
        readings: m,
    };
    order_walls(file, words, reals, at, counts);
    let given = Given {
        at,
        counts,
        from: 0,
    };
    WallCounts {
        readings: m,
        faults: put_thin_walls(file, words, reals, cells, numbers, given),
    }
}

// The rounds, and their faults. How many faults there are then.
fn round_rule(
    file: &[u8],
    words: &mut [u32],
    reals: &mut [f64],
    cells: &mut [u32],
    numbers: &mut [f64],
    given: Given,
) -> usize
    requires fact_1 { Ready file.now given.at words.old reals.old }
    requires fact_2 { Counted (part_of file.now) given.counts }
    requires fact_3 { given.from ≤ 65536 }
    ensures fact_1 { RulePut rounds_flaws file.now given.at given.from words.old words.new reals.old reals.new cells.old cells.new numbers.old numbers.new result }
    ensures fact_2 { result ≤ given.from + 2 * faces_of (part_of file.now) }
{
    let at = given.at;
    let counts = given.counts;
    put_rounds(file, words, reals, at, counts.faces);
    put_round_faults(file, words, reals, cells, numbers, given)
}

// The corners by their pairs of faces, and those that are sharp, after so many faults. How many faults there are then.
fn corner_rule(
    file: &[u8],
    words: &mut [u32],
    reals: &mut [f64],
    cells: &mut [u32],
    numbers: &mut [f64],
    given: Given,
) -> usize
    requires fact_1 { Ready file.now given.at words.old reals.old }
    requires fact_2 { Counted (part_of file.now) given.counts }
    requires fact_3 { given.from ≤ 65536 }
    requires fact_4 { given.at.segments ≡ true }
    ensures fact_1 { RulePut sharp_corners file.now given.at given.from words.old words.new reals.old reals.new cells.old cells.new numbers.old numbers.new result }
    ensures fact_2 { result ≤ given.from + given.at.vertices }
{
    let at = given.at;
    let n = given.counts.faces;
    let m = order_corners(file, words, reals, at, n);
    let turn = rule_corners::sharp::Turn {
        at,
        counts: rule_corners::corner::Counts {
            faces: n,
            corners: m,
        },
        before: given.from,
    };
    put_sharp_corners(file, words, reals, cells, numbers, turn)
}

// The faults of machining of a part that stands in the scratch, as rows from 0 on, as many as are lent. How many faults there are.
pub fn machining(
    file: &[u8],
    words: &mut [u32],
    reals: &mut [f64],
    cells: &mut [u32],
    numbers: &mut [f64],
    body: Body,
) -> usize
    requires fact_1 { Standing file.now body.at words.old reals.old }
    requires fact_2 { body.faces ≡ faces_of (part_of file.now) }
    requires fact_3 { body.at.segments ≡ true }
    ensures { MachiningPut file.now body.at words.old words.new reals.old reals.new cells.old cells.new numbers.old numbers.new result }
{
    let at = body.at;
    let n = body.faces;
    let w = wall_rule(file, words, reals, cells, numbers, body);
    let counts = Counts {
        faces: n,
        readings: w.readings,
    };
    let given = Given {
        at,
        counts,
        from: w.faults,
    };
    let k = round_rule(file, words, reals, cells, numbers, given);
    let rest = Given {
        at,
        counts,
        from: k,
    };
    corner_rule(file, words, reals, cells, numbers, rest)
}
