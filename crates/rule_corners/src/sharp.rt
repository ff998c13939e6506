// The rule `Sharp inside corner`: corners that no tool reaches square to one of their faces.
ghost use Rattle.std.specs.Prelude.{◌≡◌, ◌+◌, ◌≤◌, ◌<◌};
ghost use Rattle.list_laws.specs.Region.{part};
ghost use Rattle.file_part.specs.Part.{part_of};
ghost use Rattle.scratch.specs.Standing.{Standing};
ghost use Rattle.fault_row.specs.Flaws.{FlawsPut};
ghost use Rattle.fault_text.specs.Good.{Good};
ghost use Rattle.rule_corners.specs.Corners.{corner_of_word};
ghost use Rattle.rule_corners.specs.Work.{Counted, corner_order, CornersOrdered, GroupThere};
ghost use Rattle.rule_corners.specs.Sharp.{is_reached, fillet_of, sharp_corner, sharp_corners};

use crate::corner::{Corner, Counts, corner_of, next_corner};
use fault_row::flaw::{Flaw, put_flaw};
use fault_text::machining::MIN_MILL_RADIUS;
use num_real::select::max;
use scratch::regions::Regions;
use wall_tree::raycast::open_towards;

// Whether a straight line leaves the part from a little off the corner, along one of its normals.
fn is_reached(file: &[u8], words: &[u32], reals: &[f64], at: Regions, c: Corner) -> bool
    requires { Standing file.now at words.now reals.now }
    ensures { result ≡ is_reached (part_of file.now) c }
{
    let mid = c.mid;
    let low = c.low;
    let high = c.high;
    if open_towards(file, words, reals, at, mid.add(high.mul(1e-3)), low) {
        return true;
    }
    open_towards(file, words, reals, at, mid.add(low.mul(1e-3)), high)
}

// The fillet that is asked for.
fn fillet_of(length: f64) -> f64
    ensures { result ≡ fillet_of length }
{
    max(MIN_MILL_RADIUS, length / 6.0)
}

// Two faces, the places of their corners in the order, and how many faults come before.
#[derive(Clone, Copy)]
struct Group {
    at: Regions,
    first: usize,
    second: usize,
    from: usize,
    end: usize,
    before: usize,
}

// The fault of the corners between two faces, where they are sharp. How many faults there are then.
fn put_sharp(
    file: &[u8],
    words: &[u32],
    reals: &[f64],
    cells: &mut [u32],
    numbers: &mut [f64],
    group: Group,
) -> usize
    requires fact_1 { CornersOrdered file.now group.at words.now reals.now }
    requires fact_2 { GroupThere (part_of file.now) group }
    ensures flaws_put { FlawsPut (Good (part_of file.now)) group.before (sharp_corner (part_of file.now) group.first group.second (corner_of_word (part_of file.now) (part group.from group.end (corner_order group.at words.now)))) cells.old cells.new numbers.old numbers.new result }
    ensures upper_bound { result ≤ group.before + 1 }
{
    let at = group.at;
    let c = corner_of(file, words, reals, at, group.from, group.end);
    if is_reached(file, words, reals, at, c) {
        return group.before;
    }
    let flaw = Flaw::SharpInsideCorner(
        group.first as u32,
        group.second as u32,
        c.length,
        fillet_of(c.length),
    );
    put_flaw(cells, numbers, group.before, flaw)
}

// What the rule is told: the regions, the counts, and how many faults come before.
#[derive(Clone, Copy)]
pub struct Turn {
    pub at: Regions,
    pub counts: Counts,
    pub before: usize,
}

// The sharp corners of a part whose corners are in order. How many faults there are then.
pub fn put_sharp_corners(
    file: &[u8],
    words: &[u32],
    reals: &[f64],
    cells: &mut [u32],
    numbers: &mut [f64],
    turn: Turn,
) -> usize
    requires fact_1 { CornersOrdered file.now turn.at words.now reals.now }
    requires fact_2 { Counted (part_of file.now) turn.counts }
    requires fact_3 { turn.before ≤ 65536 }
    ensures flaws_put { FlawsPut (Good (part_of file.now)) turn.before (sharp_corners (part_of file.now)) cells.old cells.new numbers.old numbers.new result }
    ensures upper_bound { result ≤ turn.before + turn.counts.corners }
{
    let at = turn.at;
    let counts = turn.counts;
    let m = counts.corners;
    let mut k = turn.before;
    let mut i = 0;
    // A while: the next start is where the corners of two faces end.
    while i < m {
        let next = next_corner(file, words, reals, at, counts, i);
        let group = Group {
            at,
            first: next.first,
            second: next.second,
            from: i,
            end: next.end,
            before: k,
        };
        k = put_sharp(file, words, reals, cells, numbers, group);
        i = next.end;
    }
    k
}
