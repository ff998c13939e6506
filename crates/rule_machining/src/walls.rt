// `Thin wall`.
ghost use Rattle.std.specs.Prelude.{◌≡◌, cond, ◌+◌, ◌≤◌, ◌<◌, length};
ghost use Rattle.std.specs.Float.{binary64};
ghost use Rattle.std.specs.Float.Ieee.{mul, lt};
ghost use Rattle.file_part.specs.Part.{part_of};
ghost use Rattle.solid_polygon.specs.Polygon.{half};
ghost use Rattle.wall_samples.specs.Samples.{readings_of};
ghost use Rattle.wall_pairs.specs.Work.{Counted, WallsOrdered};
ghost use Rattle.fault_row.specs.declared.fault.Severity.TheVariants.{Error, Warning};
ghost use Rattle.fault_row.specs.Flaws.{FlawsPut};
ghost use Rattle.rule_corners.specs.fault_text.specs.Good.{Good};
ghost use Rattle.rule_machining.specs.Machining.{thin_walls};
ghost use Rattle.rule_machining.specs.Work.{WallPut};

use crate::Given;
use fault_row::fault::Severity;
use fault_row::flaw::{Flaw, put_flaw};
use rule_corners::fault_text::job::min_wall;
use wall_pairs::{NextWall, least, next_wall};

// Thinner than half of what the material needs, a wall can't be made.
fn severity(x: f64, wall: f64) -> Severity
    ensures { result ≡ cond (lt x (mul binary64 half wall)) Error Warning }
{
    if x < 0.5 * wall {
        return Severity::Error;
    }
    Severity::Warning
}

// The wall between two faces, x thick, where walls have to be `wall` thick.
fn put_thin_wall(
    cells: &mut [u32],
    numbers: &mut [f64],
    from: usize,
    faces: NextWall,
    x: f64,
    wall: f64,
) -> usize
    requires fact_1 { from < 4294967296 }
    requires fact_2 { faces.first < 4294967296 }
    requires fact_3 { faces.second < 4294967296 }
    ensures { WallPut faces x wall from cells.old cells.new numbers.old numbers.new result }
{
    if x < wall {
        let flaw = Flaw::ThinWall(
            severity(x, wall),
            faces.first as u32,
            faces.second as u32,
            x,
        );
        return put_flaw(cells, numbers, from, flaw);
    }
    from
}

// The thin walls of a part whose readings stand in the scratch, sorted by their pairs of faces. How many faults there are then.
pub fn put_thin_walls(
    file: &[u8],
    words: &[u32],
    reals: &[f64],
    cells: &mut [u32],
    numbers: &mut [f64],
    given: Given,
) -> usize
    requires fact_1 { WallsOrdered file.now given.at words.now reals.now }
    requires fact_2 { Counted (part_of file.now) given.counts }
    requires fact_3 { given.from ≤ 65536 }
    ensures fact_1 { FlawsPut (Good (part_of file.now)) given.from (thin_walls (part_of file.now)) cells.old cells.new numbers.old numbers.new result }
    ensures fact_2 { result ≤ given.from + length (readings_of (part_of file.now)) }
{
    let at = given.at;
    let counts = given.counts;
    let m = counts.readings;
    let wall = min_wall(file);
    let mut k = given.from;
    let mut i = 0;
    // A while: the next start is where the readings of two faces end.
    while i < m {
        let faces = next_wall(file, words, reals, at, counts, i);
        let end = faces.end;
        let x = least(file, words, reals, at, i, end);
        k = put_thin_wall(cells, numbers, k, faces, x, wall);
        i = end;
    }
    k
}
