// `Thinner than a layer`, `Few layers`, `Thinner than the nozzle` and `Thin wall` of a print.
#![tactic(auto)]

ghost use Rattle.std.specs.Prelude.{◌≡◌, ◌+◌, ◌≤◌, ◌<◌, length, get_or};
ghost use Rattle.std.specs.Float.Ieee.{lt};
ghost use Rattle.num_real.specs.Select.{abs_of};
ghost use Rattle.math.specs.Vector.{dot_of};
ghost use Rattle.list_laws.specs.Region.{part};
ghost use Rattle.file_part.specs.Part.{part_of};
ghost use Rattle.wall_samples.specs.Samples.{readings_of, sample_of};
ghost use Rattle.wall_samples.specs.Stored.{reading};
ghost use Rattle.wall_pairs.specs.Work.{Counted, reading_order, WallsOrdered};
ghost use Rattle.fault_row.specs.Flaws.{FlawsPut};
ghost use Rattle.fault_text.specs.Good.{Good};
ghost use Rattle.print_walls.specs.Walls.{ninety_nine, thinnest_of, floor_flaw, side_flaw, print_walls_of};
ghost use Rattle.print_walls.specs.Work.{with_sample, under_nozzle, severity_by, flaw_by, WallPut};

use fault_row::fault::Severity;
use fault_row::flaw::{Flaw, put_flaw};
use fault_text::job::job_of;
use file_job::PrintSettings;
use list_cells::cell;
use math::Vec3;
use num_real::select::abs;
use scratch::regions::Regions;
use wall_pairs::{Counts, NextWall, next_wall};
use wall_samples::sample::{Sample, sample_at};

// Passed on to the crates above.
pub use fault_text;

// The thinnest reading so far between two faces, and whether it goes through layers.
#[derive(Clone, Copy)]
pub struct Thinnest {
    pub thickness: f64,
    pub stacked: bool,
}

// What the rule is given of a part that stands in the scratch: where, how many faces and readings it has, and how many faults came before.
#[derive(Clone, Copy)]
pub struct Given {
    pub at: Regions,
    pub counts: Counts,
    pub from: usize,
}

// Whether a reading from a polygon with this normal goes through layers.
fn is_stacked(normal: Vec3, up: Vec3) -> bool
    ensures { result ≡ lt ninety_nine (abs_of (dot_of normal up)) }
{
    abs(normal.dot(up)) > 0.99
}

// One reading more: the first of the thinnest stays.
fn with_sample(least: Thinnest, sample: Sample, up: Vec3) -> Thinnest
    ensures { result ≡ with_sample up least sample }
{
    if sample.thickness < least.thickness {
        return Thinnest {
            thickness: sample.thickness,
            stacked: is_stacked(sample.normal, up),
        };
    }
    least
}

// The reading at place j of the order.
fn sample_in_order(file: &[u8], words: &[u32], reals: &[f64], at: Regions, j: usize) -> Sample
    requires fact_1 { WallsOrdered file.now at words.now reals.now }
    requires fact_2 { j < length (readings_of (part_of file.now)) }
    ensures { result ≡ sample_of (part_of file.now) (reading (readings_of (part_of file.now)) (get_or (reading_order at words.now) j 0)) }
{
    let order = at.order;
    sample_at(file, words, reals, at, cell(words, order + j))
}

// The thinnest of the readings from place i, where one is, to before place e of the order.
fn thinnest_reading(
    file: &[u8],
    words: &[u32],
    reals: &[f64],
    at: Regions,
    up: Vec3,
    i: usize,
    e: usize,
) -> Thinnest
    requires fact_1 { WallsOrdered file.now at words.now reals.now }
    requires fact_2 { i < e }
    requires fact_3 { e ≤ length (readings_of (part_of file.now)) }
    ensures { result ≡ thinnest_of (part_of file.now) up (part i e (reading_order at words.now)) }
{
    let first = sample_in_order(file, words, reals, at, i);
    let mut least = Thinnest {
        thickness: f64::from_bits(0x7ff0_0000_0000_0000),
        stacked: is_stacked(first.normal, up),
    };
    for j in i..e {
        let sample = sample_in_order(file, words, reals, at, j);
        least = with_sample(least, sample, up);
    }
    least
}

// A floor or roof x thick.
fn put_floor(
    cells: &mut [u32],
    numbers: &mut [f64],
    from: usize,
    faces: NextWall,
    x: f64,
    print: PrintSettings,
) -> usize
    requires fact_1 { from < 4294967296 }
    requires fact_2 { faces.first < 4294967296 }
    requires fact_3 { faces.second < 4294967296 }
    ensures { WallPut floor_flaw print faces x from cells.old cells.new numbers.old numbers.new result }
{
    let layer = print.layer;
    if x < 2.0 * layer {
        if x + 1e-9 < layer {
            let flaw = Flaw::ThinnerThanALayer(faces.first as u32, faces.second as u32, x);
            return put_flaw(cells, numbers, from, flaw);
        }
        let flaw = Flaw::FewLayers(faces.first as u32, faces.second as u32, x, x / layer);
        return put_flaw(cells, numbers, from, flaw);
    }
    from
}

// Whether a wall is narrower than the nozzle's line, where there is a nozzle.
fn is_under_nozzle(x: f64, print: PrintSettings) -> bool
    ensures { result ≡ under_nozzle print x }
{
    if print.has_nozzle {
        return x + 1e-9 < print.nozzle;
    }
    false
}

// Without a nozzle, a wall thinner than half of what is needed can't be made.
fn severity(x: f64, print: PrintSettings) -> Severity
    ensures { result ≡ severity_by print x }
{
    if print.has_nozzle {
        return Severity::Warning;
    }
    if x < 0.5 * print.min_wall {
        return Severity::Error;
    }
    Severity::Warning
}

// A wall x thick that is no floor or roof.
fn put_side(
    cells: &mut [u32],
    numbers: &mut [f64],
    from: usize,
    faces: NextWall,
    x: f64,
    print: PrintSettings,
) -> usize
    requires fact_1 { from < 4294967296 }
    requires fact_2 { faces.first < 4294967296 }
    requires fact_3 { faces.second < 4294967296 }
    ensures { WallPut side_flaw print faces x from cells.old cells.new numbers.old numbers.new result }
{
    if is_under_nozzle(x, print) {
        let flaw = Flaw::ThinnerThanTheNozzle(faces.first as u32, faces.second as u32, x);
        return put_flaw(cells, numbers, from, flaw);
    }
    if x + 1e-9 < print.min_wall {
        let flaw = Flaw::PrintThinWall(
            severity(x, print),
            faces.first as u32,
            faces.second as u32,
            x,
        );
        return put_flaw(cells, numbers, from, flaw);
    }
    from
}

// The wall between two faces, by their thinnest reading.
fn put_wall(
    cells: &mut [u32],
    numbers: &mut [f64],
    from: usize,
    faces: NextWall,
    wall: Thinnest,
    print: PrintSettings,
) -> usize
    requires fact_1 { from < 4294967296 }
    requires fact_2 { faces.first < 4294967296 }
    requires fact_3 { faces.second < 4294967296 }
    ensures { WallPut (flaw_by wall.stacked) print faces wall.thickness from cells.old cells.new numbers.old numbers.new result }
{
    let x = wall.thickness;
    if wall.stacked {
        return put_floor(cells, numbers, from, faces, x, print);
    }
    put_side(cells, numbers, from, faces, x, print)
}

// The walls, floors and roofs of a part whose readings stand in the scratch, sorted by their pairs of faces. How many faults there are then.
pub fn put_print_walls(
    file: &[u8],
    words: &[u32],
    reals: &[f64],
    cells: &mut [u32],
    numbers: &mut [f64],
    given: Given,
) -> usize
    requires fact_1 { WallsOrdered file.now given.at words.now reals.now }
    requires fact_2 { Counted (part_of file.now) given.counts }
    requires fact_3 { given.from ≤ 65536 }
    ensures fact_1 { FlawsPut (Good (part_of file.now)) given.from (print_walls_of (part_of file.now)) cells.old cells.new numbers.old numbers.new result }
    ensures fact_2 { result ≤ given.from + length (readings_of (part_of file.now)) }
{
    let at = given.at;
    let counts = given.counts;
    let m = counts.readings;
    let job = job_of(file);
    let print = job.print;
    let along = print.up;
    let up = along.normalized();
    let mut k = given.from;
    let mut i = 0;
    // A while: the next start is where the readings of two faces end.
    while i < m {
        let faces = next_wall(file, words, reals, at, counts, i);
        let end = faces.end;
        let wall = thinnest_reading(file, words, reals, at, up, i, end);
        k = put_wall(cells, numbers, k, faces, wall, print);
        i = end;
    }
    k
}
