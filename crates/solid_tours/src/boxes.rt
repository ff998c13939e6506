// Boxes around the packed edges, 16 in each: a box that is too far from a point spares the distances from its edges.
ghost use Rattle.std.specs.Prelude.{◌≡◌, ◌+◌, ◌*◌, ◌≤◌, ◌<◌, length};
ghost use Rattle.file_part.specs.Part.{part_of};
ghost use Rattle.scratch.specs.Regions.{Laid};
ghost use Rattle.solid_tours.specs.Work.Kept.{item_count, box_count_of, OrderedTo};
ghost use Rattle.solid_tours.specs.Work.{Around, RunEnd, is_spared, BoxesPut};

use math::Vec3;
use scratch::regions::Regions;
use solid_distance::kept::segment_at;
use solid_reach::reach::{Reach, put_reach, reach_at};

// How many boxes there is room for behind m packed edges, of v sides.
pub fn box_count(m: usize, v: usize) -> usize
    requires fact_1 { m ≤ v }
    requires fact_2 { v ≤ 16384 }
    ensures { result ≡ box_count_of m v }
{
    let wanted = m / 16 + 1;
    let room = (7 * (v - m) + 1024) / 6;
    wanted.min(room)
}

// The box of the edges at the places from i to before e.
fn box_of(reals: &[f64], at: Regions, i: usize, e: usize) -> Reach
    requires fact_1 { Laid at }
    requires fact_2 { at.reals ≤ length reals.now }
    requires fact_3 { i ≤ e }
    requires fact_4 { e ≤ at.vertices }
    ensures { Around at reals.now i e result }
{
    let mut r = Reach::none();
    for j in i..e {
        r = r.with_segment(segment_at(reals, at.free + 7 * j));
    }
    r
}

// The lesser of a + 16 and e.
pub fn run_end(a: usize, e: usize) -> usize
    requires { a ≤ 16384 }
    ensures { RunEnd a e result }
{
    e.min(a + 16)
}

// Puts box b, where those before it are put and all m edges are packed.
fn put_box(file: &[u8], words: &[u32], reals: &mut [f64], at: Regions, m: usize, b: usize)
    requires fact_1 { OrderedTo file.now at words.now reals.old (item_count (part_of file.now)) b }
    requires fact_2 { m ≡ item_count (part_of file.now) }
    requires fact_3 { b < box_count_of m at.vertices }
    ensures { BoxesPut file.now at words.now reals.old reals.new (b + 1) }
{
    let start = 16 * b;
    let end = run_end(start, m);
    let r = box_of(&reals[..], at, start, end);
    put_reach(reals, at.free + 7 * m + 6 * b, r);
}

// All that there is room for.
pub fn put_boxes(file: &[u8], words: &[u32], reals: &mut [f64], at: Regions, m: usize)
    requires fact_1 { OrderedTo file.now at words.now reals.old (item_count (part_of file.now)) 0 }
    requires fact_2 { m ≡ item_count (part_of file.now) }
    ensures { BoxesPut file.now at words.now reals.old reals.new (box_count_of (item_count (part_of file.now)) at.vertices) }
{
    let n = box_count(m, at.vertices);
    for b in 0..n {
        put_box(file, words, reals, at, m, b);
    }
}

// Whether the box in the numbers from `place` on, the b-th of `count`, spares the distances of point p: none of them squared is below x.
pub fn is_spared(reals: &[f64], count: usize, b: usize, place: usize, p: Vec3, x: f64) -> bool
    requires { b < count → place + 6 ≤ length reals.now }
    ensures { result ≡ is_spared reals.now count b p x place }
{
    if b < count {
        let gap = reach_at(reals, place).gap_square(p);
        return !(gap < x);
    }
    false
}
