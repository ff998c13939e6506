// The shared segments of a part file. The vertex runs follow on, so a side has the number of the vertex that it begins at.
ghost use Rattle.std.specs.Prelude.{◌≡◌, ◌+◌, ◌*◌, ◌<◌, ◌≤◌, length};
ghost use Rattle.math.specs.Size.{VecWithin};
ghost use Rattle.file_field.specs.Field.{vec_at_of};
ghost use Rattle.file_part.specs.Layout.{vertex_count_of, polygon_count_of};
ghost use Rattle.file_part.specs.Part.{part_of};
ghost use Rattle.file_ok.specs.Work.{Readable};
ghost use Rattle.solid_segments.specs.Sides.{next_of, SharedSegments};
ghost use Rattle.solid_segments.specs.Work.{side_cells, start_of, RunAt, side_row, Lent, PlacedBelow, OwnsMore, OwnsRun};

use crate::key::key_cell;
use crate::pack::pack_sides;
use file_part::corner::corner;
use file_part::read::{entry_at, first_vertex, polygon_count, run_length, vertex_count};
use solid_keys::chains::pair_sides;
use std::ops::Range;

// The vertices of polygon p.
fn read_run(file: &[u8], vertices: usize, p: usize) -> Range<usize>
    requires fact_1 { Readable file.now }
    requires fact_2 { vertices ≡ vertex_count_of file.now }
    requires fact_3 { p < polygon_count_of file.now }
    ensures { RunAt file.now vertices p result.start result.end }
{
    let at = entry_at(vertices, p);
    let first = first_vertex(file, at);
    first..first + run_length(file, at)
}

// The vertex after s in a run from `first` to before `end`.
#[tactic(auto, unfolding(crate::specs::Sides::next_of))]
fn next_vertex(first: usize, end: usize, s: usize) -> usize
    requires { s < 16384 }
    ensures { result ≡ next_of first end s }
{
    if s + 1 == end {
        return first;
    }
    s + 1
}

// Columns 0 to 3 of side s, which ends at the vertex `to`.
fn put_side(file: &[u8], mem: &mut [u32], s: usize, to: usize)
    requires vec_within_1 { VecWithin (vec_at_of file.now (24 * s)) 10000 }
    requires vec_within_2 { 24 * s + 24 ≤ length file.now }
    requires s_in_bounds_1 { s * 8 + 8 ≤ length mem.old }
    requires s_in_bounds_2 { to < 16384 }
    ensures { mem.new ≡ side_row (vec_at_of file.now (24 * s)) s to mem.old }
{
    let v = corner(file, s);
    let x = key_cell(v.x);
    let y = key_cell(v.y);
    let z = key_cell(v.z);
    mem[s * 8 + 0] = x;
    mem[s * 8 + 1] = y;
    mem[s * 8 + 2] = z;
    mem[s * 8 + 3] = to as u32;
}

// Columns 0 to 3 of the sides of polygon p, after those of the polygons below it.
fn put_run(file: &[u8], mem: &mut [u32], vertices: usize, p: usize)
    requires lent_1 { Lent file.now mem.old vertices }
    requires lent_2 { p < polygon_count_of file.now }
    requires placed_below { PlacedBelow (part_of file.now) mem.old (start_of file.now p) }
    ensures { PlacedBelow (part_of file.now) mem.new (start_of file.now (p + 1)) }
{
    let run = read_run(file, vertices, p);
    for s in run.start..run.end {
        put_side(file, mem, s, next_vertex(run.start, run.end, s));
    }
}

// Columns 0 to 3 of all sides.
// Beside put_owners: one loop for both would take a closure with a contract over lent cells, longer than the two.
fn put_sides(file: &[u8], mem: &mut [u32], vertices: usize, polygons: usize)
    requires fact_1 { Lent file.now mem.old vertices }
    requires fact_2 { polygons ≡ polygon_count_of file.now }
    ensures { PlacedBelow (part_of file.now) mem.new vertices }
{
    for p in 0..polygons {
        put_run(file, mem, vertices, p);
    }
}

// Column 4 of the sides of polygon p, after those of the polygons below it.
fn put_owner(file: &[u8], mem: &mut [u32], vertices: usize, p: usize)
    requires fact_1 { Lent file.now mem.old vertices }
    requires fact_2 { p < polygon_count_of file.now }
    ensures { OwnsRun file.now mem.old mem.new p }
{
    let run = read_run(file, vertices, p);
    for s in run.start..run.end {
        mem[s * 8 + 4] = p as u32;
    }
}

// Column 4 of all sides.
fn put_owners(file: &[u8], mem: &mut [u32], vertices: usize, polygons: usize)
    requires fact_1 { Lent file.now mem.old vertices }
    requires fact_2 { polygons ≡ polygon_count_of file.now }
    ensures { OwnsMore (part_of file.now) mem.old mem.new 0 vertices }
{
    for p in 0..polygons {
        put_owner(file, mem, vertices, p);
    }
}

// The end, the polygon and the pair of every side, in three cells for each; the five cells a side after them are work. What the cells held before
// plays no part.
pub fn shared_segments(file: &[u8], mem: &mut [u32])
    requires fact_1 { Readable file.now }
    requires fact_2 { length mem.old ≡ side_cells (vertex_count_of file.now) }
    ensures { SharedSegments (part_of file.now) mem.new }
{
    let vertices = vertex_count(file);
    let polygons = polygon_count(file);
    put_sides(file, mem, vertices, polygons);
    pair_sides(mem, vertices);
    put_owners(file, mem, vertices, polygons);
    pack_sides(mem, vertices);
}
