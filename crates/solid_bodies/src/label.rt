// The label of each polygon: the lowest that a chain of touching polygons joins with it. The memory has p labels, then the n corners, then their table.
ghost use Rattle.std.specs.Prelude.{◌≡◌, ◌+◌, ◌*◌, ◌<◌, length};
ghost use Rattle.file_part.specs.Layout.{vertex_count_of, polygon_count_of};
ghost use Rattle.file_part.specs.Part.{part_of};
ghost use Rattle.file_ok.specs.Work.{Readable};
ghost use Rattle.solid_bodies.specs.Body.{body_cells, Bodies};
ghost use Rattle.solid_bodies.specs.Work.{Memory, Scanned, Step, Labelled};

use crate::corner::put_corners;
use crate::forest::{flatten, link, start};
use crate::table::{find, owner, push, slot};
use file_part::read::{polygon_count, vertex_count};
use list_cells::fill;

// Each polygon a body of its own, and an empty table.
fn ready(mem: &mut [u32], p: usize, n: usize)
    requires { Memory p n mem.old }
    ensures { Step p n mem.old mem.new 0 }
{
    let q = p + 4 * n;
    let e = q + 2 * n;
    start(&mut mem[..p]);
    fill(&mut mem[q..e], 0);
}

// One corner more: its polygon is joined with that of an earlier corner of the same key.
fn turn(mem: &mut [u32], p: usize, n: usize, v: usize)
    requires fact_1 { Memory p n mem.old }
    requires fact_2 { Scanned p n mem.old v }
    requires fact_3 { v < n }
    ensures { Step p n mem.old mem.new (v + 1) }
{
    let q = p + 4 * n;
    let e = q + 2 * n;
    let h = slot(&mem[p..q], n, v);
    if let Some(u) = find(&mem[p..q], &mem[q..e], n, h, v) {
        let i = owner(&mem[p..q], u);
        let j = owner(&mem[p..q], v);
        link(&mut mem[..p], i, j);
    }
    push(&mut mem[q..e], n, h, v);
}

// All corners, and then from parents to labels.
fn join(mem: &mut [u32], p: usize, n: usize)
    requires { Memory p n mem.old }
    ensures { Labelled p n mem.old mem.new }
{
    ready(mem, p, n);
    for v in 0..n {
        turn(mem, p, n, v);
    }
    flatten(&mut mem[..p]);
}

// The labels of all polygons, in the first P cells. What the memory held before plays no part.
pub fn bodies(file: &[u8], mem: &mut [u32])
    requires fact_1 { Readable file.now }
    requires fact_2 { length mem.old ≡ body_cells (polygon_count_of file.now) (vertex_count_of file.now) }
    ensures { Bodies (part_of file.now) mem.new }
{
    let n = vertex_count(file);
    let p = polygon_count(file);
    let q = p + 4 * n;
    put_corners(file, &mut mem[p..q], n);
    join(mem, p, n);
}
