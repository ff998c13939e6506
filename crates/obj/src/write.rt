// The part file of a text that is not refused, into a slice with room for it.
ghost use Rattle.std.specs.Prelude.{◌≡◌, ◌++◌, ◌≤◌, length, take};
ghost use Rattle.num_text.specs.Text.{Adds};
ghost use Rattle.obj_text.specs.Text.{line_refusal, vertices_of};
ghost use Rattle.obj_text.specs.Judged.{tables, Slots};
ghost use Rattle.obj_part.specs.Bytes.{trailer_bytes};
ghost use Rattle.obj_part.specs.File.{vertex_block, obj_refusal};
ghost use Rattle.obj_windows.specs.Filled.{row_at_of};
ghost use Rattle.obj.specs.Work.{rows_to, named_row, Named, Sources, first_at, entries_to, Ready, Written};

use math::Vec3;
use num_text::text::Text;
use obj_part::bytes::{put_entry, put_trailer, put_vec};
use obj_text::judge::Tally;
use obj_windows::fill::fill;

// The vertices of the first `used` corners.
// Beside put_by_number: one loop for both would take a closure with a contract over the tables, longer than the two.
fn put_vertices(part: &mut Text<'_>, used: usize, xs: &[f64], ys: &[f64], zs: &[f64])
    requires fact_1 { used ≤ length xs.now }
    requires fact_2 { used ≤ length ys.now }
    requires fact_3 { used ≤ length zs.now }
    ensures { Adds part.old (rows_to (row_at_of xs.now ys.now zs.now) used) part.new }
{
    for c in 0..used {
        let v = Vec3 {
            x: xs[c],
            y: ys[c],
            z: zs[c],
        };
        put_vec(part, v);
    }
}

// The vertices of the corners with these numbers, where the tables have no place for all: by a second pass over the text.
fn put_by_windows(
    text: &[u8],
    numbers: &[u64],
    used: usize,
    part: &mut Text<'_>,
    xs: &mut [f64],
    ys: &mut [f64],
    zs: &mut [f64],
)
    requires fact_1 { used ≤ length numbers.now }
    requires fact_2 { used ≤ 16384 }
    requires fact_3 { Named numbers.now used (length (vertices_of text.now)) }
    requires fact_4 { line_refusal text.now ≡ Ok tt }
    requires fact_5 { Slots xs.old ys.old zs.old }
    ensures { Adds part.old (vertex_block text.now (take used numbers.now)) part.new }
{
    let mut cx = [0.0f64; 16_384];
    let mut cy = [0.0f64; 16_384];
    let mut cz = [0.0f64; 16_384];
    fill(text, numbers, used, xs, ys, zs, &mut cx, &mut cy, &mut cz);
    put_vertices(part, used, &cx, &cy, &cz);
}

// The vertices of the corners with these numbers, from the tables of all vertices.
fn put_by_number(
    numbers: &[u64],
    used: usize,
    part: &mut Text<'_>,
    xs: &[f64],
    ys: &[f64],
    zs: &[f64],
)
    requires fact_1 { used ≤ length numbers.now }
    requires fact_2 { Slots xs.now ys.now zs.now }
    requires fact_3 { Named numbers.now used 16384 }
    ensures { Adds part.old (rows_to (named_row numbers.now xs.now ys.now zs.now) used) part.new }
{
    for c in 0..used {
        let j = (numbers[c] - 1) as usize;
        let v = Vec3 {
            x: xs[j],
            y: ys[j],
            z: zs[j],
        };
        put_vec(part, v);
    }
}

// The vertices: without a second pass where the tables have them all.
fn put_corners(
    text: &[u8],
    t: Tally,
    part: &mut Text<'_>,
    numbers: &[u64],
    xs: &mut [f64],
    ys: &mut [f64],
    zs: &mut [f64],
)
    requires fact_1 { line_refusal text.now ≡ Ok tt }
    requires fact_2 { Sources text.now t numbers.now xs.old ys.old zs.old }
    ensures { Adds part.old (vertex_block text.now (take t.corners numbers.now)) part.new }
{
    let used = t.corners;
    if 16384 < t.defined {
        put_by_windows(text, numbers, used, part, xs, ys, zs);
        return;
    }
    put_by_number(numbers, used, part, xs, ys, zs);
}

// The polygons, from the tables of their indices and of how many corners each has.
fn put_polygons(part: &mut Text<'_>, polygons: usize, indices: &[u32], counts: &[usize])
    requires fact_1 { polygons ≤ length indices.now }
    requires fact_2 { polygons ≤ length counts.now }
    requires fact_3 { first_at counts.now polygons ≤ 16384 }
    ensures { Adds part.old (entries_to indices.now counts.now polygons) part.new }
{
    let mut first: u32 = 0;
    for p in 0..polygons {
        let count = counts[p] as u32;
        put_entry(part, indices[p], first, count);
        first += count;
    }
}

// What follows the polygons: the job and the trailer.
fn put_end(part: &mut Text<'_>, job: &[u8], vertices: usize, polygons: usize)
    requires fact_1 { vertices ≤ 16384 }
    requires fact_2 { polygons ≤ 4096 }
    ensures { Adds part.old (job.now ++ trailer_bytes vertices polygons) part.new }
{
    part.put_bytes(job);
    put_trailer(part, vertices as u32, polygons as u32);
}

// The whole file: vertices, polygons, then the end.
pub fn write(
    text: &[u8],
    job: &[u8],
    out: &mut [u8],
    t: Tally,
    numbers: &[u64],
    indices: &[u32],
    counts: &[usize],
    xs: &mut [f64],
    ys: &mut [f64],
    zs: &mut [f64],
) -> usize
    requires fact_1 { obj_refusal text.now (length job.now) (length out.old) ≡ Ok tt }
    requires fact_2 { Ready text.now t (tables numbers.now indices.now counts.now xs.old ys.old zs.old) }
    ensures { Written text.now job.now out.old out.new result }
{
    let mut part = Text { out, at: 0 };
    put_corners(text, t, &mut part, numbers, xs, ys, zs);
    put_polygons(&mut part, t.polygons, indices, counts);
    put_end(&mut part, job, t.corners, t.polygons);
    part.at
}
