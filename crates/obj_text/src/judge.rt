// The first pass: which line is refused, how large the part file is, and what it is made of, in tables.
ghost use Rattle.std.specs.Prelude.{◌≡◌, ◌^◌, ◌≤◌, ◌<◌, length};
ghost use Rattle.obj_line.specs.Form.{form_of};
ghost use Rattle.obj_text.specs.Judged.{tables, Slots, Sized, Judged};
ghost use Rattle.obj_text.specs.Work.{tallied, KeptVertex, KeptFace, NotedLine};

use obj_line::line::{Line, read_line};
use obj_number::cut::find;
use refusal::Refusal;

// How many vertices are defined; how many corners and polygons there are, up to one more than a part file can hold; and the face index in use.
#[derive(Clone, Copy)]
pub struct Tally {
    pub defined: usize,
    pub corners: usize,
    pub polygons: usize,
    pub index: u32,
}

// The tally after one more line, or refusal 14 or 15.
fn add_line(t: Tally, line: Line) -> Result<Tally, Refusal>
    requires fact_1 { t.defined < 2 ^ 63 }
    requires fact_2 { t.corners ≤ 16385 }
    requires fact_3 { t.polygons ≤ 4097 }
    ensures { result ≡ tallied t line }
{
    match line {
        Line::Vertex(_) => Ok(Tally {
            defined: t.defined + 1,
            ..t
        }),
        Line::Face(c) => {
            if (t.defined as u64) < c.largest {
                return Err(Refusal::UndefinedVertex);
            }
            Ok(Tally {
                corners: t.corners.saturating_add(c.count).min(16385),
                polygons: (t.polygons + 1).min(4097),
                ..t
            })
        }
        Line::Group(n) => Ok(Tally { index: n, ..t }),
        Line::Skipped => Ok(t),
        Line::Other => Err(Refusal::BadLine),
    }
}

// A vertex into its place, if there is one.
fn keep_vertex(line: Line, n: usize, xs: &mut [f64], ys: &mut [f64], zs: &mut [f64])
    requires { Slots xs.old ys.old zs.old }
    ensures { KeptVertex line n xs.old ys.old zs.old xs.new ys.new zs.new }
{
    if 16384 <= n {
        return;
    }
    if let Line::Vertex(v) = line {
        xs[n] = v.x;
        ys[n] = v.y;
        zs[n] = v.z;
    }
}

// A face's index and the number of its corners.
fn keep_face(line: Line, p: usize, index: u32, indices: &mut [u32], counts: &mut [usize])
    requires fact_1 { p < length indices.old }
    requires fact_2 { p < length counts.old }
    ensures { KeptFace line p index indices.old counts.old indices.new counts.new }
{
    if let Line::Face(c) = line {
        indices[p] = index;
        counts[p] = c.count;
    }
}

// One more line: the tally after it or its refusal, and what it adds to the tables.
fn note_line(
    line: &[u8],
    t: Tally,
    numbers: &mut [u64],
    indices: &mut [u32],
    counts: &mut [usize],
    xs: &mut [f64],
    ys: &mut [f64],
    zs: &mut [f64],
) -> Result<Tally, Refusal>
    requires fact_1 { t.defined < 2 ^ 63 }
    requires fact_2 { t.corners ≤ 16385 }
    requires fact_3 { t.polygons ≤ 4097 }
    requires fact_4 { Sized (tables numbers.old indices.old counts.old xs.old ys.old zs.old) }
    ensures { NotedLine (form_of line.now) t (tables numbers.old indices.old counts.old xs.old ys.old zs.old) (tables numbers.new indices.new counts.new xs.new ys.new zs.new) result }
{
    let form = read_line(line, numbers, t.corners);
    keep_face(form, t.polygons, t.index, indices, counts);
    keep_vertex(form, t.defined, xs, ys, zs);
    add_line(t, form)
}

// Line by line, up to the first that is refused.
pub fn judge(
    text: &[u8],
    numbers: &mut [u64],
    indices: &mut [u32],
    counts: &mut [usize],
    xs: &mut [f64],
    ys: &mut [f64],
    zs: &mut [f64],
) -> Result<Tally, Refusal>
    requires { Sized (tables numbers.old indices.old counts.old xs.old ys.old zs.old) }
    ensures { Judged text.now (tables numbers.old indices.old counts.old xs.old ys.old zs.old) (tables numbers.new indices.new counts.new xs.new ys.new zs.new) result }
{
    let mut t = Tally {
        defined: 0,
        corners: 0,
        polygons: 0,
        index: 0,
    };
    let mut at: usize = 0;
    // A while: the next line begins where this one ends.
    while at <= text.len() {
        let end = at + find(&text[at..], b'\n');
        t = note_line(&text[at..end], t, numbers, indices, counts, xs, ys, zs)?;
        at = end + 1;
    }
    Ok(t)
}
