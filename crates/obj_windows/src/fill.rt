// The coordinates of each corner.
ghost use Rattle.std.specs.Prelude.{◌≡◌, ◌+◌, ◌≤◌, ◌<◌, length};
ghost use Rattle.obj_line.specs.Form.{form_of};
ghost use Rattle.obj_text.specs.Text.{line_refusal};
ghost use Rattle.obj_text.specs.Judged.{Slots};
ghost use Rattle.obj_text.specs.Work.{forms_from};
ghost use Rattle.obj_windows.specs.Work.{Formed, AllFormed, defines, Nearer, Unnamed, Skipped, LoadedLine, Loaded};
ghost use Rattle.obj_windows.specs.Filled.{Filled};

use crate::window::flush;
use obj_line::line::{Line, read_vertex};
use obj_number::cut::find;

// How far lines were passed: the place after them, and how many vertices they define.
#[derive(Clone, Copy)]
pub struct Place {
    pub at: usize,
    pub count: u64,
}

// The lesser of a gap and that from `base` to a number past it.
fn nearer(gap: u64, base: u64, number: u64) -> u64
    ensures { Nearer gap base number result }
{
    if number <= base {
        return gap;
    }
    gap.min(number - base - 1)
}

// How many vertices after the first `base` no corner names, before one that a corner names.
fn unnamed(numbers: &[u64], used: usize, base: u64) -> u64
    requires { used ≤ length numbers.now }
    ensures { Unnamed numbers.now used base result }
{
    let mut gap: u64 = 0x8000_0000_0000_0000;
    for &number in &numbers[..used] {
        gap = nearer(gap, base, number);
    }
    gap
}

// How many vertices a line defines.
fn defined_by(line: &[u8]) -> u64
    requires { Formed (form_of line.now) }
    ensures { result ≡ defines (form_of line.now) }
{
    if line.len() == 0 {
        return 0;
    }
    if line[0] == b'v' {
        return 1;
    }
    0
}

// Lines of at most so many vertices, which are counted and not read.
fn skip(text: &[u8], from: usize, most: u64) -> Place
    requires fact_1 { from ≤ length text.now + 1 }
    requires fact_2 { AllFormed (forms_from text.now from) }
    ensures { Skipped text.now from most result.at result.count }
{
    let mut at: usize = from;
    let mut n: u64 = 0;
    // A while: the next line begins where this one ends.
    while at <= text.len() {
        if n == most {
            return Place { at, count: n };
        }
        let end = at + find(&text[at..], b'\n');
        n += defined_by(&text[at..end]);
        at = end + 1;
    }
    Place { at, count: n }
}

// One more line: a vertex is the window's next.
fn load_line(line: Line, n: u64, xs: &mut [f64], ys: &mut [f64], zs: &mut [f64]) -> u64
    requires fact_1 { n < 16384 }
    requires fact_2 { Slots xs.old ys.old zs.old }
    ensures { LoadedLine line n xs.old ys.old zs.old xs.new ys.new zs.new result }
{
    let Line::Vertex(v) = line else {
        return n;
    };
    xs[n as usize] = v.x;
    ys[n as usize] = v.y;
    zs[n as usize] = v.z;
    n + 1
}

// Lines of at most as many vertices as a window has.
fn load(text: &[u8], from: usize, xs: &mut [f64], ys: &mut [f64], zs: &mut [f64]) -> Place
    requires fact_1 { from ≤ length text.now + 1 }
    requires fact_2 { Slots xs.old ys.old zs.old }
    ensures { Loaded text.now from xs.new ys.new zs.new result.at result.count }
{
    let mut at: usize = from;
    let mut n: u64 = 0;
    // A while: the next line begins where this one ends.
    while at <= text.len() {
        if n == 16384 {
            return Place { at, count: n };
        }
        let end = at + find(&text[at..], b'\n');
        let line = read_vertex(&text[at..end]);
        n = load_line(line, n, xs, ys, zs);
        at = end + 1;
    }
    Place { at, count: n }
}

// The coordinates of the corners of these numbers, window by window. A window begins at a vertex that a corner names.
pub fn fill(
    text: &[u8],
    numbers: &[u64],
    used: usize,
    xs: &mut [f64],
    ys: &mut [f64],
    zs: &mut [f64],
    cx: &mut [f64],
    cy: &mut [f64],
    cz: &mut [f64],
)
    requires fact_1 { used ≤ length numbers.now }
    requires fact_2 { used ≤ 16384 }
    requires fact_3 { Slots xs.old ys.old zs.old }
    requires fact_4 { Slots cx.old cy.old cz.old }
    requires fact_5 { line_refusal text.now ≡ Ok tt }
    ensures { Filled text.now numbers.now used cx.new cy.new cz.new }
{
    let mut base: u64 = 0;
    let mut at: usize = 0;
    // A while: the next window begins where this one ends.
    while at <= text.len() {
        let gap = unnamed(numbers, used, base);
        let p = skip(text, at, gap);
        let q = load(text, p.at, xs, ys, zs);
        let start = base + p.count;
        let count = q.count;
        flush(numbers, used, start, xs, count, cx);
        flush(numbers, used, start, ys, count, cy);
        flush(numbers, used, start, zs, count, cz);
        base = start + count;
        at = q.at;
    }
}
