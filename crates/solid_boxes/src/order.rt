// The order of the polygons in the tree: places are split at the middle of the boxes' middles, on the axis where those spread most. Every order
// gives a sound tree, so nothing is promised of a split but that all polygons stay.
ghost use Rattle.std.specs.Prelude.{◌≡◌, ◌+◌, ◌*◌, ◌≤◌, ◌<◌, length, set};
ghost use Rattle.solid_boxes.specs.Tree.{Order};
ghost use Rattle.solid_boxes.specs.Work.{swapped, Keyed, Split};

use list_cells::cell;

// Cell i becomes v.
pub fn put_cell(words: &mut [u32], i: usize, v: usize)
    requires fact_1 { i < length words.old }
    requires fact_2 { v < 4294967296 }
    ensures fact_1 { words.new ≡ set words.old i v }
    ensures fact_2 { length words.new ≡ length words.old }
{
    words[i] = v as u32;
}

// The numbers from 0 on.
pub fn put_numbers(words: &mut [u32], n: usize)
    requires fact_1 { n ≤ length words.old }
    requires fact_2 { n ≤ 4096 }
    ensures fact_1 { Order words.new n }
    ensures fact_2 { length words.new ≡ length words.old }
{
    for i in 0..n {
        put_cell(words, i, i);
    }
}

fn swap(words: &mut [u32], a: usize, b: usize)
    requires fact_1 { a < length words.old }
    requires fact_2 { b < length words.old }
    ensures { words.new ≡ swapped words.old a b }
{
    let v = words[a];
    words[a] = words[b];
    words[b] = v;
}

fn key_at(keys: &[f64], i: usize) -> f64
    requires { i < length keys.now }
{
    keys[i]
}

// Keys are no NaN, so that neither of these tests for one.
fn lower(a: f64, x: f64) -> f64 {
    if x < a { x } else { a }
}

fn higher(a: f64, x: f64) -> f64 {
    if a < x { x } else { a }
}

// How far keys reach on an axis.
#[derive(Clone, Copy)]
struct Extent {
    lo: f64,
    hi: f64,
}

impl Extent {
    fn with(self, x: f64) -> Extent {
        Extent {
            lo: lower(self.lo, x),
            hi: higher(self.hi, x),
        }
    }
}

// Where places are split: keys below `mid` on the axis go first.
#[derive(Clone, Copy)]
struct Cut {
    axis: usize,
    mid: f64,
}

// The longest of three axes, and its middle.
fn longest(x: Extent, y: Extent, z: Extent) -> Cut
    ensures { result.axis ≤ 2 }
{
    let dx = x.hi - x.lo;
    let dy = y.hi - y.lo;
    let dz = z.hi - z.lo;
    if (dx >= dy) & (dx >= dz) {
        let mid = (x.lo + x.hi) * 0.5;
        return Cut { axis: 0, mid };
    }
    if dy >= dz {
        let mid = (y.lo + y.hi) * 0.5;
        return Cut { axis: 1, mid };
    }
    let mid = (z.lo + z.hi) * 0.5;
    Cut { axis: 2, mid }
}

// For the places from x on to before b.
fn cut_of(keys: &[f64], words: &[u32], n: usize, x: usize, b: usize) -> Cut
    requires fact_1 { Keyed keys.now words.now n }
    requires fact_2 { x < b }
    requires fact_3 { b ≤ n }
    ensures { result.axis ≤ 2 }
{
    let none = Extent {
        lo: f64::INFINITY,
        hi: f64::NEG_INFINITY,
    };
    let mut ex = none;
    let mut ey = none;
    let mut ez = none;
    for i in x..b {
        let p = cell(words, i);
        ex = ex.with(key_at(keys, 3 * p));
        ey = ey.with(key_at(keys, 3 * p + 1));
        ez = ez.with(key_at(keys, 3 * p + 2));
    }
    longest(ex, ey, ez)
}

// A split at l or near it, with two places at least on each side; in the middle where one side would have none.
fn settle(l: usize, x: usize, b: usize) -> usize
    requires fact_1 { x + 4 ≤ b }
    requires fact_2 { x ≤ l }
    requires fact_3 { l ≤ b }
    requires fact_4 { b ≤ 4096 }
    ensures fact_1 { x + 2 ≤ result }
    ensures fact_2 { result + 2 ≤ b }
{
    if (l == x) | (l == b) {
        return x + (b - x) / 2;
    }
    l.max(x + 2).min(b - 2)
}

// Splits the places from x on to before b, and says where.
pub fn split(keys: &[f64], words: &mut [u32], n: usize, x: usize, b: usize) -> usize
    requires fact_1 { Keyed keys.now words.old n }
    requires fact_2 { x + 4 ≤ b }
    requires fact_3 { b ≤ n }
    ensures { Split words.old words.new n x b result }
{
    let cut = cut_of(keys, &*words, n, x, b);
    let mut l = x;
    let mut r = b;
    // A while: two places close in on each other, and each turn moves one of them.
    while l < r {
        let p = cell(&*words, l);
        if key_at(keys, 3 * p + cut.axis) < cut.mid {
            l += 1;
            continue;
        }
        r -= 1;
        swap(words, l, r);
    }
    settle(l, x, b)
}
