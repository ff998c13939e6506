// For each polygon the next one of its body, so that a hollow's faces are found without a look at the polygons of others. The links stand in the work
// slice from `from` on; the number of polygons is the link of a body's last.
ghost use Rattle.std.specs.Prelude.{◌≡◌, true, ◌+◌, ◌≤◌, ◌<◌, length};
ghost use Rattle.list_laws.specs.Region.{part};
ghost use Rattle.scratch.specs.Regions.{Laid};
ghost use Rattle.fault_merge.specs.Work.{Front};
ghost use Rattle.report_faces.specs.Work.{Low, Linking, Links};

use list_cells::cell;
use scratch::regions::Regions;

// No polygon is linked yet.
fn open_links(work: &mut [u32], from: usize, labels: &[u32])
    requires fact_1 { from + length labels.now ≤ length work.old }
    requires fact_2 { length labels.now ≤ 4096 }
    ensures fact_1 { Linking labels.now from (length labels.now) work.new }
    ensures fact_2 { Front from work.old work.new }
{
    let n = labels.len();
    for b in 0..n {
        work[from + b] = n as u32;
    }
}

// Polygon p is linked, after all that follow it: it stands before those of its body.
fn link(work: &mut [u32], from: usize, labels: &[u32], p: usize)
    requires labels_in_bounds_1 { from + length labels.now ≤ length work.old }
    requires labels_in_bounds_2 { length labels.now ≤ 4096 }
    requires labels_in_bounds_3 { p < length labels.now }
    requires low_1 { Low labels.now }
    requires low_2 { Linking labels.now from (p + 1) work.old }
    ensures fact_1 { Linking labels.now from p work.new }
    ensures fact_2 { Front from work.old work.new }
{
    let b = cell(labels, p);
    if b == p {
        return;
    }
    let next = work[from + b];
    work[from + p] = next;
    work[from + b] = p as u32;
}

// Links all polygons, from the last one down.
fn link_all(work: &mut [u32], from: usize, labels: &[u32])
    requires fact_1 { from + length labels.now ≤ length work.old }
    requires fact_2 { length labels.now ≤ 4096 }
    requires fact_3 { Low labels.now }
    ensures fact_1 { Linking labels.now from 0 work.new }
    ensures fact_2 { Front from work.old work.new }
{
    open_links(work, from, labels);
    for p in (0..labels.len()).rev() {
        link(work, from, labels, p);
    }
}

// Links the polygons of a part, where its bodies are put.
pub fn put_links(work: &mut [u32], from: usize, words: &[u32], at: Regions)
    requires laid_1 { Laid at }
    requires laid_2 { at.words ≤ length words.now }
    requires laid_3 { from + at.polygons ≤ length work.old }
    requires low { at.bodies ≡ true → Low (part 0 at.polygons words.now) }
    ensures fact_1 { Links at words.now from work.new }
    ensures fact_2 { Front from work.old work.new }
{
    if !at.bodies {
        return;
    }
    link_all(work, from, &words[..at.polygons]);
}
