// The thickness of a sheet: the median of the readings that are not near their face's boundary, and whether the part is this thick throughout.
#![tactic(auto)]

ghost use Rattle.std.specs.Prelude.{◌≡◌, ◌+◌, ◌≤◌, ◌<◌, length, get_or};
ghost use Rattle.std.specs.Float.{nan};
ghost use Rattle.list_laws.specs.Region.{Outside};
ghost use Rattle.list_median.specs.Work.{Pairs};
ghost use Rattle.file_part.specs.Part.{part_of};
ghost use Rattle.scratch.specs.Standing.{Standing};
ghost use Rattle.wall_samples.specs.Samples.{readings_of};
ghost use Rattle.wall_samples.specs.Stored.{Readings};
ghost use Rattle.wall_pairs.specs.Work.{Counted};
ghost use Rattle.solid_tours.specs.Work.Kept.{EdgesOrdered};
ghost use Rattle.solid_tours.specs.Work.Kept as tours;
ghost use Rattle.sheet_thickness.specs.Thickness.{is_off_by, added_to, edge_limit, thickness_of, kept_readings};
ghost use Rattle.sheet_thickness.specs.Kept.{Distances, Measured, OffFaces};
ghost use Rattle.sheet_thickness.specs.Work.{DistancesPut, is_far, is_far_off, PassingPut, KeptStand, SortedMiddle, MiddleIs, FacesMarked};

use list_cells::{cell, fill};
use list_median::{of_pair, weight_sum, weighted_median};
use num_real::select::abs;
use scratch::regions::Regions;
use solid_tours::tour::{Edges, edge_distance};
use wall_median::rough;
use wall_pairs::Counts;
use wall_samples::sample::sample_at;

// What is measured: how many readings are kept, by how far from the segments of their face; their median, the least and the greatest; and
// whether more of the part than is allowed is off the median.
#[derive(Clone, Copy)]
pub struct Thickness {
    pub kept: usize,
    pub limit: f64,
    pub value: f64,
    pub thinnest: f64,
    pub thickest: f64,
    pub uneven: bool,
}

// What is measured where no reading is kept: by how far from the segments of their face.
#[derive(Clone, Copy)]
pub struct NoneKept {
    pub limit: f64,
}

// The median of the readings that are kept, all their area, the least and the greatest.
#[derive(Clone, Copy)]
struct Middle {
    value: f64,
    total: f64,
    thinnest: f64,
    thickest: f64,
}

// For each of m readings how far its point is from the segments of its face.
fn put_distances(file: &[u8], words: &[u32], reals: &mut [f64], edges: Edges, m: usize)
    requires edges_ordered_1 { EdgesOrdered file.now edges.at words.now reals.old }
    requires edges_ordered_2 { Readings (part_of file.now) edges.at words.now reals.old }
    requires counted_1 { tours.Counted (part_of file.now) edges }
    requires counted_2 { m ≡ length (readings_of (part_of file.now)) }
    ensures { DistancesPut (part_of file.now) edges.at reals.old reals.new }
{
    let at = edges.at;
    let falling = at.falling;
    for k in 0..m {
        let s = sample_at(file, words, reals, at, k);
        let distance = edge_distance(file, words, reals, edges, s.face, s.point);
        reals[falling + k] = distance;
    }
}

// The readings that are farther than the limit from the segments of their face, in their order. How many there are.
fn put_kept(words: &mut [u32], reals: &[f64], at: Regions, m: usize, limit: f64) -> usize
    requires fact_1 { at.order + m ≤ length words.old }
    requires fact_2 { at.falling + m ≤ length reals.now }
    requires fact_3 { m ≤ 4096 }
    ensures { PassingPut (is_far at limit reals.now) m at.order words.old words.new result }
{
    let order = at.order;
    let falling = at.falling;
    let mut n: usize = 0;
    for k in 0..m {
        if reals[falling + k] > limit {
            words[order + n] = k as u32;
            n += 1;
        }
    }
    n
}

// Whether a reading is off the thickness of the sheet.
fn is_off(thickness: f64, x: f64) -> bool
    ensures { result ≡ is_off_by thickness x }
{
    abs(x - thickness) > 0.03 * thickness
}

// Whether reading k is kept, by the distances that stand, and off.
fn is_off_at(reals: &[f64], at: Regions, k: usize, limit: f64, thickness: f64) -> bool
    requires fact_1 { at.falling + k < length reals.now }
    requires fact_2 { at.thickness + k < length reals.now }
    ensures { result ≡ is_far_off at limit thickness reals.now k }
{
    let far = reals[at.falling + k] > limit;
    far & is_off(thickness, reals[at.thickness + k])
}

// The area of the readings that are kept and off.
fn off_area(reals: &[f64], at: Regions, m: usize, limit: f64, thickness: f64) -> f64
    requires fact_1 { at.falling + m ≤ length reals.now }
    requires fact_2 { at.thickness + m ≤ length reals.now }
    requires fact_3 { at.weights + m ≤ length reals.now }
    ensures { result ≡ added_to (is_far_off at limit thickness reals.now) (λ k. get_or reals.now (at.weights + k) nan) m }
{
    let weights = at.weights;
    let mut sum = 0.0;
    for k in 0..m {
        if is_off_at(reals, at, k, limit, thickness) {
            sum += reals[weights + k];
        }
    }
    sum
}

// The median of n pairs of value and weight, all their weight, and the least and the greatest value. They are sorted by value.
fn sorted_middle(values: &[f64], weights: &[f64], mem: &mut [u32], n: usize) -> Middle
    requires fact_1 { Pairs values.now weights.now mem.old n }
    requires fact_2 { 1 ≤ n }
    ensures { SortedMiddle values.now weights.now n mem.old mem.new result }
{
    let value = weighted_median(values, weights, mem, n);
    let total = weight_sum(weights, mem, n);
    let thinnest = of_pair(values, mem, 0);
    let thickest = of_pair(values, mem, n - 1);
    Middle {
        value,
        total,
        thinnest,
        thickest,
    }
}

// The median of the n readings that are kept, of m, which stand in the order. They are sorted.
fn middle_of(
    file: &[u8],
    words: &mut [u32],
    reals: &[f64],
    at: Regions,
    m: usize,
    n: usize,
) -> Middle
    requires standing_1 { Standing file.now at words.old reals.now }
    requires standing_2 { Readings (part_of file.now) at words.old reals.now }
    requires standing_3 { m ≡ length (readings_of (part_of file.now)) }
    requires n_value_1 { n ≡ length (kept_readings (part_of file.now)) }
    requires n_value_2 { 1 ≤ n }
    requires n_value_3 { KeptStand (part_of file.now) at words.old }
    ensures fact_1 { MiddleIs (part_of file.now) result }
    ensures fact_2 { Outside 0 at.order at.kinds words.old words.new }
{
    let order = at.order;
    let end = at.kinds;
    let thickness = at.thickness;
    let thickness_end = thickness + m;
    let area = at.weights;
    let area_end = area + m;
    sorted_middle(
        &reals[thickness..thickness_end],
        &reals[area..area_end],
        &mut words[order..end],
        n,
    )
}

// What is measured of a part whose m readings and whose edges stand in the scratch; where no reading is kept, the limit alone. The distances of
// the readings then stand there too.
pub fn measure(
    file: &[u8],
    words: &mut [u32],
    reals: &mut [f64],
    edges: Edges,
    m: usize,
) -> Result<Thickness, NoneKept>
    requires edges_ordered_1 { EdgesOrdered file.now edges.at words.old reals.old }
    requires edges_ordered_2 { Readings (part_of file.now) edges.at words.old reals.old }
    requires counted_1 { tours.Counted (part_of file.now) edges }
    requires counted_2 { m ≡ length (readings_of (part_of file.now)) }
    ensures { Measured (part_of file.now) edges.at words.old words.new reals.old reals.new result }
{
    let at = edges.at;
    let limit = 0.6 * rough(file, words, reals, at, m);
    put_distances(file, words, reals, edges, m);
    let n = put_kept(words, reals, at, m, limit);
    if n == 0 {
        return Err(NoneKept { limit });
    }
    let middle = middle_of(file, words, reals, at, m, n);
    let off = off_area(reals, at, m, limit, middle.value);
    Ok(Thickness {
        kept: n,
        limit,
        value: middle.value,
        thinnest: middle.thinnest,
        thickest: middle.thickest,
        uneven: off > 0.15 * middle.total,
    })
}

// Marks the two faces of reading k.
fn mark_faces(file: &[u8], words: &mut [u32], reals: &[f64], at: Regions, k: usize)
    requires fact_1 { Standing file.now at words.old reals.now }
    requires fact_2 { Readings (part_of file.now) at words.old reals.now }
    requires fact_3 { k < length (readings_of (part_of file.now)) }
    ensures { FacesMarked (part_of file.now) at k words.old words.new }
{
    let faces = at.faces;
    let readings = at.readings;
    let hits = at.hits;
    let order = at.order;
    let from = cell(words, faces + cell(words, readings + k));
    let hit = cell(words, faces + cell(words, hits + k));
    words[order + from] = 1;
    words[order + hit] = 1;
}

// Marks the faces of the readings that are off, in the cells of the order.
pub fn put_off_faces(
    file: &[u8],
    words: &mut [u32],
    reals: &[f64],
    at: Regions,
    counts: Counts,
    found: Thickness,
)
    requires standing_1 { Standing file.now at words.old reals.now }
    requires standing_2 { Readings (part_of file.now) at words.old reals.now }
    requires standing_3 { Distances (part_of file.now) at reals.now }
    requires counted_1 { Counted (part_of file.now) counts }
    requires counted_2 { found.limit ≡ edge_limit (part_of file.now) }
    requires counted_3 { found.value ≡ thickness_of (part_of file.now) }
    ensures fact_1 { OffFaces (part_of file.now) at words.new }
    ensures fact_2 { Outside 0 at.order at.kinds words.old words.new }
{
    let order = at.order;
    let end = at.kinds;
    fill(&mut words[order..end], 0);
    for k in 0..counts.readings {
        if is_off_at(reals, at, k, found.limit, found.value) {
            mark_faces(file, words, reals, at, k);
        }
    }
}
