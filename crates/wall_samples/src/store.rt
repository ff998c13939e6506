// The readings of a part, put into the lent scratch face by face.
ghost use Rattle.std.specs.Prelude.{◌≡◌, ◌+◌, ◌≤◌, ◌<◌, length, get_or};
ghost use Rattle.std.specs.Float.{nan};
ghost use Rattle.list_laws.specs.Region.{part, Outside};
ghost use Rattle.file_part.specs.Part.{part_of};
ghost use Rattle.solid_faces.specs.Faces.{faces_of};
ghost use Rattle.scratch.specs.Regions.{Laid};
ghost use Rattle.scratch.specs.Standing.{Standing};
ghost use Rattle.wall_starts.specs.Starts.{step_of, wanted, total_area_of, face_polygons};
ghost use Rattle.wall_samples.specs.Samples.{readings_from, picks_to, face_readings, readings_to, readings_of};
ghost use Rattle.wall_samples.specs.Stored.{Readings};
ghost use Rattle.wall_samples.specs.Work.{put_polygons, put_measures, Added, Ready, Listed};

use crate::cast::{Reading, reading_from};
use scratch::regions::Regions;
use wall_starts::{face_order, put_falling, share, total_area};

// The turn of a face: how many rays it gets, and how many readings the faces before it have.
#[derive(Clone, Copy)]
struct Turn {
    face: usize,
    want: usize,
    before: usize,
}

// Puts reading k.
fn put_reading(words: &mut [u32], reals: &mut [f64], at: Regions, k: usize, r: Reading)
    requires laid_1 { Laid at }
    requires laid_2 { at.words ≤ length words.old }
    requires laid_3 { at.reals ≤ length reals.old }
    requires k_lt_polygons_1 { k < at.polygons }
    requires k_lt_polygons_2 { r.polygon < at.polygons }
    requires k_lt_polygons_3 { r.hit < at.polygons }
    ensures words_after { words.new ≡ put_polygons at k r words.old }
    ensures reals_after { reals.new ≡ put_measures at k r (get_or reals.old (at.areas + r.polygon) nan) reals.old }
{
    let area = reals[at.areas + r.polygon];
    words[at.readings + k] = r.polygon as u32;
    words[at.hits + k] = r.hit as u32;
    reals[at.thickness + k] = r.thickness;
    reals[at.weights + k] = area;
}

// Casts the ray of polygon q and puts its reading, where it has one, as reading k. How many readings there are then.
fn put_pick(
    file: &[u8],
    words: &mut [u32],
    reals: &mut [f64],
    at: Regions,
    k: usize,
    q: usize,
) -> usize
    requires fact_1 { Standing file.now at words.old reals.old }
    requires fact_2 { k < at.polygons }
    requires fact_3 { q < at.polygons }
    ensures { Added (part_of file.now) at at.order k (readings_from (part_of file.now) q) words.old words.new reals.old reals.new result }
{
    let found = reading_from(file, words, reals, at, q);
    match found {
        Some(hit) => {
            let reading = Reading {
                polygon: q,
                hit: hit.polygon,
                thickness: hit.t + 1e-6,
            };
            put_reading(words, reals, at, k, reading);
            k + 1
        }
        None => k,
    }
}

// Every step-th of n polygons, so that at least `want` are met where there are as many.
fn step_of(n: usize, want: usize) -> usize
    requires { 1 ≤ want }
    ensures fact_1 { result ≡ step_of n want }
    ensures fact_2 { 1 ≤ result }
    ensures fact_3 { result ≤ n + 1 }
{
    (n / want).max(1)
}

// The rays of a face whose n polygons stand in the order region. How many readings there are then.
fn put_picks(
    file: &[u8],
    words: &mut [u32],
    reals: &mut [f64],
    at: Regions,
    n: usize,
    turn: Turn,
) -> usize
    requires fact_1 { Standing file.now at words.old reals.old }
    requires fact_2 { Listed at n words.old }
    requires fact_3 { turn.before + n ≤ at.polygons }
    requires fact_4 { 1 ≤ turn.want }
    ensures { Added (part_of file.now) at at.order turn.before (picks_to (part_of file.now) (part at.order (at.order + n) words.old) (step_of n turn.want) turn.want) words.old words.new reals.old reals.new result }
{
    let want = turn.want;
    let before = turn.before;
    let step = step_of(n, want);
    let order = at.order;
    let mut count = before;
    let mut i: usize = 0;
    let mut place: usize = 0;
    // A while: each turn goes `step` places on.
    while (i < want) & (place < n) {
        let q = words[order + place] as usize;
        count = put_pick(file, words, reals, at, count, q);
        i += 1;
        place += step;
    }
    count
}

// The readings of a face. How many there are then.
fn put_face(file: &[u8], words: &mut [u32], reals: &mut [f64], at: Regions, turn: Turn) -> usize
    requires ready_1 { Ready file.now at words.old reals.old }
    requires ready_2 { turn.want ≡ wanted (part_of file.now) turn.face }
    requires face_bound_1 { turn.face < faces_of (part_of file.now) }
    requires face_bound_2 { turn.before + length (face_polygons (part_of file.now) turn.face) ≤ at.polygons }
    ensures { Added (part_of file.now) at at.kinds turn.before (face_readings (part_of file.now) turn.face) words.old words.new reals.old reals.new result }
{
    let first = words[at.firsts + turn.face] as usize;
    let n = face_order(
        words,
        &reals[at.falling..at.thickness],
        at.chain,
        at.order,
        at.polygons,
        first,
    );
    put_picks(file, words, reals, at, n, turn)
}

// The readings of n faces. How many there are.
fn put_faces(
    file: &[u8],
    words: &mut [u32],
    reals: &mut [f64],
    at: Regions,
    n: usize,
    total: f64,
) -> usize
    requires fact_1 { Ready file.now at words.old reals.old }
    requires fact_2 { n ≡ faces_of (part_of file.now) }
    requires fact_3 { total ≡ total_area_of (part_of file.now) }
    ensures { Added (part_of file.now) at at.kinds 0 (readings_to (part_of file.now) n) words.old words.new reals.old reals.new result }
{
    let mut k: usize = 0;
    for f in 0..n {
        let turn = Turn {
            face: f,
            want: share(reals[at.totals + f], total),
            before: k,
        };
        k = put_face(file, words, reals, at, turn);
    }
    k
}

// The readings of a part of n faces whose body stands in the scratch. How many there are.
pub fn put_samples(
    file: &[u8],
    words: &mut [u32],
    reals: &mut [f64],
    at: Regions,
    n: usize,
) -> usize
    requires fact_1 { Standing file.now at words.old reals.old }
    requires fact_2 { n ≡ faces_of (part_of file.now) }
    ensures value_1 { result ≡ length (readings_of (part_of file.now)) }
    ensures value_2 { Readings (part_of file.now) at words.new reals.new }
    ensures standing { Standing file.now at words.new reals.new }
    ensures outside_1 { Outside 0 at.readings at.kinds words.old words.new }
    ensures outside_2 { Outside nan at.falling at.rounds reals.old reals.new }
{
    let total = total_area(&reals[at.totals..at.volumes], n);
    if total <= 0.0 {
        return 0;
    }
    put_falling(reals, at.areas, at.falling, at.polygons);
    put_faces(file, words, reals, at, n, total)
}
