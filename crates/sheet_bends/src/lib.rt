// The bends of a sheet: concave rounds that are no holes, each with the first convex one around it.
#![tactic(auto)]

ghost use Rattle.std.specs.Prelude.{◌≡◌, true, ◌+◌, ◌≤◌, ◌<◌, length, Some};
ghost use Rattle.file_part.specs.Part.{part_of};
ghost use Rattle.solid_faces.specs.Faces.{faces_of};
ghost use Rattle.scratch.specs.Regions.{Laid};
ghost use Rattle.scratch.specs.Standing.{Standing};
ghost use Rattle.round_all.specs.Round.{is_round};
ghost use Rattle.round_all.specs.Kept.{Rounds};
ghost use Rattle.sheet_bends.specs.Bends.{is_close, is_around, is_bend_face, bend_radius};
ghost use Rattle.sheet_bends.specs.Kept.{bend_of, BendsPut};
ghost use Rattle.sheet_bends.specs.Work.{SheetStands, outside_found, bend_stored};

use list_cells::{cell, fill};
use num_real::select::{abs, max};
use round_all::round::{Round, round_at};
use scratch::regions::Regions;
use solid_tours::tour::Edges;

// A sheet whose edges, rounds and bends stand in the scratch.
#[derive(Clone, Copy)]
pub struct Sheet {
    pub edges: Edges,
    pub thickness: f64,
}

// Two lengths that are the same but for a twentieth of the thickness.
fn is_close(thick: f64, a: f64, b: f64) -> bool
    ensures { result ≡ is_close thick a b }
{
    abs(a - b) <= 0.05 * max(thick, 1e-9)
}

// Whether `outer` is on the axis of `inner`, the thickness larger.
fn is_around(thick: f64, inner: Round, outer: Round) -> bool
    ensures { result ≡ is_around thick inner outer }
{
    let axis = inner.axis;
    if outer.axis.cross(axis).length() < 1e-3 {
        if outer.origin.sub(inner.origin).cross(axis).length() < 0.05 * thick {
            return is_close(thick, outer.radius - inner.radius, thick);
        }
    }
    false
}

// The first face of n outside of face f, which is a round.
fn outside_of(
    file: &[u8],
    words: &[u32],
    reals: &[f64],
    at: Regions,
    n: usize,
    thick: f64,
    f: usize,
) -> Option<usize>
    requires standing_1 { Standing file.now at words.now reals.now }
    requires standing_2 { Rounds (part_of file.now) at words.now reals.now }
    requires standing_3 { n ≡ faces_of (part_of file.now) }
    requires f_lt_n_1 { f < n }
    requires f_lt_n_2 { is_round (part_of file.now) f ≡ true }
    ensures { result ≡ outside_found (part_of file.now) thick f }
{
    let inner = round_at(file, words, reals, at, f);
    let kinds = at.kinds;
    for g in 0..n {
        // Convex rounds alone.
        if words[kinds + g] != 1 {
            continue;
        }
        if is_around(thick, inner, round_at(file, words, reals, at, g)) {
            return Some(g);
        }
    }
    None
}

// The bend of face f of n: its outside face, where f is the inside of one.
fn bend_of(
    file: &[u8],
    words: &[u32],
    reals: &[f64],
    at: Regions,
    n: usize,
    thick: f64,
    f: usize,
) -> Option<usize>
    requires standing_1 { Standing file.now at words.now reals.now }
    requires standing_2 { Rounds (part_of file.now) at words.now reals.now }
    requires standing_3 { n ≡ faces_of (part_of file.now) }
    requires f_lt_n { f < n }
    ensures { result ≡ bend_of (part_of file.now) thick f }
{
    let kinds = at.kinds;
    // Concave rounds that are no holes.
    if words[kinds + f] != 2 {
        return None;
    }
    outside_of(file, words, reals, at, n, thick, f)
}

// Keeps a bend of face f: its outside, after which 0 is none, and a mark for both faces.
fn put_bend(words: &mut [u32], at: Regions, f: usize, outside: usize)
    requires laid_1 { Laid at }
    requires laid_2 { at.words ≤ length words.old }
    requires f_lt_polygons_1 { f < at.polygons }
    requires f_lt_polygons_2 { outside < at.polygons }
    ensures { words.new ≡ bend_stored at f outside words.old }
{
    let order = at.order;
    let marks = order + at.polygons;
    words[order + f] = (outside + 1) as u32;
    words[marks + f] = 1;
    words[marks + outside] = 1;
}

// Keeps the bends of a part of n faces whose rounds stand in the scratch, in the cells of the order. How many there are.
pub fn put_bends(
    file: &[u8],
    words: &mut [u32],
    reals: &[f64],
    at: Regions,
    n: usize,
    thick: f64,
) -> usize
    requires fact_1 { Standing file.now at words.old reals.now }
    requires fact_2 { Rounds (part_of file.now) at words.old reals.now }
    requires fact_3 { n ≡ faces_of (part_of file.now) }
    ensures { BendsPut (part_of file.now) thick at words.old words.new result }
{
    let order = at.order;
    let end = at.kinds;
    fill(&mut words[order..end], 0);
    let mut count: usize = 0;
    for f in 0..n {
        let Some(outside) = bend_of(file, &words[..], reals, at, n, thick, f) else {
            continue;
        };
        put_bend(words, at, f, outside);
        count += 1;
    }
    count
}

// The bend of face f: its outside face, where f is the inside of one.
pub fn bend_at(file: &[u8], words: &[u32], reals: &[f64], sheet: Sheet, f: usize) -> Option<usize>
    requires fact_1 { SheetStands file.now sheet words.now reals.now }
    requires fact_2 { f < faces_of (part_of file.now) }
    ensures { result ≡ bend_of (part_of file.now) sheet.thickness f }
{
    let at = sheet.edges.at;
    cell(words, at.order + f).checked_sub(1)
}

// Whether face g is of a bend.
pub fn is_bend_face(file: &[u8], words: &[u32], reals: &[f64], sheet: Sheet, g: usize) -> bool
    requires fact_1 { SheetStands file.now sheet words.now reals.now }
    requires fact_2 { g < faces_of (part_of file.now) }
    ensures { result ≡ is_bend_face (part_of file.now) sheet.thickness g }
{
    let at = sheet.edges.at;
    words[at.order + at.polygons + g] == 1
}

// The largest inside radius of a bend; 0.0 where there is none.
// An f64, not an Option: the definition is that number.
pub fn bend_radius(file: &[u8], words: &[u32], reals: &[f64], sheet: Sheet) -> f64
    requires { SheetStands file.now sheet words.now reals.now }
    ensures { result ≡ bend_radius (part_of file.now) sheet.thickness }
{
    let mut radius = 0.0;
    for f in 0..sheet.edges.faces {
        let Some(_outside) = bend_at(file, words, reals, sheet, f) else {
            continue;
        };
        let inner = round_at(file, words, reals, sheet.edges.at, f);
        radius = max(radius, inner.radius);
    }
    radius
}
