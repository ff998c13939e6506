// The flanges of one bend: the flat faces that run on from its two faces, each leg once. They are kept in lent cells, three each.
ghost use Rattle.std.specs.Prelude.{◌≡◌, true, [], ◌∷◌, ◌+◌, ◌*◌, ◌≤◌, ◌<◌, length};
ghost use Rattle.file_part.specs.Part.{part_of};
ghost use Rattle.solid_faces.specs.Faces.{faces_of};
ghost use Rattle.scratch.specs.Standing.{Standing};
ghost use Rattle.solid_tours.specs.Tours.{edges_between};
ghost use Rattle.solid_tours.specs.Work.Kept.{GroupPlaces};
ghost use Rattle.round_all.specs.Round.{is_round};
ghost use Rattle.sheet_bends.specs.Bends.{outside_of, is_bend};
ghost use Rattle.sheet_bends.specs.Work.{SheetStands};
ghost use Rattle.rule_flanges.specs.Flanges.{runs_on, group_legs, is_seen, legs_beside, legs_of};
ghost use Rattle.rule_flanges.specs.Work.{legs_in, leg_at, LegThere, LegsThere, LegsTaken};

use list_cells::cell;
use math::Vec3;
use num_real::select::abs;
use round_all::round::round_at;
use scratch::regions::Regions;
use sheet_bends::{Sheet, is_bend_face};
use solid_flat::{face_normal, is_flat};
use solid_tours::tour::{Group, Places, face_places, item_at, next_group};

// A flat face beside a face of a bend, and the side that is the first segment between them.
#[derive(Clone, Copy)]
pub struct Leg {
    pub bend: usize,
    pub face: usize,
    pub line: usize,
}

// Whether face g runs on from a bend about this axis.
fn runs_on(file: &[u8], words: &[u32], reals: &[f64], sheet: Sheet, axis: Vec3, g: usize) -> bool
    requires fact_1 { SheetStands file.now sheet words.now reals.now }
    requires fact_2 { g < faces_of (part_of file.now) }
    ensures { result ≡ runs_on (part_of file.now) sheet.thickness axis g }
{
    let at = sheet.edges.at;
    if !is_flat(file, words, reals, at, g) {
        return false;
    }
    if is_bend_face(file, words, reals, sheet, g) {
        return false;
    }
    let normal = face_normal(file, words, reals, at, g);
    // The sheet's edge faces are square to the axis.
    !(abs(normal.dot(axis)) > 0.1)
}

// Leg i.
pub fn leg_at(legs: &[u32], i: usize) -> Leg
    requires { 3 * i + 3 ≤ length legs.now }
    ensures { result ≡ leg_at legs.now i }
{
    Leg {
        bend: cell(legs, 3 * i),
        face: cell(legs, 3 * i + 1),
        line: cell(legs, 3 * i + 2),
    }
}

// Whether the normal of face g is along that of one of the first n legs.
fn is_seen(
    file: &[u8],
    words: &[u32],
    reals: &[f64],
    at: Regions,
    legs: &[u32],
    n: usize,
    g: usize,
) -> bool
    requires fact_1 { Standing file.now at words.now reals.now }
    requires fact_2 { LegsThere (part_of file.now) legs.now n }
    requires fact_3 { g < faces_of (part_of file.now) }
    ensures { result ≡ is_seen (part_of file.now) (legs_in legs.now n) g }
{
    let normal = face_normal(file, words, reals, at, g);
    for i in 0..n {
        let leg = leg_at(legs, i);
        let other = face_normal(file, words, reals, at, leg.face);
        if abs(other.dot(normal)) > 0.99 {
            return true;
        }
    }
    false
}

// Takes a leg after n others, unless it is seen among them. How many there are then.
fn add_leg(
    file: &[u8],
    words: &[u32],
    reals: &[f64],
    at: Regions,
    legs: &mut [u32],
    n: usize,
    leg: Leg,
) -> usize
    requires fact_1 { Standing file.now at words.now reals.now }
    requires fact_2 { LegsThere (part_of file.now) legs.old n }
    requires fact_3 { LegThere (part_of file.now) leg }
    requires fact_4 { 3 * n + 3 ≤ length legs.old }
    ensures { LegsTaken (part_of file.now) (leg ∷ []) 1 n legs.old legs.new result }
{
    if is_seen(file, words, reals, at, &legs[..], n, leg.face) {
        return n;
    }
    legs[3 * n] = leg.bend as u32;
    legs[3 * n + 1] = leg.face as u32;
    legs[3 * n + 2] = leg.line as u32;
    n + 1
}

// The same with the neighbour of a group, where it runs on from the group's face, which is of a bend about this axis.
fn add_group(
    file: &[u8],
    words: &[u32],
    reals: &[f64],
    legs: &mut [u32],
    sheet: Sheet,
    axis: Vec3,
    group: Group,
    n: usize,
) -> usize
    requires sheet_stands_1 { SheetStands file.now sheet words.now reals.now }
    requires sheet_stands_2 { GroupPlaces (part_of file.now) sheet.edges.at words.now group }
    requires face_value_1 { is_round (part_of file.now) group.face ≡ true }
    requires face_value_2 { LegsThere (part_of file.now) legs.old n }
    requires face_value_3 { 3 * n + 3 ≤ length legs.old }
    ensures { LegsTaken (part_of file.now) (group_legs (part_of file.now) sheet.thickness axis group.face group.other (edges_between (part_of file.now) group.face group.other)) 1 n legs.old legs.new result }
{
    if !runs_on(file, words, reals, sheet, axis, group.other) {
        return n;
    }
    let at = sheet.edges.at;
    let leg = Leg {
        bend: group.face,
        face: group.other,
        line: item_at(file, words, reals, at, group.start),
    };
    add_leg(file, words, reals, at, legs, n, leg)
}

// The same with all neighbours of face h, which is of a bend.
fn add_legs(
    file: &[u8],
    words: &[u32],
    reals: &[f64],
    legs: &mut [u32],
    sheet: Sheet,
    h: usize,
    n: usize,
) -> usize
    requires sheet_stands_1 { SheetStands file.now sheet words.now reals.now }
    requires sheet_stands_2 { h < faces_of (part_of file.now) }
    requires sheet_stands_3 { is_round (part_of file.now) h ≡ true }
    requires legs_there_1 { LegsThere (part_of file.now) legs.old n }
    requires legs_there_2 { 3 * (n + faces_of (part_of file.now)) ≤ length legs.old }
    ensures { LegsTaken (part_of file.now) (legs_beside (part_of file.now) sheet.thickness h) (faces_of (part_of file.now)) n legs.old legs.new result }
{
    let edges = sheet.edges;
    let at = edges.at;
    let axis = round_at(file, words, reals, at, h).axis;
    let places = face_places(file, words, reals, edges, h);
    let end = places.end;
    let mut m = n;
    let mut i = places.start;
    // A while: the next start is where the edges beside one neighbour end.
    while i < end {
        let rest = Places { start: i, end };
        let group = next_group(file, words, reals, at, h, rest);
        m = add_group(file, words, reals, legs, sheet, axis, group, m);
        i = group.end;
    }
    m
}

// The flanges of the bend with the faces f inside and g outside. How many there are.
pub fn flanges(
    file: &[u8],
    words: &[u32],
    reals: &[f64],
    legs: &mut [u32],
    sheet: Sheet,
    f: usize,
    g: usize,
) -> usize
    requires sheet_stands_1 { SheetStands file.now sheet words.now reals.now }
    requires sheet_stands_2 { f < faces_of (part_of file.now) }
    requires sheet_stands_3 { is_bend (part_of file.now) sheet.thickness f ≡ true }
    requires g_value_1 { g ≡ outside_of (part_of file.now) sheet.thickness f }
    requires g_value_2 { 6 * faces_of (part_of file.now) ≤ length legs.old }
    ensures { LegsTaken (part_of file.now) (legs_of (part_of file.now) sheet.thickness f) (2 * faces_of (part_of file.now)) 0 legs.old legs.new result }
{
    let n = add_legs(file, words, reals, legs, sheet, f, 0);
    add_legs(file, words, reals, legs, sheet, g, n)
}
