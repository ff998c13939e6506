// `Small hole` and `Hole too close`.
ghost use Rattle.std.specs.Prelude.{◌≡◌, true, cond, ◌+◌, ◌≤◌, ◌<◌, length};
ghost use Rattle.file_part.specs.Part.{part_of};
ghost use Rattle.solid_faces.specs.Faces.{faces_of, Checked};
ghost use Rattle.round_all.specs.Round.{is_round, is_hole, round_of};
ghost use Rattle.measure_sizes.specs.Reading.{ReadingBounds};
ghost use Rattle.sheet_bends.specs.Work.{SheetStands};
ghost use Rattle.fault_row.specs.Flaws.{FlawsPut};
ghost use Rattle.fault_text.specs.Good.{Good};
ghost use Rattle.rule_holes.specs.Holes.{min_hole_of, too_close, hole_flaws, sheet_holes};
ghost use Rattle.rule_holes.specs.Work.{LimitsOf, SmallPut, ClosePut};

use crate::name::is_named;
use crate::nearest::{Gap, nearest_of, put_plates};
use fault_row::flaw::{Flaw, put_flaw};
use num_real::select::max;
use round_all::round::{Round, round_at};
use sheet_bends::{Sheet, bend_radius, is_bend_face};

// The least diameter of a hole, and the least distance of its edge from a bend and from anything else.
#[derive(Clone, Copy)]
struct Limits {
    hole: f64,
    bend: f64,
    edge: f64,
}

impl Limits {
    // How far a hole's edge has to be from a bend, or from anything else.
    fn need(self, near_bend: bool) -> f64
        ensures { result ≡ cond near_bend self.bend self.edge }
    {
        if near_bend {
            return self.bend;
        }
        self.edge
    }
}

// The least diameter. Stainless steel hardens under the punch.
fn min_hole(file: &[u8], thick: f64) -> f64
    requires { Checked file.now }
    ensures { result ≡ min_hole_of (part_of file.now) thick }
{
    if is_named(file, b"Stainless") | is_named(file, b"304") {
        return 1.2 * thick;
    }
    thick
}

// Those of a sheet.
fn limits_of(file: &[u8], words: &[u32], reals: &[f64], sheet: Sheet) -> Limits
    requires { SheetStands file.now sheet words.now reals.now }
    ensures { LimitsOf (part_of file.now) sheet.thickness result }
{
    let thick = sheet.thickness;
    let radius = bend_radius(file, words, reals, sheet);
    Limits {
        hole: min_hole(file, thick),
        bend: 2.5 * thick + radius,
        edge: 2.0 * thick,
    }
}

// The row of a hole that is too small, after `from` others. How many there are then.
fn put_small_hole(
    cells: &mut [u32],
    numbers: &mut [f64],
    from: usize,
    hole: Round,
    least: f64,
) -> usize
    requires fact_1 { from < 4294967296 }
    requires fact_2 { hole.face < 4294967296 }
    ensures { SmallPut hole least from cells.old cells.new numbers.old numbers.new result }
{
    let d = 2.0 * hole.radius;
    if d + 1e-9 < least {
        let flaw = Flaw::SheetSmallHole(hole.face as u32, d, least);
        return put_flaw(cells, numbers, from, flaw);
    }
    from
}

// The hole a that is too close to the face b.
fn close_flaw(near_bend: bool, a: u32, b: u32, gap: f64, need: f64) -> Flaw
    ensures { result ≡ too_close near_bend a b gap need }
{
    if near_bend {
        return Flaw::HoleNearBend(a, b, gap, need);
    }
    Flaw::HoleNearEdge(a, b, gap, need)
}

// The row of a hole, face h, that is too close to what is nearest, after `from` others. How many there are then.
fn put_close(
    cells: &mut [u32],
    numbers: &mut [f64],
    from: usize,
    h: usize,
    nearest: Gap,
    near_bend: bool,
    need: f64,
) -> usize
    requires fact_1 { from < 4294967296 }
    requires fact_2 { h < 4294967296 }
    requires fact_3 { nearest.other < 4294967296 }
    ensures { ClosePut near_bend need h nearest from cells.old cells.new numbers.old numbers.new result }
{
    let gap = nearest.gap;
    if gap + 1e-9 < need {
        let flaw = close_flaw(
            near_bend,
            h as u32,
            nearest.other as u32,
            max(gap, 0.0),
            need,
        );
        return put_flaw(cells, numbers, from, flaw);
    }
    from
}

// The turn of a hole: the sheet and its limits, and how many faults came before.
#[derive(Clone, Copy)]
struct Turn {
    sheet: Sheet,
    limits: Limits,
    from: usize,
}

// Both rules, of a hole. `plates` is work.
fn put_hole(
    file: &[u8],
    words: &[u32],
    reals: &[f64],
    cells: &mut [u32],
    numbers: &mut [f64],
    plates: &mut [u32],
    turn: Turn,
    hole: Round,
) -> usize
    requires sheet_stands_1 { SheetStands file.now turn.sheet words.now reals.now }
    requires sheet_stands_2 { ReadingBounds turn.sheet.thickness }
    requires sheet_stands_3 { LimitsOf (part_of file.now) turn.sheet.thickness turn.limits }
    requires face_bound_1 { hole.face < faces_of (part_of file.now) }
    requires face_bound_2 { hole ≡ round_of (part_of file.now) hole.face }
    requires face_bound_3 { is_round (part_of file.now) hole.face ≡ true }
    requires face_bound_4 { is_hole (part_of file.now) hole.face ≡ true }
    requires file_in_bounds_1 { faces_of (part_of file.now) ≤ length plates.old }
    requires file_in_bounds_2 { turn.from + 1 < 4294967296 }
    ensures flaws_put { FlawsPut (Good (part_of file.now)) turn.from (hole_flaws (part_of file.now) turn.sheet.thickness hole.face) cells.old cells.new numbers.old numbers.new result }
    ensures upper_bound_1 { result ≤ turn.from + 2 }
    ensures upper_bound_2 { length plates.new ≡ length plates.old }
{
    let sheet = turn.sheet;
    let limits = turn.limits;
    let k = put_small_hole(cells, numbers, turn.from, hole, limits.hole);
    put_plates(file, words, reals, plates, sheet.edges, hole.face);
    let Some(nearest) = nearest_of(file, words, reals, &plates[..], sheet.edges, hole) else {
        return k;
    };
    let near_bend = is_bend_face(file, words, reals, sheet, nearest.other);
    put_close(
        cells,
        numbers,
        k,
        hole.face,
        nearest,
        near_bend,
        limits.need(near_bend),
    )
}

// The faults of a sheet's holes, as rows after `from` others. How many faults there are then.
pub fn put_holes(
    file: &[u8],
    words: &[u32],
    reals: &[f64],
    cells: &mut [u32],
    numbers: &mut [f64],
    sheet: Sheet,
    from: usize,
) -> usize
    requires fact_1 { SheetStands file.now sheet words.now reals.now }
    requires fact_2 { ReadingBounds sheet.thickness }
    requires fact_3 { from ≤ 4194304 }
    ensures fact_1 { FlawsPut (Good (part_of file.now)) from (sheet_holes (part_of file.now) sheet.thickness) cells.old cells.new numbers.old numbers.new result }
    ensures fact_2 { result ≤ from + 2048 }
{
    let at = sheet.edges.at;
    let kinds = at.kinds;
    let limits = limits_of(file, words, reals, sheet);
    let mut plates = [0u32; 1024];
    let mut k = from;
    for face in 0..sheet.edges.faces {
        if words[kinds + face] != 3 {
            continue;
        }
        let hole = round_at(file, words, reals, at, face);
        let turn = Turn {
            sheet,
            limits,
            from: k,
        };
        k = put_hole(file, words, reals, cells, numbers, &mut plates, turn, hole);
    }
    k
}
