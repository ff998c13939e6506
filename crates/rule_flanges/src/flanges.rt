// `Short flange`.
ghost use Rattle.std.specs.Prelude.{◌≡◌, ◌+◌, ◌*◌, ◌≤◌, ◌<◌};
ghost use Rattle.file_part.specs.Part.{part_of};
ghost use Rattle.solid_faces.specs.Faces.{faces_of};
ghost use Rattle.measure_sizes.specs.Reading.{ReadingBounds};
ghost use Rattle.sheet_bends.specs.Work.{SheetStands};
ghost use Rattle.fault_row.specs.Flaws.{FlawsPut};
ghost use Rattle.fault_text.specs.Good.{Good};
ghost use Rattle.rule_flanges.specs.Flanges.{reach_of, flange_flaws, short_flanges};
ghost use Rattle.rule_flanges.specs.Work.{legs_in, LegThere, LegsThere, FlangePut};

use crate::legs::{Leg, flanges, leg_at};
use crate::reach::{Line, face_reach};
use fault_row::flaw::{Flaw, put_flaw};
use file_part::read::vertex;
use list_cells::cell;
use round_all::round::round_at;
use sheet_bends::{Sheet, bend_at};

// The turn of some legs of a bend: its inside face, how many legs it has, and how many faults came before.
#[derive(Clone, Copy)]
struct Turn {
    bend: usize,
    legs: usize,
    from: usize,
}

// How far a leg reaches from its bend line.
fn reach_of(file: &[u8], words: &[u32], reals: &[f64], sheet: Sheet, leg: Leg) -> f64
    requires fact_1 { SheetStands file.now sheet words.now reals.now }
    requires fact_2 { LegThere (part_of file.now) leg }
    ensures { result ≡ reach_of (part_of file.now) leg }
{
    let at = sheet.edges.at;
    let chain = at.chain;
    let faces = at.faces;
    let first = cell(words, at.firsts + leg.face);
    let round = round_at(file, words, reals, at, leg.bend);
    let axis = round.axis;
    let start = vertex(file, leg.line);
    let line = Line {
        from: start,
        along: axis,
    };
    face_reach(file, &words[chain..faces], first, line)
}

// The row of a leg that is too short, after `from` others. How many there are then.
fn put_flange(
    cells: &mut [u32],
    numbers: &mut [f64],
    bend: usize,
    leg: Leg,
    reach: f64,
    thick: f64,
    from: usize,
) -> usize
    requires fact_1 { from < 4294967296 }
    requires fact_2 { bend < 4294967296 }
    requires fact_3 { leg.face < 4294967296 }
    ensures { FlangePut bend leg reach thick from cells.old cells.new numbers.old numbers.new result }
{
    let min_flange = 4.0 * thick;
    if reach + 1e-9 < min_flange {
        let flaw = Flaw::ShortFlange(leg.face as u32, bend as u32, reach, min_flange);
        return put_flaw(cells, numbers, from, flaw);
    }
    from
}

// The short ones of the legs of one bend.
fn put_legs(
    file: &[u8],
    words: &[u32],
    reals: &[f64],
    cells: &mut [u32],
    numbers: &mut [f64],
    legs: &[u32],
    sheet: Sheet,
    turn: Turn,
) -> usize
    requires sheet_stands_1 { SheetStands file.now sheet words.now reals.now }
    requires sheet_stands_2 { ReadingBounds sheet.thickness }
    requires sheet_stands_3 { turn.bend < faces_of (part_of file.now) }
    requires legs_there_1 { LegsThere (part_of file.now) legs.now turn.legs }
    requires legs_there_2 { turn.from + turn.legs ≤ 4294967295 }
    ensures fact_1 { FlawsPut (Good (part_of file.now)) turn.from (flange_flaws (part_of file.now) sheet.thickness turn.bend (legs_in legs.now turn.legs)) cells.old cells.new numbers.old numbers.new result }
    ensures fact_2 { result ≤ turn.from + turn.legs }
{
    let mut k = turn.from;
    for i in 0..turn.legs {
        let leg = leg_at(legs, i);
        let reach = reach_of(file, words, reals, sheet, leg);
        k = put_flange(cells, numbers, turn.bend, leg, reach, sheet.thickness, k);
    }
    k
}

// The short flanges of a sheet, as rows after `from` others. How many faults there are then.
pub fn put_short_flanges(
    file: &[u8],
    words: &[u32],
    reals: &[f64],
    cells: &mut [u32],
    numbers: &mut [f64],
    sheet: Sheet,
    from: usize,
) -> usize
    requires fact_1 { SheetStands file.now sheet words.now reals.now }
    requires fact_2 { ReadingBounds sheet.thickness }
    requires fact_3 { from ≤ 65536 }
    ensures fact_1 { FlawsPut (Good (part_of file.now)) from (short_flanges (part_of file.now) sheet.thickness) cells.old cells.new numbers.old numbers.new result }
    ensures fact_2 { result ≤ from + 2097152 }
{
    // Three cells for each neighbour of two faces.
    let mut legs = [0u32; 6144];
    let mut k = from;
    for face in 0..sheet.edges.faces {
        let Some(outside) = bend_at(file, words, reals, sheet, face) else {
            continue;
        };
        let count = flanges(file, words, reals, &mut legs, sheet, face, outside);
        let turn = Turn {
            bend: face,
            legs: count,
            from: k,
        };
        k = put_legs(file, words, reals, cells, numbers, &legs, sheet, turn);
    }
    k
}
