// All rules of sheet metal, one after the other, as dfm.rs's `sheet_metal` has them.
ghost use Rattle.std.specs.Prelude.{◌≡◌, true, ◌≤◌, ◌<◌};
ghost use Rattle.file_part.specs.Part.{part_of};
ghost use Rattle.solid_faces.specs.Faces.{faces_of};
ghost use Rattle.scratch.specs.Standing.{Standing};
ghost use Rattle.solid_ranks.specs.Kept.{Ranked};
ghost use Rattle.measure_sizes.specs.Reading.{ReadingBounds};
ghost use Rattle.sheet_bends.specs.Work.{SheetStands};
ghost use Rattle.fault_row.specs.Flaws.{FlawsPut};
ghost use Rattle.rule_flanges.specs.fault_text.specs.Good.{Good};
ghost use Rattle.rule_sheet.specs.All.{bent_flaws, SheetPut};
ghost use Rattle.rule_sheet.specs.Work.{UnevenPut, FormedPut};

use crate::material::{is_formed, put_material};
use crate::ready::make_ready;
use crate::tight::put_tight_bends;
use fault_row::flaw::{Flaw, put_flaw};
use fault_row::summary::{Found, Summary};
use rule_flanges::fault_text::job::job_of;
use rule_flanges::flanges::put_short_flanges;
use rule_holes::holes::put_holes;
use scratch::regions::Regions;
use sheet_bends::{Sheet, put_bends};
use sheet_thickness::{Thickness, measure, put_off_faces};
use solid_ranks::put_ranks;
use solid_tours::tour::Edges;
use wall_pairs::Counts;

// The row of a part that is not one thickness, after `from` others. How many there are then.
fn put_uneven(cells: &mut [u32], numbers: &mut [f64], from: usize, found: Thickness) -> usize
    requires { from < 4294967296 }
    ensures { UnevenPut found from cells.old cells.new numbers.old numbers.new result }
{
    let flaw = Flaw::NotOneThickness(found.thinnest, found.thickest, found.value);
    put_flaw(cells, numbers, from, flaw)
}

// The bends, the flanges and the holes of a sheet. How many faults there are then.
fn put_bent(
    file: &[u8],
    words: &[u32],
    reals: &[f64],
    cells: &mut [u32],
    numbers: &mut [f64],
    sheet: Sheet,
    from: usize,
) -> usize
    requires fact_1 { SheetStands file.now sheet words.now reals.now }
    requires fact_2 { ReadingBounds sheet.thickness }
    requires fact_3 { from ≤ 1 }
    ensures fact_1 { FlawsPut (Good (part_of file.now)) from (bent_flaws (part_of file.now) sheet.thickness) cells.old cells.new numbers.old numbers.new result }
    ensures fact_2 { result ≤ 4194304 }
{
    let a = put_tight_bends(file, words, reals, cells, numbers, sheet, from);
    let b = put_short_flanges(file, words, reals, cells, numbers, sheet, a);
    put_holes(file, words, reals, cells, numbers, sheet, b)
}

// What a part that can be formed is given: where it stands, how many faces it has, and how many faults came before.
#[derive(Clone, Copy)]
struct Given {
    at: Regions,
    faces: usize,
    from: usize,
}

// The rules that follow those on the material.
fn put_formed(
    file: &[u8],
    words: &mut [u32],
    reals: &mut [f64],
    cells: &mut [u32],
    numbers: &mut [f64],
    given: Given,
) -> Found
    requires standing_1 { Standing file.now given.at words.old reals.old }
    requires standing_2 { Ranked (part_of file.now) given.at words.old }
    requires faces_value_1 { given.faces ≡ faces_of (part_of file.now) }
    requires faces_value_2 { 0 < given.faces }
    requires faces_value_3 { given.from ≤ 1 }
    requires faces_value_4 { given.at.segments ≡ true }
    ensures { FormedPut file.now given.at given.from words.old words.new reals.old reals.new cells.old cells.new numbers.old numbers.new result }
{
    let at = given.at;
    let n = given.faces;
    let from = given.from;
    let ready = make_ready(file, words, reals, at, n);
    let edges = Edges {
        at,
        faces: n,
        items: ready.items,
    };
    let Ok(found) = measure(file, words, reals, edges, ready.readings) else {
        return Found {
            faults: from,
            summary: Summary::none(),
        };
    };
    if found.uneven {
        let counts = Counts {
            faces: n,
            readings: ready.readings,
        };
        put_off_faces(file, words, reals, at, counts, found);
        return Found {
            faults: put_uneven(cells, numbers, from, found),
            summary: Summary::none(),
        };
    }
    let bends = put_bends(file, words, reals, at, n, found.value);
    let sheet = Sheet {
        edges,
        thickness: found.value,
    };
    Found {
        faults: put_bent(file, words, reals, cells, numbers, sheet, from),
        summary: Summary::sheet(found.value, bends),
    }
}

// The faults of sheet metal of a part of n faces, one at least, that stands in the scratch, as rows from 0 on, as many as are lent.
pub fn sheet_metal(
    file: &[u8],
    words: &mut [u32],
    reals: &mut [f64],
    cells: &mut [u32],
    numbers: &mut [f64],
    at: Regions,
    n: usize,
) -> Found
    requires fact_1 { Standing file.now at words.old reals.old }
    requires fact_2 { n ≡ faces_of (part_of file.now) }
    requires fact_3 { 0 < n }
    requires fact_4 { at.segments ≡ true }
    ensures { SheetPut file.now at words.old words.new reals.old reals.new cells.old cells.new numbers.old numbers.new result }
{
    put_ranks(file, words, reals, at, n);
    let job = job_of(file);
    let k = put_material(cells, numbers, job);
    if !is_formed(job) {
        return Found {
            faults: k,
            summary: Summary::none(),
        };
    }
    let given = Given {
        at,
        faces: n,
        from: k,
    };
    put_formed(file, words, reals, cells, numbers, given)
}
