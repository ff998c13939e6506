// `Tight bend`.
ghost use Rattle.std.specs.Prelude.{◌+◌, ◌≤◌, ◌<◌};
ghost use Rattle.file_part.specs.Part.{part_of};
ghost use Rattle.measure_sizes.specs.Reading.{ReadingBounds};
ghost use Rattle.sheet_bends.specs.Work.{SheetStands};
ghost use Rattle.fault_row.specs.Flaws.{FlawsPut};
ghost use Rattle.rule_flanges.specs.fault_text.specs.Good.{Good};
ghost use Rattle.rule_sheet.specs.Tight.{tight_bends};
ghost use Rattle.rule_sheet.specs.Work.{TightPut};

use crate::material::ratio_of;
use fault_row::flaw::{Flaw, put_flaw};
use round_all::round::{Round, round_at};
use rule_flanges::fault_text::job::job_of;
use sheet_bends::{Sheet, bend_at};

// The row of a bend whose inside is tighter than it may be, after `from` others. How many there are then.
fn put_tight_bend(
    cells: &mut [u32],
    numbers: &mut [f64],
    from: usize,
    inner: Round,
    outer: usize,
    least: f64,
) -> usize
    requires fact_1 { from < 4294967296 }
    requires fact_2 { inner.face < 4294967296 }
    requires fact_3 { outer < 4294967296 }
    ensures { TightPut inner outer least from cells.old cells.new numbers.old numbers.new result }
{
    if inner.radius + 1e-9 < least {
        let flaw = Flaw::TightBend(inner.face as u32, outer as u32, inner.radius, least);
        return put_flaw(cells, numbers, from, flaw);
    }
    from
}

// The tight bends of a sheet, as rows after `from` others. How many faults there are then.
pub fn put_tight_bends(
    file: &[u8],
    words: &[u32],
    reals: &[f64],
    cells: &mut [u32],
    numbers: &mut [f64],
    sheet: Sheet,
    from: usize,
) -> usize
    requires fact_1 { SheetStands file.now sheet words.now reals.now }
    requires fact_2 { ReadingBounds sheet.thickness }
    requires fact_3 { from ≤ 1 }
    ensures fact_1 { FlawsPut (Good (part_of file.now)) from (tight_bends (part_of file.now) sheet.thickness) cells.old cells.new numbers.old numbers.new result }
    ensures fact_2 { result ≤ from + 1024 }
{
    let at = sheet.edges.at;
    let least = ratio_of(job_of(file)) * sheet.thickness;
    let mut k = from;
    for face in 0..sheet.edges.faces {
        let Some(outside) = bend_at(file, words, reals, sheet, face) else {
            continue;
        };
        let inner = round_at(file, words, reals, at, face);
        k = put_tight_bend(cells, numbers, k, inner, outside, least);
    }
    k
}
