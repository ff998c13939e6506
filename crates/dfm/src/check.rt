// The check: dfm.rs's `check_with`, from the part file's bytes to the report's.
ghost use Rattle.std.specs.Prelude.{◌≡◌, ◌≤◌, min, length};
ghost use Rattle.fault_row.specs.Row.{row_room};
ghost use Rattle.dfm.specs.Check.{Outcome};

use dfm_core::answer::wipe_from;
use dfm_core::halves::{fault_count, find_faults, finish};
use fault_row::row::FaultRow;
use fault_rows::{put_rows, take_rows, wipe_rows};
use refusal::Refusal;

// The check with cells and numbers that hold every row lent that counts. The faults go into the rows, and the lines are made from those.
fn check_in(
    file: &[u8],
    words: &mut [u32],
    reals: &mut [f64],
    rows: &mut [FaultRow],
    report: &mut [u8],
    cells: &mut [u32],
    numbers: &mut [f64],
) -> Result<usize, Refusal>
    requires { min (row_room (length cells.old) (length numbers.old)) (length rows.old) ≡ min 2048 (length rows.old) }
    ensures { Outcome file.now words.old words.new reals.old reals.new rows.old rows.new report.old report.new result }
{
    let found = find_faults(file, words, reals, cells, numbers, rows.len());
    let faults = fault_count(found);
    put_rows(rows, cells, numbers, faults);
    take_rows(rows, cells, numbers, faults);
    let answer = finish(file, words, reals, cells, numbers, found, report);
    wipe_rows(rows, wipe_from(answer, rows.len()));
    answer
}

// The check with so many cells and numbers, which hold every row lent that counts.
fn check_with<const CELLS: usize, const NUMBERS: usize>(
    file: &[u8],
    words: &mut [u32],
    reals: &mut [f64],
    rows: &mut [FaultRow],
    report: &mut [u8],
) -> Result<usize, Refusal>
    requires small { (CELLS ≤ 12288) × (NUMBERS ≤ 6144) }
    requires room { min (row_room CELLS NUMBERS) (length rows.old) ≡ min 2048 (length rows.old) }
    ensures { Outcome file.now words.old words.new reals.old reals.new rows.old rows.new report.old report.new result }
{
    let mut cells = [0u32; CELLS];
    let mut numbers = [0.0f64; NUMBERS];
    check_in(file, words, reals, rows, report, &mut cells, &mut numbers)
}

// Checks a part file. As many fault rows are lent as `rows` has, up to 2,048. A refusal from 1 to 10 changes nothing; else the scratch and the rows are
// all zero then, and the report's first bytes hold the report, where it is accepted. To zero cells for 2,048 rows takes a fifth of the check of a small
// part, so there are cells for 64 where no more are lent.
pub fn check(
    file: &[u8],
    words: &mut [u32],
    reals: &mut [f64],
    rows: &mut [FaultRow],
    report: &mut [u8],
) -> Result<usize, Refusal>
    ensures { Outcome file.now words.old words.new reals.old reals.new rows.old rows.new report.old report.new result }
{
    if rows.len() <= 64 {
        return check_with::<384, 192>(file, words, reals, rows, report);
    }
    check_with::<12_288, 6_144>(file, words, reals, rows, report)
}
