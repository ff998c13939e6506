// The check with fault rows of its own: what programs call, which lend none.
#![tactic(auto)]

ghost use Rattle.std.specs.Prelude.{◌≤◌};
ghost use Rattle.dfm_own.specs.Own.{OwnOutcome};

use dfm::check::check;
use fault_rows::zero_row;
use refusal::Refusal;

// Passed on to the crates above.
pub use dfm::dfm_core;

// Checks a part file with so many fault rows.
fn check_lending<const ROWS: usize>(
    file: &[u8],
    words: &mut [u32],
    reals: &mut [f64],
    report: &mut [u8],
) -> Result<usize, Refusal>
    requires { ROWS ≤ 512 }
    ensures { OwnOutcome ROWS file.now words.old words.new reals.old reals.new report.old report.new result }
{
    let mut rows = [zero_row(); ROWS];
    check(file, words, reals, &mut rows, report)
}

// Checks a part file with 512 fault rows.
pub fn check_own(
    file: &[u8],
    words: &mut [u32],
    reals: &mut [f64],
    report: &mut [u8],
) -> Result<usize, Refusal>
    ensures { OwnOutcome 512 file.now words.old words.new reals.old reals.new report.old report.new result }
{
    check_lending::<512>(file, words, reals, report)
}

// Checks a part file with no fault row: every part that has a fault is turned back.
pub fn check_rowless(
    file: &[u8],
    words: &mut [u32],
    reals: &mut [f64],
    report: &mut [u8],
) -> Result<usize, Refusal>
    ensures { OwnOutcome 0 file.now words.old words.new reals.old reals.new report.old report.new result }
{
    check_lending::<0>(file, words, reals, report)
}
