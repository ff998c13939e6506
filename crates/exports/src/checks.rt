// The check of a part file.
ghost use Rattle.std.specs.Prelude.{◌≡◌, cond};
ghost use Rattle.dfm.specs.dfm_core.specs.Answer.{number_of, length_of, is_accepted};
ghost use Rattle.exports.specs.Check.{Checks};

use dfm::check::check;
use fault_row::row::FaultRow;
use refusal::Refusal;

// The number of the refusal, 0 for none; how many bytes the report has goes into `written`, where there is one.
fn tell(answer: Result<usize, Refusal>, written: &mut usize) -> u32
    ensures { (result ≡ number_of answer) × (written.new ≡ cond (is_accepted answer) (length_of answer) written.old) }
{
    match answer {
        Ok(length) => {
            *written = length;
            0
        }
        Err(refusal) => refusal.number(),
    }
}

// Checks a part file: its report in the first bytes of `report`, how many in `written`, and 0; or the refusal's number, from 1 to 12. As many fault rows
// are lent as `rows` has, up to 2,048.
#[unsafe(no_mangle)]
pub extern "C" fn gablemadder_check(
    file: &[u8],
    words: &mut [u32],
    reals: &mut [f64],
    rows: &mut [FaultRow],
    report: &mut [u8],
    written: &mut usize,
) -> u32
    ensures { Checks file.now words.old words.new reals.old reals.new rows.old rows.new report.old report.new written.old written.new result }
{
    let answer = check(file, words, reals, rows, report);
    tell(answer, written)
}
