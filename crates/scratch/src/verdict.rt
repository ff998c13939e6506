// Whether the body of a part can be put: refusals 1 to 9 by the file, 10 by the cells that are lent.
ghost use Rattle.std.specs.Prelude.{◌≡◌};
ghost use Rattle.scratch.specs.Refusal.{body_result_of};

use crate::regions::{Regions, Stages};
use refusal::Refusal;
use solid_faces::verdict::judge;

// Why the body of a part is not put into this many cells: a refusal from 1 to 10.
pub fn body_refusal(file: &[u8], words: usize, reals: usize) -> Result<(), Refusal>
    ensures { result ≡ body_result_of file.now words reals }
{
    judge(file)?;
    let at = Regions::of(
        file,
        Stages {
            segments: false,
            bodies: false,
        },
    );
    if (words < at.words) | (reals < at.reals) {
        return Err(Refusal::TooLittleScratch);
    }
    Ok(())
}
