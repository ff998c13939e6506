// The answer to a part file: how many bytes the report has, or the refusal, one of 1 to 12. By the file: specs/Answer.antt.
ghost use Rattle.std.specs.Prelude.{◌≡◌};
ghost use Rattle.dfm_core.specs.Work.{keeps_buffers, wipe_from};

use refusal::Refusal;

// Whether the buffers stay as they were: after a refusal from 1 to 10.
pub(crate) fn keeps_buffers(answer: Result<usize, Refusal>) -> bool
    ensures { result ≡ keeps_buffers answer }
{
    match answer {
        Ok(_) => false,
        Err(refusal) => refusal.number() <= Refusal::TooLittleScratch.number(),
    }
}

// From which number on the rows lent are zeroed at the end: all, or none after a refusal that changes no buffer.
pub fn wipe_from(answer: Result<usize, Refusal>, rows: usize) -> usize
    ensures { result ≡ wipe_from answer rows }
{
    if keeps_buffers(answer) {
        return rows;
    }
    0
}
