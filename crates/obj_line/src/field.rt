// The fields of a line, one after the other.
ghost use Rattle.std.specs.Prelude.{◌≡◌};
ghost use Rattle.obj_line.specs.Work.{spaces_of, Next};

use obj_number::cut::find;

// Where a field begins and ends.
#[derive(Clone, Copy)]
pub struct Span {
    pub from: usize,
    pub to: usize,
}

// How many spaces s begins with.
fn spaces(s: &[u8]) -> usize
    ensures { result ≡ spaces_of s.now }
{
    for (i, &b) in s.iter().enumerate() {
        if b != b' ' {
            return i;
        }
    }
    s.len()
}

// The field after the place `at`, where a field has ended; empty at the line's end.
pub fn next(line: &[u8], at: usize) -> Span
    ensures { Next line.now at result.from result.to }
{
    if line.len() <= at {
        return Span {
            from: line.len(),
            to: line.len(),
        };
    }
    let start = at + 1;
    let from = start + spaces(&line[start..]);
    let to = from + find(&line[from..], b' ');
    Span { from, to }
}
