// Where a byte first stands.
ghost use Rattle.std.specs.Prelude.{◌≡◌, length};
ghost use Rattle.obj_number.specs.Cut.{before};
ghost use Rattle.obj_number.specs.Work.{NoneTo};

// A place up to which there is no b: where one stands, or with fewer than four bytes left.
fn find_by_four(s: &[u8], b: u8) -> usize
    ensures { NoneTo b s.now result }
{
    let mut i: usize = 0;
    // A while: four bytes at a time.
    while 4 <= s.len() - i {
        if s[i] == b {
            return i;
        }
        if s[i + 1] == b {
            return i + 1;
        }
        if s[i + 2] == b {
            return i + 2;
        }
        if s[i + 3] == b {
            return i + 3;
        }
        i += 4;
    }
    i
}

// The number of bytes before the first b; all where there is none.
pub fn find(s: &[u8], b: u8) -> usize
    ensures { result ≡ length (before b s.now) }
{
    for i in find_by_four(s, b)..s.len() {
        if s[i] == b {
            return i;
        }
    }
    s.len()
}
