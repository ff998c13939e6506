// The cells of lent slices: one value for all of them, and a cell as a number of a place.
#![tactic(auto)]

ghost use Rattle.std.specs.Prelude.{◌≡◌, ◌<◌, length, get_or, replicate};

// The number at a place.
pub fn cell(cells: &[u32], at: usize) -> usize
    requires { at < length cells.now }
    ensures { result ≡ get_or cells.now at 0 }
{
    cells[at] as usize
}

// Every cell gets the value.
pub fn fill<T: Copy>(cells: &mut [T], value: T)
    ensures { cells.new ≡ replicate (length cells.old) value }
{
    for cell in cells.iter_mut() {
        *cell = value;
    }
}
