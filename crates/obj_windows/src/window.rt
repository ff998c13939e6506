// The coordinates of the corners. A text may define any number of vertices, and a corner may name any of them: so the vertices are kept in
// a window of 16,384, and whenever it is full each corner takes its coordinate if its number is one of the window's. The time for that is
// that of the vertices passed.
ghost use Rattle.std.specs.Prelude.{◌≡◌, ◌≤◌, length};
ghost use Rattle.obj_windows.specs.Work.{picked, Flushed};

// The coordinate of a corner.
fn pick(slots: &[f64], base: u64, count: u64, number: u64, old: f64) -> f64
    requires { count ≤ length slots.now }
    ensures { result ≡ picked slots.now base count number old }
{
    if number <= base {
        return old;
    }
    let j = number - base - 1;
    if j < count {
        return slots[j as usize];
    }
    old
}

// Each corner takes its coordinate if its number is one of the window's.
pub fn flush(
    numbers: &[u64],
    used: usize,
    base: u64,
    slots: &[f64],
    count: u64,
    corners: &mut [f64],
)
    requires fact_1 { used ≤ length numbers.now }
    requires fact_2 { used ≤ length corners.old }
    requires fact_3 { count ≤ length slots.now }
    ensures { Flushed numbers.now used base slots.now count corners.old corners.new }
{
    for c in 0..used {
        corners[c] = pick(slots, base, count, numbers[c], corners[c]);
    }
}
