// Faults whose rows agree have one text, so that the second one's need not be written. A cell past those of the faults has the last fault that fell
// on it; what stands there is only a guess, and the rows are compared.
ghost use Rattle.std.specs.Prelude.{◌≡◌, IfSome, true, ◌+◌, ◌*◌, ◌≤◌, ◌<◌, length};
ghost use Rattle.fault_row.specs.Row.{row_at_of};
ghost use Rattle.fault_row.specs.Flaw.{not_closed};
ghost use Rattle.fault_merge.specs.Work.{Front, SameRow};

use fault_row::flaw::NOT_CLOSED;
use fault_row::row::{FaultRow, row_at};
use num_real::bits::to_bits;

// Whether two numbers have the same bits.
// Not `==`: numbers are told by their bits.
fn same_bits(x: f64, y: f64) -> bool
    ensures { result ≡ true → x ≡ y }
{
    to_bits(x) == to_bits(y)
}

// Whether two rows agree in a, where it is the number of open edges.
fn same_edges(r: FaultRow, s: FaultRow) -> bool
    ensures { result ≡ true → r.kind ≡ not_closed → r.a ≡ s.a }
{
    r.kind != NOT_CLOSED || r.a == s.a
}

// Whether two rows agree in all that severity, rule and text are made from.
fn same_row(r: FaultRow, s: FaultRow) -> bool
    ensures { result ≡ true → SameRow r s }
{
    r.kind == s.kind
        && r.severity == s.severity
        && same_edges(r, s)
        && same_bits(r.x, s.x)
        && same_bits(r.y, s.y)
        && same_bits(r.z, s.z)
}

// A mix of a number's bits: their remainder by a prime.
fn mixed(x: f64) -> u64
    ensures { result < 4093 }
{
    to_bits(x) % 4093
}

// The cell from `end` to before n in which a fault with this row may stand, or n where there is none.
// A number, not an Option: a place past the end is what the tests of those who use it turn back.
pub(crate) fn slot_of(row: FaultRow, end: usize, n: usize) -> usize
    requires { end ≤ n }
    ensures { end ≤ result }
{
    if n <= end {
        return n;
    }
    let cells = (n - end) as u64;
    end + ((mixed(row.x) + mixed(row.y)) % cells) as usize
}

// A lower fault whose row is that of fault i, where one is known.
pub(crate) fn recalled(
    work: &[u32],
    cells: &[u32],
    numbers: &[f64],
    slot: usize,
    i: usize,
) -> Option<usize>
    requires fact_1 { 6 * i + 6 ≤ length cells.now }
    requires fact_2 { 3 * i + 3 ≤ length numbers.now }
    ensures { IfSome result (λ j. (j < i) × SameRow (row_at_of cells.now numbers.now j) (row_at_of cells.now numbers.now i)) }
{
    let j = *work.get(slot)? as usize;
    if j < i && same_row(row_at(cells, numbers, j), row_at(cells, numbers, i)) {
        return Some(j);
    }
    None
}

// Fault i is the last that fell on the cell.
pub(crate) fn remember(work: &mut [u32], end: usize, slot: usize, i: usize)
    requires fact_1 { end ≤ slot }
    requires fact_2 { i < 2048 }
    ensures { Front end work.old work.new }
{
    if slot < work.len() {
        work[slot] = i as u32;
    }
}
