// Fault rows on plain number slices: six u32 cells and three f64 numbers each.
ghost use Rattle.std.specs.Prelude.{◌≡◌, ◌+◌, ◌*◌, ◌≤◌, ◌<◌, length};
ghost use Rattle.fault_row.specs.Row.{row_at_of, row_room, RowPut};

// What is kept of a fault, so that its text and its faces follow from the row and the part. A row of zeros is no fault. 48 bytes, for C too.
#[repr(C)]
#[derive(Clone, Copy)]
pub struct FaultRow {
    // The rule and the message, from 1 on.
    pub kind: u32,
    // Its rank, from 0 to 2.
    pub severity: u32,
    pub count: u32,
    // Faces by their numbers, or what they are found by.
    pub a: u32,
    pub b: u32,
    // 0 while the fault stands.
    pub waived: u32,
    // The numbers that the message prints and the job does not give.
    pub x: f64,
    pub y: f64,
    pub z: f64,
}

// More faults turn a part back (refusal 11).
const MOST: usize = 2048;

// How many rows are lent: as many as both slices hold, and no more than count.
#[tactic(auto, unfolding(crate::specs::Row::row_room))]
pub fn rows_lent(cells: usize, numbers: usize) -> usize
    ensures { result ≡ row_room cells numbers }
{
    MOST.min((cells / 6).min(numbers / 3))
}

// Puts row k where it is lent; else it is only counted. The number of rows then, so that faults past the rows lent are known too.
pub fn put_row(cells: &mut [u32], numbers: &mut [f64], k: usize, row: FaultRow) -> usize
    requires { k < 4294967296 }
    ensures { RowPut k row cells.old cells.new numbers.old numbers.new result }
{
    if rows_lent(cells.len(), numbers.len()) <= k {
        return k + 1;
    }
    let at = 6 * k;
    cells[at] = row.kind;
    cells[at + 1] = row.severity;
    cells[at + 2] = row.count;
    cells[at + 3] = row.a;
    cells[at + 4] = row.b;
    cells[at + 5] = row.waived;
    let number = 3 * k;
    numbers[number] = row.x;
    numbers[number + 1] = row.y;
    numbers[number + 2] = row.z;
    k + 1
}

// Row k, as it stands in the slices.
#[tactic(auto, unfolding(crate::specs::Row::row_at_of))]
pub fn row_at(cells: &[u32], numbers: &[f64], k: usize) -> FaultRow
    requires fact_1 { 6 * k + 6 ≤ length cells.now }
    requires fact_2 { 3 * k + 3 ≤ length numbers.now }
    ensures { result ≡ row_at_of cells.now numbers.now k }
{
    let at = 6 * k;
    let number = 3 * k;
    FaultRow {
        kind: cells[at],
        severity: cells[at + 1],
        count: cells[at + 2],
        a: cells[at + 3],
        b: cells[at + 4],
        waived: cells[at + 5],
        x: numbers[number],
        y: numbers[number + 1],
        z: numbers[number + 2],
    }
}
