// Fault rows as a lent slice of structs: put from cells and numbers, taken back into them, and zeroed. No other function reads or writes such a slice;
// the rules and the report run on cells and numbers.
#![tactic(auto)]

ghost use Rattle.std.specs.Prelude.{◌≡◌, ◌≤◌, length};
ghost use Rattle.fault_row.specs.Row.{row_at_of, row_room};
ghost use Rattle.fault_rows.specs.Rows.{zero_row_of, painted, wiped, Taken};

use fault_row::row::{FaultRow, put_row, row_at};

// The first n rows are those of the cells and numbers.
pub fn put_rows(rows: &mut [FaultRow], cells: &[u32], numbers: &[f64], n: usize)
    requires { (n ≤ length rows.old) × (n ≤ row_room (length cells.now) (length numbers.now)) }
    ensures { rows.new ≡ painted (row_at_of cells.now numbers.now) n rows.old }
{
    for i in 0..n {
        rows[i] = row_at(cells, numbers, i);
    }
}

// The first n rows, as cells and numbers.
pub fn take_rows(rows: &[FaultRow], cells: &mut [u32], numbers: &mut [f64], n: usize)
    requires { (n ≤ length rows.now) × (n ≤ row_room (length cells.old) (length numbers.old)) }
    ensures { Taken rows.now n cells.old cells.new numbers.old numbers.new }
{
    for i in 0..n {
        put_row(cells, numbers, i, rows[i]);
    }
}

// The rows from number `from` on are no faults.
pub fn wipe_rows(rows: &mut [FaultRow], from: usize)
    requires { from ≤ length rows.old }
    ensures { rows.new ≡ wiped from rows.old }
{
    rows[from..].fill(zero_row());
}

// No fault.
pub fn zero_row() -> FaultRow
    ensures { result ≡ zero_row_of }
{
    FaultRow {
        kind: 0,
        severity: 0,
        count: 0,
        a: 0,
        b: 0,
        waived: 0,
        x: 0.0,
        y: 0.0,
        z: 0.0,
    }
}
