// Which faults share a line. The work slice has four cells for each fault: a hash of its text and the lowest fault of its line, and at that fault the
// line's count and how many faults it has.
ghost use Rattle.std.specs.Prelude.{◌≡◌, IfSome, ◌+◌, ◌*◌, ◌≤◌, ◌<◌, length, get_or};
ghost use Rattle.fault_lines.specs.Line.{same_heading_of};
ghost use Rattle.file_part.specs.Part.{part_of};
ghost use Rattle.fault_row.specs.Row.{row_at_of};
ghost use Rattle.fault_merge.specs.Hash.{hash_of};
ghost use Rattle.fault_merge.specs.Rows.{heading_at, Rows};
ghost use Rattle.fault_merge.specs.Merged.{lead_in, Hashes, Merged};
ghost use Rattle.fault_merge.specs.Work.{Opened, Added, SameRow};

use crate::recall::{recalled, remember, slot_of};
use crate::same::{same_heading, text_hash};
use fault_row::flaw::flaw_at;
use fault_row::row::row_at;
use list_cells::cell;

// Whether faults j and i share a line. Texts are compared only where their hashes agree.
fn is_same(
    work: &[u32],
    file: &[u8],
    cells: &[u32],
    numbers: &[f64],
    j: usize,
    i: usize,
    hash: u32,
) -> bool
    requires rows_1 { Rows file.now cells.now numbers.now (i + 1) }
    requires rows_2 { j < i }
    requires rows_3 { 4 * i + 4 ≤ length work.now }
    requires hashes_1 { Hashes (part_of file.now) cells.now numbers.now work.now i }
    requires hashes_2 { hash ≡ hash_of (heading_at (part_of file.now) cells.now numbers.now i).text }
    ensures { result ≡ same_heading_of (heading_at (part_of file.now) cells.now numbers.now j) (heading_at (part_of file.now) cells.now numbers.now i) }
{
    work[4 * j] == hash
        && same_heading(file, flaw_at(cells, numbers, j), flaw_at(cells, numbers, i))
}

// The lowest fault on the line of fault i.
fn lead_of(work: &[u32], file: &[u8], cells: &[u32], numbers: &[f64], i: usize, hash: u32) -> usize
    requires rows_1 { Rows file.now cells.now numbers.now (i + 1) }
    requires rows_2 { 4 * i + 4 ≤ length work.now }
    requires hashes_1 { Hashes (part_of file.now) cells.now numbers.now work.now i }
    requires hashes_2 { hash ≡ hash_of (heading_at (part_of file.now) cells.now numbers.now i).text }
    ensures { result ≡ lead_in (part_of file.now) cells.now numbers.now i }
{
    for j in 0..i {
        if is_same(work, file, cells, numbers, j, i, hash) {
            return j;
        }
    }
    i
}

// The cells of fault i: no count yet.
fn put_cells(work: &mut [u32], i: usize, hash: u32, lead: u32)
    requires { 4 * i + 4 ≤ length work.old }
    ensures { Opened work.old i hash lead work.new }
{
    let at = 4 * i;
    work[at] = hash;
    work[at + 1] = lead;
    work[at + 2] = 0;
    work[at + 3] = 0;
}

// One fault more at the line that `lead` begins.
fn add(work: &mut [u32], lead: usize, count: u32)
    requires fact_1 { 4 * lead + 4 ≤ length work.old }
    requires fact_2 { get_or work.old (4 * lead + 2) 0 + count < 4294967296 }
    requires fact_3 { get_or work.old (4 * lead + 3) 0 < 4096 }
    ensures { Added work.old lead count work.new }
{
    let at = 4 * lead;
    work[at + 2] += count;
    work[at + 3] += 1;
}

// The hash of a fault's text, and the lowest fault of its line.
#[derive(Clone, Copy)]
struct Place {
    hash: u32,
    lead: usize,
}

// Those of fault i: of a lower one whose row is the same, where it is known.
fn place_of(
    work: &[u32],
    file: &[u8],
    cells: &[u32],
    numbers: &[f64],
    i: usize,
    known: Option<usize>,
) -> Place
    requires rows_1 { Rows file.now cells.now numbers.now (i + 1) }
    requires rows_2 { 4 * i + 4 ≤ length work.now }
    requires rows_3 { Merged (part_of file.now) cells.now numbers.now work.now i }
    requires same_row { IfSome known (λ j. (j < i) × SameRow (row_at_of cells.now numbers.now j) (row_at_of cells.now numbers.now i)) }
    ensures fact_1 { result.hash ≡ hash_of (heading_at (part_of file.now) cells.now numbers.now i).text }
    ensures fact_2 { result.lead ≡ lead_in (part_of file.now) cells.now numbers.now i }
{
    if let Some(j) = known {
        return Place {
            hash: work[4 * j],
            lead: cell(work, 4 * j + 1),
        };
    }
    let hash = text_hash(file, flaw_at(cells, numbers, i));
    Place {
        hash,
        lead: lead_of(work, file, cells, numbers, i, hash),
    }
}

// Fault i joins its line. The cells of the faults end before number `end`.
fn join(work: &mut [u32], file: &[u8], cells: &[u32], numbers: &[f64], i: usize, end: usize)
    requires rows_1 { Rows file.now cells.now numbers.now (i + 1) }
    requires rows_2 { 4 * i + 4 ≤ end }
    requires rows_3 { end ≤ length work.old }
    requires merged { Merged (part_of file.now) cells.now numbers.now work.old i }
    ensures fact_1 { Merged (part_of file.now) cells.now numbers.now work.new (i + 1) }
    ensures fact_2 { length work.new ≡ length work.old }
{
    let row = row_at(cells, numbers, i);
    let count = row.count;
    let slot = slot_of(row, end, work.len());
    let known = recalled(work, cells, numbers, slot, i);
    let place = place_of(work, file, cells, numbers, i, known);
    let lead = place.lead;
    put_cells(work, i, place.hash, lead as u32);
    add(work, lead, count);
    remember(work, end, slot, i);
}

// The lines of n faults. The cells past theirs may change.
pub fn merge(work: &mut [u32], file: &[u8], cells: &[u32], numbers: &[f64], n: usize)
    requires fact_1 { Rows file.now cells.now numbers.now n }
    requires fact_2 { 4 * n ≤ length work.old }
    ensures fact_1 { Merged (part_of file.now) cells.now numbers.now work.new n }
    ensures fact_2 { length work.new ≡ length work.old }
{
    let end = 4 * n;
    for i in 0..n {
        join(work, file, cells, numbers, i, end);
    }
}
