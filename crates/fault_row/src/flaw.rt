// A fault before it is worded: what a rule found, and the row that keeps it.
ghost use Rattle.std.specs.Prelude.{◌≡◌, ◌+◌, ◌*◌, ◌≤◌, ◌<◌, length};
ghost use Rattle.fault_row.specs.Names.{severity_of};
ghost use Rattle.fault_row.specs.Row.{row_at_of, RowPut};
ghost use Rattle.fault_row.specs.Row as rows;
ghost use Rattle.fault_row.specs.Flaw.{row_of, flaw_of};

use crate::fault::Severity;
use crate::row::{FaultRow, put_row, row_at};

// One for each message of dfm.rs, in its order: the faces f and g by their numbers, and the numbers that the message prints and the job does not give.
#[derive(Clone, Copy)]
pub enum Flaw {
    // ---- machining
    // severity, f, g, thickness
    ThinWall(Severity, u32, u32, f64),
    // f, diameter
    SmallHole(u32, f64),
    // past MAX_REACH: f, diameters deep, diameter, length
    DeepHoleMax(u32, f64, f64, f64),
    // past STANDARD_REACH: f, diameters deep
    DeepHoleStandard(u32, f64),
    // f, radius
    TightInsideRadius(u32, f64),
    // f, tool diameters deep, radius, length
    DeepInsideCorner(u32, f64, f64, f64),
    // f, g, length, the fillet asked for
    SharpInsideCorner(u32, u32, f64, f64),
    // ---- sheet metal
    NoMaterial,
    Material,
    // the thinnest reading, the thickest, the sheet's thickness; its faces are found from the part
    NotOneThickness(f64, f64, f64),
    // f inside, g outside, radius, the least
    TightBend(u32, u32, f64, f64),
    // f, the inside face g of its bend, length, the least
    ShortFlange(u32, u32, f64, f64),
    // f, diameter, the least
    SheetSmallHole(u32, f64, f64),
    // the hole f, the face g, gap, the least
    HoleNearBend(u32, u32, f64, f64),
    HoleNearEdge(u32, u32, f64, f64),
    // ---- printing
    // so many open edges
    NotClosed(u32),
    // f, g, thickness
    ThinnerThanALayer(u32, u32, f64),
    // f, g, thickness, how many layers
    FewLayers(u32, u32, f64, f64),
    ThinnerThanTheNozzle(u32, u32, f64),
    // severity, f, g, thickness
    PrintThinWall(Severity, u32, u32, f64),
    // f, diameter
    PrintSmallHole(u32, f64),
    // how many faces, which are found from the part, and their area
    Overhang(u32, f64),
    // in resin: the lowest polygon of the hollow, by which its faces are found, and its volume
    EnclosedHollowSla(u32, f64),
    // in powder
    EnclosedHollowSls(u32, f64),
}

// The kind whose text is made from a.
pub const NOT_CLOSED: u32 = 16;

// No TryFrom: the definition has an answer for whatever stands in a row.
#[tactic(auto, unfolding(crate::specs::Names::severity_of))]
pub fn severity_of(rank: u32) -> Severity
    ensures { result ≡ severity_of rank }
{
    match rank {
        0 => Severity::Error,
        1 => Severity::Warning,
        _ => Severity::Note,
    }
}

// A row of a kind and a severity that stands: a and b, x, y and z.
fn row(kind: u32, severity: u32, a: u32, b: u32, x: f64, y: f64, z: f64) -> FaultRow
    ensures { result ≡ rows.row kind severity 1 a b 0 x y z }
{
    FaultRow {
        kind,
        severity,
        count: 1,
        a,
        b,
        waived: 0,
        x,
        y,
        z,
    }
}

// The row of a flaw: the one table of what a kind's row holds. 0 is no fault; a new kind takes the next number.
#[tactic(auto, unfolding(crate::specs::Flaw::row_of))]
pub fn row_of(flaw: Flaw) -> FaultRow
    ensures { result ≡ row_of flaw }
{
    match flaw {
        Flaw::ThinWall(severity, a, b, x) => row(1, severity.into(), a, b, x, 0.0, 0.0),
        Flaw::SmallHole(a, d) => row(2, 1, a, 0, d, 0.0, 0.0),
        Flaw::DeepHoleMax(a, ratio, d, length) => row(3, 1, a, 0, ratio, d, length),
        Flaw::DeepHoleStandard(a, ratio) => row(4, 2, a, 0, ratio, 0.0, 0.0),
        Flaw::TightInsideRadius(a, radius) => row(5, 1, a, 0, radius, 0.0, 0.0),
        Flaw::DeepInsideCorner(a, ratio, radius, length) => row(6, 1, a, 0, ratio, radius, length),
        Flaw::SharpInsideCorner(a, b, length, fillet) => row(7, 1, a, b, length, fillet, 0.0),
        Flaw::NoMaterial => row(8, 2, 0, 0, 0.0, 0.0, 0.0),
        Flaw::Material => row(9, 0, 0, 0, 0.0, 0.0, 0.0),
        Flaw::NotOneThickness(lo, hi, thickness) => row(10, 0, 0, 0, lo, hi, thickness),
        Flaw::TightBend(a, b, radius, least) => row(11, 0, a, b, radius, least, 0.0),
        Flaw::ShortFlange(a, b, length, least) => row(12, 1, a, b, length, least, 0.0),
        Flaw::SheetSmallHole(a, d, least) => row(13, 1, a, 0, d, least, 0.0),
        Flaw::HoleNearBend(a, b, gap, need) => row(14, 1, a, b, gap, need, 0.0),
        Flaw::HoleNearEdge(a, b, gap, need) => row(15, 1, a, b, gap, need, 0.0),
        Flaw::NotClosed(edges) => row(NOT_CLOSED, 0, edges, 0, 0.0, 0.0, 0.0),
        Flaw::ThinnerThanALayer(a, b, x) => row(17, 0, a, b, x, 0.0, 0.0),
        Flaw::FewLayers(a, b, x, layers) => row(18, 1, a, b, x, layers, 0.0),
        Flaw::ThinnerThanTheNozzle(a, b, x) => row(19, 0, a, b, x, 0.0, 0.0),
        Flaw::PrintThinWall(severity, a, b, x) => row(20, severity.into(), a, b, x, 0.0, 0.0),
        Flaw::PrintSmallHole(a, d) => row(21, 1, a, 0, d, 0.0, 0.0),
        Flaw::Overhang(count, area) => FaultRow {
            kind: 22,
            severity: 1,
            count,
            a: 0,
            b: 0,
            waived: 0,
            x: area,
            y: 0.0,
            z: 0.0,
        },
        Flaw::EnclosedHollowSla(p, volume) => row(23, 1, p, 0, volume, 0.0, 0.0),
        Flaw::EnclosedHollowSls(p, volume) => row(24, 0, p, 0, volume, 0.0, 0.0),
    }
}

// The flaw that a row keeps; for a number that is no kind's, as for 16.
#[tactic(auto, unfolding(crate::specs::Flaw::flaw_of))]
pub fn flaw_of(row: FaultRow) -> Flaw
    ensures { result ≡ flaw_of row }
{
    let kind = row.kind;
    let a = row.a;
    let b = row.b;
    let x = row.x;
    let y = row.y;
    let z = row.z;
    match kind {
        1 => Flaw::ThinWall(severity_of(row.severity), a, b, x),
        2 => Flaw::SmallHole(a, x),
        3 => Flaw::DeepHoleMax(a, x, y, z),
        4 => Flaw::DeepHoleStandard(a, x),
        5 => Flaw::TightInsideRadius(a, x),
        6 => Flaw::DeepInsideCorner(a, x, y, z),
        7 => Flaw::SharpInsideCorner(a, b, x, y),
        8 => Flaw::NoMaterial,
        9 => Flaw::Material,
        10 => Flaw::NotOneThickness(x, y, z),
        11 => Flaw::TightBend(a, b, x, y),
        12 => Flaw::ShortFlange(a, b, x, y),
        13 => Flaw::SheetSmallHole(a, x, y),
        14 => Flaw::HoleNearBend(a, b, x, y),
        15 => Flaw::HoleNearEdge(a, b, x, y),
        17 => Flaw::ThinnerThanALayer(a, b, x),
        18 => Flaw::FewLayers(a, b, x, y),
        19 => Flaw::ThinnerThanTheNozzle(a, b, x),
        20 => Flaw::PrintThinWall(severity_of(row.severity), a, b, x),
        21 => Flaw::PrintSmallHole(a, x),
        22 => Flaw::Overhang(row.count, x),
        23 => Flaw::EnclosedHollowSla(a, x),
        24 => Flaw::EnclosedHollowSls(a, x),
        _ => Flaw::NotClosed(a),
    }
}

// Puts the row of a flaw as row k, as `put_row` does.
#[tactic(auto, using(crate::proofs::RowLaws::row_put_same))]
pub fn put_flaw(cells: &mut [u32], numbers: &mut [f64], k: usize, flaw: Flaw) -> usize
    requires { k < 4294967296 }
    ensures { RowPut k (row_of flaw) cells.old cells.new numbers.old numbers.new result }
{
    put_row(cells, numbers, k, row_of(flaw))
}

// The flaw of row k, as it stands in the slices.
pub fn flaw_at(cells: &[u32], numbers: &[f64], k: usize) -> Flaw
    requires fact_1 { 6 * k + 6 ≤ length cells.now }
    requires fact_2 { 3 * k + 3 ≤ length numbers.now }
    ensures { result ≡ flaw_of (row_at_of cells.now numbers.now k) }
{
    flaw_of(row_at(cells, numbers, k))
}
