// Which faces a flaw names, in the ways in which they are found.
ghost use Rattle.std.specs.Prelude.{◌≡◌, ◌+◌, ◌*◌, ◌≤◌, length};
ghost use Rattle.report_faces.specs.Named.{named_of, named_at, is_many};

use fault_row::flaw::{Flaw, flaw_at};

#[derive(Clone, Copy, Debug, PartialEq, Eq)]
pub enum Named {
    NoFace,
    // faces by their numbers
    One(u32),
    Two(u32, u32),
    // those of the readings off the thickness of the sheet, which have a flag
    Off,
    // those that hang over, which have a flag
    Hanging,
    // those of the body whose lowest polygon this is
    Body(u32),
}

#[tactic(auto, unfolding(crate::specs::Named::named_of))]
pub(crate) fn named_of(flaw: Flaw) -> Named
    ensures { result ≡ named_of flaw }
{
    match flaw {
        Flaw::SmallHole(f, ..)
        | Flaw::DeepHoleMax(f, ..)
        | Flaw::DeepHoleStandard(f, ..)
        | Flaw::TightInsideRadius(f, ..)
        | Flaw::DeepInsideCorner(f, ..)
        | Flaw::SheetSmallHole(f, ..)
        | Flaw::PrintSmallHole(f, ..) => Named::One(f),
        Flaw::ThinWall(_, f, g, _)
        | Flaw::SharpInsideCorner(f, g, ..)
        | Flaw::TightBend(f, g, ..)
        | Flaw::ShortFlange(f, g, ..)
        | Flaw::HoleNearBend(f, g, ..)
        | Flaw::HoleNearEdge(f, g, ..)
        | Flaw::ThinnerThanALayer(f, g, ..)
        | Flaw::FewLayers(f, g, ..)
        | Flaw::ThinnerThanTheNozzle(f, g, ..)
        | Flaw::PrintThinWall(_, f, g, _) => Named::Two(f, g),
        Flaw::NoMaterial | Flaw::Material | Flaw::NotClosed(..) => Named::NoFace,
        Flaw::NotOneThickness(..) => Named::Off,
        Flaw::Overhang(..) => Named::Hanging,
        Flaw::EnclosedHollowSla(p, ..) | Flaw::EnclosedHollowSls(p, ..) => Named::Body(p),
    }
}

// Of the flaw of row k.
#[tactic(auto, unfolding(crate::specs::Named::named_at))]
pub(crate) fn named_at(cells: &[u32], numbers: &[f64], k: usize) -> Named
    requires fact_1 { 6 * k + 6 ≤ length cells.now }
    requires fact_2 { 3 * k + 3 ≤ length numbers.now }
    ensures { result ≡ named_at cells.now numbers.now k }
{
    named_of(flaw_at(cells, numbers, k))
}

// Whether they are found from the part.
#[tactic(auto, unfolding(crate::specs::Named::is_many))]
pub(crate) fn is_many(named: Named) -> bool
    ensures { result ≡ is_many named }
{
    matches!(named, Named::Off | Named::Hanging | Named::Body(_))
}
