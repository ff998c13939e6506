// The rule of a flaw, and where its line stands.
ghost use Rattle.std.specs.Prelude.{◌≡◌};
ghost use Rattle.file_part.specs.Part.{Part};
ghost use Rattle.fault_text.specs.Told.{told};
ghost use Rattle.fault_merge.specs.Rows.{rank_of};

use fault_row::fault::Rule;
use fault_row::flaw::{Flaw, row_of};

// The rule of a flaw, as it is told in whatever part.
#[tactic(auto, unfolding(fault_text::specs::Told::told))]
pub fn rule_of(flaw: Flaw) -> Rule
    ensures { (t : Part) → result ≡ (told t flaw).heading.rule }
{
    match flaw {
        Flaw::ThinWall(..) | Flaw::PrintThinWall(..) => Rule::ThinWall,
        Flaw::SmallHole(..) | Flaw::SheetSmallHole(..) | Flaw::PrintSmallHole(..) =>
            Rule::SmallHole,
        Flaw::DeepHoleMax(..) | Flaw::DeepHoleStandard(..) => Rule::DeepHole,
        Flaw::TightInsideRadius(..) => Rule::TightInsideRadius,
        Flaw::DeepInsideCorner(..) => Rule::DeepInsideCorner,
        Flaw::SharpInsideCorner(..) => Rule::SharpInsideCorner,
        Flaw::NoMaterial => Rule::NoMaterial,
        Flaw::Material => Rule::Material,
        Flaw::NotOneThickness(..) => Rule::NotOneThickness,
        Flaw::TightBend(..) => Rule::TightBend,
        Flaw::ShortFlange(..) => Rule::ShortFlange,
        Flaw::HoleNearBend(..) | Flaw::HoleNearEdge(..) => Rule::HoleTooClose,
        Flaw::NotClosed(..) => Rule::NotClosed,
        Flaw::ThinnerThanALayer(..) => Rule::ThinnerThanALayer,
        Flaw::FewLayers(..) => Rule::FewLayers,
        Flaw::ThinnerThanTheNozzle(..) => Rule::ThinnerThanTheNozzle,
        Flaw::Overhang(..) => Rule::Overhang,
        Flaw::EnclosedHollowSla(..) | Flaw::EnclosedHollowSls(..) => Rule::EnclosedHollow,
    }
}

// The rank of a flaw's line: by severity, then by the name of the rule. There are 54.
pub fn rank_of(flaw: Flaw) -> usize
    ensures { (t : Part) → result ≡ rank_of (told t flaw).heading }
{
    let row = row_of(flaw);
    row.severity as usize * 18 + rule_of(flaw).rank()
}
