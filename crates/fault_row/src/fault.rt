// The severities and the rules of faults.
ghost use Rattle.std.specs.Prelude.{◌≡◌};
ghost use Rattle.fault_row.specs.Names.{severity_rank, severity_name, rule_rank, rule_name};

// The worst first.
#[derive(Clone, Copy, Debug, PartialEq, Eq, PartialOrd, Ord, Hash)]
pub enum Severity {
    // Cannot be made as drawn, or will likely fail.
    Error,
    // Can be made, at extra cost or risk.
    Warning,
    // Worth knowing.
    Note,
}

impl Severity {
    #[tactic(auto, unfolding(crate::specs::Names::severity_name))]
    pub fn name(self) -> &'static [u8]
        ensures { result.now ≡ severity_name self }
    {
        match self {
            Severity::Error => b"Error",
            Severity::Warning => b"Warning",
            Severity::Note => b"Note",
        }
    }
}

// The rank that a row keeps.
impl From<Severity> for u32 {
    ghost from_gives = { λ severity n. n ≡ severity_rank severity };

    #[tactic(auto, using(crate::proofs::NameLaws::severity_tag))]
    fn from(severity: Severity) -> u32 {
        severity as u32
    }
}

// The rules of all processes, in the byte order of their names.
#[derive(Clone, Copy, Debug, PartialEq, Eq, PartialOrd, Ord, Hash)]
pub enum Rule {
    DeepHole,
    DeepInsideCorner,
    EnclosedHollow,
    FewLayers,
    HoleTooClose,
    Material,
    NoMaterial,
    NotClosed,
    NotOneThickness,
    Overhang,
    SharpInsideCorner,
    ShortFlange,
    SmallHole,
    ThinWall,
    ThinnerThanALayer,
    ThinnerThanTheNozzle,
    TightBend,
    TightInsideRadius,
}

impl Rule {
    #[tactic(auto, unfolding(crate::specs::Names::rule_name))]
    pub fn name(self) -> &'static [u8]
        ensures { result.now ≡ rule_name self }
    {
        match self {
            Rule::DeepHole => b"Deep hole",
            Rule::DeepInsideCorner => b"Deep inside corner",
            Rule::EnclosedHollow => b"Enclosed hollow",
            Rule::FewLayers => b"Few layers",
            Rule::HoleTooClose => b"Hole too close",
            Rule::Material => b"Material",
            Rule::NoMaterial => b"No material",
            Rule::NotClosed => b"Not closed",
            Rule::NotOneThickness => b"Not one thickness",
            Rule::Overhang => b"Overhang",
            Rule::SharpInsideCorner => b"Sharp inside corner",
            Rule::ShortFlange => b"Short flange",
            Rule::SmallHole => b"Small hole",
            Rule::ThinWall => b"Thin wall",
            Rule::ThinnerThanALayer => b"Thinner than a layer",
            Rule::ThinnerThanTheNozzle => b"Thinner than the nozzle",
            Rule::TightBend => b"Tight bend",
            Rule::TightInsideRadius => b"Tight inside radius",
        }
    }

    // The place of its name in the byte order of all: the cases stand in that order.
    #[tactic(auto, using(crate::proofs::NameLaws::rule_tag))]
    pub fn rank(self) -> usize
        ensures { result ≡ rule_rank self }
    {
        self as usize
    }
}
