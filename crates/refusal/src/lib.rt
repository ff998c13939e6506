// The refusals, and the number of each that C is told: 1 and on, in the order of the cases. specs/Numbers.antt has the same numbers for definitions.
#![tactic(auto)]

ghost use Rattle.std.specs.Prelude.{◌≡◌};
ghost use Rattle.refusal.specs.Numbers.{number};

// Why something is turned back.
#[derive(Clone, Copy, Debug, PartialEq, Eq, Hash)]
pub enum Refusal {
    // ---- a part file, by its bytes
    // shorter than 144 bytes
    TooShort,
    // edition not 1
    WrongEdition,
    // over 16,384 vertices or over 4,096 polygons
    TooLarge,
    // length not 24V + 80P + 144, or `back` wrong
    WrongLength,
    // job out of the rules
    BadJob,
    // coordinate not finite or out of range
    BadVertex,
    // polygon entry out of the rules, or vertices left after the last run
    BadPolygon,
    // ---- by its planes and faces
    // a polygon without a plane: its normal sum is shorter than 1e-14
    FlatPolygon,
    // over 1,024 faces
    TooManyFaces,
    // ---- by what is lent, and by what is found
    // f64 scratch under 24P + 8V + 2,048 or u32 scratch under 12P + 8V + 1,024
    TooLittleScratch,
    // more faults than fault rows lent, or over 2,048
    TooManyFaults,
    // report longer than its buffer
    ReportTooLong,
    // ---- of the decimal writer
    // decimal text: number not finite, below 0, or 2^60 and more; places over 3; buffer under 24 bytes
    NoDecimal,
    // ---- of OBJ text, which 3 and 5 turn back too
    // OBJ text: a line of any other form
    BadLine,
    // OBJ text: a vertex number not yet defined
    UndefinedVertex,
    // OBJ text: output buffer shorter than the part file
    OutputTooShort,
}

impl Refusal {
    // The number of the refusal.
    pub fn number(self) -> u32
        ensures { result ≡ number self }
    {
        match self {
            Refusal::TooShort => 1,
            Refusal::WrongEdition => 2,
            Refusal::TooLarge => 3,
            Refusal::WrongLength => 4,
            Refusal::BadJob => 5,
            Refusal::BadVertex => 6,
            Refusal::BadPolygon => 7,
            Refusal::FlatPolygon => 8,
            Refusal::TooManyFaces => 9,
            Refusal::TooLittleScratch => 10,
            Refusal::TooManyFaults => 11,
            Refusal::ReportTooLong => 12,
            Refusal::NoDecimal => 13,
            Refusal::BadLine => 14,
            Refusal::UndefinedVertex => 15,
            Refusal::OutputTooShort => 16,
        }
    }
}
