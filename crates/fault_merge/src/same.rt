// Whether two faults agree in severity, rule and text, and a hash of a text: texts whose hashes differ need not be compared.
ghost use Rattle.std.specs.Prelude.{◌≡◌, ◌≤◌, length, take};
ghost use Rattle.file_part.specs.Part.{part_of};
ghost use Rattle.solid_faces.specs.Faces.{Checked};
ghost use Rattle.fault_lines.specs.Line.{same_text, same_heading_of};
ghost use Rattle.fault_text.specs.Told.{text_of};
ghost use Rattle.fault_text.specs.Good.{Good};
ghost use Rattle.fault_merge.specs.Hash.{hash_of};
ghost use Rattle.fault_merge.specs.Rows.{heading_of};

use crate::rule::rank_of;
use fault_row::flaw::Flaw;
use fault_text::message::put_message;
use num_text::text::Text;

// A hash of a text.
fn hash(text: &[u8]) -> u32
    ensures { result ≡ hash_of text.now }
{
    let mut h: u64 = 0;
    for x in text {
        h = (h * 16777619 + *x as u64) % 4294967296;
    }
    h as u32
}

// A hash of a fault's text.
pub fn text_hash(file: &[u8], flaw: Flaw) -> u32
    requires fact_1 { Checked file.now }
    requires fact_2 { Good (part_of file.now) flaw }
    ensures { result ≡ hash_of (text_of (part_of file.now) flaw) }
{
    let mut bytes = [0u8; 512];
    let mut text = Text {
        out: &mut bytes,
        at: 0,
    };
    put_message(&mut text, file, flaw);
    hash(text.written())
}

// Whether the texts of two faults agree, byte for byte.
fn same_text(file: &[u8], r: Flaw, s: Flaw) -> bool
    requires fact_1 { Checked file.now }
    requires fact_2 { Good (part_of file.now) r }
    requires fact_3 { Good (part_of file.now) s }
    ensures { result ≡ same_text (text_of (part_of file.now) r) (text_of (part_of file.now) s) }
{
    let mut first = [0u8; 512];
    let mut a = Text {
        out: &mut first,
        at: 0,
    };
    put_message(&mut a, file, r);
    let mut second = [0u8; 512];
    let mut b = Text {
        out: &mut second,
        at: 0,
    };
    put_message(&mut b, file, s);
    a.written() == b.written()
}

// Whether two faults agree in severity, rule and text. Severity and rule agree where the ranks do.
pub fn same_heading(file: &[u8], r: Flaw, s: Flaw) -> bool
    requires fact_1 { Checked file.now }
    requires fact_2 { Good (part_of file.now) r }
    requires fact_3 { Good (part_of file.now) s }
    ensures { result ≡ same_heading_of (heading_of (part_of file.now) r) (heading_of (part_of file.now) s) }
{
    rank_of(r) == rank_of(s) && same_text(file, r, s)
}
