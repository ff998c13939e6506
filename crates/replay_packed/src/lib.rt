// Part files packed for the replayed lists: each run of zero bytes as a zero and the run's length.
#![tactic(auto)]

ghost use Rattle.std.specs.Prelude.{false, [], ◌∷◌, replicate};
ghost use Rattle.num_text.specs.Put.{Put};
ghost use Rattle.num_text.specs.Text.{Adds};
ghost use Rattle.replay_packed.specs.Packed.{unpacked};

use num_text::text::Text;

// So many zeros.
fn put_zeros(file: &mut Text<'_>, count: u8)
    ensures { Adds file.old (replicate count 0) file.new }
{
    for _ in 0..count {
        file.put_byte(0);
    }
}

// A byte of a packed file: after a zero it says how many zeros there are.
fn put_packed(file: &mut Text<'_>, b: u8, after_zero: bool)
    ensures { Adds file.old (unpacked after_zero (b ∷ [])) file.new }
{
    if after_zero {
        put_zeros(file, b);
    } else if b != 0 {
        file.put_byte(b);
    }
}

// The file that was packed.
fn put_unpacked(file: &mut Text<'_>, packed: &[u8])
    ensures { Adds file.old (unpacked false packed.now) file.new }
{
    let mut after_zero = false;
    for &b in packed {
        put_packed(file, b, after_zero);
        after_zero = !after_zero & (b == 0);
    }
}

// The file that was packed, in the first bytes of `file`. Its length, which is more than that of `file` where it does not fit.
pub fn unpack(file: &mut [u8], packed: &[u8]) -> usize
    ensures { Put file.old 0 (unpacked false packed.now) file.new result }
{
    let mut file = Text { out: file, at: 0 };
    put_unpacked(&mut file, packed);
    file.at
}
