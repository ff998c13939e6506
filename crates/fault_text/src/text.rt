// How messages write a length.
ghost use Rattle.std.specs.Prelude.{◌≡◌};
ghost use Rattle.num_text.specs.Text.{Adds};
ghost use Rattle.fault_text.specs.Text.{mm_places, mm};

use num_text::text::Text;

// How many decimals a length has: a third one below 0.1 mm.
fn mm_places(x: f64) -> u32
    ensures { result ≡ mm_places x }
{
    if x < 0.1 {
        return 3;
    }
    2
}

// dfm.rs's `mm`.
pub fn put_mm(text: &mut Text<'_>, x: f64)
    ensures { Adds text.old (mm x) text.new }
{
    text.put_decimal(x, mm_places(x));
    text.put_bytes(b" mm");
}
