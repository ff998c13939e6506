// A float and its bits: its pattern, and its exponent and digits. The language defines a pattern only off a NaN; these functions are total.
ghost use Rattle.std.specs.Prelude.{◌≡◌};
ghost use Rattle.std.specs.Float.{binary64};
ghost use Rattle.std.specs.Float.Ieee.{of_bits, to_bits};
ghost use Rattle.num_real.specs.Bits.{Decomposed};

// The float with the pattern b; every NaN's pattern is the one NaN.
pub fn from_bits(b: u64) -> f64
    ensures { result ≡ of_bits binary64 b }
{
    if 0x7ff0_0000_0000_0000 < b % 0x8000_0000_0000_0000 {
        return 0.0 / 0.0;
    }
    f64::from_bits(b)
}

// The pattern of x; that of a NaN is 7FF8000000000000.
pub fn to_bits(x: f64) -> u64
    ensures { result ≡ to_bits binary64 x }
{
    if x != x {
        return 0x7ff8_0000_0000_0000;
    }
    f64::to_bits(x)
}

// The size of a finite float: digits * 2^shift times the smallest positive f64, 2^-1074.
#[derive(Clone, Copy)]
pub struct Binary {
    pub digits: u64,
    pub shift: u64,
}

// Takes the exponent and the fraction from the bits, by shifts and masks. An infinity and a NaN count as zero.
pub fn decompose(x: f64) -> Binary
    ensures { Decomposed x result.digits result.shift }
{
    let infinity = f64::from_bits(0x7ff0_0000_0000_0000);
    if x < infinity {
        if -infinity < x {
            let bits: u64 = f64::to_bits(x);
            let field: u64 = (bits >> 52) & 0x7ff;
            let fraction: u64 = bits & 0xf_ffff_ffff_ffff;
            if field == 0 {
                return Binary {
                    digits: fraction,
                    shift: 0,
                };
            }
            return Binary {
                digits: fraction | 0x10_0000_0000_0000,
                shift: field - 1,
            };
        }
    }
    Binary {
        digits: 0,
        shift: 0,
    }
}
