// Square roots.
ghost use Rattle.std.specs.Prelude.{◌≡◌};
ghost use Rattle.std.specs.Float.{binary64};
ghost use Rattle.std.specs.Float.Ieee.{of_bits, to_bits};
ghost use Rattle.num_root.specs.Root.{root};

#[unsafe(no_mangle)]
pub extern "C" fn gablemadder_sqrt(x: f64) -> f64
    ensures { result ≡ root x }
{
    num_root::sqrt(x)
}

#[unsafe(no_mangle)]
pub extern "C" fn gablemadder_sqrt_bits(b: u64) -> u64
    ensures { result ≡ to_bits binary64 (root (of_bits binary64 b)) }
{
    num_root::sqrt_bits(b)
}
