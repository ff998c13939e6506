// Rust's min, max and abs of f64.
ghost use Rattle.std.specs.Prelude.{◌≡◌};
ghost use Rattle.num_real.specs.Select.{min_of, max_of, abs_of};

// a.min(b)
// Not std's min: of two equal numbers the first stays, as in the definition.
pub fn min(a: f64, b: f64) -> f64
    ensures { result ≡ min_of a b }
{
    if a.is_nan() {
        return b;
    }
    if b < a {
        return b;
    }
    a
}

// a.max(b)
pub fn max(a: f64, b: f64) -> f64
    ensures { result ≡ max_of a b }
{
    if a.is_nan() {
        return b;
    }
    if a < b {
        return b;
    }
    a
}

// x.abs()
pub fn abs(x: f64) -> f64
    ensures { result ≡ abs_of x }
{
    x.abs()
}
