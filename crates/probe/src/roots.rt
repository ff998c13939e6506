// The roots of many numbers, for measuring.
ghost use Rattle.num_root.specs.Root.{root};
ghost use Rattle.probe.specs.Each.{Each};

// The root of each value, in its place.
#[unsafe(no_mangle)]
pub extern "C" fn gablemadder_sqrt_each(values: &mut [f64])
    ensures { Each root values.old values.new }
{
    for value in values.iter_mut() {
        *value = num_root::sqrt(*value);
    }
}
