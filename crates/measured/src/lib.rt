// Ways in for measuring alone, to what the C interface does not show: in no header, and not in the library. `bench/` links them.

#![tactic(auto)]

ghost use Rattle.std.specs.Prelude.{◌≡◌};
ghost use Rattle.measured.specs.Measured.{classes_sum};

use words::classes::class_of;

// The sum of a number for each class, over some state numbers.
#[unsafe(no_mangle)]
pub extern "C" fn measured_classes(states: &[u8]) -> u64
    ensures { result ≡ classes_sum states.now }
{
    let mut sum = 0u64;
    for s in states {
        sum = sum.wrapping_add(class_of(*s) as u64);
    }
    sum
}
