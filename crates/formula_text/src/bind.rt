ghost use Rattle.std.specs.Prelude.{◌≡◌, ◌≤◌, ◌==◌, bit_and};
ghost use Rattle.truth.specs.Limits.{max_variables};
ghost use Rattle.qbf.specs.Bound.{bind_all};

use truth::literal::mask;

// Whether a variable is not bound yet.
fn is_free(bound: u64, bit: u64) -> bool
    ensures { result ≡ (bit_and bound bit == 0) }
{
    bound & bit == 0
}

// The mask of the variables bound once these are too, or none where one is out of range or bound already.
pub(crate) fn bind(variables: &[u32], highest: u32, bound: u64) -> Option<u64>
    requires { highest ≤ max_variables }
    ensures { result ≡ bind_all highest bound variables.now }
{
    let mut all = bound;
    for v in variables {
        if *v == 0 || *v > highest {
            return None;
        }
        let bit = mask(*v);
        if !is_free(all, bit) {
            return None;
        }
        all |= bit;
    }
    Some(all)
}
