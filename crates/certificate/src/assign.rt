ghost use Rattle.std.specs.Prelude.{◌≡◌, true};
ghost use Rattle.truth.specs.Limits.{max_variables};
ghost use Rattle.truth.specs.WellFormed.{ranged};
ghost use Rattle.qbf.specs.Held.{qbf_of};
ghost use Rattle.certificate.specs.Accepting.{blocks_from};
ghost use Rattle.certificate.specs.Plays.{with_variable, assigned};

use qbf::formula::Formula;
use truth::assignment::Assignment;
use truth::literal::mask;

// The assignment with one variable more.
fn with_variable(played: Assignment, variable: u32, so: bool) -> Assignment
    requires { ranged max_variables variable ≡ true }
    ensures { result ≡ with_variable so variable played }
{
    let bit = mask(variable);
    if so {
        Assignment {
            trues: played.trues | bit,
            ..played
        }
    } else {
        Assignment {
            falses: played.falses | bit,
            ..played
        }
    }
}

// The assignment together with that of a value of the block at a level.
pub(crate) fn assign(formula: &Formula, level: usize, value: u16, played: Assignment) -> Assignment
    ensures { result ≡ assigned (blocks_from (qbf_of formula.now) level) value played }
{
    let Some(variables) = formula.bound(level) else {
        return played;
    };
    let mut all = played;
    for (i, variable) in variables.iter().enumerate() {
        let digit = (value >> (variables.len() - 1 - i)) % 2;
        all = with_variable(all, *variable, digit == 1);
    }
    all
}
