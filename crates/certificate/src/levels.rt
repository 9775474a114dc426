// What a formula asks at a level.
ghost use Rattle.std.specs.Prelude.{◌≡◌};
ghost use Rattle.truth.specs.Verdicts.{is_true};
ghost use Rattle.qbf.specs.Held.{qbf_of};
ghost use Rattle.certificate.specs.Accepting.{blocks_from};
ghost use Rattle.certificate.specs.Movers.{mover_of, is_value};

use crate::mover::Mover;
use qbf::formula::Formula;
use truth::verdict::Verdict;

// Who gives the value of the block at a level, or none where there is no block.
pub(crate) fn mover_at(formula: &Formula, verdict: Verdict, level: usize) -> Option<Mover>
    ensures { result ≡ mover_of (is_true verdict) (blocks_from (qbf_of formula.now) level) }
{
    let quantifier = formula.quantifier(level)?;
    Some(if verdict.owes(quantifier) {
        Mover::Holder
    } else {
        Mover::Other
    })
}

// Whether this is a value of the block at a level: below 2 to the power of its width.
pub(crate) fn is_value(formula: &Formula, level: usize, value: u16) -> bool
    ensures { result ≡ is_value (blocks_from (qbf_of formula.now) level) value }
{
    let Some(width) = formula.width(level) else {
        return false;
    };
    value < 1 << width
}
