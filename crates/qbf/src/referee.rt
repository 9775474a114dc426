ghost use Rattle.std.specs.Prelude.{◌≡◌, ◌≤◌, true, map, length, nat_le};
ghost use Rattle.std.specs.Option.{option_map};
ghost use Rattle.std.specs.List.{list_all, sum_by};
ghost use Rattle.truth.specs.Limits.{max_blocks, max_variables, max_decided};
ghost use Rattle.truth.specs.Syntax.{bound_in};
ghost use Rattle.truth.specs.WellFormed.{all, ranged};
ghost use Rattle.qbf.specs.Stored.{block_of};
ghost use Rattle.qbf.specs.Held.{qbf_of};
ghost use Rattle.truth.specs.Truth.{satisfied, holds};
ghost use Rattle.truth.specs.Plain.{bind_before, single, plain, holds_plainly};
ghost use Rattle.truth.specs.TruthLaws.{TruthLaws};
ghost use Rattle.truth.specs.Verdicts.{is_true, if_few};

use crate::block::Block;
use crate::formula::Formula;
use truth::assignment::Assignment;
use truth::limits::MAX_DECIDED;
use truth::literal::{Clause, Quantifier, mask};
use truth::verdict::Verdict;

// How many variables some blocks bind.
fn count_bound(blocks: &[Block]) -> usize
    requires { length blocks.now ≤ max_blocks }
    ensures { result ≡ sum_by (λ b. b.width) blocks.now }
{
    blocks.iter().map(|block| block.width).sum()
}

// Whether some blocks bind so few variables that every assignment can be tried.
fn binds_few(blocks: &[Block]) -> bool
    requires { length blocks.now ≤ max_blocks }
    ensures { result ≡ nat_le (length (bound_in (map block_of blocks.now))) max_decided }
{
    count_bound(blocks) <= MAX_DECIDED
}

// Whether an assignment makes a literal of each clause true.
fn satisfies(by: Assignment, clauses: &[Clause]) -> bool
    ensures { result ≡ list_all (λ c. satisfied c by.trues by.falses) clauses.now }
{
    clauses.iter().all(|clause| clause.satisfied(by))
}

// Decides what is left: variables under one quantifier, and then the blocks inside them.
fn decide_from(
    clauses: &[Clause],
    quantifier: Quantifier,
    variables: &[u32],
    blocks: &[Block],
    by: Assignment,
) -> bool
    requires outer { all (ranged max_variables) variables.now ≡ true }
    requires inner { all (ranged max_variables) (bound_in (map block_of blocks.now)) ≡ true }
    ensures { result ≡ plain clauses.now (bind_before quantifier variables.now (single (map block_of blocks.now))) by.trues by.falses }
{
    let Some((first, others)) = variables.split_first() else {
        let Some((block, inner)) = blocks.split_first() else {
            return satisfies(by, clauses);
        };
        return decide_from(clauses, block.quantifier, block.bound(), inner, by);
    };
    let Assignment { trues, falses } = by;
    let bit = mask(*first);
    let by_false = Assignment {
        trues,
        falses: falses | bit,
    };
    let low = decide_from(clauses, quantifier, others, blocks, by_false);
    match (quantifier, low) {
        (Quantifier::Existential, true) => true,
        (Quantifier::Universal, false) => false,
        _ => {
            let by_true = Assignment {
                trues: trues | bit,
                falses,
            };
            decide_from(clauses, quantifier, others, blocks, by_true)
        }
    }
}

// Decides a formula by trying every assignment, one variable after another in prefix order, or tells none where more
// variables are bound than the limit. This is the textbook meaning, and slow: a referee for faster ways.
pub fn decide(formula: &Formula) -> Option<Verdict>
    ensures plainly { option_map is_true result ≡ if_few holds_plainly (qbf_of formula.now) }
    ensures blocks { option_map is_true result ≡ if_few holds (qbf_of formula.now) }
    ensures laws { TruthLaws }
{
    let blocks = formula.prefix.list();
    if !binds_few(blocks) {
        return None;
    }
    let clauses = formula.matrix.list();
    let so = decide_from(
        clauses,
        Quantifier::Existential,
        &[],
        blocks,
        Assignment {
            trues: 0,
            falses: 0,
        },
    );
    Some(Verdict::from(so))
}
