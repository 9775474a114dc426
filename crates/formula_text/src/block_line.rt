ghost use Rattle.std.specs.Prelude.{◌≡◌, ◌<◌, ◌≤◌, not, ◌||◌, [], ◌∷◌, ◌++◌, length, Ok, Err, MatchResult, nat_le, nat_lt};
ghost use Rattle.std.specs.Option.{ok_or, option_map};
ghost use Rattle.truth.specs.Limits.{max_blocks};
ghost use Rattle.truth.specs.Syntax.{bound_in};
ghost use Rattle.truth.specs.WellFormed.{existential, repeats};
ghost use Rattle.qbf.specs.Stored.{block_of};
ghost use Rattle.qbf.specs.Held.{blocks_in};
ghost use Rattle.formula_text.specs.Gathered.{fitting};
ghost use Rattle.qbf.specs.Bound.{Binds};
ghost use Rattle.formula_text.specs.Parse.{variables_of, read_block};

use crate::bind::bind;
use crate::counts::Header;
use crate::gather::{Numbers, gather_numbers};
use crate::header::take_letter;
use faults::cause::Cause;
use faults::fault::Fault;
use qbf::block::Block;
use qbf::prefix::Prefix;
use text::fields::Fields;
use truth::limits::MAX_BLOCKS;
use truth::literal::Quantifier;

// The numbers of a block line.
fn numbers_of(line: &[u8], fault: Fault) -> Result<Numbers, Fault>
    ensures { result ≡ ok_or (option_map fitting (variables_of line.now)) fault }
{
    let mut fields = Fields::of(line, fault)?;
    take_letter(&mut fields)?;
    gather_numbers(&mut fields)
}

// Whether a block may not stand here: it repeats the quantifier before it, or is universal with no block line next.
fn misplaced(prefix: &Prefix, quantifier: Quantifier, next: bool) -> bool
    ensures { result ≡ (repeats quantifier (blocks_in prefix.now) || not (existential quantifier || next)) }
{
    if prefix.repeats(quantifier) {
        return true;
    }
    match quantifier {
        Quantifier::Existential => false,
        Quantifier::Universal => !next,
    }
}

// Reads a block line, on line n, after the blocks of a prefix: the block, and the mask of the variables then bound.
pub(crate) fn read_block(
    line: &[u8],
    n: usize,
    header: Header,
    prefix: &Prefix,
    quantifier: Quantifier,
    next: bool,
) -> Result<(Block, u64), Fault>
    ensures { MatchResult result (λ p. (read_block n header.counts (blocks_in prefix.now) quantifier next line.now ≡ Ok (block_of p.0)) × (length prefix.now.blocks.items < max_blocks) × Binds p.1 (bound_in (blocks_in prefix.now ++ (block_of p.0 ∷ [])))) (λ e. read_block n header.counts (blocks_in prefix.now) quantifier next line.now ≡ Err e) }
{
    let numbers = numbers_of(line, Fault::new(Cause::FormulaForm, n))?;
    let Some(variables) = numbers else {
        return Err(Fault::new(Cause::OverLimit, n));
    };
    if prefix.len() >= MAX_BLOCKS {
        return Err(Fault::new(Cause::OverLimit, n));
    }
    let Some(bound) = bind(variables.as_slice(), header.counts.variables, prefix.bound) else {
        return Err(Fault::new(Cause::BadVariable, n));
    };
    if misplaced(prefix, quantifier, next) {
        return Err(Fault::new(Cause::BadAlternation, n));
    }
    let Some(block) = Block::new(quantifier, variables) else {
        unreachable()
    };
    Ok((block, bound))
}
