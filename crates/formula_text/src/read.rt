ghost use Rattle.std.specs.Prelude.{◌≡◌, ◌+◌, ◌<◌, false, [], ◌∷◌, length, Ok, Err, MatchOption, MatchResult};
ghost use Rattle.text.specs.Left.{lines_left, next_line};
ghost use Rattle.formula_text.specs.declared.kind.Kind.TheVariants.{Prefix as BlockKind};
ghost use Rattle.formula_text.specs.Kinds.{kind_of, block_next};
ghost use Rattle.qbf.specs.Held.{blocks_in, clauses_in, meaning};
ghost use Rattle.formula_text.specs.Parse.{clause_lines, block_lines, top_lines, parse};
ghost use Rattle.formula_text.specs.Form.{Exact};

use crate::block_line::read_block;
use crate::clause_line::read_clause;
use crate::counts::Header;
use crate::grow::{formula_of, push_block, push_clause};
use crate::header::read_header;
use crate::kind::{Kind, kind_of};
use faults::cause::Cause;
use faults::fault::Fault;
use qbf::formula::Formula;
use qbf::matrix::Matrix;
use qbf::prefix::Prefix;
use text::lines::Lines;
use truth::literal::Quantifier;

// Takes the comments and the line `p`.
fn read_top(lines: &mut Lines) -> Result<Header, Fault>
    ensures { MatchResult result (λ h. top_lines (next_line lines.old) (lines_left lines.old) ≡ block_lines (next_line lines.new) h.counts [] (lines_left lines.new)) (λ e. top_lines (next_line lines.old) (lines_left lines.old) ≡ Err e) }
{
    while let Some(line) = lines.next() {
        match kind_of(line) {
            Kind::Comment => {}
            Kind::Problem => return read_header(line, lines.line()),
            _ => return Err(Fault::new(Cause::FormulaForm, lines.line())),
        }
    }
    Err(Fault::new(Cause::FormulaForm, lines.line() + 1))
}

// Takes the next line if it is a block line.
fn next_block<'a>(lines: &mut Lines<'a>) -> Option<(Quantifier, &'a [u8])>
    ensures { MatchOption result ((lines.new.line ≡ lines.old.line) × (lines.new.rest.now ≡ lines.old.rest.now) × (block_next (lines_left lines.old) ≡ false)) (λ p. (lines_left lines.old ≡ p.1.now ∷ lines_left lines.new) × (kind_of p.1.now ≡ BlockKind p.0) × (lines.new.line ≡ lines.old.line + 1) × (length lines.new.rest.now < length lines.old.rest.now)) }
{
    let mut ahead = *lines;
    let line = ahead.next()?;
    match kind_of(line) {
        Kind::Prefix(quantifier) => {
            *lines = ahead;
            Some((quantifier, line))
        }
        _ => None,
    }
}

// Whether the next line is a block line.
fn is_block_next(lines: &Lines) -> bool
    ensures { result ≡ block_next (lines_left lines.now) }
{
    let mut ahead = *lines;
    next_block(&mut ahead).is_some()
}

// Takes the block lines.
fn read_prefix(lines: &mut Lines, header: Header) -> Result<Prefix, Fault>
    ensures { MatchResult result (λ p. block_lines (next_line lines.old) header.counts [] (lines_left lines.old) ≡ clause_lines (next_line lines.new) header.counts (blocks_in p) [] (lines_left lines.new)) (λ e. block_lines (next_line lines.old) header.counts [] (lines_left lines.old) ≡ Err e) }
{
    let mut prefix = Prefix::new();
    while let Some((quantifier, line)) = next_block(lines) {
        let next = is_block_next(lines);
        let (block, bound) = read_block(line, lines.line(), header, &prefix, quantifier, next)?;
        push_block(&mut prefix, block, bound);
    }
    Ok(prefix)
}

// Takes the clause lines, which are all that are left.
fn read_matrix(lines: &mut Lines, header: Header, prefix: &Prefix) -> Result<Matrix, Fault>
    ensures { MatchResult result (λ m. clause_lines (next_line lines.old) header.counts (blocks_in prefix.now) [] (lines_left lines.old) ≡ Ok (record { variables = header.counts.variables; prefix = blocks_in prefix.now; matrix = clauses_in m })) (λ e. clause_lines (next_line lines.old) header.counts (blocks_in prefix.now) [] (lines_left lines.old) ≡ Err e) }
{
    let count = header.counts.clauses as usize;
    let mut matrix = Matrix::new();
    while let Some(line) = lines.next() {
        if matrix.len() == count {
            return Err(Fault::new(Cause::ClauseCount, lines.line()));
        }
        let clause = read_clause(line, lines.line(), header, prefix)?;
        push_clause(&mut matrix, clause);
    }
    if matrix.len() < count {
        return Err(Fault::new(Cause::ClauseCount, lines.line() + 1));
    }
    Ok(matrix)
}

// Takes all lines of a text.
fn read_lines(text: &[u8]) -> Result<Formula, Fault>
    ensures { meaning result ≡ parse text.now }
{
    let mut lines = Lines::new(text);
    let header = read_top(&mut lines)?;
    let prefix = read_prefix(&mut lines, header)?;
    let matrix = read_matrix(&mut lines, header, &prefix)?;
    Ok(formula_of(header.counts.variables, prefix, matrix))
}

// Reads a formula: the one that the text means, or the fault with the lowest line and then the lowest number.
pub fn read(text: &[u8]) -> Result<Formula, Fault>
    ensures value { meaning result ≡ parse text.now }
    ensures exact { Exact text.now (meaning result) }
{
    read_lines(text)
}
