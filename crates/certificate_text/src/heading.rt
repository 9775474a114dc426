ghost use Rattle.std.specs.Prelude.{◌≡◌, ◌+◌, [], ◌∷◌, map, Some, None, Ok, Err, MatchResult};
ghost use Rattle.std.specs.Option.{ok_or};
ghost use Rattle.faults.specs.declared.cause.Cause.TheVariants.{CertificateForm};
ghost use Rattle.text.specs.Left.{lines_left, next_line, fields_left};
ghost use Rattle.text.specs.Taken.{Took};
ghost use Rattle.formula_text.specs.Parse.{fault};
ghost use Rattle.qbf.specs.Held.{qbf_of};
ghost use Rattle.certificate_text.specs.Parse.{take_word, heading_of, heading_line, verdict_of, take_verdict, claim_of, verdict_line};

use faults::cause::Cause;
use faults::fault::Fault;
use qbf::formula::Formula;
use text::fields::Fields;
use text::lines::Lines;
use truth::verdict::Verdict;

// What line 2 of a certificate tells: its verdict, and how many blocks and clauses the formula has.
#[derive(Clone, Copy, Drop)]
pub(crate) struct Claim {
    pub(crate) verdict: Verdict,
    pub(crate) blocks: u32,
    pub(crate) clauses: u32,
}

// Takes the next line, which has to be there.
fn next_line<'a>(lines: &mut Lines<'a>) -> Result<&'a [u8], Fault>
    ensures { MatchResult result (λ l. (lines_left lines.old ≡ l.now ∷ lines_left lines.new) × (lines.new.line ≡ lines.old.line + 1)) (λ e. (lines_left lines.old ≡ []) × (e ≡ fault CertificateForm (next_line lines.old))) }
{
    lines
        .next()
        .ok_or(Fault::new(Cause::CertificateForm, lines.line() + 1))
}

// Takes this word.
fn take_word(fields: &mut Fields, word: &str) -> Result<(), Fault>
    ensures { Took fields.old fields.new result (take_word word.now (fields_left fields.old)) (λ _. fields_left fields.new) }
{
    if fields.field()? != word.as_bytes() {
        return Err(fields.fault());
    }
    Ok(())
}

// Refuses a line that is not a heading of these words.
fn expect(line: &[u8], words: &[&str], fault: Fault) -> Result<(), Fault>
    ensures { result ≡ ok_or (heading_of (map (λ w. w.now) words.now) line.now) fault }
{
    let mut fields = Fields::of(line, fault)?;
    for word in words {
        take_word(&mut fields, word)?;
    }
    fields.end()
}

// Takes the next line, which has to be a heading of these words.
pub(crate) fn read_heading(lines: &mut Lines, words: &[&str]) -> Result<(), Fault>
    ensures { MatchResult result (λ _. (heading_line (next_line lines.old) (map (λ w. w.now) words.now) (lines_left lines.old) ≡ Ok (lines_left lines.new)) × (lines.new.line ≡ lines.old.line + 1)) (λ e. heading_line (next_line lines.old) (map (λ w. w.now) words.now) (lines_left lines.old) ≡ Err e) }
{
    let line = next_line(lines)?;
    expect(
        line,
        words,
        Fault::new(Cause::CertificateForm, lines.line()),
    )
}

// The verdict that a word says.
fn verdict_of(word: &[u8]) -> Option<Verdict>
    ensures { result ≡ verdict_of word.now }
{
    [Verdict::True, Verdict::False]
        .into_iter()
        .find(|v| word == v.word().as_bytes())
}

// Takes the verdict.
fn take_verdict(fields: &mut Fields) -> Result<Verdict, Fault>
    ensures { Took fields.old fields.new result (take_verdict (fields_left fields.old)) (λ v. (v, fields_left fields.new)) }
{
    verdict_of(fields.field()?).ok_or(fields.fault())
}

// The verdict and the counts of line 2.
fn claim_of(line: &[u8], fault: Fault) -> Result<Claim, Fault>
    ensures { result ≡ ok_or (claim_of line.now) fault }
{
    let mut fields = Fields::of(line, fault)?;
    let verdict = take_verdict(&mut fields)?;
    let blocks = fields.number()?;
    let clauses = fields.number()?;
    fields.end()?;
    Ok(Claim {
        verdict,
        blocks,
        clauses,
    })
}

// Takes the next line, with the verdict; its counts have to be the formula's.
pub(crate) fn read_verdict(lines: &mut Lines, formula: &Formula) -> Result<Verdict, Fault>
    ensures { MatchResult result (λ v. (verdict_line (next_line lines.old) (qbf_of formula.now) (lines_left lines.old) ≡ Ok (v, lines_left lines.new)) × (lines.new.line ≡ lines.old.line + 1)) (λ e. verdict_line (next_line lines.old) (qbf_of formula.now) (lines_left lines.old) ≡ Err e) }
{
    let line = next_line(lines)?;
    let claim = claim_of(line, Fault::new(Cause::CertificateForm, lines.line()))?;
    if claim.blocks as usize != formula.blocks() || claim.clauses as usize != formula.clauses() {
        return Err(Fault::new(Cause::OtherFormula, lines.line()));
    }
    Ok(claim.verdict)
}
