ghost use Rattle.std.specs.Prelude.{◌≡◌, true, [], length, take, IfOk};
ghost use Rattle.text.specs.Left.{lines_left, next_line};
ghost use Rattle.truth.specs.Verdicts.{is_true};
ghost use Rattle.truth.specs.WellFormed.{all};
ghost use Rattle.qbf.specs.Held.{qbf_of};
ghost use Rattle.entries.specs.Fitting.{fits};
ghost use Rattle.certificate_text.specs.Parse.{entry_lines, parse_certificate, filled};
ghost use Rattle.certificate_text.specs.Form.{Exact};

use crate::entry_line::read_entry;
use crate::heading::{read_heading, read_verdict};
use entries::entry::Entry;
use faults::cause::Cause;
use faults::fault::Fault;
use qbf::formula::Formula;
use text::lines::Lines;
use truth::verdict::Verdict;

// What was read of a certificate: its verdict, and how many entries, which stand in the first places of the table.
#[derive(Clone, Copy, PartialEq, Eq, Debug, Drop)]
pub struct Certificate {
    pub verdict: Verdict,
    pub count: usize,
}

// Takes the entry lines, which are all that are left, into the first places of a table.
fn read_entries(
    lines: &mut Lines,
    formula: &Formula,
    verdict: Verdict,
    table: &mut [Entry],
) -> Result<Certificate, Fault>
    ensures ending { result ≡ (entry_lines (next_line lines.old) (qbf_of formula.now) verdict (length table.old) [] (lines_left lines.old)).ending }
    ensures table { table.new ≡ filled (entry_lines (next_line lines.old) (qbf_of formula.now) verdict (length table.old) [] (lines_left lines.old)).entries table.old }
{
    // An index, and no iterator over the places: an entry is read before a place is asked for, and the count is the answer.
    let mut count = 0;
    while let Some(line) = lines.next() {
        let entry = read_entry(line, lines.line(), formula, verdict)?;
        if count >= table.len() {
            return Err(Fault::new(Cause::TableFull, lines.line()));
        }
        table[count] = entry;
        count += 1;
    }
    Ok(Certificate { verdict, count })
}

// Takes all lines of a text. It stands apart from `read` so that exactness is shown at one return, and not at each `?`.
fn read_lines(text: &[u8], formula: &Formula, table: &mut [Entry]) -> Result<Certificate, Fault>
    ensures ending { result ≡ (parse_certificate (qbf_of formula.now) (length table.old) text.now).ending }
    ensures table { table.new ≡ filled (parse_certificate (qbf_of formula.now) (length table.old) text.now).entries table.old }
{
    let mut lines = Lines::new(text);
    read_heading(&mut lines, &["verdict", "blocks", "clauses"])?;
    let verdict = read_verdict(&mut lines, formula)?;
    read_heading(&mut lines, &["level", "set", "reply"])?;
    read_entries(&mut lines, formula, verdict, table)
}

// Reads a certificate of a formula into a table: the one that the text means, or the fault with the lowest line and then
// the lowest number. The entries read before a fault stand in the table; the places after them are as they were.
pub fn read(text: &[u8], formula: &Formula, table: &mut [Entry]) -> Result<Certificate, Fault>
    ensures ending { result ≡ (parse_certificate (qbf_of formula.now) (length table.old) text.now).ending }
    ensures table { table.new ≡ filled (parse_certificate (qbf_of formula.now) (length table.old) text.now).entries table.old }
    ensures exact { Exact (qbf_of formula.now) (length table.old) text.now result table.new }
    ensures fitting { IfOk result (λ c. all (fits (is_true c.verdict) (qbf_of formula.now)) (take c.count table.new) ≡ true) }
{
    read_lines(text, formula, table)
}
