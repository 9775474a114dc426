ghost use Rattle.std.specs.Prelude.{◌≡◌, ◌*◌, ◌^◌, ◌<◌, ◌≤◌, [], ◌∷◌, ◌++◌, length};
ghost use Rattle.qbf.specs.Held.{qbf_of};
ghost use Rattle.certificate_text.specs.Listing.{max_listed};
ghost use Rattle.certificate_text.specs.CertificateText.{claim_text, entries_text, certificate_text, writing, written};
ghost use Rattle.certificate_text.specs.Writing.{Wrote, max_line};
ghost use Rattle.certificate_text.specs.RoundTrip.{ReadsBack};

use crate::listing::Listing;
use crate::writer::Writer;
use faults::cause::Cause;
use faults::fault::Fault;
use qbf::formula::Formula;
use truth::verdict::Verdict;

impl Writer<'_> {
    // Puts the line of the verdict and the counts.
    fn claim(&mut self, formula: &Formula, verdict: Verdict)
        ensures { Wrote self.old self.new (claim_text (qbf_of formula.now) verdict ++ (10 ∷ [])) }
    {
        self.bytes(verdict.word().as_bytes());
        self.byte(b' ');
        self.number(formula.blocks() as u32);
        self.byte(b' ');
        self.number(formula.clauses() as u32);
        self.byte(b'\n');
    }

    // Puts the lines of all entries. A listing is asked by number: a chain over it would need one law more of every
    // listing, and no fewer lines here.
    fn entries<L: Listing>(&mut self, formula: &Formula, entries: &L)
        requires { L.Listing.ready entries.now }
        ensures wrote { Wrote self.old self.new (entries_text (qbf_of formula.now) (L.Listing.listed entries.now)) }
        ensures short { length (entries_text (qbf_of formula.now) (L.Listing.listed entries.now)) ≤ max_line * max_listed }
    {
        for k in 0..entries.count() {
            if let Some(entry) = entries.nth(k) {
                self.entry(formula, entry);
            }
        }
    }

    // Puts a whole certificate.
    fn certificate<L: Listing>(&mut self, formula: &Formula, verdict: Verdict, entries: &L)
        requires { L.Listing.ready entries.now }
        ensures wrote { Wrote self.old self.new (certificate_text (qbf_of formula.now) verdict (L.Listing.listed entries.now)) }
        ensures short { length (certificate_text (qbf_of formula.now) verdict (L.Listing.listed entries.now)) < 2 ^ 64 }
    {
        self.bytes(b"verdict blocks clauses\n");
        self.claim(formula, verdict);
        self.bytes(b"level set reply\n");
        self.entries(formula, entries);
    }
}

// Writes the certificate of a verdict and entries into a buffer, and tells its length. A buffer that is shorter than the
// text is left as it was, and the refusal tells the length needed. What is written of entries that fit reads back as
// just these.
pub fn write<L: Listing>(
    formula: &Formula,
    verdict: Verdict,
    entries: &L,
    out: &mut [u8],
) -> Result<usize, Fault>
    requires { L.Listing.ready entries.now }
    ensures ending { result ≡ writing (certificate_text (qbf_of formula.now) verdict (L.Listing.listed entries.now)) out.old }
    ensures buffer { out.new ≡ written (certificate_text (qbf_of formula.now) verdict (L.Listing.listed entries.now)) out.old }
    ensures back { ReadsBack }
{
    let mut counted = Writer::new(&mut []);
    counted.certificate(formula, verdict, entries);
    let needed = counted.count;
    if needed > out.len() {
        return Err(Fault::from(Cause::BufferShort { needed }));
    }
    Writer::new(out).certificate(formula, verdict, entries);
    Ok(needed)
}
