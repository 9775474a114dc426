ghost use Rattle.std.specs.Prelude.{◌≡◌, ◌+◌, ◌^◌, ◌<◌, [], ◌∷◌, length, MatchOption};
ghost use Rattle.text.specs.Rows.{lines_of};

use crate::cut::cut;

// A text of which some lines have been taken, and how many.
#[derive(Clone, Copy, Drop)]
pub struct Lines<'a> {
    rest: &'a [u8],
    line: usize,
    ghost counted: { line + length rest.now < 2 ^ 63 },
}

impl<'a> Lines<'a> {
    pub fn new(text: &'a [u8]) -> Lines<'a>
        ensures rest { result.rest.now ≡ text.now }
        ensures line { result.line ≡ 0 }
    {
        Lines {
            rest: text,
            line: 0,
        }
    }

    // The number of the line taken last, from 1, or 0 before the first.
    pub fn line(&self) -> usize
        ensures value { result ≡ self.now.line }
        ensures bound { result < 2 ^ 63 }
    {
        self.line
    }

    // The next line, without its byte 10, or none at the text's end.
    pub fn next(&mut self) -> Option<&'a [u8]>
        ensures cases { MatchOption result ((lines_of self.old.rest.now ≡ []) × (lines_of self.new.rest.now ≡ []) × (self.new.line ≡ self.old.line)) (λ l. (lines_of self.old.rest.now ≡ l.now ∷ lines_of self.new.rest.now) × (self.new.line ≡ self.old.line + 1) × (length self.new.rest.now < length self.old.rest.now)) }
    {
        if self.rest.is_empty() {
            return None;
        }
        let (line, rest) = cut(self.rest, b'\n');
        self.rest = rest;
        self.line += 1;
        Some(line)
    }
}
