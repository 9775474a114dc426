ghost use Rattle.std.specs.Prelude.{◌≡◌, ◌≤◌, true, false, length, MatchOption};
ghost use Rattle.std.specs.List.{list_all};
ghost use Rattle.truth.specs.Limits.{max_width};
ghost use Rattle.certificate_text.specs.ReplyField.{is_bit, bits_formed, binary};

// Binary digits, the first the highest.
#[derive(Clone, Copy, Drop)]
pub(crate) struct Bits<'a> {
    pub(crate) digits: &'a [u8],
    ghost bits: { list_all is_bit digits.now ≡ true },
}

impl<'a> Bits<'a> {
    // The digits of a field, which has to have one or more and nothing else.
    pub(crate) fn of(field: &'a [u8]) -> Option<Bits<'a>>
        ensures { MatchOption result (bits_formed field.now ≡ false) (λ b. (b.digits.now ≡ field.now) × (bits_formed field.now ≡ true)) }
    {
        if field.is_empty() || !field.iter().all(|b| *b == b'0' || *b == b'1') {
            return None;
        }
        Some(Bits { digits: field })
    }

    // The number that they write.
    pub(crate) fn value(self) -> u16
        requires { length self.digits.now ≤ max_width }
        ensures { result ≡ binary 0 self.entry.digits.now }
    {
        let mut n: u16 = 0;
        for b in self.digits {
            n = n * 2 + (*b - b'0') as u16;
        }
        n
    }
}
