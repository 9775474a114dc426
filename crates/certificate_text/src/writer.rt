ghost use Rattle.std.specs.Prelude.{◌≡◌, [], ◌∷◌, decimal};
ghost use Rattle.certificate_text.specs.CertificateText.{binary_text};
ghost use Rattle.certificate_text.specs.Writing.{Wrote};

// A buffer, and how many bytes were put into it, one behind the other. What would stand past the buffer's end is only
// counted, so that an empty buffer tells the length of a text. The count stays at the greatest number once it is there.
#[derive(Drop)]
pub(crate) struct Writer<'a> {
    out: &'a mut [u8],
    pub(crate) count: usize,
}

impl<'a> Writer<'a> {
    pub(crate) fn new(out: &'a mut [u8]) -> Writer<'a>
        ensures same { result.out.ghost_name ≡ out.entry.ghost_name }
        ensures buffer { result.out.now ≡ out.old }
        ensures count { result.count ≡ 0 }
    {
        Writer { out, count: 0 }
    }

    // Puts a byte: all that reaches the buffer goes through here.
    pub(crate) fn byte(&mut self, b: u8)
        ensures { Wrote self.old self.new (b ∷ []) }
    {
        if self.count < self.out.len() {
            self.out[self.count] = b;
        }
        self.count = self.count.saturating_add(1);
    }

    // Puts bytes as they are.
    pub(crate) fn bytes(&mut self, bytes: &[u8])
        ensures { Wrote self.old self.new bytes.now }
    {
        for b in bytes {
            self.byte(*b);
        }
    }

    // Puts a number's decimal digits.
    pub(crate) fn number(&mut self, n: u32)
        ensures { Wrote self.old self.new (decimal n) }
    {
        if n >= 10 {
            self.number(n / 10);
        }
        self.byte(b'0' + (n % 10) as u8);
    }

    // Puts a value's binary digits, as many as the width. It ends with the width and not with the last digit that counts:
    // a form for both would take the base and the end, and read worse than the two.
    pub(crate) fn binary(&mut self, width: usize, value: u16)
        ensures { Wrote self.old self.new (binary_text width value) }
    {
        if width > 0 {
            self.binary(width - 1, value / 2);
            self.byte(b'0' + (value % 2) as u8);
        }
    }
}
