ghost use Rattle.std.specs.Prelude.{◌≡◌};
ghost use Rattle.text.specs.Numeral.{numeral};

// The number that a field writes: one to nine digits, with no zero before others.
pub fn number(field: &[u8]) -> Option<u32>
    ensures { result ≡ numeral field.now }
{
    let (first, others) = field.split_first()?;
    if field.len() > 9 || *first == b'0' && !others.is_empty() {
        return None;
    }
    let mut n: u32 = 0;
    for b in field {
        if !b.is_ascii_digit() {
            return None;
        }
        n = n * 10 + (*b - b'0') as u32;
    }
    Some(n)
}
