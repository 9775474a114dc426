ghost use Rattle.std.specs.Prelude.{◌≡◌, ℕ, ◌<◌, ◌≤◌, ◌∷◌, length, ◌≢◌, slice_index};
ghost use Rattle.text.specs.Rows.{rows};

// The index of the first byte of `text` that equals `mark`, or `text`'s length where there is none: the end of what
// stands before the mark in either case, which is what callers cut at.
pub fn find(text: &[u8], mark: u8) -> usize
    ensures within { result ≤ length text.now }
    ensures before { (k : ℕ) → k < result → slice_index text.now k ≢ mark }
    ensures found { result < length text.now → slice_index text.now result ≡ mark }
{
    text.iter().position(|b| *b == mark).unwrap_or(text.len())
}

// The first row of a text that is not empty, up to `mark` or the end, and what follows the mark.
pub(crate) fn cut(text: &[u8], mark: u8) -> (&[u8], &[u8])
    requires { 0 < length text.now }
    ensures rows { rows mark text.now ≡ result.0.now ∷ rows mark result.1.now }
    ensures shorter { length result.1.now < length text.now }
{
    let end = find(text, mark);
    if end < text.len() {
        (&text[0..end], &text[end + 1..])
    } else {
        (text, &text[end..])
    }
}
