ghost use Rattle.std.specs.Prelude.{◌<◌, length, OnSome};

// The part of the file that holds the texts not taken yet.
#[derive(Drop)]
pub(crate) struct Texts<'a> {
    rest: &'a [u8],
}

impl<'a> Texts<'a> {
    pub(crate) fn new(file: &'a [u8]) -> Texts<'a> {
        Texts { rest: file }
    }

    // The next text, after the line that begins it.
    pub(crate) fn next(&mut self) -> Option<(&'a [u8], &'a [u8])>
        ensures shorter { OnSome result (length self.new.rest.now < length self.old.rest.now) }
    {
        if self.rest.is_empty() {
            return None;
        }
        let title_end = self.rest.iter().position(|b| *b == b'\n');
        let (title, after) = self.rest.split_at(title_end.unwrap_or(self.rest.len()));
        // The byte 10 before the next text is the last one of this.
        let text_end = after.windows(3).position(|w| w.starts_with(b"\n=="));
        let (text, rest) = after.split_at(text_end.map_or(after.len(), |i| i + 1));
        self.rest = rest;
        let text = text.strip_prefix(b"\n").unwrap_or(text);
        match text.split_last() {
            Some((_, cut)) if title.ends_with(b"\\") => Some((title, cut)),
            _ => Some((title, text)),
        }
    }
}
