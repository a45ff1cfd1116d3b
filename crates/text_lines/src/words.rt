//! The words of a line.
ghost use Rattle.std.specs.Prelude.{◌≡◌, ◌<◌, [], ◌∷◌, length, MatchOption, position, slice_index, IfSome, is_some};
ghost use Rattle.text_lines.specs.Lines.{separates, words_of};
ghost use Rattle.std.specs.Iterator.{at_most};
ghost use Rattle.std.specs.List.{before_first, after_first};
ghost use Rattle.std.specs.Str.{is_utf8};

/// An iterator over the words of a line, which are separated by spaces and tabs. It holds the unread rest.
///
///     Words(" 7\t -8 ")   "7", "-8"
#[derive(Drop)]
pub struct Words<'a>(pub &'a str);

impl<'a> Words<'a> {
    /// Returns the words of a line, or `None` where it is not UTF-8.
    pub fn of(line: &'a [u8]) -> Option<Words<'a>>
        ensures text { is_some result ≡ is_utf8 line.now }
        ensures line { IfSome result (λ words. words.0.now ≡ line.now) }
    {
        let text = str::from_utf8(line).ok()?;
        Some(Words(text))
    }
}

impl<'a> Iterator for Words<'a> {
    type Item = &'a str;

    ghost next_gives = { λ old word new. MatchOption word ((words_of old.0.now ≡ [])
        × (words_of new.0.now ≡ [])) (λ word. words_of old.0.now ≡ word.now ∷ words_of new.0.now) };

    ghost remaining = { λ words. at_most (length words.0.now) };

    fn next(&mut self) -> Option<&'a str> {
        while !self.0.is_empty() {
            let (word, rest) = cut_word(self.0);
            self.0 = rest;
            if !word.is_empty() {
                return Some(word);
            }
        }
        None
    }
}

// The text before the first separator, and the rest after it.
fn cut_word(text: &str) -> (&str, &str)
    ensures word { result.0.now ≡ before_first separates text.now }
    ensures rest { result.1.now ≡ after_first separates text.now }
{
    match separator(text) {
        Some(end) => (&text[..end], &text[end + 1..]),
        None => (text, ""),
    }
}

// Where the first separator of words is.
fn separator(text: &str) -> Option<usize>
    ensures first { result ≡ position separates text.now }
    ensures ascii { IfSome result
        (λ end. (end < length text.now) × (slice_index text.now end < 128)) }
{
    text.as_bytes()
        .iter()
        .position(|byte| *byte == b' ' || *byte == b'\t')
}
