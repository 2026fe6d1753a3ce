//! Words and the blanks between them. A blank is ASCII white space.
ghost use Rattle.std.specs.Prelude.{◌≡◌, ◌≤◌, length};
ghost use Rattle.std.specs.List.{prefix_len};
ghost use Rattle.sheet.specs.Word.{solid, word, after_word, trimmed};

/// How many bytes stand before the first blank.
fn word_len(text: &[u8]) -> usize
    ensures value { result ≡ prefix_len solid text.now }
    ensures bound { result ≤ length text.now }
{
    text.iter().take_while(|b| !b.is_ascii_whitespace()).count()
}

/// The first word of a text, and what follows it and the blanks after it.
pub fn split_word(text: &[u8]) -> (&[u8], &[u8])
    ensures first { result.0.now ≡ word text.now }
    ensures rest { result.1.now ≡ after_word text.now }
{
    let (word, rest) = text.split_at(word_len(text));
    (word, rest.trim_ascii_start())
}

/// A text without the blanks at its two ends.
pub fn trimmed(text: &[u8]) -> &[u8]
    ensures { result.now ≡ trimmed text.now }
{
    text.trim_ascii()
}
