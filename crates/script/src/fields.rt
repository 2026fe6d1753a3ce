//! The words of a line, and the numbers that they write.
ghost use Rattle.std.specs.Prelude.{◌≡◌, [], ◌∷◌, not, position, MatchOption, IfSome};
ghost use Rattle.std.specs.Option.{option_map};
ghost use Rattle.sheet.specs.Word.{after_blanks};
ghost use Rattle.script.specs.Words.{plain, before_comment, words};
ghost use Rattle.script.specs.Fields.{first_number, only, numbers_of};

use crate::number::number;
use sheet::word::split_word;

/// Where the comment of a line begins.
fn comment_start(line: &[u8]) -> Option<usize>
    ensures { result ≡ position (λ b. not (plain b)) line.now }
{
    line.iter().position(|b| *b == b'#')
}

/// A line up to the first `#`.
pub(crate) fn before_comment(line: &[u8]) -> &[u8]
    ensures { result.now ≡ before_comment line.now }
{
    match comment_start(line) {
        Some(start) => &line[..start],
        None => line,
    }
}

/// The first word of a text and what follows it, if the text has a word.
#[tactic(auto, using(crate::proofs::Splits::words_none, crate::proofs::Splits::words_more, crate::proofs::Parts::no_blank))]
pub(crate) fn first_word(text: &[u8]) -> Option<(&[u8], &[u8])>
    ensures words { MatchOption result (words text.now ≡ []) (λ r. words text.now ≡ r.0.now ∷ words r.1.now) }
    ensures start { IfSome result (λ r. after_blanks r.1.now ≡ r.1.now) }
{
    (!text.is_empty()).then(|| split_word(text))
}

/// The number of the first word and what follows that word.
pub(crate) fn first_number(text: &[u8]) -> Option<(u64, &[u8])>
    ensures { option_map (λ r. (r.0, words r.1.now)) result ≡ first_number (words text.now) }
{
    let (word, rest) = first_word(text)?;
    Some((number(word)?, rest))
}

/// The word of a text that has one word.
pub(crate) fn only(text: &[u8]) -> Option<&[u8]>
    ensures { option_map (λ x. x.now) result ≡ only (words text.now) }
{
    let (word, rest) = first_word(text)?;
    first_word(rest).is_none().then_some(word)
}

/// The numbers of `N` words and no more.
pub(crate) fn numbers<const N: usize>(text: &[u8]) -> Option<[u64; N]>
    ensures { result ≡ numbers_of N (words text.now) }
{
    let mut numbers = [0; N];
    let mut rest = text;
    for n in &mut numbers {
        let (word, after) = first_word(rest)?;
        *n = number(word)?;
        rest = after;
    }
    first_word(rest).is_none().then_some(numbers)
}
