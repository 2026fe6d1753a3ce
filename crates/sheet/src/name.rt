//! How wide a name stands.
ghost use Rattle.std.specs.Prelude.{◌≡◌};
ghost use Rattle.sheet.specs.Name.{is_mark, columns};

/// Whether a character is a Thai vowel or tone mark above or below the letter before it.
fn is_mark(c: char) -> bool
    ensures { result ≡ is_mark c }
{
    matches!(c, '\u{e31}' | '\u{e34}'..='\u{e3a}' | '\u{e47}'..='\u{e4e}')
}

/// How many columns a name takes: one for each character but such marks.
pub fn columns(name: &str) -> usize
    ensures { result ≡ columns name.now }
{
    name.chars().filter(|c| !is_mark(*c)).count()
}
