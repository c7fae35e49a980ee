//! Words and signs of a text.
ghost use Rattle.std.specs.Prelude.{◌≡◌, ◌++◌, ◌<◌, ◌≤◌, [], IfSome, MatchOption, encode_utf8, length};

/// Whether a character can be one of a word.
fn is_word_character(character: char) -> bool {
    matches!(character, 'a'..='z' | 'A'..='Z' | '0'..='9' | '_')
}

/// The word that a text begins with, empty if it begins with none, and what is behind it.
pub fn split_word(text: &str) -> (&str, &str)
    ensures text { text.now ≡ result.0.now ++ result.1.now }
    ensures short { length result.1.now ≤ length text.now }
{
    match text.find(|character: char| !is_word_character(character)) {
        Some(end) => text.split_at(end),
        None => (text, ""),
    }
}

/// The first character of a text, and what is behind it.
pub fn split_character(text: &str) -> Option<(char, &str)>
    ensures text { MatchOption result (text.now ≡ []) (λ p. text.now ≡ encode_utf8 p.0 ++ p.1.now) }
    ensures shorter { IfSome result (λ p. length p.1.now < length text.now) }
{
    let mut characters = text.chars();
    let character = characters.next()?;
    Some((character, characters.as_str()))
}

/// The number of the value that a word behind a sign is: `v` and the number's digits, but not in the name of a symbol, a label or a kind.
pub fn value_number(sign: char, word: &str) -> Option<usize> {
    if matches!(sign, '@' | '^' | '.') {
        return None;
    }
    let digits = word.strip_prefix('v')?;
    digits.parse().ok()
}
