//! Characters that are hashed three at a time.
ghost use Rattle.std.specs.Prelude.{◌≡◌, fold, length};
ghost use Rattle.ir_hashing.specs.Words.{word, character_writes, word_writes};

use std::hash::Hasher;

/// Three characters, each below 2^21, as one word.
fn word(a: char, b: char, c: char) -> u64
    ensures { result ≡ word a b c }
{
    a as u64 | (b as u64) << 21 | (c as u64) << 42
}

/// Feeds a hasher characters, three to a word. The last word may have fewer.
fn hash_words<H: Hasher>(characters: &[char], state: &mut H)
    ensures { state.new ≡ fold H.write state.old (word_writes characters.now) }
{
    let mut left = characters;
    while let [a, b, c, rest @ ..] = left {
        state.write_u64(word(*a, *b, *c));
        left = rest;
    }
    match left {
        [a, b] => state.write_u64(word(*a, *b, '\0')),
        [a] => state.write_u64(word(*a, '\0', '\0')),
        _ => {}
    }
}

/// Feeds a hasher the characters that bytes are, each that of its number, three to a word.
fn hash_byte_words<H: Hasher>(bytes: &[u8], state: &mut H)
    ensures { state.new ≡ fold H.write state.old (word_writes bytes.now) }
{
    let mut left = bytes;
    while let [a, b, c, rest @ ..] = left {
        state.write_u64(word(char::from(*a), char::from(*b), char::from(*c)));
        left = rest;
    }
    match left {
        [a, b] => state.write_u64(word(char::from(*a), char::from(*b), '\0')),
        [a] => state.write_u64(word(char::from(*a), '\0', '\0')),
        _ => {}
    }
}

/// Feeds a hasher characters: how many there are, and these, three to a word.
pub fn hash_characters<H: Hasher>(characters: &[char], state: &mut H)
    ensures { state.new ≡ fold H.write state.old (character_writes characters.now) }
{
    state.write_usize(characters.len());
    hash_words(characters, state);
}

/// Feeds a hasher the characters that bytes are, each that of its number, as `hash_characters` would.
pub fn hash_bytes<H: Hasher>(bytes: &[u8], state: &mut H)
    ensures { state.new ≡ fold H.write state.old (character_writes bytes.now) }
{
    state.write_usize(bytes.len());
    hash_byte_words(bytes, state);
}
