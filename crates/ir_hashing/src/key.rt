//! The key that a text gives its tables.
use crate::words::hash_characters;
use std::hash::{BuildHasher, DefaultHasher, Hasher};

/// What texts give their tables: a hasher that has read them whole, and goes on from there at each key of a table.
#[derive(Clone, Copy)]
pub struct TextKey {
    start: DefaultHasher,
}

impl TextKey {
    /// The key before any text.
    pub fn new() -> TextKey {
        TextKey {
            start: DefaultHasher::new(),
        }
    }

    /// The key of a text, by its bytes.
    pub fn of(text: &[u8]) -> TextKey {
        TextKey::new().after(text)
    }

    /// The key of a text, by its characters.
    pub fn of_characters(text: &[char]) -> TextKey {
        TextKey::new().after_characters(text)
    }

    /// The key of the texts so far and this one, by its bytes.
    pub fn after(self, text: &[u8]) -> TextKey {
        let mut start = self.start;
        start.write(text);
        // Zeros up to a whole word, so that each key of a table begins at one, which is faster, and the length, which tells
        // them from those of the text.
        let zeros = [0; 8];
        start.write(&zeros[text.len() % 8..]);
        start.write_usize(text.len());
        TextKey { start }
    }

    /// The key of the texts so far and this one, by its characters.
    pub fn after_characters(self, text: &[char]) -> TextKey {
        let mut start = self.start;
        hash_characters(text, &mut start);
        TextKey { start }
    }
}

impl BuildHasher for TextKey {
    type Hasher = DefaultHasher;

    ghost build_hasher = { λ key. key.start };

    fn build_hasher(&self) -> DefaultHasher {
        self.start
    }
}
