//! What texts are written to.
ghost use Rattle.std.specs.Prelude.{◌≡◌, ℕ, List, ◌++◌, OnOk, encode_utf8};
ghost use Rattle.std.specs.String.{string_bytes};

use std::alloc::AllocError;

/// Something that texts are written to.
pub trait TextWriter {
    /// The bytes that were written to it.
    ghost written: { Self → List ℕ };

    /// Writes a text behind what was written.
    fn write_text(&mut self, text: &str) -> Result<(), AllocError>
        ensures { OnOk result (written self.new ≡ written self.old ++ text.now) };

    /// Writes a character behind what was written.
    fn write_character(&mut self, character: char) -> Result<(), AllocError>
        ensures { OnOk result (written self.new ≡ written self.old ++ encode_utf8 character) };
}

impl TextWriter for String {
    ghost written = { string_bytes };

    fn write_text(&mut self, text: &str) -> Result<(), AllocError> {
        self.push_str(text)
    }

    fn write_character(&mut self, character: char) -> Result<(), AllocError> {
        self.push(character)
    }
}
