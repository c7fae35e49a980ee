//! Integers by their digits.
ghost use Rattle.std.specs.Prelude.{ℕ, ◌≤◌, List, Result};
ghost use Rattle.std.specs.Int.{w8, w16, w32, w64};
ghost use Rattle.std.specs.Str.Parse.{ParsesSigned, ParsesUnsigned};
ghost use Rattle.std.specs.declared.num.ParseIntError.{ParseIntError};

use std::num::ParseIntError;

/// An integer that is read off its digits.
pub trait FromStrRadix: Sized {
    /// What the digits in a base say, or why they say no number of the type.
    ghost parses: { ℕ → List ℕ → Result Self ParseIntError → Type 0 };

    /// The number that a text says in a base.
    fn from_str_radix(src: &str, radix: u32) -> std::result::Result<Self, ParseIntError>
        requires lower { 2 ≤ radix }
        requires upper { radix ≤ 36 }
        ensures { parses radix src.now result };
}

impl FromStrRadix for u8 {
    ghost parses = { λ radix text result. ParsesUnsigned 8 radix text result };

    fn from_str_radix(src: &str, radix: u32) -> Result<u8, ParseIntError> {
        u8::from_str_radix(src, radix)
    }
}

impl FromStrRadix for u16 {
    ghost parses = { λ radix text result. ParsesUnsigned 16 radix text result };

    fn from_str_radix(src: &str, radix: u32) -> Result<u16, ParseIntError> {
        u16::from_str_radix(src, radix)
    }
}

impl FromStrRadix for u32 {
    ghost parses = { λ radix text result. ParsesUnsigned 32 radix text result };

    fn from_str_radix(src: &str, radix: u32) -> Result<u32, ParseIntError> {
        u32::from_str_radix(src, radix)
    }
}

impl FromStrRadix for u64 {
    ghost parses = { λ radix text result. ParsesUnsigned 64 radix text result };

    fn from_str_radix(src: &str, radix: u32) -> Result<u64, ParseIntError> {
        u64::from_str_radix(src, radix)
    }
}

impl FromStrRadix for usize {
    ghost parses = { λ radix text result. ParsesUnsigned 64 radix text result };

    fn from_str_radix(src: &str, radix: u32) -> Result<usize, ParseIntError> {
        usize::from_str_radix(src, radix)
    }
}

impl FromStrRadix for i8 {
    ghost parses = { λ radix text result. ParsesSigned w8 radix text result };

    fn from_str_radix(src: &str, radix: u32) -> Result<i8, ParseIntError> {
        i8::from_str_radix(src, radix)
    }
}

impl FromStrRadix for i16 {
    ghost parses = { λ radix text result. ParsesSigned w16 radix text result };

    fn from_str_radix(src: &str, radix: u32) -> Result<i16, ParseIntError> {
        i16::from_str_radix(src, radix)
    }
}

impl FromStrRadix for i32 {
    ghost parses = { λ radix text result. ParsesSigned w32 radix text result };

    fn from_str_radix(src: &str, radix: u32) -> Result<i32, ParseIntError> {
        i32::from_str_radix(src, radix)
    }
}

impl FromStrRadix for i64 {
    ghost parses = { λ radix text result. ParsesSigned w64 radix text result };

    fn from_str_radix(src: &str, radix: u32) -> Result<i64, ParseIntError> {
        i64::from_str_radix(src, radix)
    }
}
