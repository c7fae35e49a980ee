//! Types.
ghost use Rattle.std.specs.Prelude.{◌≡◌, ◌↔◌, ◌≤◌, ◌+◌, ◌^◌, IsTrue};
ghost use Rattle.ir_names.specs.declared.kinds.Signedness.TheVariants.{Signed, Signless, Unsigned};
ghost use Rattle.builtin_data.specs.Integers.{HasBits, is_printed_signed};

use ir_names::{Signedness, TypeHandle};

/// An integer type: whether its numbers have a sign, and how many bits they have.
#[derive(Clone, Copy, Debug, PartialEq, Eq, Hash)]
pub struct IntegerType {
    pub signedness: Signedness,
    pub width: u32,
}

/// The greatest number of so many bits, at most 64.
pub(crate) fn greatest(width: u32) -> u64
    ensures { width ≤ 64 → result + 1 ≡ 2 ^ width }
{
    match width {
        0 => 0,
        1..=63 => (1u64 << width) - 1,
        _ => u64::MAX,
    }
}

impl IntegerType {
    /// The type of numbers of so many bits.
    pub fn new(width: u32, signedness: Signedness) -> IntegerType
        ensures width { result.width ≡ width }
        ensures signedness { result.signedness ≡ signedness }
    {
        IntegerType { signedness, width }
    }

    /// How many bits its numbers have.
    pub fn width(self) -> u32
        ensures { result ≡ self.width }
    {
        self.width
    }

    /// Whether its numbers have a sign, and whether that is known.
    pub fn signedness(self) -> Signedness
        ensures { result ≡ self.signedness }
    {
        self.signedness
    }

    /// Whether its numbers have a sign.
    pub fn is_signed(self) -> bool
        ensures { IsTrue result ↔ (self.signedness ≡ Signed) }
    {
        self.signedness == Signedness::Signed
    }

    /// Whether its numbers have no sign.
    pub fn is_unsigned(self) -> bool
        ensures { IsTrue result ↔ (self.signedness ≡ Unsigned) }
    {
        self.signedness == Signedness::Unsigned
    }

    /// Whether its numbers are bits alone.
    pub fn is_signless(self) -> bool
        ensures { IsTrue result ↔ (self.signedness ≡ Signless) }
    {
        self.signedness == Signedness::Signless
    }

    /// Whether its numbers are printed with a sign: those of signed types, and of signless ones of more than one bit.
    pub fn prints_as_signed(self) -> bool
        ensures { result ≡ is_printed_signed self.signedness self.width }
    {
        match self.signedness {
            Signedness::Signed => true,
            Signedness::Signless => self.width > 1,
            Signedness::Unsigned => false,
        }
    }

    /// Whether its numbers have 1 to 64 bits, and these are the bits of one.
    pub fn has_bits(self, bits: u64) -> bool
        ensures { IsTrue result ↔ HasBits self bits }
    {
        1 <= self.width && self.width <= 64 && bits <= greatest(self.width)
    }
}

/// A function's type: the types of what it takes and of what it gives back.
#[derive(Debug, PartialEq, Eq, Hash, Drop)]
pub struct FunctionType {
    inputs: Vec<TypeHandle>,
    results: Vec<TypeHandle>,
}

impl FunctionType {
    /// The type of a function that takes values of these types and gives values of those back.
    pub fn new(inputs: Vec<TypeHandle>, results: Vec<TypeHandle>) -> FunctionType
        ensures inputs { result.inputs ≡ inputs }
        ensures results { result.results ≡ results }
    {
        FunctionType { inputs, results }
    }

    /// The types of what it takes, in order.
    pub fn inputs(&self) -> &[TypeHandle]
        ensures { result.now ≡ self.now.inputs.items }
    {
        &self.inputs
    }

    /// The types of what it gives back, in order.
    pub fn results(&self) -> &[TypeHandle]
        ensures { result.now ≡ self.now.results.items }
    {
        &self.results
    }
}

/// The type that has one value.
#[derive(Clone, Copy, Debug, PartialEq, Eq, Hash)]
pub struct UnitType;
