//! Integers of 1 to 64 bits.
ghost use Rattle.std.specs.Prelude.{◌≡◌, ◌+◌, ◌-ℤ◌, ◌<◌, ◌≤◌, ◌^◌, pos};

use crate::IntegerType;
use crate::types::greatest;
use ir_names::{Signedness, TypeHandle};

/// An integer of 1 to 64 bits, with its type.
#[derive(Clone, Copy, Debug, PartialEq, Eq, Hash)]
pub struct IntegerAttr {
    ty: TypeHandle,
    integer: IntegerType,
    bits: u64,
    pub ghost least: { 1 ≤ integer.width },
    pub ghost most: { integer.width ≤ 64 },
    pub ghost below: { bits < 2 ^ integer.width },
}

/// The number with so many bits set below it, and one more, taken away.
fn less(bits: u64, greatest: u64) -> i128
    requires { bits ≤ greatest }
    ensures { result ≡ pos bits -ℤ pos (greatest + 1) }
{
    bits as i128 - (greatest as i128 + 1)
}

impl IntegerAttr {
    ghost use Rattle.builtin_data.specs.Integers.{HasBits, printed_number};

    /// The integer of the type with these bits. `ty` is the type's handle; `IntegerType::has_bits` tells whether the type
    /// has such an integer.
    pub fn new(ty: TypeHandle, integer: IntegerType, bits: u64) -> IntegerAttr
        requires { HasBits integer bits }
        ensures ty { result.ty ≡ ty }
        ensures integer { result.integer ≡ integer }
        ensures bits { result.bits ≡ bits }
    {
        IntegerAttr { ty, integer, bits }
    }

    /// Its bits.
    pub fn value(&self) -> u64
        ensures exact { result ≡ self.now.bits }
        ensures below { result < 2 ^ self.now.integer.width }
    {
        self.bits
    }

    /// Its type.
    pub fn get_type(&self) -> TypeHandle
        ensures { result ≡ self.now.ty }
    {
        self.ty
    }

    /// How many bits it has.
    pub fn width(&self) -> u32
        ensures exact { result ≡ self.now.integer.width }
        ensures least { 1 ≤ result }
        ensures most { result ≤ 64 }
    {
        self.integer.width
    }

    /// Whether it has a sign, and whether that is known.
    pub fn signedness(&self) -> Signedness
        ensures { result ≡ self.now.integer.signedness }
    {
        self.integer.signedness
    }

    /// The number that it is printed as: where the type's numbers are printed with a sign, in two's complement.
    pub fn as_signed(&self) -> i128
        ensures { result ≡ printed_number self.now.integer.signedness self.now.integer.width self.now.bits }
    {
        let most = greatest(self.integer.width);
        if self.integer.prints_as_signed() && most / 2 < self.bits {
            return less(self.bits, most);
        }
        self.bits as i128
    }
}
