//! The numbers of integer types, and the bits that stand for them.
ghost use Rattle.std.specs.Prelude.{◌≡◌, ◌↔◌, ◌≤◌, ◌<◌, ◌+◌, ◌*◌, ◌-◌, ◌%◌, ◌^◌, IsTrue, MatchOption};
ghost use Rattle.kit.specs.Numbers.{HasValues, HasFittingBits, IsNumberOfType, is_signed, number_modulo, printed_number};

use ir_names::Signedness;
use ir_print::Number;
use kit_ops::{IntegerAttr, IntegerType};

/// The greatest number of so many bits, at most 64.
fn greatest(width: u32) -> u64
    ensures { width ≤ 64 → result + 1 ≡ 2 ^ width }
{
    match width {
        0 => 0,
        1..=63 => (1u64 << width) - 1,
        _ => u64::MAX,
    }
}

/// Whether numbers of this type have 1 to 64 bits.
pub(crate) fn has_values(integer: IntegerType) -> bool
    ensures { IsTrue result ↔ HasValues integer }
{
    1 <= integer.width && integer.width <= 64
}

/// The bits of a number of this type, where it is one: from -(2^(width - 1)) to 2^width - 1.
pub(crate) fn bits_of(integer: IntegerType, number: Number) -> Option<u64>
    ensures { MatchOption result (IsNumberOfType integer number → ⊥) (λ bits. IsNumberOfType integer number
        × (bits ≡ number_modulo integer.width number)) }
{
    if !has_values(integer) {
        return None;
    }
    if number.is_negative {
        negative_bits(integer.width, number.magnitude)
    } else if number.magnitude <= greatest(integer.width) {
        Some(number.magnitude)
    } else {
        None
    }
}

/// Whether numbers of this type are printed with a sign: those of signed types, and of signless ones of more than
/// one bit.
fn is_printed_signed(integer: IntegerType) -> bool
    ensures { result ≡ is_signed integer.signedness integer.width }
{
    match integer.signedness {
        Signedness::Signed => true,
        Signedness::Signless => integer.width > 1,
        Signedness::Unsigned => false,
    }
}

/// The bits of the negative of a magnitude, at most 2^(width - 1).
fn negative_bits(width: u32, magnitude: u64) -> Option<u64>
    requires { width ≤ 64 }
    ensures { MatchOption result (2 ^ width < 2 * magnitude) (λ bits. (2 * magnitude ≤ 2 ^ width)
        × (bits ≡ (2 ^ width - magnitude) % 2 ^ width)) }
{
    let most = greatest(width);
    if magnitude == 0 {
        return Some(0);
    }
    if magnitude <= most - most / 2 {
        Some(most - (magnitude - 1))
    } else {
        None
    }
}

/// The number of an attribute as it is printed. Reading it gives the bits again.
pub(crate) fn number_of(attr: IntegerAttr) -> Number
    ensures printed { HasFittingBits attr → result ≡ printed_number attr }
    ensures number { HasFittingBits attr → IsNumberOfType attr.integer result }
    ensures bits { HasFittingBits attr → number_modulo attr.integer.width result ≡ attr.bits }
{
    let most = greatest(attr.integer.width);
    let is_negative = is_printed_signed(attr.integer) && attr.bits <= most && most / 2 < attr.bits;
    let magnitude = if is_negative {
        most - attr.bits + 1
    } else {
        attr.bits
    };
    Number {
        is_negative,
        magnitude,
    }
}
