//! Arithmetic and comparisons: their rows, their numbers, and what they give for numbers of up to 64 bits.
ghost use Rattle.std.specs.Prelude.{◌≡◌, ◌≤◌, ◌+◌, ◌-◌, ◌*◌, ◌%◌, ◌^◌, ◌++◌, codes, slice_get};
ghost use Rattle.kit_ops.specs.Arithmetic.{named_arithmetic, comparison_name, operators, calc, compare, bit};
ghost use Rattle.kit_ops.specs.Table.{arithmetic_row, comparison_row, said_by};

use crate::kinds::KitOp;
use crate::table::{Row, arithmetic, comparison};

/// The operations of arithmetic on two integers of one type, whose result is modulo 2^w for a type of w bits.
#[derive(Clone, Copy, Debug, PartialEq, Eq)]
pub enum Arithmetic {
    Add,
    Sub,
    Mul,
    /// The quotient of unsigned numbers; it traps where the divisor is 0.
    Div,
}

/// Comparisons of two integers of one type, as unsigned numbers. The result is one bit.
#[derive(Clone, Copy, Debug, PartialEq, Eq)]
pub enum Comparison {
    Equal,
    NotEqual,
    Less,
    LessOrEqual,
}

/// A number modulo 2 to the power of the width.
#[inline]
fn modulo(x: u64, width: u32) -> u64
    requires { width ≤ 64 }
    ensures { result ≡ x % 2 ^ width }
{
    if width == 64 { x } else { x % (1u64 << width) }
}

/// The difference modulo 2 to the power of the width.
#[tactic(auto, using(crate::proofs::Operators::difference_reduced))]
#[inline]
fn difference(x: u64, y: u64, width: u32) -> u64
    requires { width ≤ 64 }
    ensures { result ≡ (x + (2 ^ width - y % 2 ^ width)) % 2 ^ width }
{
    modulo(x.wrapping_sub(y), width)
}

impl Arithmetic {
    /// Its row.
    pub fn row(self) -> Row
        ensures { said_by result ≡ arithmetic_row (named_arithmetic self) }
    {
        match self {
            Arithmetic::Add => arithmetic("add", false),
            Arithmetic::Sub => arithmetic("sub", false),
            Arithmetic::Mul => arithmetic("mul", false),
            Arithmetic::Div => arithmetic("div", true),
        }
    }

    /// Its name behind that of the dialect and a dot.
    pub fn dotted_name(self) -> &'static str
        ensures { result.now ≡ codes "kit" ++ (codes "." ++ (named_arithmetic self).name) }
    {
        match self {
            Arithmetic::Add => "kit.add",
            Arithmetic::Sub => "kit.sub",
            Arithmetic::Mul => "kit.mul",
            Arithmetic::Div => "kit.div",
        }
    }

    /// The result on two numbers of so many bits, or `None` where it traps: a division by zero does.
    #[tactic(auto, using(crate::proofs::Widths::reduced_twice))]
    #[inline]
    pub fn calculate(self, width: u32, x: u64, y: u64) -> Option<u64>
        requires { width ≤ 64 }
        ensures { result ≡ calc self width x y }
    {
        match self {
            Arithmetic::Add => Some(modulo(x.wrapping_add(y), width)),
            Arithmetic::Sub => Some(difference(x, y, width)),
            Arithmetic::Mul => Some(modulo(x.wrapping_mul(y), width)),
            Arithmetic::Div => if y == 0 { None } else { Some(x / y) },
        }
    }
}

impl Comparison {
    /// Its row.
    pub fn row(self) -> Row
        ensures { said_by result ≡ comparison_row (comparison_name self) }
    {
        match self {
            Comparison::Equal => comparison("eq"),
            Comparison::NotEqual => comparison("ne"),
            Comparison::Less => comparison("ult"),
            Comparison::LessOrEqual => comparison("ule"),
        }
    }

    /// Its name behind that of the dialect and a dot.
    pub fn dotted_name(self) -> &'static str
        ensures { result.now ≡ codes "kit" ++ (codes "." ++ comparison_name self) }
    {
        match self {
            Comparison::Equal => "kit.eq",
            Comparison::NotEqual => "kit.ne",
            Comparison::Less => "kit.ult",
            Comparison::LessOrEqual => "kit.ule",
        }
    }

    /// Whether the comparison holds of two numbers without a sign.
    #[inline]
    pub fn holds(self, x: u64, y: u64) -> bool
        ensures { result ≡ compare self x y }
    {
        match self {
            Comparison::Equal => x == y,
            Comparison::NotEqual => x != y,
            Comparison::Less => x < y,
            Comparison::LessOrEqual => x <= y,
        }
    }

    /// The same as a number of one bit: 1 if it holds, and 0 if not.
    #[inline]
    pub fn bit(self, x: u64, y: u64) -> u64
        ensures { result ≡ bit (compare self x y) }
    {
        if self.holds(x, y) { 1 } else { 0 }
    }
}

impl KitOp {
    /// The arithmetic or the comparison with this number.
    pub fn operator_at(number: usize) -> Option<KitOp>
        ensures { result ≡ slice_get operators number }
    {
        match number {
            0 => Some(KitOp::Arithmetic(Arithmetic::Add)),
            1 => Some(KitOp::Arithmetic(Arithmetic::Sub)),
            2 => Some(KitOp::Arithmetic(Arithmetic::Mul)),
            3 => Some(KitOp::Arithmetic(Arithmetic::Div)),
            4 => Some(KitOp::Comparison(Comparison::Equal)),
            5 => Some(KitOp::Comparison(Comparison::NotEqual)),
            6 => Some(KitOp::Comparison(Comparison::Less)),
            7 => Some(KitOp::Comparison(Comparison::LessOrEqual)),
            _ => None,
        }
    }
}
