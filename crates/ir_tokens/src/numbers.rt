//! Numbers in a row.
ghost use Rattle.std.specs.Prelude.{◌≡◌, ◌<◌, ◌+◌, ◌^◌, ◌++◌, ◌∷◌, [], length, IfOk, OnOk, OnErr, slice_get, slice_index, slice_set};

use std::alloc::{AllocError, Global};
use std::marker::Model;

#[derive(Drop)]
enum Stored {
    /// All are below 2^32.
    Short(Vec<u32>),
    /// Any numbers.
    Long(Vec<usize>),
}

/// Numbers in a row, as a text has them for its tokens, one for each. They take four bytes each while all are below 2^32,
/// and eight once a larger one came.
#[derive(Drop)]
pub struct Numbers {
    stored: Stored,
}

impl Model for Numbers {
    ghost use Rattle.std.specs.Prelude.{ℕ, List};
    ghost use Rattle.ir_tokens.specs.Numbers.{numbers_of};

    ghost Value = { List ℕ };

    ghost view = { λ n. numbers_of n.stored };
}

/// The same numbers, with eight bytes for each.
fn widened(short: &Vec<u32>) -> Result<Vec<usize>, AllocError>
    ensures { IfOk result (λ v. v.items ≡ short.now.items) }
{
    let mut long = Vec::with_capacity(*short.allocator(), short.len())?;
    for number in short {
        long.push(*number as usize)?;
    }
    Ok(long)
}

impl Numbers {
    /// No numbers, with room for so many that are below 2^32.
    ///
    /// # Errors
    /// There may be no memory for so many.
    pub fn with_capacity(alloc: Global, many: usize) -> Result<Numbers, AllocError>
        ensures { IfOk result (λ n. n ≡ []) }
    {
        let stored = Stored::Short(Vec::with_capacity(alloc, many)?);
        Ok(Numbers { stored })
    }

    /// How many there are.
    pub fn len(&self) -> usize
        ensures { result ≡ length self.now }
    {
        match &self.stored {
            Stored::Short(short) => short.len(),
            Stored::Long(long) => long.len(),
        }
    }

    /// The number at an index, if there is one.
    #[inline(always)]
    pub fn get(&self, index: usize) -> Option<usize>
        ensures { result ≡ slice_get self.now index }
    {
        match &self.stored {
            Stored::Short(short) => match short.get(index) {
                Some(number) => Some(*number as usize),
                None => None,
            },
            Stored::Long(long) => long.get(index).copied(),
        }
    }

    /// The number at an index, or 0 past the last.
    #[inline(always)]
    pub fn at(&self, index: usize) -> usize
        ensures number { result ≡ slice_index self.now index }
        ensures few { length self.now < 2 ^ 63 }
    {
        match &self.stored {
            Stored::Short(short) => short.get(index).map_or(0, |number| *number as usize),
            Stored::Long(long) => long.get(index).copied().unwrap_or(0),
        }
    }

    /// The number at an index and the one behind it, each 0 past the last.
    #[inline(always)]
    pub fn pair(&self, index: usize) -> (usize, usize)
        ensures first { result.0 ≡ slice_index self.now index }
        ensures second { result.1 ≡ slice_index self.now (index + 1) }
    {
        let behind = if index < self.len() {
            self.at(index + 1)
        } else {
            0
        };
        (self.at(index), behind)
    }

    /// Puts a number behind the others.
    ///
    /// # Errors
    /// There may be no memory for it. Then nothing is changed.
    // A text asks for this at each token, so it stands where it is asked for.
    #[inline(always)]
    pub fn push(&mut self, number: usize) -> Result<(), AllocError>
        ensures pushed { OnOk result (self.new ≡ self.old ++ number ∷ []) }
        ensures err { OnErr result (self.new ≡ self.old) }
    {
        if let Stored::Short(short) = &mut self.stored {
            if number <= u32::MAX as usize {
                short.push(number as u32)?;
                return Ok(());
            }
        }
        self.push_long(number)
    }

    /// Puts a number behind the others, each of which takes eight bytes from now on.
    #[inline(never)]
    fn push_long(&mut self, number: usize) -> Result<(), AllocError>
        ensures pushed { OnOk result (self.new ≡ self.old ++ number ∷ []) }
        ensures err { OnErr result (self.new ≡ self.old) }
    {
        match &mut self.stored {
            Stored::Short(short) => {
                let mut long = widened(short)?;
                long.push(number)?;
                self.stored = Stored::Long(long);
            }
            Stored::Long(long) => long.push(number)?,
        }
        Ok(())
    }

    /// Puts a number in the place of the one at an index, if there is one.
    ///
    /// # Errors
    /// There may be no memory for the first number that is not below 2^32. Then nothing is changed.
    #[inline(always)]
    pub fn set(&mut self, index: usize, number: usize) -> Result<(), AllocError>
        ensures set { OnOk result (self.new ≡ slice_set self.old index number) }
        ensures err { OnErr result (self.new ≡ self.old) }
    {
        if let Stored::Short(short) = &mut self.stored {
            if number <= u32::MAX as usize {
                if index < short.len() {
                    short[index] = number as u32;
                }
                return Ok(());
            }
        }
        self.set_long(index, number)
    }

    /// Puts a number in the place of the one at an index, if there is one. Each takes eight bytes from now on.
    #[inline(never)]
    fn set_long(&mut self, index: usize, number: usize) -> Result<(), AllocError>
        ensures set { OnOk result (self.new ≡ slice_set self.old index number) }
        ensures err { OnErr result (self.new ≡ self.old) }
    {
        match &mut self.stored {
            Stored::Short(short) => {
                let mut long = widened(short)?;
                put(&mut long, index, number);
                self.stored = Stored::Long(long);
            }
            Stored::Long(long) => put(long, index, number),
        }
        Ok(())
    }
}

/// Puts a number in the place of the one at an index, if there is one.
pub fn put(numbers: &mut [usize], index: usize, number: usize)
    ensures { numbers.new ≡ slice_set numbers.old index number }
{
    if index < numbers.len() {
        numbers[index] = number;
    }
}
