//! The numbers of a frame.
ghost use Rattle.std.specs.Prelude.{◌≡◌, length, map, nat_eq, OnOk};
ghost use Rattle.kit_flat.specs.Machine.{bind_all};
ghost use Rattle.kit_flat.specs.View.{numbers_of};
ghost use Rattle.kit_flat.specs.Sound.{AreBelow};

use std::alloc::AllocError;

/// A function that runs, the place of its next instruction, and a number for each of its values.
#[derive(Drop)]
pub struct FlatFrame {
    pub(crate) function: usize,
    pub(crate) block: usize,
    pub(crate) index: usize,
    pub(crate) values: Vec<u64>,
}

/// Binds values to numbers, the first to the first, as far as both go.
fn bind(values: &mut [u64], names: &[usize], numbers: &[u64])
    requires { AreBelow (length values.old) names.now }
    ensures { numbers_of values.new ≡ bind_all nat_eq (numbers_of values.old) names.now numbers.now }
{
    let count = names.len().min(numbers.len());
    for i in 0..count {
        values[names[i]] = numbers[i];
    }
}

/// The same in a vector.
pub fn bind_list(values: &mut Vec<u64>, names: &[usize], numbers: &[u64])
    requires { AreBelow (length values.old.items) names.now }
    ensures numbers { numbers_of values.new.items ≡ bind_all nat_eq (numbers_of values.old.items) names.now
        numbers.now }
    ensures len { length values.new.items ≡ length values.old.items }
{
    bind(values.as_mut_slice(), names, numbers);
}

/// The numbers of values, in place of what was there.
pub fn gather(into: &mut Vec<u64>, values: &[u64], names: &[usize]) -> Result<(), AllocError>
    requires { AreBelow (length values.now) names.now }
    ensures { OnOk result (into.new.items ≡ map (numbers_of values.now) names.now) }
{
    into.clear();
    for name in names {
        into.push(values[*name])?;
    }
    Ok(())
}
