//! Numbers in a row, small ones and ones that take eight bytes.
use ir_tokens::Numbers;
use std::alloc::{AllocError, Global};

/// The first number that takes eight bytes.
const LARGE: usize = 1 << 32;

/// Numbers that are put behind one another.
const ROWS: &[&[usize]] = &[
    &[],
    &[3, 0, LARGE - 1],
    &[3, LARGE, 7, usize::MAX],
    &[LARGE],
];

/// Numbers, an index and the number that is put there, and the numbers then.
const CHANGES: &[(&[usize], usize, usize, &[usize])] = &[
    (&[1, 2, 3], 1, 9, &[1, 9, 3]),
    (&[1, 2, 3], 0, LARGE, &[LARGE, 2, 3]),
    (&[1, LARGE, 3], 1, 0, &[1, 0, 3]),
    (&[1, 2], 2, 9, &[1, 2]),
    (&[1, 2], 2, LARGE, &[1, 2]),
];

/// Whether these are the numbers of a row, and no more.
fn has(numbers: &Numbers, wanted: &[usize]) -> bool {
    let mut places = wanted.iter().enumerate();
    places.all(|(index, number)| numbers.get(index) == Some(*number))
        && numbers.len() == wanted.len()
        && numbers.pair(wanted.len()) == (0, 0)
}

/// Numbers that are put behind one another.
fn row(alloc: Global, all: &[usize]) -> Result<Numbers, AllocError> {
    let mut numbers = Numbers::with_capacity(alloc, 2)?;
    for number in all {
        numbers.push(*number)?;
    }
    Ok(numbers)
}

/// Whether numbers that are put behind one another are kept.
fn are_kept(alloc: Global, all: &[usize]) -> Result<bool, AllocError> {
    Ok(has(&row(alloc, all)?, all))
}

/// Whether numbers are these once one is put at an index.
fn are_changed(
    alloc: Global,
    all: &[usize],
    index: usize,
    number: usize,
    wanted: &[usize],
) -> Result<bool, AllocError> {
    let mut numbers = row(alloc, all)?;
    numbers.set(index, number)?;
    Ok(has(&numbers, wanted))
}

/// With ample memory numbers are kept and replaced, however large they are.
#[test]
fn numbers_are_kept_and_replaced(rt: HostRuntime) -> Result<(), AllocError> {
    for all in ROWS {
        assert!(rt; are_kept(rt.alloc(), all)?);
    }
    for (all, index, number, wanted) in CHANGES {
        assert!(rt;
            are_changed(rt.alloc(), all, *index, *number, wanted)?,
            "{index}"
        );
    }
    Ok(())
}
