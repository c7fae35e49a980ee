//! What has been found so far.
ghost use Rattle.std.specs.Prelude.{ℕ, ◌≡◌, ◌<◌, All, length, slice_get, true, Some};

use crate::facts_problem::FactsProblem;
use crate::known::{Known, fall};
use std::alloc::{AllocError, Global};

/// The blocks that are known to run and what is known of the values, with lists of the blocks and values that others
/// have still to be told of.
#[derive(Drop)]
pub struct Found<K> {
    /// Of each block, whether it is known to run.
    pub runs: Vec<bool>,
    /// What is known of each value.
    pub known: Vec<Known<K>>,
    /// The blocks that began to run, and whose operations weren't visited since.
    pub blocks: Vec<usize>,
    /// The values of which less is known than their readers saw.
    pub values: Vec<usize>,
    ghost blocks_run: { All (λ b. slice_get runs.items b ≡ Some true) blocks.items },
    ghost values_in: { All (λ v. v < length known.items) values.items },
}

impl<K: Copy + Eq> Found<K> {
    ghost use Rattle.std.specs.Prelude.{Contains, IfOk, OnOk, IfSome, IfNone, []};
    ghost use Rattle.opt_rows.specs.declared.known.Known.TheVariants.{Any};
    ghost use Rattle.opt_rows.specs.Known.{AtOrBelow, AllAny};
    ghost use Rattle.opt_rows.specs.Facts.{RunsWithAny, arguments_of};
    ghost use Rattle.opt_rows.specs.FactsFound.{Meets, EntersAll, IsNothing};
    ghost use Rattle.opt_rows.specs.FactsFound.{TakesBlock, TakesValue, HasNoBlock, HasNoValue};

    /// Nothing is found of so many blocks and values.
    ///
    /// # Errors
    /// There may be no memory.
    pub fn new(alloc: Global, blocks: usize, values: usize) -> Result<Found<K>, AllocError>
        ensures { IfOk result (λ s. IsNothing s blocks values) }
    {
        Ok(Found {
            runs: vec![in alloc; false; blocks]?,
            known: vec![in alloc; Known::Undetermined; values]?,
            blocks: Vec::new(alloc),
            values: Vec::new(alloc),
        })
    }

    /// A fact holds of a value.
    ///
    /// # Errors
    /// There may be no memory.
    pub fn lower(&mut self, value: usize, fact: Known<K>) -> Result<(), AllocError>
        requires in_range { value < length self.old.known.items }
        requires same { (x y : K) → K.eq x y ≡ true → x ≡ y }
        ensures { OnOk result (Meets (λ l. AtOrBelow (l.of value) fact) self.old self.new) }
    {
        if let Some(new) = fall(self.known[value], fact) {
            self.known[value] = new;
            self.values.push(value)?;
        }
        Ok(())
    }

    /// A block runs.
    ///
    /// # Errors
    /// There may be no memory.
    pub fn run(&mut self, block: usize) -> Result<(), AllocError>
        requires { block < length self.old.runs.items }
        ensures { OnOk result (Meets (λ l. l.runs block ≡ true) self.old self.new) }
    {
        if !self.runs[block] {
            self.runs[block] = true;
            self.blocks.push(block)?;
        }
        Ok(())
    }

    /// Each of the values may be any.
    ///
    /// # Errors
    /// There may be no memory.
    pub fn give_up(&mut self, values: &[usize]) -> Result<(), AllocError>
        requires in_range { (v : ℕ) → Contains values.now v → v < length self.old.known.items }
        requires same { (x y : K) → K.eq x y ≡ true → x ≡ y }
        ensures { OnOk result (Meets (λ l. AllAny l.of values.now) self.old self.new) }
    {
        for value in values {
            self.lower(*value, Known::Any)?;
        }
        Ok(())
    }

    /// A block runs, with any arguments.
    ///
    /// # Errors
    /// There may be no memory.
    pub fn enter(&mut self, problem: &FactsProblem, block: usize) -> Result<(), AllocError>
        requires in_range { block < length self.old.runs.items }
        requires blocks { length self.old.runs.items ≡ length problem.now.arguments.items }
        requires arguments { (v : ℕ) → Contains (arguments_of problem.now block) v → v < length self.old.known.items }
        requires same { (x y : K) → K.eq x y ≡ true → x ≡ y }
        ensures { OnOk result (Meets (λ l. RunsWithAny problem.now l block) self.old self.new) }
    {
        self.run(block)?;
        self.give_up(&problem.arguments[block])?;
        Ok(())
    }

    /// Each of the blocks runs, with any arguments.
    ///
    /// # Errors
    /// There may be no memory.
    pub fn enter_all(&mut self, problem: &FactsProblem, blocks: &[usize]) -> Result<(), AllocError>
        requires in_range { (b : ℕ) → Contains blocks.now b → b < length self.old.runs.items }
        requires blocks { length self.old.runs.items ≡ length problem.now.arguments.items }
        requires arguments { (b v : ℕ) → Contains (arguments_of problem.now b) v → v < length self.old.known.items }
        requires same { (x y : K) → K.eq x y ≡ true → x ≡ y }
        ensures { OnOk result (Meets (EntersAll problem.now blocks.now) self.old self.new) }
    {
        for block in blocks {
            self.enter(problem, *block)?;
        }
        Ok(())
    }

    /// Takes a block from the list of those that began to run.
    pub fn take_block(&mut self) -> Option<usize>
        ensures some { IfSome result (TakesBlock self.old self.new) }
        ensures none { IfNone result (HasNoBlock self.old self.new) }
    {
        self.blocks.pop()
    }

    /// Takes a value from the list of those of which less is known than their readers saw.
    pub fn take_value(&mut self) -> Option<usize>
        ensures some { IfSome result (TakesValue self.old self.new) }
        ensures none { IfNone result (HasNoValue self.old self.new) }
    {
        self.values.pop()
    }
}
