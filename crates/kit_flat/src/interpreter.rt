//! Steps of the machine over the flat form, with the frames on a stack of their own.
ghost use Rattle.std.specs.Prelude.{◌≡◌, ◌∷◌, ◌-◌, ◌^◌, ◌<◌, ◌≤◌, Some, length, map, reverse, nat_eq, slice_get, option_copied, option_map, IfOk, OnOk};
ghost use Rattle.kit_ops.specs.Arithmetic.{calc, compare, bit};
ghost use Rattle.kit_flat.specs.Machine.{bind_all, arguments_of, first_frame, chosen, entered, on_top, resumed, returned, step, start};
ghost use Rattle.kit_flat.specs.View.{numbers_of, block_view, block_in, flat_code, frame_view, state_view};
ghost use Rattle.kit_flat.specs.Sound.{AreBelow, EdgeOperandsFit, ArgumentsFit, Fetched, results_named, FlatFunctionsFit, IsActive, IsAtInstruction, IsRunning};
ghost use Rattle.kit_flat.specs.Shows.{TurnShows, BindsNumber, along};

use crate::flat::{FlatEdge, FlatFunction, FlatModule, Instruction};
use crate::frames::{FlatFrame, bind_list, gather};
use kit_ops::{Arithmetic, Comparison};
use std::alloc::{AllocError, Global};
use std::mem;

/// A run that goes on: the frame of the innermost call, those that wait, the innermost last, and what was emitted.
#[derive(Drop)]
pub struct Running {
    /// The frame of the innermost call.
    pub top: FlatFrame,
    /// Those that wait, the innermost last.
    pub waiting: Vec<FlatFrame>,
    /// What was emitted, in order.
    pub emissions: Vec<u64>,
    /// Numbers on their way from values to values.
    scratch: Vec<u64>,
}

/// What a step led to.
#[derive(Drop)]
pub enum Turn {
    /// The run goes on.
    On,
    /// The first function returned these values.
    Over(Vec<u64>),
    /// An operation trapped.
    Failed,
    /// There is no next operation.
    Lost,
}

/// Binds the arguments of a block to numbers.
fn bind_arguments(values: &mut Vec<u64>, function: &FlatFunction, target: usize, numbers: &[u64])
    requires { ArgumentsFit (length values.old.items) function.now }
    ensures bound { numbers_of values.new.items ≡ bind_all nat_eq (numbers_of values.old.items)
        (arguments_of (option_map block_view (block_in (Some function.now) target))) numbers.now }
    ensures len { length values.new.items ≡ length values.old.items }
{
    if let Some(block) = function.blocks.get(target) {
        bind_list(values, block.arguments.as_slice(), numbers);
    }
}

/// Binds the arguments of a block to what a branch forwards, all at once.
fn forward(
    values: &mut Vec<u64>,
    function: &FlatFunction,
    edge: &FlatEdge,
    scratch: &mut Vec<u64>,
) -> Result<(), AllocError>
    requires edge { EdgeOperandsFit (length values.old.items) edge.now }
    requires arguments { ArgumentsFit (length values.old.items) function.now }
    ensures bound { OnOk result (numbers_of values.new.items ≡ bind_all nat_eq (numbers_of values.old.items)
        (arguments_of (option_map block_view (block_in (Some function.now) edge.now.target)))
        (map (numbers_of values.old.items) edge.now.operands.items)) }
    ensures len { length values.new.items ≡ length values.old.items }
{
    gather(scratch, values.as_slice(), edge.operands.as_slice())?;
    bind_arguments(values, function, edge.target, scratch.as_slice());
    Ok(())
}

/// The frame of a call.
fn enter(
    alloc: Global,
    code: &FlatModule,
    function: usize,
    arguments: &[u64],
) -> Result<FlatFrame, AllocError>
    requires sound { FlatFunctionsFit code.now.functions.items }
    requires within { function < length code.now.functions.items }
    ensures enters { IfOk result (λ a. frame_view a ≡ first_frame nat_eq (flat_code code.now.functions.items)
        function arguments.now 0) }
    ensures active { IfOk result (IsActive code.now.functions.items) }
{
    let called = &code.functions[function];
    let mut values = vec![in alloc; 0u64; called.values]?;
    bind_arguments(&mut values, called, 0, arguments);
    Ok(FlatFrame {
        function,
        block: 0,
        index: 0,
        values,
    })
}

/// The instruction at which a frame is.
fn fetch<'a>(code: &'a FlatModule, top: &FlatFrame) -> Option<&'a Instruction>
    requires sound { FlatFunctionsFit code.now.functions.items }
    requires active { IsActive code.now.functions.items top.now }
    ensures { Fetched code.now.functions.items top.now (option_copied result) }
{
    let function = &code.functions[top.function];
    match function.blocks.get(top.block) {
        None => None,
        Some(block) => match block.instructions.get(top.index) {
            None => None,
            Some(instruction) => Some(instruction),
        },
    }
}

/// The results that a call names.
fn results_in(instruction: &Instruction) -> &[usize]
    ensures { result.now ≡ results_named instruction.now }
{
    match instruction {
        Instruction::Call { results, .. } => results.as_slice(),
        _ => &[],
    }
}

/// Binds what a call returned in the frame that waits for it.
fn resume(top: &mut FlatFrame, code: &FlatModule, numbers: &[u64])
    requires sound { FlatFunctionsFit code.now.functions.items }
    requires waiting { IsAtInstruction code.now.functions.items top.old }
    ensures resumes { frame_view top.new ≡ resumed nat_eq (flat_code code.now.functions.items) (frame_view top.old)
        numbers.now }
    ensures active { IsActive code.now.functions.items top.new }
{
    match fetch(code, top) {
        Some(instruction) => {
            bind_list(&mut top.values, results_in(instruction), numbers);
            top.index += 1;
        }
        None => unreachable!(),
    }
}

impl Running {
    /// The run of a function with these arguments, of which no step is made yet.
    ///
    /// # Errors
    /// There may be no memory.
    pub fn begin(
        alloc: Global,
        code: &FlatModule,
        function: usize,
        arguments: &[u64],
    ) -> Result<Running, AllocError>
        requires sound { FlatFunctionsFit code.now.functions.items }
        requires within { function < length code.now.functions.items }
        ensures starts { IfOk result (λ running. state_view running
            ≡ start nat_eq (flat_code code.now.functions.items) function arguments.now) }
        ensures running { IfOk result (IsRunning code.now.functions.items) }
    {
        let top = enter(alloc, code, function, arguments)?;
        Ok(Running {
            top,
            waiting: Vec::new(alloc),
            emissions: Vec::new(alloc),
            scratch: Vec::new(alloc),
        })
    }

    /// One step.
    ///
    /// # Errors
    /// There may be no memory for a frame or for what is emitted.
    pub fn step(&mut self, alloc: Global, code: &FlatModule) -> Result<Turn, AllocError>
        requires sound { FlatFunctionsFit code.now.functions.items }
        requires running { IsRunning code.now.functions.items self.old }
        ensures { IfOk result (TurnShows code.now.functions.items
            (step nat_eq (flat_code code.now.functions.items) (state_view self.old)) self.new) }
    {
        let instruction = match fetch(code, &self.top) {
            Some(instruction) => instruction,
            None => return Ok(Turn::Lost),
        };
        match instruction {
            Instruction::Constant { result, number } => {
                self.bind(*result, *number);
                Ok(Turn::On)
            }
            Instruction::Calculate {
                function,
                width,
                result,
                left,
                right,
            } => {
                match self.calculated(*function, *width, *left, *right) {
                    None => Ok(Turn::Failed),
                    Some(number) => {
                        self.bind(*result, number);
                        Ok(Turn::On)
                    }
                }
            }
            Instruction::Compare {
                function,
                result,
                left,
                right,
            } => {
                let bit = self.compared(*function, *left, *right);
                self.bind(*result, bit);
                Ok(Turn::On)
            }
            Instruction::Emit(value) => {
                self.emissions.push(self.top.values[*value])?;
                self.top.index += 1;
                Ok(Turn::On)
            }
            Instruction::Call {
                callee,
                operands,
                ..
            } => self.call(alloc, code, *callee, operands.as_slice()),
            Instruction::Br(edge) => self.follow(code, edge),
            Instruction::CondBr {
                condition,
                taken,
                otherwise,
            } => self.branch(code, *condition, taken, otherwise),
            Instruction::Return(values) => self.leave(alloc, code, values.as_slice()),
        }
    }

    /// The result of arithmetic on the numbers of two values, or `None` where it traps.
    #[inline]
    fn calculated(&self, function: Arithmetic, width: u32, left: usize, right: usize) -> Option<u64>
        requires width { width ≤ 64 }
        requires left { left < length self.now.top.values.items }
        requires right { right < length self.now.top.values.items }
        ensures { result ≡ calc function width (numbers_of self.now.top.values.items left)
            (numbers_of self.now.top.values.items right) }
    {
        function.calculate(width, self.top.values[left], self.top.values[right])
    }

    /// Whether the numbers of two values compare so, as a number of one bit.
    #[inline]
    fn compared(&self, function: Comparison, left: usize, right: usize) -> u64
        requires left { left < length self.now.top.values.items }
        requires right { right < length self.now.top.values.items }
        ensures { result ≡ bit (compare function (numbers_of self.now.top.values.items left)
            (numbers_of self.now.top.values.items right)) }
    {
        function.bit(self.top.values[left], self.top.values[right])
    }

    /// Binds a value to a number, and goes on to the next instruction.
    #[inline]
    fn bind(&mut self, value: usize, number: u64)
        requires within { value < length self.old.top.values.items }
        requires more { self.old.top.index < 2 ^ 64 - 1 }
        ensures { BindsNumber self.old self.new value number }
    {
        self.top.values[value] = number;
        self.top.index += 1;
    }

    /// A function is called with the numbers of values: its frame is on top, and the one that was waits.
    #[inline]
    fn call(
        &mut self,
        alloc: Global,
        code: &FlatModule,
        callee: usize,
        operands: &[usize],
    ) -> Result<Turn, AllocError>
        requires sound { FlatFunctionsFit code.now.functions.items }
        requires running { IsRunning code.now.functions.items self.old }
        requires waits { IsAtInstruction code.now.functions.items self.old.top }
        requires within { callee < length code.now.functions.items }
        requires operands { AreBelow (length self.old.top.values.items) operands.now }
        ensures { IfOk result (TurnShows code.now.functions.items
            (on_top (entered nat_eq (flat_code code.now.functions.items) callee
            (map (numbers_of self.old.top.values.items) operands.now))
            (frame_view self.old.top ∷ map frame_view (reverse self.old.waiting.items)) self.old.emissions.items) self.new) }
    {
        gather(&mut self.scratch, self.top.values.as_slice(), operands)?;
        let entered = enter(alloc, code, callee, self.scratch.as_slice())?;
        let caller = mem::replace(&mut self.top, entered);
        self.waiting.push(caller)?;
        Ok(Turn::On)
    }

    /// The function that runs is left with the numbers of values.
    #[inline]
    fn leave(
        &mut self,
        alloc: Global,
        code: &FlatModule,
        values: &[usize],
    ) -> Result<Turn, AllocError>
        requires sound { FlatFunctionsFit code.now.functions.items }
        requires running { IsRunning code.now.functions.items self.old }
        requires values { AreBelow (length self.old.top.values.items) values.now }
        ensures { IfOk result (TurnShows code.now.functions.items
            (returned nat_eq (flat_code code.now.functions.items) (map frame_view (reverse self.old.waiting.items))
            (map (numbers_of self.old.top.values.items) values.now) self.old.emissions.items) self.new) }
    {
        gather(&mut self.scratch, self.top.values.as_slice(), values)?;
        match self.waiting.pop() {
            None => {
                let numbers = mem::replace(&mut self.scratch, Vec::new(alloc));
                Ok(Turn::Over(numbers))
            }
            Some(caller) => {
                self.top = caller;
                resume(&mut self.top, code, self.scratch.as_slice());
                Ok(Turn::On)
            }
        }
    }

    /// Along the second edge if the condition is 0, else along the first.
    #[inline]
    fn branch(
        &mut self,
        code: &FlatModule,
        condition: usize,
        taken: &FlatEdge,
        otherwise: &FlatEdge,
    ) -> Result<Turn, AllocError>
        requires sound { FlatFunctionsFit code.now.functions.items }
        requires running { IsRunning code.now.functions.items self.old }
        requires within { condition < length self.old.top.values.items }
        requires taken { EdgeOperandsFit (length self.old.top.values.items) taken.now }
        requires otherwise { EdgeOperandsFit (length self.old.top.values.items) otherwise.now }
        ensures { IfOk result (TurnShows code.now.functions.items (along code.now.functions.items self.old
            (chosen (numbers_of self.old.top.values.items condition) otherwise.now taken.now)) self.new) }
    {
        if self.top.values[condition] == 0 {
            self.follow(code, otherwise)
        } else {
            self.follow(code, taken)
        }
    }

    /// To the first instruction of the block that a branch leads to.
    fn follow(&mut self, code: &FlatModule, edge: &FlatEdge) -> Result<Turn, AllocError>
        requires sound { FlatFunctionsFit code.now.functions.items }
        requires running { IsRunning code.now.functions.items self.old }
        requires edge { EdgeOperandsFit (length self.old.top.values.items) edge.now }
        ensures { IfOk result (TurnShows code.now.functions.items
            (along code.now.functions.items self.old edge.now) self.new) }
    {
        let function = &code.functions[self.top.function];
        forward(&mut self.top.values, function, edge, &mut self.scratch)?;
        self.top.block = edge.target;
        self.top.index = 0;
        Ok(Turn::On)
    }
}
