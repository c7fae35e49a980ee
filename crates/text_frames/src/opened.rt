//! What was begun in a text and isn't ended.
ghost use Rattle.std.specs.Prelude.{◌≡◌, [], ◌∷◌, OnOk, IfErr};
ghost use Rattle.ir_names.specs.Tree.{Trees};
ghost use Rattle.text_frames.specs.declared.opened.AssemblyFault.TheVariants.{Memory};
ghost use Rattle.ir_forest.specs.Forest.{ActionSpan};
ghost use Rattle.text_frames.specs.Opened.{IsFreshFrame, HasPart, HasPut};
ghost use Rattle.ir_forest.specs.ValueFaults.{part_tokens, piece_token};

use ir_names::{Dialects, GrowError};
use ir_print::Part;
use ir_program::{BasicBlock, Ptr};
use ir_tokens::faults::Fault;
use std::alloc::{AllocError, AllocFailed, Global};

/// Why assembling ends early.
#[derive(Clone, Copy, Debug, PartialEq, Eq)]
pub enum AssemblyFault {
    Memory,
    CounterFull,
    Text(Fault),
}

impl From<AllocError> for AssemblyFault {
    ghost use Rattle.text_frames.specs.declared.opened.AssemblyFault.TheVariants.{Memory};

    ghost from_gives = { λ _ e. e ≡ Memory };

    fn from(_error: AllocError) -> AssemblyFault {
        AssemblyFault::Memory
    }
}

impl<T: Drop> From<AllocFailed<T>> for AssemblyFault {
    ghost use Rattle.text_frames.specs.declared.opened.AssemblyFault.TheVariants.{Memory};

    ghost from_gives = { λ _ e. e ≡ Memory };

    fn from(_error: AllocFailed<T>) -> AssemblyFault {
        AssemblyFault::Memory
    }
}

impl From<GrowError> for AssemblyFault {
    ghost use Rattle.text_frames.specs.Opened.{of_growth};

    ghost from_gives = { λ error e. e ≡ of_growth error };

    fn from(error: GrowError) -> AssemblyFault {
        match error {
            GrowError::Memory => AssemblyFault::Memory,
            GrowError::CounterFull => AssemblyFault::CounterFull,
        }
    }
}

/// What is said in something so far: parts, and the tokens at which those begin that a dialect may refuse, in the order of the
/// text. What is in lists and choices has tokens, not they themselves.
#[derive(Drop)]
pub struct Content<D: Dialects> {
    pub parts: Vec<Part<D>>,
    pub tokens: Vec<usize>,
}

/// What an operation has so far beside its parts.
#[derive(Drop)]
pub struct OpenOperation {
    /// The number of its kind.
    pub kind: u8,
    /// The tokens that name its operands, those that edges hand on among them.
    pub operands: Vec<usize>,
    /// The tokens of the labels of its edges.
    pub labels: Vec<usize>,
    /// The blocks of each of its regions.
    pub regions: Vec<Vec<Ptr<BasicBlock>>>,
}

/// What a block has so far beside the types of its arguments.
#[derive(Clone, Copy)]
pub struct OpenBlock {
    /// The block, once its header is read.
    pub block: Option<Ptr<BasicBlock>>,
}

/// What was begun, with what it has that others don't. Kinds are given by their numbers.
#[derive(Drop)]
pub enum Body<D: Dialects> {
    /// The whole text.
    Text,
    Type(u8),
    Attribute(u8),
    /// A list, with its members.
    List(Vec<Vec<Part<D>>>),
    /// A member of a list.
    Item,
    /// What the format with this number, of several, says.
    Choice(usize),
    Operation(OpenOperation),
    /// Operands, by the tokens that name them.
    Operands(Vec<usize>),
    /// An edge, by the tokens of the operands that it hands on. It begins at the token of its label.
    Successor(Vec<usize>),
    /// A region, with its blocks.
    Region(Vec<Ptr<BasicBlock>>),
    Block(OpenBlock),
}

/// What was begun and isn't ended.
#[derive(Drop)]
pub struct Open<D: Dialects> {
    pub body: Body<D>,
    /// The token at which it begins.
    pub first: usize,
    /// What is said in it, in a box so that what is open is moved at little cost.
    pub content: Box<Content<D>>,
    /// The names of results behind all else that was read in it.
    pub names: Vec<usize>,
    /// The numbers of the definitions that are named in it, and not made yet.
    pub numbers: Vec<usize>,
}

impl<D: Dialects> Content<D> {
    pub fn new(alloc: Global) -> Self
        ensures parts { result.parts.items ≡ [] }
        ensures tokens { result.tokens.items ≡ [] }
    {
        Content {
            parts: Vec::new(alloc),
            tokens: Vec::new(alloc),
        }
    }

    /// Lets go of all parts, and keeps the memory for those that come.
    pub fn clear(&mut self)
        ensures parts { self.new.parts.items ≡ [] }
        ensures tokens { self.new.tokens.items ≡ [] }
    {
        self.parts.clear();
        self.tokens.clear();
    }

    /// One more part, which begins at the token.
    #[inline(always)]
    pub fn put(&mut self, part: Part<D>, token: usize) -> Result<(), AssemblyFault>
        ensures put { OnOk result (HasPart self.old self.new part (token ∷ [])) }
        ensures memory { IfErr result (λ e. e ≡ Memory) }
    {
        self.parts.push(part)?;
        self.tokens.push(token)?;
        Ok(())
    }

    /// One more part, in which these tokens begin parts.
    pub fn put_all(&mut self, part: Part<D>, tokens: &[usize]) -> Result<(), AssemblyFault>
        ensures put { OnOk result (HasPart self.old self.new part tokens.now) }
        ensures memory { IfErr result (λ e. e ≡ Memory) }
    {
        self.parts.push(part)?;
        self.tokens.extend_from_slice(tokens)?;
        Ok(())
    }

    /// The token at which the part with a number begins, or another one where there is no such part.
    pub fn token(&self, number: usize, other: usize) -> usize
        ensures { (ts : Trees ActionSpan) → self.now.tokens.items ≡ part_tokens ts
            → result ≡ piece_token ts number other }
    {
        match self.tokens.get(number) {
            Some(token) => *token,
            None => other,
        }
    }
}

impl<D: Dialects> Open<D> {
    /// What begins at a token, with nothing in it, in the memory of a content whose parts are let go.
    pub fn reusing(alloc: Global, mut content: Box<Content<D>>, body: Body<D>, first: usize) -> Self
        ensures { IsFreshFrame result body first }
    {
        content.clear();
        Open {
            body,
            first,
            content,
            names: Vec::new(alloc),
            numbers: Vec::new(alloc),
        }
    }

    /// One more part, behind which no name of a result stands yet.
    #[inline(always)]
    pub fn put(&mut self, part: Part<D>, token: usize) -> Result<(), AssemblyFault>
        ensures put { OnOk result (HasPut self.old self.new self.old.body part (token ∷ [])) }
        ensures memory { IfErr result (λ e. e ≡ Memory) }
    {
        self.names.clear();
        self.content.put(part, token)
    }

    /// One more part, in which these tokens begin parts, and behind which no name of a result stands yet.
    pub fn put_all(&mut self, part: Part<D>, tokens: &[usize]) -> Result<(), AssemblyFault>
        ensures put { OnOk result (HasPut self.old self.new self.old.body part tokens.now) }
        ensures memory { IfErr result (λ e. e ≡ Memory) }
    {
        self.names.clear();
        self.content.put_all(part, tokens)
    }
}
