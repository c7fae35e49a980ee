//! Attributes that hold lists.
ghost use Rattle.std.specs.Prelude.{◌≡◌};

use ir_names::Identifier;

/// A list of attributes.
#[derive(Debug, PartialEq, Eq, Hash, Drop)]
pub struct VecAttr<A> {
    members: Vec<A>,
}

impl<A> VecAttr<A> {
    /// An attribute that holds the list.
    pub fn new(members: Vec<A>) -> VecAttr<A>
        ensures { result.members ≡ members }
    {
        VecAttr { members }
    }

    /// The members, in order.
    pub fn as_slice(&self) -> &[A]
        ensures { result.now ≡ self.now.members.items }
    {
        self.members.as_slice()
    }

    /// The list, without the attribute.
    pub fn into_vec(self) -> Vec<A>
        ensures { result ≡ self.members }
    {
        let VecAttr { members } = self;
        members
    }
}

/// How many operands each segment of an operation has.
#[derive(Debug, PartialEq, Eq, Hash, Drop)]
pub struct OperandSegmentSizesAttr {
    sizes: Vec<u32>,
}

impl OperandSegmentSizesAttr {
    /// An attribute that holds the sizes.
    pub fn new(sizes: Vec<u32>) -> OperandSegmentSizesAttr
        ensures { result.sizes ≡ sizes }
    {
        OperandSegmentSizesAttr { sizes }
    }

    /// The sizes, in order.
    pub fn as_slice(&self) -> &[u32]
        ensures { result.now ≡ self.now.sizes.items }
    {
        self.sizes.as_slice()
    }

    /// The sizes, without the attribute.
    pub fn into_vec(self) -> Vec<u32>
        ensures { result ≡ self.sizes }
    {
        self.sizes
    }
}

/// The names of results or arguments, `None` in the place of one that was not given.
#[derive(Debug, PartialEq, Eq, Hash, Drop)]
pub struct GivenNamesAttr {
    names: Vec<Option<Identifier>>,
}

impl GivenNamesAttr {
    /// An attribute that holds the names.
    pub fn new(names: Vec<Option<Identifier>>) -> GivenNamesAttr
        ensures { result.names ≡ names }
    {
        GivenNamesAttr { names }
    }

    /// The names, in order.
    pub fn names(&self) -> &[Option<Identifier>]
        ensures { result.now ≡ self.now.names.items }
    {
        self.names.as_slice()
    }

    /// The names, without the attribute.
    pub fn into_vec(self) -> Vec<Option<Identifier>>
        ensures { result ≡ self.names }
    {
        self.names
    }
}
