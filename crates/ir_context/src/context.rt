//! The context in which a dialect's programs stand.
ghost use Rattle.std.specs.Prelude.{◌≡◌, ◌↔◌, [], None, IsTrue, option_copied};
ghost use Rattle.ir_base.specs.declared.types.TypeHandle.{TypeHandle};
ghost use Rattle.ir_program.specs.Program.{operation_at, block_at, region_at};
ghost use Rattle.ir_program.specs.Lists.{IsEmptyProgram, IsLiveNode, StandsInside};
ghost use Rattle.ir_types.specs.Interned.{key_at};
ghost use Rattle.ir_context.specs.Known.{HasKnownTypes};

use crate::notes::{BlockNotes, OperationData};
use crate::type_table::TypeTable;
use ir_names::TypeHandle;
use ir_program::{IRNode, Program, Room};
use ir_types::{DialectTables, Types};
use std::alloc::{AllocError, Global};
use std::marker::Model;

/// Operations, regions, blocks and values, and a table of the types that the values have. Operations carry a payload of
/// type `O`, blocks one of type `B`. The type of each value is one of the table's.
#[derive(Drop)]
pub struct TypedProgram<O, B, T: TypeTable> {
    pub(crate) program: Program<O, B>,
    pub(crate) types: T,
    alloc: Global,
}

/// The operations, regions, blocks and values of a dialect, and the types that they have.
pub type Context<D> = TypedProgram<OperationData<D>, BlockNotes<D>, Types<D>>;

impl<O, B, T: TypeTable> Model for TypedProgram<O, B, T> {
    ghost use Rattle.ir_context.specs.Views.{ContextView};
    ghost use Rattle.ir_context.specs.Known.{HasKnownTypes};

    ghost Value = { ContextView O B T };

    ghost view = { λ c. record { program = c.program; types = c.types } };

    ghost invariant = { λ c. HasKnownTypes (T.type_count c.types) c.program };
}

impl<O, B, T: TypeTable> TypedProgram<O, B, T> {
    /// No operation, region or block, beside a table of types.
    #[tactic(auto, using(crate::proofs::KnownTypes::none_known))]
    pub fn with_types(alloc: Global, types: T) -> TypedProgram<O, B, T>
        ensures operations { (p : _) → operation_at result.program p ≡ None }
        ensures blocks { (p : _) → block_at result.program p ≡ None }
        ensures regions { (p : _) → region_at result.program p ≡ None }
        ensures counter { result.program.counter ≡ 0 }
        ensures types { result.types ≡ types }
    {
        let program = Program::new(alloc);
        // So there is no value whose type could be unknown.
        program.know_values();
        TypedProgram {
            program,
            types,
            alloc,
        }
    }

    /// Tells that the type of each value is one of the table's. It does nothing.
    pub fn know_types(&self)
        ensures { HasKnownTypes (T.type_count self.now.types) self.now.program }
    {
        let _types = &self.types;
    }

    /// Its operations, regions, blocks and values, to be asked.
    pub fn program(&self) -> &Program<O, B>
        ensures { result.now ≡ self.now.program }
    {
        &self.program
    }

    /// Makes room for so much more in the tables that all operations, regions, blocks and values share, so that they do not
    /// grow while so much comes. What each operation and each block lists as its own still asks for memory.
    ///
    /// # Errors
    /// There may be no memory for so much. Room that was made stays.
    pub fn reserve(&mut self, room: Room) -> Result<(), AllocError>
        ensures same { self.new ≡ self.old }
    {
        self.program.reserve(room)
    }

    /// Whether there is no operation, no region and no block.
    pub fn is_ir_empty(&self) -> bool
        ensures { IsTrue result ↔ IsEmptyProgram self.now.program }
    {
        self.program.is_empty()
    }

    /// Whether `inner` is `outer` or stands in it, however far down.
    pub fn is_inside(&self, inner: IRNode, outer: IRNode) -> bool
        requires inner { IsLiveNode self.now.program inner }
        requires outer { IsLiveNode self.now.program outer }
        ensures { IsTrue result ↔ StandsInside self.now.program outer inner }
    {
        self.program.is_inside(inner, outer)
    }

    /// Its table of types, to be asked.
    pub fn types(&self) -> &T
        ensures { result.now ≡ self.now.types }
    {
        &self.types
    }

    /// Where it takes its memory from.
    pub fn allocator(&self) -> Global {
        self.alloc
    }
}

impl<D: DialectTables> TypedProgram<OperationData<D>, BlockNotes<D>, Types<D>> {
    /// No operation, region, block, type or saved value.
    pub fn new(alloc: Global) -> Context<D>
        ensures operations { (p : _) → operation_at result.program p ≡ None }
        ensures blocks { (p : _) → block_at result.program p ≡ None }
        ensures regions { (p : _) → region_at result.program p ≡ None }
        ensures counter { result.program.counter ≡ 0 }
        ensures types { result.types ≡ record { keys = []; bodies = []; saved = [] } }
    {
        TypedProgram::with_types(alloc, Types::new(alloc))
    }

    /// The key of a type, or `None` for a handle that leads to none.
    pub fn type_key(&self, ty: TypeHandle) -> Option<&D::TypeKey>
        ensures { option_copied result ≡ key_at self.now.types ty }
    {
        self.types.key(ty)
    }
}
