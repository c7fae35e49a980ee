//! One pass over what reading did, which puts the operations of a text into a context as they are read.
//!
//! What was begun waits around what is being read, the innermost last. Types and attributes are made at their ends,
//! a block at the end of its header, and an operation with its regions at its end. Operands and the blocks to which edges
//! lead may be defined further on, so they are linked once all operations are made.
ghost use Rattle.std.specs.Prelude.{◌≡◌, ◌-◌, ◌+◌, ◌^◌, ◌≤◌, ◌<◌, length, slice_get, [], Some, None, Err, OnErr, OnOk, IfOk};
ghost use Rattle.ir_forest.specs.Building.{first_refusal};
ghost use Rattle.ir_forest.specs.Identifiers.{AreSpelt};
ghost use Rattle.ir_forest.specs.Progress.{Leads};
ghost use Rattle.ir_tokens.specs.Tokens.{text_between};
ghost use Rattle.ir_grammar.specs.Nesting.{at_root, at_end, Nests};
ghost use Rattle.ir_grammar.specs.declared.grammar.Action.{Action};
ghost use Rattle.ir_grammar.specs.declared.grammar.Event.TheVariants.{Did, Took};
ghost use Rattle.ir_characters.specs.Texts.{codes_of};
ghost use Rattle.ir_program.specs.Edits.{KeepsErased};
ghost use Rattle.ir_scopes.specs.Naming.{defined_from};
ghost use Rattle.ir_tokens.specs.declared.faults.Fault.{Fault};
ghost use Rattle.text_dialect.specs.Seen.{seen};
ghost use Rattle.text_frames.specs.building.Kept.{KeepsPayloads, SameSeen};
ghost use Rattle.text_frames.specs.Raised.{HoldsAllNew, IsAssembled};
ghost use Rattle.text_frames.specs.declared.opened.AssemblyFault.TheVariants.{CounterFull, Text};
ghost use Rattle.text_assembling.specs.Assembling.{HasReadNothing};
ghost use Rattle.text_assembling.specs.Steps.{DoesStep, LacksNumbers, MayStep, RefusesStep, UndoesStep};

use ir_context::Context;
use ir_grammar::grammar::Event;
use ir_names::Dialects;
use ir_program::Room;
use std::alloc::{AllocError, Global};
use text_dialect::TextDialect;
use text_frames::assembly::Assembly;
use text_frames::building::{discard, know_seen};
use text_frames::opened::{AssemblyFault, Body, Content, Open};
use text_frames::source::Source;
use text_frames::waiting::WaitingOperands;

/// A text on its way into a context.
#[derive(Drop)]
pub struct Assembler<D: Dialects> {
    pub alloc: Global,
    /// The number of tokens that were taken.
    pub taken: usize,
    /// What is being read.
    pub here: Open<D>,
    /// What was begun around it, the innermost last.
    pub around: Vec<Open<D>>,
    pub made: Assembly,
    /// The operands of the operation that ended last, whose memory serves again.
    pub spare_operands: Vec<usize>,
    /// So it is of the labels of its edges.
    pub spare_labels: Vec<usize>,
}

impl<D: TextDialect> Assembler<D> {
    /// Nothing is read yet. There is room for the values, the blocks, the operands and the edges of so much.
    fn with_room(alloc: Global, room: Room) -> Result<Self, AllocError>
        ensures { IfOk result HasReadNothing }
    {
        let content = Box::new(alloc, Content::new(alloc))?;
        Ok(Assembler {
            alloc,
            taken: 0,
            here: Open::reusing(alloc, content, Body::Text, 0),
            around: Vec::new(alloc),
            made: Assembly {
                root: None,
                values: Vec::with_capacity(alloc, room.values)?,
                blocks: Vec::with_capacity(alloc, room.blocks)?,
                pending: WaitingOperands::with_capacity(
                    alloc,
                    room.operations,
                    room.operands,
                    room.successors,
                )?,
                loose: Vec::new(alloc),
            },
            spare_operands: Vec::new(alloc),
            spare_labels: Vec::new(alloc),
        })
    }

    /// Does what the event with a number asks for. Half of all events ask for one addition, so this stands in the loop over
    /// them.
    #[inline(always)]
    fn take(
        &mut self,
        ctx: &mut Context<D>,
        source: &Source,
        spares: &mut Vec<Box<Content<D>>>,
        events: &[Event],
        index: usize,
    ) -> Result<(), AssemblyFault>
        requires within { index < length events.now }
        requires taken { self.old.taken ≤ index }
        requires going { (x : Action) → slice_get events.now index ≡ Some (Did x) → MayStep D.says D.values
            (text_between (codes_of source.now.chars) source.now.starts.now) ctx.old self.old x }
        ensures took { slice_get events.now index ≡ Some Took
            → (self.new ≡ record self.old { taken = self.old.taken + 1 }) × (ctx.new ≡ ctx.old) }
        ensures did { (x : Action) → slice_get events.now index ≡ Some (Did x) → (self.new.taken ≡ self.old.taken)
            × OnOk result (DoesStep D.says D.values
            (text_between (codes_of source.now.chars) source.now.starts.now) ctx.old ctx.new self.old self.new x) }
        ensures refused { (f : Fault) → result ≡ Err (Text f) → (x : Action)
            × (slice_get events.now index ≡ Some (Did x)) × RefusesStep D.says D.values
            (text_between (codes_of source.now.chars) source.now.starts.now) ctx.old self.old x f }
        ensures full { result ≡ Err CounterFull → (x : Action)
            × (slice_get events.now index ≡ Some (Did x)) × LacksNumbers D.says D.values
            (text_between (codes_of source.now.chars) source.now.starts.now) ctx.old self.old x }
        ensures undone { OnErr result (UndoesStep ctx.old ctx.new self.old self.new) }
        ensures erased { KeepsErased ctx.old.program ctx.new.program }
        ensures payloads { KeepsPayloads ctx.old.program ctx.new.program }
    {
        match events[index] {
            Event::Took => {
                self.taken += 1;
                Ok(())
            }
            Event::Did(action) => self.step(ctx, source, spares, action),
        }
    }

    /// The token that was taken last.
    pub fn last(&self) -> usize
        ensures { result ≡ self.now.taken - 1 }
    {
        self.taken.saturating_sub(1)
    }
}

/// Puts the operation of a text into a context, of which reading did this, but for operands and successors. The root stands
/// in no block. Room for so much is asked for ahead, so that no table of the context is copied as it grows.
///
/// # Errors
/// The first value of the text that is refused; `Memory`; and `CounterFull` where the text defines more values than
/// the counter can be moved on by. Each handle leads to what it led to then.
pub fn assemble<D: TextDialect>(
    alloc: Global,
    ctx: &mut Context<D>,
    source: Source,
    events: &[Event],
    room: Room,
) -> Result<Assembly, AssemblyFault>
    requires nests { Nests at_root [] events.now }
    requires spelt { AreSpelt (text_between (codes_of source.chars) source.starts.now) 0 events.now }
    // Of a whole text the root has the tree that is built, definitions have values, and operations wait for operands.
    ensures made { Leads at_root [] events.now at_end [] → IfOk result (λ a. IsAssembled D.says D.values
        (text_between (codes_of source.entry.chars) source.entry.starts.now) (seen ctx.old) (seen ctx.new)
        ctx.old.program.counter ctx.new.program.counter a events.now) }
    // Whole or not, all that came is inside the loose things.
    ensures held { IfOk result (λ a. HoldsAllNew (seen ctx.old) (seen ctx.new) a.loose.items) }
    ensures undone { OnErr result (SameSeen (seen ctx.old) (seen ctx.new)) }
    ensures sound { OnOk result (first_refusal D.values
        (text_between (codes_of source.entry.chars) source.entry.starts.now) events.now ≡ None) }
    ensures refused { (f : Fault) → result ≡ Err (Text f) → first_refusal D.values
        (text_between (codes_of source.entry.chars) source.entry.starts.now) events.now ≡ Some f }
    ensures full { result ≡ Err CounterFull
        → 2 ^ 64 ≤ ctx.old.program.counter + length (defined_from 0 events.now) }
    ensures erased { KeepsErased ctx.old.program ctx.new.program }
    ensures payloads { KeepsPayloads ctx.old.program ctx.new.program }
{
    know_seen(ctx);
    ctx.reserve(room)?;
    let mut assembler = Assembler::with_room(alloc, room)?;
    // The contents of what has ended, whose memory serves again.
    let mut spares = Vec::new(alloc);
    for index in 0..events.len() {
        if let Err(fault) = assembler.take(ctx, &source, &mut spares, events, index) {
            discard(ctx, &assembler.made.loose);
            return Err(fault);
        }
    }
    let Assembler { made, .. } = assembler;
    Ok(made)
}
