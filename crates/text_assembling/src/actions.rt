//! What an action asks for.
ghost use Rattle.std.specs.Prelude.{◌≡◌, Err, OnErr, OnOk};
ghost use Rattle.ir_tokens.specs.Tokens.{text_between};
ghost use Rattle.ir_characters.specs.Texts.{codes_of};
ghost use Rattle.ir_program.specs.Edits.{KeepsErased};
ghost use Rattle.ir_tokens.specs.declared.faults.Fault.{Fault};
ghost use Rattle.text_frames.specs.building.Kept.{KeepsPayloads};
ghost use Rattle.text_frames.specs.declared.opened.AssemblyFault.TheVariants.{CounterFull, Text};
ghost use Rattle.text_assembling.specs.Steps.{DoesStep, LacksNumbers, MayStep, RefusesStep, UndoesStep};

use crate::assembling::Assembler;
use ir_context::Context;
use ir_grammar::grammar::Action;
use text_dialect::TextDialect;
use text_frames::opened::{AssemblyFault, Content};
use text_frames::source::Source;

impl<D: TextDialect> Assembler<D> {
    /// Does what an action asks for.
    #[tactic(auto, using(crate::proofs::Undone::erased_same, crate::proofs::Undone::payloads_same, crate::proofs::Undone::undoes_same))]
    #[inline(always)]
    pub fn step(
        &mut self,
        ctx: &mut Context<D>,
        source: &Source,
        spares: &mut Vec<Box<Content<D>>>,
        action: Action,
    ) -> Result<(), AssemblyFault>
        requires going { MayStep D.says D.values (text_between (codes_of source.now.chars) source.now.starts.now)
            ctx.old self.old action }
        ensures went { OnOk result (DoesStep D.says D.values
            (text_between (codes_of source.now.chars) source.now.starts.now) ctx.old ctx.new self.old self.new action) }
        ensures refused { (f : Fault) → result ≡ Err (Text f) → RefusesStep D.says D.values
            (text_between (codes_of source.now.chars) source.now.starts.now) ctx.old self.old action f }
        ensures full { result ≡ Err CounterFull → LacksNumbers D.says D.values
            (text_between (codes_of source.now.chars) source.now.starts.now) ctx.old self.old action }
        ensures undone { OnErr result (UndoesStep ctx.old ctx.new self.old self.new) }
        ensures taken { self.new.taken ≡ self.old.taken }
        ensures erased { KeepsErased ctx.old.program ctx.new.program }
        ensures payloads { KeepsPayloads ctx.old.program ctx.new.program }
    {
        match action {
            Action::Result => self.result(),
            Action::Operation(kind) => self.begin_operation(spares, kind),
            Action::BeginRegion => self.begin_region(spares),
            Action::Label => self.begin_block(spares),
            Action::Argument => self.argument(),
            Action::Header => self.header(ctx, *source),
            Action::Begin(sort, kind) => self.begin_value(spares, sort, kind),
            Action::Leaf(sort) => self.leaf(sort, source.text(self.last())),
            Action::BeginOperands => self.begin_operands(spares),
            Action::Operand => self.operand(),
            Action::BeginSuccessor => self.begin_successor(spares),
            Action::BeginList => self.begin_list(spares),
            Action::BeginItem => self.begin_item(spares),
            Action::BeginChoice(number) => self.begin_choice(spares, number),
            Action::EndOperation
            | Action::EndRegion
            | Action::EndBlock
            | Action::End(_)
            | Action::EndOperands
            | Action::EndItem
            | Action::EndList
            | Action::EndSuccessor
            | Action::EndChoice => self.end(ctx, spares),
        }
    }
}
