//! What ends in a text.
ghost use Rattle.std.specs.Prelude.{◌≡◌, ◌≤◌, ◌-◌, ◌+◌, ◌^◌, ◌∷◌, [], ℕ, length, List, Some, Err, OnErr, OnOk};
ghost use Rattle.ir_forest.specs.Building as building;
ghost use Rattle.ir_forest.specs.Building.{fault_at_end, with_end};
ghost use Rattle.ir_forest.specs.Forest.{ActionSpan};
ghost use Rattle.ir_formats.specs.Ordered.{Standing};
ghost use Rattle.ir_grammar.specs.Nesting.{Position};
ghost use Rattle.ir_names.specs.Tree.{Trees};
ghost use Rattle.ir_program.specs.Edits.{KeepsErased};
ghost use Rattle.ir_tokens.specs.declared.faults.Fault.{Fault};
ghost use Rattle.ir_types.specs.Interned.{KeepsTypes};
ghost use Rattle.text_dialect.specs.Seen.{seen};
ghost use Rattle.text_frames.specs.building.Kept.{KeepsPayloads};
ghost use Rattle.text_frames.specs.declared.opened.AssemblyFault.TheVariants.{CounterFull, Text};
ghost use Rattle.text_frames.specs.Frames.{Ended, Ending};
ghost use Rattle.text_assembling.specs.Assembling.{HasMade, KeepsAround, stage};
ghost use Rattle.text_assembling.specs.Steps.{CanEnd, CanEndIn, HasEnded, IsAt, IsUndone, IsWithout, MayGoOut, Progress};
ghost use Rattle.text_assembling.specs.declared.assembling.Assembler.{Assembler};

use crate::assembling::Assembler;
use ir_context::Context;
use ir_names::Dialects;
use ir_print::Part;
use text_dialect::TextDialect;
use text_frames::opened::{AssemblyFault, Body, Content, Open};

impl<D: TextDialect> Assembler<D> {
    /// What was begun ends at the last token, in what is around it.
    #[tactic(auto, using(crate::proofs::Undone::types_same, crate::proofs::Undone::erased_same, crate::proofs::Undone::payloads_same, crate::proofs::Undone::undone_same))]
    fn end_in(
        &mut self,
        ctx: &mut Context<D>,
        spares: &mut Vec<Box<Content<D>>>,
        ended: Open<D>,
    ) -> Result<(), AssemblyFault>
        requires going { CanEndIn D.says D.values (stage ctx.old) ended self.old }
        ensures ended { (text : ℕ → List ℕ) (o : building.Open) (at next : Position) (ts : Trees ActionSpan)
            → Ending D.says D.values text (seen ctx.old).types ended self.old.here o at next ts
            → OnOk result (Ended D.says D.values text (seen ctx.new).types self.old.here self.new.here o next ts
            (self.old.taken - 1)) }
        ensures refused { (text : ℕ → List ℕ) (o : building.Open) (at next : Position) (ts : Trees ActionSpan)
            → Ending D.says D.values text (seen ctx.old).types ended self.old.here o at next ts
            → (f : Fault) → result ≡ Err (Text f)
            → fault_at_end D.values text ts (o ∷ []) (self.old.taken - 1) ≡ Some f }
        ensures raised { (whole : Assembler D D.OpKind D.Attr D.TypeKey) (text : ℕ → List ℕ)
            (g : Progress D.OpKind D.Attr D.TypeKey) (next : Standing)
            → IsWithout whole ended self.old → IsAt D.says D.values text (stage ctx.old) whole g → MayGoOut g next
            → OnOk result (HasMade D.says D.values text g.start g.first (stage ctx.new) self.new
            (with_end g.built.here g.built.around (self.old.taken - 1)) next g.names) }
        ensures full { (whole : Assembler D D.OpKind D.Attr D.TypeKey) (text : ℕ → List ℕ)
            (g : Progress D.OpKind D.Attr D.TypeKey) (next : Standing)
            → IsWithout whole ended self.old → IsAt D.says D.values text (stage ctx.old) whole g → MayGoOut g next
            → result ≡ Err CounterFull → 2 ^ 64 ≤ g.first + length g.names.definitions }
        ensures undone { OnErr result (IsUndone (seen ctx.old) (seen ctx.new) self.old self.new) }
        ensures around { KeepsAround self.old self.new }
        ensures types { KeepsTypes ctx.old.types ctx.new.types }
        ensures erased { KeepsErased ctx.old.program ctx.new.program }
        ensures payloads { KeepsPayloads ctx.old.program ctx.new.program }
    {
        let Open {
            body,
            first,
            mut content,
            ..
        } = ended;
        match body {
            Body::Text => Ok(()),
            Body::Type(kind) => {
                let made = self.end_type(ctx, kind, first, &content);
                keep(spares, content);
                made
            }
            Body::Attribute(kind) => {
                let made = self.end_attribute(ctx, kind, first, &content);
                keep(spares, content);
                made
            }
            Body::List(members) => {
                let made = self.here.put_all(Part::List(members), &content.tokens);
                keep(spares, content);
                made
            }
            Body::Item => {
                let parts = std::mem::replace(&mut content.parts, Vec::new(self.alloc));
                let made = self.end_item(parts, &content.tokens);
                keep(spares, content);
                made
            }
            Body::Choice(number) => {
                let parts = std::mem::replace(&mut content.parts, Vec::new(self.alloc));
                let made = self
                    .here
                    .put_all(Part::Choice(number, parts), &content.tokens);
                keep(spares, content);
                made
            }
            Body::Operation(open) => {
                let made = self.end_operation(ctx, first, open, &content);
                keep(spares, content);
                made
            }
            Body::Operands(tokens) => {
                let made = self.end_operands(first, tokens, &mut content);
                keep(spares, content);
                made
            }
            Body::Successor(tokens) => {
                let made = self.end_successor(first, tokens, &mut content);
                keep(spares, content);
                made
            }
            Body::Region(blocks) => {
                keep(spares, content);
                self.end_region(first, blocks)
            }
            Body::Block(open) => {
                keep(spares, content);
                self.end_block(open)
            }
        }
    }

    /// What is being read ends at the last token.
    pub fn end(
        &mut self,
        ctx: &mut Context<D>,
        spares: &mut Vec<Box<Content<D>>>,
    ) -> Result<(), AssemblyFault>
        requires going { CanEnd D.says D.values (stage ctx.old) self.old }
        ensures ended { OnOk result (HasEnded D.says D.values (stage ctx.old) self.old (stage ctx.new) self.new) }
        ensures refused { (text : ℕ → List ℕ) (g : Progress D.OpKind D.Attr D.TypeKey) (next : Standing)
            → IsAt D.says D.values text (stage ctx.old) self.old g → MayGoOut g next
            → (f : Fault) → result ≡ Err (Text f)
            → fault_at_end D.values text g.built.here g.built.around (self.old.taken - 1) ≡ Some f }
        ensures full { (text : ℕ → List ℕ) (g : Progress D.OpKind D.Attr D.TypeKey) (next : Standing)
            → IsAt D.says D.values text (stage ctx.old) self.old g → MayGoOut g next
            → result ≡ Err CounterFull → 2 ^ 64 ≤ g.first + length g.names.definitions }
        ensures undone { OnErr result (IsUndone (seen ctx.old) (seen ctx.new) self.old self.new) }
        ensures taken { self.new.taken ≡ self.old.taken }
        ensures erased { KeepsErased ctx.old.program ctx.new.program }
        ensures payloads { KeepsPayloads ctx.old.program ctx.new.program }
    {
        let Some(outer) = self.around.pop() else {
            return Ok(());
        };
        let ended = std::mem::replace(&mut self.here, outer);
        self.end_in(ctx, spares, ended)
    }
}

/// One more spare content, if there is memory to keep it.
#[inline(always)]
fn keep<D: Dialects>(spares: &mut Vec<Box<Content<D>>>, content: Box<Content<D>>) {
    if spares.reserve(1).is_ok() {
        spares.push_reserved(content);
    }
}
