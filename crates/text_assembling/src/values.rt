//! What ends in a text and makes no block and no operation.
ghost use Rattle.std.specs.Prelude.{◌≡◌, ◌-◌, ◌∷◌, ◌++◌, [], ℕ, Vec, length, Some, None, Err, OnOk, IfErr, MatchOption};
ghost use Rattle.ir_base.specs.declared.types.TypeHandle.{TypeHandle};
ghost use Rattle.ir_forest.specs.Building.{refused_fault};
ghost use Rattle.ir_forest.specs.Forest.{ActionSpan};
ghost use Rattle.ir_forest.specs.ValueFaults.{part_tokens, piece_token};
ghost use Rattle.ir_grammar.specs.declared.grammar.Action.TheVariants as act;
ghost use Rattle.ir_names.specs.Tree.{Trees, node};
ghost use Rattle.ir_print.specs.Pieces.{Pieces, value_of_kind};
ghost use Rattle.ir_print.specs.declared.format.ValueSort.TheVariants as sorts;
ghost use Rattle.ir_print.specs.Shown.{ShowsParts, ShowsType, ShowsAttribute};
ghost use Rattle.ir_program.specs.declared.handles.BasicBlock.{BasicBlock};
ghost use Rattle.ir_program.specs.declared.handles.Ptr.{Ptr};
ghost use Rattle.ir_tokens.specs.declared.faults.Fault.{Fault};
ghost use Rattle.ir_types.specs.Interned.{KeepsTypes};
ghost use Rattle.text_frames.specs.Opened.{HasMember, HasPut};
ghost use Rattle.text_frames.specs.declared.opened.AssemblyFault.TheVariants.{Memory, CounterFull, Text};
ghost use Rattle.text_frames.specs.declared.opened.OpenBlock.{OpenBlock};
ghost use Rattle.text_frames.specs.declared.opened.OpenOperation.{OpenOperation};
ghost use Rattle.text_assembling.specs.Assembling.{KeepsAround};

use crate::assembling::Assembler;
use ir_context::Context;
use ir_print::Part;
use ir_program::{BasicBlock, Ptr};
use ir_tokens::faults::{Fault, FaultKind};
use text_dialect::{MakeFault, TextDialect};
use text_frames::making::{make_attribute, make_type};
use text_frames::opened::{AssemblyFault, Body, Content, OpenBlock};

impl<D: TextDialect> Assembler<D> {
    ghost use Rattle.text_dialect.specs.declared.dialect.MakeFault.TheVariants as make;
    ghost use Rattle.ir_print.specs.declared.format.Part.{Part};
    ghost use Rattle.ir_print.specs.declared.format.Part.TheVariants as part;
    ghost use Rattle.text_frames.specs.declared.opened.Body.TheVariants as body;
    ghost use Rattle.std.specs.Global.{Global};

    /// What is answered where nothing is made of this content: a fault of this kind, at the part that is refused.
    pub fn refused(&self, kind: FaultKind, content: &Content<D>, fault: MakeFault) -> AssemblyFault
        ensures number { (ts : Trees ActionSpan) (i : ℕ) → content.now.tokens.items ≡ part_tokens ts
            → fault ≡ make.Refused i → result ≡ Text (record {
              kind = kind;
              met = self.now.taken - 1;
              place = piece_token ts i (self.now.taken - 1);
            }) }
        ensures memory { fault ≡ make.Memory → result ≡ Memory }
        ensures not_full { result ≡ CounterFull → ⊥ }
    {
        match fault {
            MakeFault::Refused(number) => AssemblyFault::Text(Fault {
                kind,
                met: self.last(),
                place: content.token(number, self.last()),
            }),
            MakeFault::Memory => AssemblyFault::Memory,
        }
    }

    /// A type is made, and put into what is around it.
    pub fn end_type(
        &mut self,
        ctx: &mut Context<D>,
        kind: u8,
        first: usize,
        content: &Content<D>,
    ) -> Result<(), AssemblyFault>
        ensures made { (ps : Pieces) → ShowsParts D.says ctx.old.types.keys content.now.parts.items ps
            → OnOk result ((D.values.refused_type kind ps ≡ None) × (ty : TypeHandle)
            × ShowsType D.says ctx.new.types.keys ty (node (value_of_kind sorts.«Type» kind) ps)
            × HasPut self.old.here self.new.here self.old.here.body (part.«Type» ty) (first ∷ [])) }
        ensures refused { (ps : Pieces) (ts : Trees ActionSpan)
            → ShowsParts D.says ctx.old.types.keys content.now.parts.items ps
            → content.now.tokens.items ≡ part_tokens ts → (f : Fault) → result ≡ Err (Text f)
            → (i : ℕ) × (D.values.refused_type kind ps ≡ Some i)
            × (f ≡ refused_fault (act.Begin sorts.«Type» kind) ts (self.old.taken - 1) i) }
        ensures not_full { result ≡ Err CounterFull → ⊥ }
        ensures assembly { self.new.made ≡ self.old.made }
        ensures program { ctx.new.program ≡ ctx.old.program }
        ensures types { KeepsTypes ctx.old.types ctx.new.types }
        ensures around { KeepsAround self.old self.new }
    {
        match make_type(self.alloc, ctx, kind, &content.parts) {
            Ok(ty) => self.here.put(Part::Type(ty), first),
            Err(fault) => Err(self.refused(FaultKind::Number, content, fault)),
        }
    }

    /// An attribute is made, and put into what is around it.
    pub fn end_attribute(
        &mut self,
        ctx: &mut Context<D>,
        kind: u8,
        first: usize,
        content: &Content<D>,
    ) -> Result<(), AssemblyFault>
        ensures made { (ps : Pieces) → ShowsParts D.says ctx.old.types.keys content.now.parts.items ps
            → OnOk result ((D.values.refused_attribute kind ps ≡ None) × (attr : D.Attr)
            × ShowsAttribute D.says ctx.new.types.keys attr (node (value_of_kind sorts.Attribute kind) (D.values.canonical kind ps))
            × HasPut self.old.here self.new.here self.old.here.body (part.Attribute attr) (first ∷ [])) }
        ensures refused { (ps : Pieces) (ts : Trees ActionSpan)
            → ShowsParts D.says ctx.old.types.keys content.now.parts.items ps
            → content.now.tokens.items ≡ part_tokens ts → (f : Fault) → result ≡ Err (Text f)
            → (i : ℕ) × (D.values.refused_attribute kind ps ≡ Some i)
            × (f ≡ refused_fault (act.Begin sorts.Attribute kind) ts (self.old.taken - 1) i) }
        ensures not_full { result ≡ Err CounterFull → ⊥ }
        ensures assembly { self.new.made ≡ self.old.made }
        ensures program { ctx.new.program ≡ ctx.old.program }
        ensures types { KeepsTypes ctx.old.types ctx.new.types }
        ensures around { KeepsAround self.old self.new }
    {
        match make_attribute(self.alloc, ctx, kind, &content.parts) {
            Ok(attr) => self.here.put(Part::Attribute(attr), first),
            Err(fault) => Err(self.refused(FaultKind::Number, content, fault)),
        }
    }

    /// A member of these parts ends, in its list. These tokens begin parts in it.
    pub fn end_item(&mut self, parts: Vec<Part<D>>, tokens: &[usize]) -> Result<(), AssemblyFault>
        ensures here { (ms : Vec (Vec (Part D D.OpKind D.Attr D.TypeKey) Global) Global)
            → self.old.here.body ≡ body.List ms
            → OnOk result ((ns : Vec (Vec (Part D D.OpKind D.Attr D.TypeKey) Global) Global)
            × HasMember self.old.here self.new.here (body.List ns) tokens.now × (ns.items ≡ ms.items ++ parts ∷ [])) }
        ensures assembly { self.new.made ≡ self.old.made }
        ensures around { KeepsAround self.old self.new }
        ensures memory { IfErr result (λ e. e ≡ Memory) }
    {
        self.here.content.tokens.extend_from_slice(tokens)?;
        if let Body::List(members) = &mut self.here.body {
            members.push(parts)?;
        }
        Ok(())
    }

    /// Operands end, in their operation. The memory of their tokens goes to the content.
    pub fn end_operands(
        &mut self,
        first: usize,
        tokens: Vec<usize>,
        content: &mut Content<D>,
    ) -> Result<(), AssemblyFault>
        ensures here { (o : OpenOperation) → self.old.here.body ≡ body.Operation o
            → OnOk result ((p : OpenOperation)
            × HasPut self.old.here self.new.here (body.Operation p) (part.Operands (length tokens.items)) (first ∷ [])
            × (p.kind ≡ o.kind) × (p.regions ≡ o.regions) × (p.labels ≡ o.labels)
            × (p.operands.items ≡ o.operands.items ++ tokens.items)) }
        ensures assembly { self.new.made ≡ self.old.made }
        ensures around { KeepsAround self.old self.new }
        ensures memory { IfErr result (λ e. e ≡ Memory) }
    {
        let count = tokens.len();
        if let Body::Operation(open) = &mut self.here.body {
            open.operands.extend_from_slice(&tokens)?;
        }
        content.tokens = tokens;
        self.here.put(Part::Operands(count), first)
    }

    /// An edge ends, in its operation. It began at the token of its label, and hands on what these tokens name. Their memory goes
    /// to the content.
    pub fn end_successor(
        &mut self,
        first: usize,
        tokens: Vec<usize>,
        content: &mut Content<D>,
    ) -> Result<(), AssemblyFault>
        ensures here { (o : OpenOperation) → self.old.here.body ≡ body.Operation o
            → OnOk result ((p : OpenOperation)
            × HasPut self.old.here self.new.here (body.Operation p) (part.Successor (length tokens.items)) (first ∷ [])
            × (p.kind ≡ o.kind) × (p.regions ≡ o.regions) × (p.labels.items ≡ o.labels.items ++ first ∷ [])
            × (p.operands.items ≡ o.operands.items ++ tokens.items)) }
        ensures assembly { self.new.made ≡ self.old.made }
        ensures around { KeepsAround self.old self.new }
        ensures memory { IfErr result (λ e. e ≡ Memory) }
    {
        let count = tokens.len();
        if let Body::Operation(open) = &mut self.here.body {
            open.operands.extend_from_slice(&tokens)?;
            open.labels.push(first)?;
        }
        content.tokens = tokens;
        self.here.put(Part::Successor(count), first)
    }

    /// A region ends, in its operation.
    pub fn end_region(
        &mut self,
        first: usize,
        blocks: Vec<Ptr<BasicBlock>>,
    ) -> Result<(), AssemblyFault>
        ensures here { (o : OpenOperation) → self.old.here.body ≡ body.Operation o
            → OnOk result ((p : OpenOperation) × HasPut self.old.here self.new.here (body.Operation p) part.Region (first ∷ [])
            × (p.kind ≡ o.kind) × (p.operands ≡ o.operands) × (p.labels ≡ o.labels)
            × (p.regions.items ≡ o.regions.items ++ blocks ∷ [])) }
        ensures assembly { self.new.made ≡ self.old.made }
        ensures around { KeepsAround self.old self.new }
        ensures memory { IfErr result (λ e. e ≡ Memory) }
    {
        if let Body::Operation(open) = &mut self.here.body {
            open.regions.push(blocks)?;
        }
        self.here.put(Part::Region, first)
    }

    /// A block ends, in its region.
    pub fn end_block(&mut self, ended: OpenBlock) -> Result<(), AssemblyFault>
        ensures here { (bs : Vec (Ptr BasicBlock) Global) → self.old.here.body ≡ body.Region bs
            → OnOk result ((cs : Vec (Ptr BasicBlock) Global)
            × (self.new.here ≡ record self.old.here { body = body.Region cs })
            × MatchOption ended.block (cs.items ≡ bs.items) (λ b. cs.items ≡ bs.items ++ b ∷ [])) }
        ensures assembly { self.new.made ≡ self.old.made }
        ensures around { KeepsAround self.old self.new }
        ensures memory { IfErr result (λ e. e ≡ Memory) }
    {
        if let Body::Region(blocks) = &mut self.here.body {
            if let Some(block) = ended.block {
                blocks.push(block)?;
            }
        }
        Ok(())
    }
}
