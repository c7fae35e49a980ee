//! What makes blocks and operations.
ghost use Rattle.std.specs.Prelude.{◌≡◌, ◌<◌, ◌≤◌, ◌+◌, ◌-◌, ◌^◌, ◌++◌, [], ℕ, List, length, Some, None, IsSome, option_map, Err, IfErr, OnErr, OnOk, true, vec_len, vec_capacity};
ghost use Rattle.text_frames.specs.Worlds.{joined};
ghost use Rattle.ir_context.specs.Known.{AreKnownIn};
ghost use Rattle.ir_forest.specs.Building.{names_fault, or_else, refused_fault};
ghost use Rattle.ir_forest.specs.Forest.{ActionSpan};
ghost use Rattle.ir_forest.specs.ValueFaults.{part_tokens};
ghost use Rattle.ir_grammar.specs.declared.grammar.Action.TheVariants as act;
ghost use Rattle.ir_tokens.specs.Tokens.{text_between};
ghost use Rattle.ir_names.specs.Text.{is_identifier};
ghost use Rattle.ir_names.specs.Tree.{Trees};
ghost use Rattle.ir_print.specs.Pieces.{Pieces};
ghost use Rattle.ir_print.specs.Shown.{ShowsParts};
ghost use Rattle.ir_characters.specs.Texts.{codes_of};
ghost use Rattle.ir_program.specs.Edits.{KeepsErased};
ghost use Rattle.ir_program.specs.Program.{arguments_at, block_at, operation_at, results_at};
ghost use Rattle.ir_program.specs.declared.handles.BasicBlock.{BasicBlock};
ghost use Rattle.ir_program.specs.declared.handles.IRNode.{IRNode};
ghost use Rattle.ir_program.specs.declared.handles.Ptr.{Ptr};
ghost use Rattle.ir_tokens.specs.declared.faults.Fault.{Fault};
ghost use Rattle.ir_types.specs.Interned.{KeepsTypes};
ghost use Rattle.text_dialect.specs.Seen.{seen};
ghost use Rattle.text_frames.specs.building.Kept.{GivesNumbers, KeepsPayloads};
ghost use Rattle.text_frames.specs.building.Loose.{IsLooseBlock, IsLooseOperation};
ghost use Rattle.text_frames.specs.building.Made.{lists_of};
ghost use Rattle.text_frames.specs.Makes.{block_in, types_in};
ghost use Rattle.text_frames.specs.Opened.{HasBody, IsOfContext};
ghost use Rattle.text_frames.specs.Raised.{block_nodes};
ghost use Rattle.text_frames.specs.Worlds.{set_all, values_alone};
ghost use Rattle.text_frames.specs.declared.opened.AssemblyFault.TheVariants.{CounterFull, Text};
ghost use Rattle.text_assembling.specs.Assembling.{KeepsAround, stage};
ghost use Rattle.text_assembling.specs.Steps.{CanMake, EndsOperation, IsUndone, MakesBlock, PutsInto, new_root};

use crate::assembling::Assembler;
use ir_context::{ArgumentCalls, Context, ResultCalls};
use ir_program::{BasicBlock, IRNode, Operation, Ptr, Value};
use ir_tokens::faults::{Fault, FaultKind};
use ir_types::DialectTables;
use text_dialect::{OperationDraft, TextDialect};
use text_frames::building::{append_operation, know_seen, make_operation, open_block};
use text_frames::making::{draft_of, label_of, results_of, types_of};
use text_frames::opened::{AssemblyFault, Body, Content, OpenBlock, OpenOperation};
use text_frames::source::Source;

impl<D: TextDialect> Assembler<D> {
    ghost use Rattle.text_frames.specs.declared.opened.Body.TheVariants as body;

    /// Makes the block whose header has been read.
    pub fn header(&mut self, ctx: &mut Context<D>, source: Source) -> Result<(), AssemblyFault>
        requires known { AreKnownIn (length ctx.old.types.keys) (types_in self.old.here.content.value.parts.items) }
        requires spelt { is_identifier (text_between (codes_of source.chars) source.starts.now
            self.old.here.first) ≡ true }
        ensures made { OnOk result (MakesBlock (stage ctx.old) (seen ctx.new) self.old self.new
            (text_between (codes_of source.entry.chars) source.entry.starts.now self.old.here.first)) }
        ensures given { OnOk result (GivesNumbers ctx.old.program ctx.new.program
            (length (types_in self.old.here.content.value.parts.items))) }
        ensures first { self.new.here.first ≡ self.old.here.first }
        ensures names { self.new.here.names.items ≡ [] }
        ensures around { KeepsAround self.old self.new }
        ensures context { IfErr result IsOfContext }
        ensures full { result ≡ Err CounterFull
            → 2 ^ 64 ≤ ctx.old.program.counter + length (types_in self.old.here.content.value.parts.items) }
        ensures undone { OnErr result (IsUndone (seen ctx.old) (seen ctx.new) self.old self.new) }
        ensures types { ctx.new.types ≡ ctx.old.types }
        ensures erased { KeepsErased ctx.old.program ctx.new.program }
        ensures payloads { KeepsPayloads ctx.old.program ctx.new.program }
    {
        self.here.names.clear();
        let label = label_of(self.alloc, source.text(self.here.first))?;
        let types = types_of(self.alloc, &self.here.content.parts)?;
        self.made.loose.reserve(1)?;
        self.made.blocks.reserve(1)?;
        let block = open_block(self.alloc, ctx, label, &types)?;
        define_arguments(ctx, block, &self.here.numbers, &mut self.made.values);
        self.made.loose.push_reserved(IRNode::BasicBlock(block));
        self.made.blocks.push_reserved(block);
        self.here.numbers.clear();
        self.here.content.clear();
        self.here.body = Body::Block(OpenBlock { block: Some(block) });
        Ok(())
    }

    /// An operation has as many names as results, or there is a fault.
    fn compare_names(&self, first: usize, results: usize) -> Result<(), AssemblyFault>
        ensures same { OnOk result (names_fault self.now.here.names.items first results (self.now.taken - 1) ≡ None) }
        ensures many { OnOk result (length self.now.here.names.items ≡ results) }
        ensures fault { IfErr result (λ e. (f : Fault) × (e ≡ Text f)
            × (names_fault self.now.here.names.items first results (self.now.taken - 1) ≡ Some f)) }
    {
        let names = &self.here.names;
        if names.len() == results {
            return Ok(());
        }
        let place = match names.first() {
            Some(token) => *token,
            None => first,
        };
        Err(AssemblyFault::Text(Fault {
            kind: FaultKind::ResultNames,
            met: self.last(),
            place,
        }))
    }

    /// Puts an operation where it stands: at the end of the block that is being read, or at the root.
    #[inline]
    fn attach(&mut self, ctx: &mut Context<D>, op: Ptr<Operation>)
        requires room { vec_len self.old.made.loose < vec_capacity self.old.made.loose }
        requires op { IsLooseOperation (seen ctx.old) op }
        requires block { (b : Ptr BasicBlock) → block_in self.old.here.body ≡ Some b → IsLooseBlock (seen ctx.old) b }
        ensures here { HasBody self.old.here self.new.here self.old.here.body }
        ensures numbers { self.new.here.numbers.items ≡ [] }
        ensures values { self.new.made.values ≡ self.old.made.values }
        ensures labelled { self.new.made.blocks ≡ self.old.made.blocks }
        ensures pending { self.new.made.pending ≡ self.old.made.pending }
        ensures around { KeepsAround self.old self.new }
        ensures root { self.old.here.body ≡ body.Text → self.new.made.root ≡ Some op }
        ensures root_stays { (b : Ptr BasicBlock) → block_in self.old.here.body ≡ Some b
            → self.new.made.root ≡ self.old.made.root }
        ensures put { PutsInto (seen ctx.old) (seen ctx.new) (block_in self.old.here.body) op }
        ensures loose { self.new.made.loose.items ≡ self.old.made.loose.items ++ new_root self.old.here.body op }
        ensures given { GivesNumbers ctx.old.program ctx.new.program 0 }
        ensures types { ctx.new.types ≡ ctx.old.types }
    {
        self.here.names.clear();
        self.here.numbers.clear();
        match &self.here.body {
            Body::Block(open) => {
                if let Some(block) = open.block {
                    append_operation(ctx, block, op);
                }
            }
            Body::Text => {
                self.made.root = Some(op);
                self.made.loose.push_reserved(IRNode::Operation(op));
            }
            _ => {}
        }
    }

    /// Makes an operation with its regions, and puts it where it stands.
    pub fn end_operation(
        &mut self,
        ctx: &mut Context<D>,
        first: usize,
        ended: OpenOperation,
        content: &Content<D>,
    ) -> Result<(), AssemblyFault>
        requires shown { (ps : Pieces) × ShowsParts D.says ctx.old.types.keys content.now.parts.items ps }
        requires can { CanMake (seen ctx.old) self.old.here.body (lists_of ended.regions.items) }
        ensures made { (ps : Pieces) → ShowsParts D.says ctx.old.types.keys content.now.parts.items ps
            → OnOk result ((D.values.refused_operation ended.kind ps ≡ None)
            × (names_fault self.old.here.names.items first (length (D.values.result_types ended.kind ps))
            (self.old.taken - 1) ≡ None)) }
        ensures ends { (ps : Pieces) → ShowsParts D.says ctx.old.types.keys content.now.parts.items ps
            → OnOk result (EndsOperation D.says D.values D.kind_at (stage ctx.old) (seen ctx.new)
            self.old self.new ended ps) }
        ensures here { OnOk result (HasBody self.old.here self.new.here self.old.here.body) }
        ensures given { OnOk result (GivesNumbers ctx.old.program ctx.new.program
            (length self.old.here.names.items)) }
        ensures refused { (ps : Pieces) (ts : Trees ActionSpan)
            → ShowsParts D.says ctx.old.types.keys content.now.parts.items ps
            → content.now.tokens.items ≡ part_tokens ts → (f : Fault) → result ≡ Err (Text f)
            → or_else (names_fault self.old.here.names.items first (length (D.values.result_types ended.kind ps))
            (self.old.taken - 1)) (option_map (refused_fault (act.Operation ended.kind) ts (self.old.taken - 1))
            (D.values.refused_operation ended.kind ps)) ≡ Some f }
        ensures full { result ≡ Err CounterFull
            → 2 ^ 64 ≤ ctx.old.program.counter + length self.old.here.names.items }
        ensures undone { OnErr result (IsUndone (seen ctx.old) (seen ctx.new) self.old self.new) }
        ensures around { KeepsAround self.old self.new }
        ensures types { KeepsTypes ctx.old.types ctx.new.types }
        ensures erased { KeepsErased ctx.old.program ctx.new.program }
        ensures payloads { KeepsPayloads ctx.old.program ctx.new.program }
    {
        let results = results_of(ctx, ended.kind, &content.parts);
        self.compare_names(first, results)?;
        let (kind, draft) = match draft_of(self.alloc, ctx, ended.kind, &content.parts) {
            Ok(draft) => draft,
            Err(fault) => return Err(self.refused(FaultKind::OtherConstant, content, fault)),
        };
        let OperationDraft {
            result_types,
            attributes,
        } = draft;
        self.made
            .pending
            .reserve(ended.operands.len(), ended.labels.len())?;
        self.made.loose.reserve(1)?;
        know_seen(ctx);
        let op = make_operation(
            self.alloc,
            ctx,
            kind,
            attributes,
            &result_types,
            &ended.regions,
        )?;
        define_results(ctx, op, &self.here.numbers, &mut self.made.values);
        take_off(&mut self.made.loose, &ended.regions);
        self.made
            .pending
            .push_reserved(op, &ended.operands, &ended.labels);
        self.spare_operands = ended.operands;
        self.spare_labels = ended.labels;
        self.attach(ctx, op);
        Ok(())
    }
}

/// Takes the blocks of these lists off the end of loose things.
fn take_off(loose: &mut Vec<IRNode>, lists: &[Vec<Ptr<BasicBlock>>])
    ensures rest { (xs : List IRNode) → loose.old.items ≡ xs ++ block_nodes (joined (lists_of lists.now))
        → loose.new.items ≡ xs }
    ensures shorter { vec_len loose.new ≤ vec_len loose.old }
    ensures capacity { vec_capacity loose.new ≡ vec_capacity loose.old }
{
    for blocks in lists {
        let rest = loose.len().saturating_sub(blocks.len());
        loose.truncate(rest);
    }
}

/// The definitions with these numbers are the arguments of a block, one each.
fn define_arguments<D: DialectTables>(
    ctx: &Context<D>,
    block: Ptr<BasicBlock>,
    numbers: &[usize],
    values: &mut [Option<Value>],
)
    requires { IsSome (block_at ctx.now.program block) }
    ensures { length numbers.now ≡ length (arguments_at ctx.now.program block)
        → values.new ≡ set_all numbers.now (values_alone (arguments_at ctx.now.program block)) values.old }
{
    let count = block.get_num_arguments(ctx);
    for (index, number) in numbers.iter().enumerate() {
        if index < count && *number < values.len() {
            values[*number] = Some(block.get_argument(ctx, index));
        }
    }
}

/// The definitions with these numbers are the results of an operation, one each.
fn define_results<D: DialectTables>(
    ctx: &Context<D>,
    op: Ptr<Operation>,
    numbers: &[usize],
    values: &mut [Option<Value>],
)
    requires { IsSome (operation_at ctx.now.program op) }
    ensures { length numbers.now ≡ length (results_at ctx.now.program op)
        → values.new ≡ set_all numbers.now (values_alone (results_at ctx.now.program op)) values.old }
{
    let count = op.get_num_results(ctx);
    for (index, number) in numbers.iter().enumerate() {
        if index < count && *number < values.len() {
            values[*number] = Some(op.get_result(ctx, index));
        }
    }
}
