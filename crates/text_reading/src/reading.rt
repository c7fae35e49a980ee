//! Reading a text into a context.
ghost use Rattle.std.specs.Prelude.{◌≡◌, ◌≤◌, ◌+◌, ◌^◌, ℕ, List, length, Some, Err, OnErr, OnOk, IfOk, IfErr, IsSome};
ghost use Rattle.ir_characters.specs.Texts.{codes_of};
ghost use Rattle.ir_program.specs.Edits.{KeepsErased};
ghost use Rattle.ir_tokens.specs.Tokens.{starts_of};
ghost use Rattle.ir_tokens.specs.declared.tokens.Token.{Token};
ghost use Rattle.ir_tokens.specs.declared.faults.TextFault.TheVariants.{Memory, CounterFull};
ghost use Rattle.ir_scopes.specs.Depth.{IsFirstTooDeep};
ghost use Rattle.ir_rereading.specs.Texts.{language_of, HasDefinitions, IsReading, IsRefusal};
ghost use Rattle.text_frames.specs.building.Kept.{KeepsPayloads, KeepsPayloadsOf, SameSeen};
ghost use Rattle.text_dialect.specs.Seen.{Seen, seen};
ghost use Rattle.text_frames.specs.Linking.{CanLink, Links};
ghost use Rattle.text_frames.specs.Raised.{AreWaiting, HoldsAllNew};
ghost use Rattle.text_frames.specs.Worlds.{NameTokens};
ghost use Rattle.text_dialect.specs.formats.Isolated.{is_isolated};
ghost use Rattle.text_reading.specs.Understood.{IsRead};

use crate::finding::verdict;
use ir_characters::Text;
use ir_context::Context;
use ir_formats::rules::DialectGrammar;
use ir_formats::words::{classify, spelled};
use ir_grammar::grammar::Reading;
use ir_program::{Operation, Ptr, Room};
use ir_scopes::depth::DEEPEST;
use ir_scopes::scopes::{Resolution, ScopeFault};
use ir_tokens::{Numbers, TextFault};
use std::alloc::{AllocError, Global};
use text_assembling::assembling::assemble;
use text_dialect::{ReadDialect, TextDialect, grammar_of, resolve};
use text_frames::assembly::Assembly;
use text_frames::building::discard;
use text_frames::linking::link;
use text_frames::opened::AssemblyFault;
use text_frames::source::Source;

/// Reads one operation with all that stands in it, into a context.
///
/// `chars` is the whole text; only white space may stand behind the operation. The answer is the operation, which
/// is in no block, or the fault that is met first: what is no text of the dialect's grammar, what is nested deeper
/// than 64 levels, and names that are defined twice or not at all. After an operation the context's counter has moved on
/// by the number of values that the text defines; after a fault each handle leads to what it led to. What was there
/// keeps its payload, with its location and all attributes. Takes time in proportion to the text.
///
/// # Errors
/// Besides the faults of the text `Memory`, and `CounterFull` where the text defines more values than the counter can
/// be moved on by.
pub fn top_level_parse<D: ReadDialect>(
    alloc: Global,
    ctx: &mut Context<D>,
    chars: Text,
) -> Result<Ptr<Operation>, TextFault>
    ensures read { IfOk result (IsRead D.says (language_of D.formats D.kind_at (is_isolated D.op_has) D.values)
        (codes_of chars.entry) (seen ctx.old) (seen ctx.new) ctx.old.program.counter ctx.new.program.counter) }
    ensures refused { OnErr result (SameSeen (seen ctx.old) (seen ctx.new)) }
    ensures fault { IfErr result (IsRefusal (language_of D.formats D.kind_at (is_isolated D.op_has) D.values)
        (codes_of chars.entry)) }
    ensures full { result ≡ Err CounterFull → (n : ℕ)
        × HasDefinitions (language_of D.formats D.kind_at (is_isolated D.op_has) D.values) (codes_of chars.entry) n
        × (2 ^ 64 ≤ ctx.old.program.counter + n) }
    ensures erased { KeepsErased ctx.old.program ctx.new.program }
    ensures payloads { KeepsPayloads ctx.old.program ctx.new.program }
{
    // So that no types or names can be chosen that its tables are slow to tell apart.
    let key = chars.key_after(ctx.hash_key());
    ctx.key_types_by(alloc, key)?;
    let ReadText {
        starts,
        names,
        reading,
    } = read_text::<D>(alloc, chars)?;
    let source = Source {
        chars,
        starts: &starts,
    };
    understand(alloc, ctx, source, names, &reading)
}

/// What the characters of a text say, before its names are looked up.
#[derive(Drop)]
struct ReadText {
    /// Where each token begins, and behind these where the text of the last one ends.
    starts: Numbers,
    /// A number for each token that may be a name.
    names: Numbers,
    reading: Reading,
}

/// Cuts a text into tokens, and reads these by the dialect's grammar.
///
/// The kinds of the tokens go when they are read, so that their memory is free while the operation is made.
fn read_text<D: ReadDialect>(alloc: Global, chars: Text) -> Result<ReadText, AllocError>
    ensures reading { IfOk result (λ r. (ts : List Token) × (r.starts ≡ starts_of (codes_of chars.entry) ts)
        × IsReading (language_of D.formats D.kind_at (is_isolated D.op_has) D.values) (codes_of chars.entry) ts
        r.names r.reading.stop r.reading.taken r.reading.events.items) }
    ensures deep { IfOk result (λ r. IsFirstTooDeep r.reading.events.items r.reading.deep) }
{
    let language: DialectGrammar = grammar_of::<D>(alloc)?;
    let words = spelled(alloc, &language.words)?;
    let classified = classify(alloc, &words, chars)?;
    let reading = language.grammar.read(alloc, 0, DEEPEST, &classified.kinds)?;
    Ok(ReadText {
        starts: classified.starts,
        names: classified.names,
        reading,
    })
}

/// Puts what reading a source gave into a context, or names the first fault.
fn understand<D: ReadDialect>(
    alloc: Global,
    ctx: &mut Context<D>,
    source: Source,
    names: Numbers,
    reading: &Reading,
) -> Result<Ptr<Operation>, TextFault>
    requires reading { (ts : List Token) × (source.starts.now ≡ starts_of (codes_of source.chars) ts)
        × IsReading (language_of D.formats D.kind_at (is_isolated D.op_has) D.values) (codes_of source.chars) ts
        names reading.now.stop reading.now.taken reading.now.events.items }
    requires deep { IsFirstTooDeep reading.now.events.items reading.now.deep }
    ensures read { IfOk result (IsRead D.says (language_of D.formats D.kind_at (is_isolated D.op_has) D.values)
        (codes_of source.entry.chars) (seen ctx.old) (seen ctx.new) ctx.old.program.counter ctx.new.program.counter) }
    ensures refused { OnErr result (SameSeen (seen ctx.old) (seen ctx.new)) }
    ensures fault { IfErr result (IsRefusal (language_of D.formats D.kind_at (is_isolated D.op_has) D.values)
        (codes_of source.entry.chars)) }
    ensures full { result ≡ Err CounterFull → (n : ℕ)
        × HasDefinitions (language_of D.formats D.kind_at (is_isolated D.op_has) D.values)
        (codes_of source.entry.chars) n
        × (2 ^ 64 ≤ ctx.old.program.counter + n) }
    ensures erased { KeepsErased ctx.old.program ctx.new.program }
    ensures payloads { KeepsPayloads ctx.old.program ctx.new.program }
{
    // Names are resolved first: the memory that this works in is free again while operations are made.
    let resolved = resolve::<D>(alloc, names, &reading.events);
    let room = room_of(&resolved);
    let assembled = assemble(alloc, ctx, source, &reading.events, room);
    if let Err(fault) = verdict(source, reading, &assembled, &resolved) {
        undo(ctx, &assembled);
        return Err(fault);
    }
    let Ok(assembly) = assembled else {
        unreachable!()
    };
    let Ok(resolution) = resolved else {
        unreachable!()
    };
    connect(alloc, ctx, &resolution, &assembly)
}

/// The room that a text takes in a context, if its names are looked up; else none.
fn room_of(resolved: &Result<Resolution, ScopeFault>) -> Room {
    match resolved {
        Ok(resolution) => Room {
            operations: resolution.counts.operations,
            regions: resolution.counts.regions,
            blocks: resolution.labels,
            values: resolution.count,
            operands: resolution.counts.mentions,
            successors: resolution.counts.edges,
        },
        Err(_) => Room {
            operations: 0,
            regions: 0,
            blocks: 0,
            values: 0,
            operands: 0,
            successors: 0,
        },
    }
}

/// Takes out of the context what was made of a text.
fn undo<D: TextDialect>(ctx: &mut Context<D>, assembled: &Result<Assembly, AssemblyFault>)
    requires held { (start : Seen D.OpKind D.Attr D.TypeKey)
        × IfOk assembled.now (λ a. HoldsAllNew start (seen ctx.old) a.loose.items) }
    ensures undone { (start : Seen D.OpKind D.Attr D.TypeKey)
        → IfOk assembled.now (λ a. HoldsAllNew start (seen ctx.old) a.loose.items)
        → OnErr assembled.now (SameSeen start (seen ctx.old)) → SameSeen start (seen ctx.new) }
    ensures erased { KeepsErased ctx.old.program ctx.new.program }
    ensures payloads { (start : Seen D.OpKind D.Attr D.TypeKey)
        → IfOk assembled.now (λ a. HoldsAllNew start (seen ctx.old) a.loose.items)
        → KeepsPayloadsOf start ctx.old.program ctx.new.program }
{
    if let Ok(assembly) = assembled {
        discard(ctx, &assembly.loose);
    }
}

/// The operation that a text has become, with operands and successors. Without memory all that was made of the text goes.
fn connect<D: TextDialect>(
    alloc: Global,
    ctx: &mut Context<D>,
    resolution: &Resolution,
    assembly: &Assembly,
) -> Result<Ptr<Operation>, TextFault>
    requires waiting { (start : Seen D.OpKind D.Attr D.TypeKey) × (names : NameTokens)
        × AreWaiting start (seen ctx.old) assembly.now.pending.items names
        × HoldsAllNew start (seen ctx.old) assembly.now.loose.items }
    requires meant { CanLink (seen ctx.old) assembly.now.values.items assembly.now.blocks.items
        resolution.now.definitions assembly.now.pending.items }
    requires root { IsSome assembly.now.root }
    ensures root { IfOk result (λ root. assembly.now.root ≡ Some root) }
    ensures linked { OnOk result (Links (seen ctx.old) (seen ctx.new) assembly.now.values.items
        assembly.now.blocks.items resolution.now.definitions assembly.now.pending.items) }
    ensures held { (start : Seen D.OpKind D.Attr D.TypeKey) (names : NameTokens)
        → AreWaiting start (seen ctx.old) assembly.now.pending.items names
        → HoldsAllNew start (seen ctx.old) assembly.now.loose.items
        → OnOk result (HoldsAllNew start (seen ctx.new) assembly.now.loose.items) }
    ensures undone { (start : Seen D.OpKind D.Attr D.TypeKey) (names : NameTokens)
        → AreWaiting start (seen ctx.old) assembly.now.pending.items names
        → HoldsAllNew start (seen ctx.old) assembly.now.loose.items
        → OnErr result (SameSeen start (seen ctx.new)) }
    ensures memory { IfErr result (λ f. f ≡ Memory) }
    ensures counter { OnOk result (ctx.new.program.counter ≡ ctx.old.program.counter) }
    ensures erased { KeepsErased ctx.old.program ctx.new.program }
    ensures payloads { (start : Seen D.OpKind D.Attr D.TypeKey) (names : NameTokens)
        → AreWaiting start (seen ctx.old) assembly.now.pending.items names
        → HoldsAllNew start (seen ctx.old) assembly.now.loose.items
        → KeepsPayloadsOf start ctx.old.program ctx.new.program }
{
    if link(alloc, ctx, resolution, assembly).is_err() {
        discard(ctx, &assembly.loose);
        return Err(TextFault::Memory);
    }
    match assembly.root {
        Some(root) => Ok(root),
        None => unreachable!(),
    }
}
