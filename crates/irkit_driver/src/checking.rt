//! Testing a module.
ghost use Rattle.std.specs.Prelude.{◌≡◌, false};
ghost use Rattle.irkit_streams.specs.Streams.{has_failed};
ghost use Rattle.irkit_running.specs.Outcomes.{Accepts, EndsCheck};

use ir_context::Context;
use irkit_refusals::Refusal;
use irkit_running::load;
use irkit_streams::{Watched, write_text};
use kit::{Kit, let_go};
use std::alloc::Global;
use std::io::{Read, Write};

/// Reads a module as [`load`] does, and writes `ok` and a line end where it keeps the rules.
/// A refused call wrote nothing, but for `Write(b)`: then the first b bytes of the line were taken.
pub fn check<R: Read, W: Write>(
    alloc: Global,
    reader: &mut Watched<R>,
    writer: &mut Watched<W>,
) -> Result<(), Refusal>
    requires reader { has_failed reader.old ≡ false }
    requires writer { has_failed writer.old ≡ false }
    ensures { EndsCheck R.remaining W.contents reader.old reader.new writer.old writer.new result }
{
    let mut ctx = Context::new(alloc);
    let outcome = check_in(alloc, &mut ctx, reader, writer);
    let_go(ctx);
    outcome
}

/// The same, where the module is read into a new context.
pub(crate) fn check_in<R: Read, W: Write>(
    alloc: Global,
    ctx: &mut Context<Kit>,
    reader: &mut Watched<R>,
    writer: &mut Watched<W>,
) -> Result<(), Refusal>
    requires reader { has_failed reader.old ≡ false }
    requires writer { has_failed writer.old ≡ false }
    requires counter { ctx.old.program.counter ≡ 0 }
    ensures { EndsCheck R.remaining W.contents reader.old reader.new writer.old writer.new result }
{
    accept(alloc, ctx, reader)?;
    Ok(write_text(writer, b"ok\n")?)
}

/// Reads a module into a new context, and tests its rules.
fn accept<R: Read>(
    alloc: Global,
    ctx: &mut Context<Kit>,
    reader: &mut Watched<R>,
) -> Result<(), Refusal>
    requires unread { has_failed reader.old ≡ false }
    requires counter { ctx.old.program.counter ≡ 0 }
    ensures { Accepts R.remaining reader.old reader.new result }
{
    load(alloc, ctx, reader)?;
    Ok(())
}
