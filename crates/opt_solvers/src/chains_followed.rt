//! Values that stand for others, followed to what they stand for in the end.
ghost use Rattle.std.specs.Prelude.{ℕ, ◌≡◌, ◌<◌, [], All, IfOk, OnOk, MatchOption, length};
ghost use Rattle.opt_rows.specs.Chains.{StepsAlong};
ghost use Rattle.opt_solvers.specs.ChainsFollowed.{AreLinksInRange, IsFollowing, AreUnfollowed, EntersPath, Walks, WritesBack, FindsFinal, AreFinals};

use std::alloc::{AllocError, Global};

/// How far a number has been followed.
#[derive(Clone, Copy)]
enum Mark {
    /// Not at all.
    New,
    /// It is on the path that is being walked.
    OnPath,
    /// To its end.
    Done,
}

/// What numbers have been followed to so far.
#[derive(Drop)]
struct Following {
    marks: Vec<Mark>,
    finals: Vec<usize>,
}

/// Puts a number on the path.
fn enter(known: &mut Following, path: &mut Vec<usize>, at: usize) -> Result<(), AllocError>
    requires { at < length known.old.marks.items }
    ensures { OnOk result (EntersPath known.old known.new path.old.items path.new.items at) }
{
    known.marks[at] = Mark::OnPath;
    path.push(at)?;
    Ok(())
}

/// Goes on from `start` to the end of its chain, or to what has been followed already, and puts what it meets on the
/// path. Returns the end, none where the path comes back to itself.
fn walk(
    next: &[Option<usize>],
    known: &mut Following,
    path: &mut Vec<usize>,
    start: usize,
) -> Result<Option<usize>, AllocError>
    requires next { AreLinksInRange next.now }
    requires known { IsFollowing next.now known.old }
    requires path { path.old.items ≡ [] }
    requires start { start < length next.now }
    ensures { IfOk result (Walks next.now known.old known.new path.new.items start) }
{
    let mut at = start;
    'walk: loop {
        match known.marks[at] {
            Mark::Done => return Ok(Some(known.finals[at])),
            Mark::OnPath => return Ok(None),
            Mark::New => {}
        }
        enter(known, path, at)?;
        match next[at] {
            None => return Ok(Some(at)),
            Some(to) => at = to,
        }
    }
}

/// All on the path have this end.
fn write_back(known: &mut Following, path: &[usize], end: usize)
    requires marks { All (λ v. v < length known.old.marks.items) path.now }
    requires finals { All (λ v. v < length known.old.finals.items) path.now }
    ensures { WritesBack known.old known.new path.now end }
{
    for number in path {
        known.marks[*number] = Mark::Done;
        known.finals[*number] = end;
    }
}

/// Follows a number to its end. Returns whether there is one.
fn resolve(
    alloc: Global,
    next: &[Option<usize>],
    known: &mut Following,
    start: usize,
) -> Result<bool, AllocError>
    requires next { AreLinksInRange next.now }
    requires known { IsFollowing next.now known.old }
    requires start { start < length next.now }
    ensures { IfOk result (FindsFinal next.now known.old known.new start) }
{
    let mut path = Vec::new(alloc);
    let Some(end) = walk(next, known, &mut path, start)? else {
        return Ok(false);
    };
    write_back(known, &path, end);
    Ok(true)
}

/// So many numbers, of which none has been followed.
fn unfollowed(alloc: Global, count: usize) -> Result<Following, AllocError>
    ensures { IfOk result (AreUnfollowed count) }
{
    Ok(Following {
        marks: vec![in alloc; Mark::New; count]?,
        finals: vec![in alloc; 0; count]?,
    })
}

/// What each number stands for in the end, where `next` says what it stands for: itself, if nothing. None, if following
/// a number leads back to it. Each number is walked over once and written once, by an explicit path: linear time.
///
/// # Errors
/// There may be no memory.
pub fn followed(alloc: Global, next: &[Option<usize>]) -> Result<Option<Vec<usize>>, AllocError>
    requires { AreLinksInRange next.now }
    ensures { IfOk result (λ r. MatchOption r ((v : ℕ)
        × StepsAlong next.now v v) (λ finals. AreFinals next.now finals.items)) }
{
    let mut known = unfollowed(alloc, next.len())?;
    for start in 0..next.len() {
        if !resolve(alloc, next, &mut known, start)? {
            return Ok(None);
        }
    }
    Ok(Some(known.finals))
}
