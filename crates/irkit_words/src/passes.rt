//! The words for passes.
ghost use Rattle.std.specs.Prelude.{◌≡◌, ◌≢◌, MatchOption};
ghost use Rattle.irkit_words.specs.Requests.{pass_name};

use kit_ops::KitPass;
use std::alloc::{AllocError, Global};
use std::fmt;
use strsim::jaro;

/// All passes, as help and faults list them.
const PASSES: [KitPass; 3] = [KitPass::Sccp, KitPass::Dce, KitPass::SimplifyCfg];

/// The list of the words of [`PASSES`].
pub(crate) const POSSIBLE_PASSES: &str = "[possible values: sccp, dce, simplify-cfg]";

/// Words that are less alike are no slips of one another. It is the bound of `clap`'s own suggestions.
const ALIKE: f64 = 0.7;

/// The word for a pass.
pub fn pass_word(pass: KitPass) -> &'static str
    ensures { result.now ≡ pass_name pass }
{
    match pass {
        KitPass::Sccp => "sccp",
        KitPass::Dce => "dce",
        KitPass::SimplifyCfg => "simplify-cfg",
    }
}

/// The pass of this name.
pub fn pass_named(name: &str) -> Option<KitPass>
    ensures { MatchOption result ((p : KitPass) → name.now ≢ pass_name p) (λ p. name.now ≡ pass_name p) }
{
    match name {
        "sccp" => Some(KitPass::Sccp),
        "dce" => Some(KitPass::Dce),
        "simplify-cfg" => Some(KitPass::SimplifyCfg),
        _ => None,
    }
}

/// A word that names no pass, with the pass that it may be meant for. `Display` of it is the text for the user, as
/// `clap` words a value that isn't among the possible ones.
#[derive(Debug, PartialEq, Eq, Drop)]
pub struct UnknownPass {
    pub word: String,
    pub similar: Option<KitPass>,
}

impl UnknownPass {
    /// What is to say of this word.
    pub(crate) fn of(alloc: Global, word: &str) -> Result<UnknownPass, AllocError> {
        let similar = similar_pass(alloc, word)?;
        let word = String::from_str(alloc, word)?;
        Ok(UnknownPass { word, similar })
    }
}

impl fmt::Display for UnknownPass {
    fn fmt<W: fmt::Write>(&self, f: &mut fmt::Formatter<W>) -> fmt::Result {
        let word = &self.word;
        write!(
            f,
            "invalid value '{word}' for '[PASS]...'\n  {POSSIBLE_PASSES}"
        )?;
        if let Some(similar) = self.similar {
            let similar = pass_word(similar);
            write!(f, "\n\n  tip: a similar value exists: '{similar}'")?;
        }
        f.write_str("\n\nFor more information, try '--help'.")
    }
}

/// The pass whose word is most like this one, where one is like it.
fn similar_pass(alloc: Global, word: &str) -> Result<Option<KitPass>, AllocError> {
    let mut best = ALIKE;
    let mut similar = None;
    for pass in PASSES {
        let likeness = jaro(alloc, word, pass_word(pass))?;
        if likeness > best {
            best = likeness;
            similar = Some(pass);
        }
    }
    Ok(similar)
}
