//! What analyses are.
ghost use Rattle.std.specs.Prelude.{◌≡◌, ◌<◌, true, IsSome, IfOk, Contains};
ghost use Rattle.ir_context.specs.Views.{ContextView};
ghost use Rattle.ir_program.specs.Program.{operation_at};
ghost use Rattle.pass_analyses.specs.Cached.{AreCached};
ghost use Rattle.pass_analyses.specs.Fresh.{AreFresh};
ghost use Rattle.pass_analyses.specs.Reading.{Reading};

use crate::cache::AnalysisCache;
use crate::verified::{Verified, VerifiedContext};
use ir_program::{Operation, Ptr};
use opt_dialect::OptError;
use std::alloc::Global;
use std::hash::Hash;

/// The analyses of a caller: one type with a case for each kind.
pub trait Analysis: Drop {
    /// Whose operations are analysed.
    type Dialect: Verified;

    /// Which analysis it is.
    type Kind: Copy + Eq + Hash + Drop + 'static;

    /// Their kinds, ranks and needs, and what computing gives.
    ghost reading: { Reading (ContextView Self.Dialect.Operation Self.Dialect.Block Self.Dialect.Types) Self.Kind Self };

    /// The kind of it.
    fn kind(&self) -> Self::Kind
        ensures { result ≡ reading.kind_of self.now };

    /// How far a kind is from those that need nothing.
    fn rank(kind: Self::Kind) -> u32
        ensures { result ≡ reading.rank_of kind };

    /// What a kind is called.
    fn name(kind: Self::Kind) -> &'static str;

    /// The kinds that one is computed from.
    fn needs(kind: Self::Kind) -> &'static [Self::Kind]
        ensures { result.now ≡ reading.needed kind };

    /// Computes one of an operation, from those that it needs.
    ///
    /// # Errors
    /// There may be no memory.
    fn compute(
        alloc: Global,
        kind: Self::Kind,
        op: Ptr<Operation>,
        ctx: &VerifiedContext<Self::Dialect>,
        cache: &AnalysisCache<Self::Kind, Self>,
    ) -> Result<Self, OptError>
        requires live { IsSome (operation_at ctx.now.program op) }
        requires cached { AreCached Self.Kind.eq (reading.needed kind) op cache.now.entries.entries }
        ensures kind { IfOk result (λ a. reading.kind_of a ≡ kind) }
        ensures computed { IfOk result (λ a.
            AreFresh Self.Kind.eq reading.gives (reading.needed kind) ctx.now op cache.now.entries.entries
            → reading.gives ctx.now kind op a) };

    /// What is needed has a lower rank.
    ghost ranked: { (k j : Self.Kind) → Contains (reading.needed k) j → reading.rank_of j < reading.rank_of k };

    /// Kinds that compare equal are the same.
    ghost same_kinds: { (j k : Self.Kind) → Self.Kind.eq j k ≡ true → j ≡ k };
}
