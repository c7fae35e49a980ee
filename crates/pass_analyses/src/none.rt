//! No analyses.
use crate::analysis::Analysis;
use crate::cache::AnalysisCache;
use crate::verified::{Verified, VerifiedContext};
use ir_program::{Operation, Ptr};
use opt_dialect::OptError;
use std::alloc::Global;
use std::marker::PhantomData;

/// The kind of what a caller has who has no analyses: it says nothing.
#[derive(Clone, Copy, Debug, PartialEq, Eq, Hash)]
pub enum NoKind {
    Nothing,
}

/// The analyses of a caller who has none: there is one, and it says nothing of an operation.
#[derive(Drop)]
pub struct NoAnalysis<D> {
    of: PhantomData<D>,
}

impl<D: Verified> Analysis for NoAnalysis<D> {
    ghost use Rattle.std.specs.Prelude.{[]};
    ghost use Rattle.std.proofs.Common.{rules};
    ghost use Rattle.pass_analyses.specs.declared.none.NoKind.TheVariants.{Nothing};

    type Dialect = D;

    type Kind = NoKind;

    ghost reading = { record { kind_of = λ _. Nothing; rank_of = λ _. 0; needed = λ _. []; gives = λ _ _ _ _. Unit {0} } };

    fn kind(&self) -> NoKind {
        NoKind::Nothing
    }

    fn rank(_kind: NoKind) -> u32 {
        0
    }

    fn name(_kind: NoKind) -> &'static str {
        "nothing"
    }

    fn needs(_kind: NoKind) -> &'static [NoKind] {
        &[]
    }

    fn compute(
        _alloc: Global,
        _kind: NoKind,
        _op: Ptr<Operation>,
        _ctx: &VerifiedContext<D>,
        _cache: &AnalysisCache<NoKind, NoAnalysis<D>>,
    ) -> Result<NoAnalysis<D>, OptError> {
        Ok(NoAnalysis { of: PhantomData })
    }

    ghost ranked = { λ k j c. Prim.search rules };

    ghost same_kinds = { Prim.search rules };
}
