//! A pass that changes nothing, and counts its runs.
use ir_program::{Operation, Ptr};
use opt_dialect::{IRStatus, OptError};
use pass_analyses::{Analysis, AnalysisManager, PassResult, Verified, VerifiedContext};
use pass_managers::Pass;
use std::alloc::Global;

/// What a tally answers.
#[derive(Clone, Copy)]
pub enum Told {
    /// That something was changed, or nothing.
    Status(IRStatus),
    /// An error.
    Fails,
    /// That nothing was changed, once it has set the count of passes to its greatest value.
    Fills,
}

/// A pass that counts its runs and answers what it is told to.
#[derive(Drop)]
pub struct Tally {
    pub name: String,
    pub told: Told,
    pub runs: u64,
}

impl<D: Verified, E: Analysis<Dialect = D>> Pass<D, E> for Tally {
    ghost use Rattle.std.specs.Prelude.{false, string_bytes};
    ghost use Rattle.pass_managers_tests.specs.Tally.{Tallies, tally_keeps, tally_stays_fresh, tally_tells};

    ghost behaviour = { record {
      name_of = λ p. string_bytes p.name;
      manages = λ _. false;
      runs = λ p x c m r q d n. Tallies c m r d n;
    } };

    ghost keeps_rest = { λ p q x c d m n r sound live run. tally_keeps sound live run };

    ghost tells_changes = { λ p q x c d m n r sound live run. tally_tells run };

    ghost stays_fresh = { λ p q x c d m n r sound live run. tally_stays_fresh E.Kind.eq E.reading run };

    fn name(&self) -> &str {
        self.name.as_str()
    }

    fn is_pass_manager(&self) -> bool {
        false
    }

    fn run(
        &mut self,
        alloc: Global,
        _op: Ptr<Operation>,
        _ctx: &mut VerifiedContext<D>,
        analyses: &mut AnalysisManager<E>,
    ) -> Result<PassResult<E>, OptError> {
        self.runs = self.runs.saturating_add(1);
        let mut answer = PassResult::new(alloc);
        match self.told {
            Told::Status(status) => answer.ir_changed = status,
            Told::Fails => return Err(OptError::LiveUse),
            Told::Fills => analyses.pm_data.state_mut().pass_run_count = u64::MAX,
        }
        Ok(answer)
    }
}
