//! What the operations of a program fold to, asked by their numbers.
ghost use Rattle.std.specs.Prelude.{◌≡◌, IfOk, IsSome};
ghost use Rattle.ir_program.specs.Program.{operation_at, results_at};
ghost use Rattle.opt_inside.specs.facts.Folds.{result_types};

use ir_base::TypeHandle;
use ir_program::{Operation, Program, Ptr};
use opt_dialect::OptDialect;
use opt_rows::Folding;
use std::alloc::{AllocError, Global};

/// The types of the results of an operation.
fn types_of_results<O, B>(
    alloc: Global,
    program: &Program<O, B>,
    op: Ptr<Operation>,
) -> Result<Vec<TypeHandle>, AllocError>
    requires { IsSome (operation_at program.now op) }
    ensures { IfOk result (λ types. types.items ≡ result_types (results_at program.now op)) }
{
    let mut types = Vec::new(alloc);
    for i in 0..program.result_count(op) {
        types.push(program.result_type(op, i))?;
    }
    Ok(types)
}

/// The numbered operations of a program.
#[derive(Drop)]
pub(crate) struct ProgramFolding<'a, D: OptDialect> {
    pub program: &'a Program<D::Operation, D::Block>,
    pub operations: &'a [Ptr<Operation>],
}

impl<'a, D: OptDialect> Folding for ProgramFolding<'a, D> {
    ghost use Rattle.std.specs.Prelude.{IsSome};
    ghost use Rattle.opt_inside.specs.facts.Folds.{answers_of, operation_numbered, folds_more as more_folds, feasible_less as less_feasible};

    type Constant = D::Constant;

    ghost answers = { λ s. answers_of D.meaning s.program.now s.operations.now };

    ghost can_ask = { λ s row count. IsSome (operation_numbered s.program.now s.operations.now row) };

    fn fold(
        &self,
        alloc: Global,
        row: usize,
        known: &[Option<D::Constant>],
    ) -> Result<Vec<Option<D::Constant>>, AllocError> {
        let op = self.operations[row];
        let types = types_of_results(alloc, self.program, op)?;
        D::check_fold(alloc, self.program.payload(op), &types, known)
    }

    fn is_feasible(&self, row: usize, known: &[Option<D::Constant>], edge: usize) -> bool {
        let op = self.operations[row];
        D::is_feasible(self.program.payload(op), known, edge)
    }

    ghost folds_more = { λ s row xs ys more. more_folds D.meaning D.lawful
        (operation_numbered s.program.now s.operations.now row) xs ys more };

    ghost feasible_less = { λ s row xs ys edge more. less_feasible D.meaning D.lawful
        (operation_numbered s.program.now s.operations.now row) xs ys edge more };

    ghost same = { D.same_constants };
}
