//! Laws of the definitions: an input has one reading and one program; a list of passes keeps behaviour, meets the goal of
//! its last pass, and may be cut where one likes; runs of functions agree, and so do those of what passes leave.
ghost use Rattle.std.specs.Prelude.{◌≡◌, ℕ, suc, ◌+◌, List, [], ◌∷◌, ◌++◌, map};
ghost use Rattle.ir_print.specs.Pieces.{Entity};
ghost use Rattle.ir_program.specs.declared.handles.Operation.{Operation};
ghost use Rattle.ir_program.specs.declared.handles.Ptr.{Ptr};
ghost use Rattle.ir_tokens.specs.declared.faults.TextFault.{TextFault};
ghost use Rattle.kit.specs.Context.{KitContext, KitTree};
ghost use Rattle.kit_behaviour.specs.Laws.{AlikeWithin};
ghost use Rattle.kit_behaviour.specs.Machine.{FunctionsByPath};
ghost use Rattle.kit_behaviour.specs.PassLists.{Goal, SameFaces};
ghost use Rattle.kit_behaviour.specs.Places.{Place};
ghost use Rattle.kit_checks.specs.declared.rule.Rule.{Rule};
ghost use Rattle.kit_ruled_views.specs.Operations.{operations_below};
ghost use Rattle.kit_optimiser.specs.Functions.{function_content};
ghost use Rattle.kit_optimiser.specs.Passed.{pass_of};
ghost use Rattle.kit_ops.specs.declared.pass.KitPass.{KitPass};
ghost use Rattle.irkit_driver.specs.Executions.{LongerShowsMore, OneOutcome, OnePassExecutesAlike, OneRefusal};
ghost use Rattle.irkit_driver.specs.Executions.{SameAnywhere, WrittenExecuteAlike, WrittenRefuseAlike};
ghost use Rattle.irkit_driver.specs.Facts.{FactsExist, PassedFactsStay, SecondSccpSettles, TreeFactsStay};
ghost use Rattle.irkit_running.specs.Outcomes.{RunGives};
ghost use Rattle.irkit_driver.specs.Programs.{ArePassed, AreRun, IsMadeBy, IsModule};
ghost use Rattle.irkit_driver.specs.Programs.{operations_said, SaysProgram};
ghost use Rattle.irkit_driver.specs.Same.{HaveOneModule};
ghost use Rattle.irkit_refusals.specs.Texts.{BreaksRule, HasFirstTextFault, IsAccepted, IsAcceptedAs, SaysTree};

use kit::Kit;
use kit_execution::{know_numbering, paths_meet, runs_are_program_runs};
use kit_language::kit_can_print;
use kit_text_programs::{
    passes_keep_same, texts_have_one_program, texts_have_one_verdict, texts_say_the_same,
    types_are_numbered,
};
use text_rereading::laws::trees_of_texts_are_closed;

/// The bytes of an input have one reading: they have one fault of the text at most, and none where they say a tree; and
/// they say one tree.
pub fn unique_reading()
    ensures one { (bytes : List ℕ) (f g : TextFault) → HasFirstTextFault bytes f → HasFirstTextFault bytes g → f ≡ g }
    ensures either { (bytes : List ℕ) (f : TextFault) (text : Entity ℕ)
        → HasFirstTextFault bytes f → SaysTree bytes text → ⊥ }
    ensures one_tree { (bytes : List ℕ) (text other : Entity ℕ)
        → SaysTree bytes text → SaysTree bytes other → text ≡ other }
{}

/// Whether an input keeps the rules doesn't depend on the context that it is read into: an input that is accepted in
/// one is accepted, one that breaks a rule isn't, and it breaks one rule first, at one place.
pub fn inputs_have_one_verdict()
    ensures accepted { (bytes : List ℕ) (s : KitContext) (root : Ptr Operation)
        → IsAcceptedAs bytes s root → IsAccepted bytes }
    ensures either { (bytes : List ℕ) (rule : Rule) (place : List ℕ)
        → BreaksRule bytes rule place → IsAccepted bytes → ⊥ }
    ensures one { (bytes : List ℕ) (rule other : Rule) (place there : List ℕ)
        → BreaksRule bytes rule place → BreaksRule bytes other there → (rule ≡ other) × (place ≡ there) }
{
    texts_have_one_verdict();
}

/// An input that is accepted has a program, whatever context it is read into, and one alone.
pub fn inputs_have_one_program()
    ensures some { (numbered : List ℕ → ℕ) (bytes : List ℕ) (s : KitContext) (root : Ptr Operation)
        → IsAcceptedAs bytes s root → (p : FunctionsByPath Place) × SaysProgram numbered bytes p }
    ensures one { (numbered : List ℕ → ℕ) (bytes : List ℕ) (p q : FunctionsByPath Place)
        → SaysProgram numbered bytes p → SaysProgram numbered bytes q → p ≡ q }
{
    texts_have_one_program();
}

/// A module that keeps the rules behaves as it did after any list of passes, all its functions at once, calls and
/// recursion included.
pub fn alike_whole()
    // What is accepted is such a module; it and what passes make of it have programs.
    ensures accepted { (bytes : List ℕ) (s : KitContext) (root : Ptr Operation) (said : IsAcceptedAs bytes s root)
        → IsModule s said.0.holds.tree }
    ensures programs { (passes : List KitPass) (s : KitContext) (numbered : List ℕ → ℕ) (t u : KitTree)
        → IsModule s t → IsMadeBy passes s numbered t u
        → (p : FunctionsByPath Place) × (q : FunctionsByPath Place) × ArePassed passes t u p q }
    // Functions keep their paths, and what they carry: their names and types.
    ensures faces { (passes : List KitPass) (t u : KitTree) (p q : FunctionsByPath Place)
        → ArePassed passes t u p q → SameFaces p q }
    ensures content { (passes : List KitPass) (t u : KitTree) (p q : FunctionsByPath Place)
        (h : ArePassed passes t u p q)
        (path : List ℕ) → function_content h.numbered path u ≡ function_content h.numbered path t }
    // Neither program runs more than some number of times as long as the other. For one pass this number is one more
    // than the operations of both modules together.
    ensures alike { (passes : List KitPass) (t u : KitTree) (p q : FunctionsByPath Place)
        → ArePassed passes t u p q → (c : ℕ) × AlikeWithin c p q }
    ensures bound { (pass : KitPass) (t u : KitTree) (p q : FunctionsByPath Place)
        → ArePassed (pass ∷ []) t u p q → AlikeWithin (suc (operations_below t + operations_below u)) p q }
{}

/// After a list of passes on a module that keeps the rules the goal of its last pass is met; the empty list leaves the
/// program as it was.
pub fn goal()
    ensures { (passes : List KitPass) (t u : KitTree) (p q : FunctionsByPath Place)
        → ArePassed passes t u p q → Goal (map pass_of passes) p q }
{}

/// Without passes the text that `run` writes says the module that its input says: one tree but for labels.
pub fn unchanged()
    ensures { (bytes text : List ℕ) → RunGives [] bytes text → HaveOneModule bytes text }
{
    trees_of_texts_are_closed::<Kit>();
    kit_can_print();
    types_are_numbered();
    texts_say_the_same();
}

/// Constant propagation on a module that keeps the rules leaves known what was known: the most precise facts of each
/// function, of which there are some, say of each old value and block what they said before. The same is so of trees. A
/// second time, right behind the first, changes nothing.
pub fn facts_kept()
    ensures exist { FactsExist }
    ensures stay { PassedFactsStay }
    ensures trees { TreeFactsStay }
    ensures settled { SecondSccpSettles }
{}

/// The rest of a list of passes, run on the text that its beginning gave, gives the module that the whole list gives:
/// the two texts say one tree, but for labels.
pub fn cut()
    ensures { (beginning rest : List KitPass) (bytes front text whole : List ℕ)
        → RunGives beginning bytes front → RunGives rest front text → RunGives (beginning ++ rest) bytes whole
        → HaveOneModule text whole }
{
    trees_of_texts_are_closed::<Kit>();
    kit_can_print();
    types_are_numbered();
    texts_say_the_same();
    passes_keep_same();
}

/// The text that `run` writes, read again into whatever context, behaves as the text that it read, and meets the goal of
/// the last pass: so both are said of texts alone.
pub fn written_texts_behave_alike()
    ensures faces { (passes : List KitPass) (bytes text : List ℕ) (p q : FunctionsByPath Place)
        → AreRun passes bytes text p q → SameFaces p q }
    ensures alike { (passes : List KitPass) (bytes text : List ℕ) (p q : FunctionsByPath Place)
        → AreRun passes bytes text p q → (c : ℕ) × AlikeWithin c p q }
    ensures bound { (pass : KitPass) (bytes text : List ℕ) (p q : FunctionsByPath Place)
        (h : AreRun (pass ∷ []) bytes text p q)
        → AlikeWithin (suc (operations_said h.first + operations_said h.last)) p q }
    ensures goal { (passes : List KitPass) (bytes text : List ℕ) (p q : FunctionsByPath Place)
        → AreRun passes bytes text p q → Goal (map pass_of passes) p q }
{
    texts_have_one_program();
}

/// Runs of a function of one input, on the same path, numbers and limit, agree: there is one outcome, or each is refused for
/// one fault, whatever context the input is read into. With a larger limit an outcome shows no less, and one that is over
/// stays.
pub fn executions_agree()
    ensures refused { OneRefusal }
    ensures one { OneOutcome }
    ensures anywhere { SameAnywhere }
    ensures longer { LongerShowsMore }
{
    texts_have_one_program();
    know_numbering();
    paths_meet();
    runs_are_program_runs();
}

/// Runs of a function of the text that `run` writes are alike those of its input: refused for the same fault, and within some
/// factor of steps they show what those show, and end or trap as those do; and the other way round.
pub fn written_texts_execute_alike()
    ensures refused { WrittenRefuseAlike }
    ensures alike { WrittenExecuteAlike }
    ensures bound { OnePassExecutesAlike }
{
    texts_have_one_program();
    know_numbering();
    paths_meet();
    runs_are_program_runs();
}
