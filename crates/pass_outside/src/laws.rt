//! What holds of every program.
ghost use Rattle.pass_outside.specs.Sound.{IsSound};

use ir_program::Program;

/// Lemma: every program is sound. It does nothing.
pub fn know_sound<O, B>(program: &Program<O, B>)
    ensures { IsSound program.now }
{
    program.know_lists();
    program.know_operands();
    program.know_values();
}
