//! Where `check_format` accepts all formats of a language, each of its texts has one reading, and ends at one place.
#![tactic(auto)]

ghost use Rattle.ir_print.specs.Formats.{Formats, Steps};
ghost use Rattle.ir_print.specs.declared.format.ValueSort.{ValueSort};
ghost use Rattle.ir_format_checks.specs.declared.check.FormatSort.{FormatSort};
ghost use Rattle.ir_format_checks.specs.Accepted.{IsAccepted};
ghost use Rattle.ir_format_readings.specs.Example.{example};
ghost use Rattle.ir_format_readings.specs.Language.{IsAcceptedLanguage, MayComeBehind};
ghost use Rattle.ir_format_readings.specs.Readings.{ReadsValue, ReadsBody, HasOneReading, Always};

/// Lemma: in a language whose formats are all accepted, a text of a type or an attribute ends at one place, whatever
/// comes behind it, and has one reading. So does a text of any format that is accepted, an operation's among them, where
/// such comes behind it as may; a region is one piece of such a text.
pub fn texts_have_one_reading()
    ensures values { (f : Formats) → IsAcceptedLanguage f
        → (sort : ValueSort) → HasOneReading (ReadsValue f sort) Always }
    ensures bodies { (f : Formats) → IsAcceptedLanguage f
        → (sort : FormatSort) (format : Steps) → IsAccepted sort format
        → HasOneReading (ReadsBody f format) (MayComeBehind sort) }
{}

/// Lemma: integers and functions as types, integers and lists as attributes, are such a language.
pub fn an_example_is_accepted()
    ensures { IsAcceptedLanguage example }
{}
