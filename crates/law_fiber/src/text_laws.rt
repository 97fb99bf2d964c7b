//! Laws of the texts that scripts and fibers hold.

ghost use Rattle.law_fiber.specs.Texts.Laws.{BoundTextsStand, KnownStay, ReadScriptsHaveTexts, TextsStay};

/// Each text that a script that is read names stands in its table, and each by which a `raise`, a `cancel` or a `fail` fails is listed.
pub fn read_scripts_have_texts()
    ensures { ReadScriptsHaveTexts }
{}

/// Whatever a fiber's work goes on with, its next call, the work behind it and its variables have their texts in the table, and the table keeps those that
/// it had.
pub fn texts_stay()
    ensures { TextsStay }
{}

/// Where only known exceptions stand, the table stays as it is, and only known ones stand then.
pub fn known_stay()
    ensures { KnownStay }
{}

/// The table with which a script starts has each text that a `try` can bind of a listed exception.
pub fn bound_texts_stand()
    ensures { BoundTextsStand }
{}
