//! Documents whose plans have known texts.

ghost use Rattle.plan_text.specs.KnownTexts.{PlanTextsAreKnown};

/// The texts of the plans of some documents.
pub fn known_plan_texts()
    ensures { PlanTextsAreKnown }
{}
