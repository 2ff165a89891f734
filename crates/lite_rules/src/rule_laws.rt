//! How the rules of AXI4-Lite stand to those of AXI4.
ghost use Rattle.lite_rules.specs.LiteLaws.{WordsAreLite};

/// A port that is asked for whole words alone, without IDs, and keeps the rules of AXI4 keeps those of
/// AXI4-Lite.
pub fn words_are_lite()
    ensures { WordsAreLite }
{}
