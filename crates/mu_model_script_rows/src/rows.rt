//! Worked rows of lines, texts and images: functions that do nothing, whose contracts are evaluated.

ghost use Rattle.mu_model_script_rows.specs.Images.{EachImage};
ghost use Rattle.mu_model_script_rows.specs.Texts.{EachLine, EachText};

/// What each line of a script says, and where others are refused.
pub fn lines()
    ensures { EachLine }
{}

/// The texts that are printed, and the limits.
pub fn texts()
    ensures { EachText }
{}

/// Metadata, Firmware IDs, made octets, blocks and chunks.
pub fn images()
    ensures { EachImage }
{}
