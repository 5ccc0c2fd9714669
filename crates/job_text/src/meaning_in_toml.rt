// What lines mean in TOML.
ghost use Rattle.std.specs.Prelude.{◌≡◌, ℕ, List, Ok};
ghost use Rattle.job_text.specs.Lines.{TextLine, text_lines};
ghost use Rattle.job_text.specs.Toml.{AreLinesOfToml};

/// What `text_lines` reads is TOML: each line is the expression that TOML reads there, and the table that TOML makes of the whole text is
/// the one that the lines' expressions define. Where TOML refuses the text, as for a key that is there twice, so do they. The call does
/// nothing.
pub fn lines_are_toml()
    ensures { (text : List ℕ) (lines : List TextLine) → text_lines text ≡ Ok lines → AreLinesOfToml text lines }
{}
