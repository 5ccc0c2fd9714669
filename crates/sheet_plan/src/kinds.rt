// How each kind of line is called in the texts of a drawing.
ghost use Rattle.std.specs.Prelude.{◌≡◌};

use crate::sheet::Mark;
use lattice::Style;

impl Mark {
    ghost use Rattle.sheet_plan.specs.LineKinds.{line_kind, look_of, pen_of, word_of};
    ghost use Rattle.sheet_plan.specs.Sheets.{mark_of};

    /// The mark of pieces in this style.
    pub fn of(style: Style) -> Mark
        ensures { result ≡ mark_of style }
    {
        match style {
            Style::Solid => Mark::Solid,
            Style::Dashed => Mark::Dashed,
            Style::Chain => Mark::Chain,
        }
    }

    /// Its word in a piece list.
    pub fn word(self) -> &'static str
        ensures { result.now ≡ word_of self }
    {
        match self {
            Mark::Solid => "solid",
            Mark::Dashed => "dashed",
            Mark::Chain => "chain",
            Mark::Hatch => "hatch",
        }
    }

    /// Its layer in DXF.
    pub fn layer(self) -> &'static str
        ensures { result.now ≡ (line_kind self).layer }
    {
        match self {
            Mark::Solid => "SOLID",
            Mark::Dashed => "DASHED",
            Mark::Chain => "CHAIN",
            Mark::Hatch => "HATCH",
        }
    }

    /// The number of its pen in HP-GL. No two marks have one pen.
    pub fn pen(self) -> u8
        ensures { result ≡ pen_of self }
    {
        match self {
            Mark::Solid => 1,
            Mark::Dashed => 2,
            Mark::Chain => 4,
            Mark::Hatch => 3,
        }
    }

    /// Its class in a sheet's SVG.
    pub fn class(self) -> &'static str
        ensures { result.now ≡ (look_of self).class }
    {
        match self {
            Mark::Solid => "visible",
            Mark::Dashed => "hidden",
            Mark::Chain => "trace",
            Mark::Hatch => "hatch",
        }
    }
}
