// How wide texts are in Helvetica.
ghost use Rattle.std.specs.Prelude.{◌≡◌};
ghost use Rattle.text_fit.specs.Widths.{width_of, text_width};

/// The widths of the characters from the space to `ÿ`, from Adobe's metrics of Helvetica, and 1000 where none is shown.
const WIDTHS: [u16; 224] = [
    278, 278, 355, 556, 556, 889, 667, 191, 333, 333, 389, 584, 278, 333, 278, 278, 556, 556, 556,
    556, 556, 556, 556, 556, 556, 556, 278, 278, 584, 584, 584, 556, 1015, 667, 667, 722, 722, 667,
    611, 778, 722, 278, 500, 667, 556, 833, 722, 778, 667, 778, 722, 667, 611, 722, 667, 944, 667,
    667, 611, 278, 278, 278, 469, 556, 333, 556, 556, 500, 556, 556, 278, 556, 556, 222, 222, 500,
    222, 833, 556, 556, 556, 556, 333, 500, 278, 556, 500, 722, 500, 500, 500, 334, 260, 334, 584,
    1000, 1000, 1000, 1000, 1000, 1000, 1000, 1000, 1000, 1000, 1000, 1000, 1000, 1000, 1000, 1000,
    1000, 1000, 1000, 1000, 1000, 1000, 1000, 1000, 1000, 1000, 1000, 1000, 1000, 1000, 1000, 1000,
    1000, 278, 333, 556, 556, 556, 556, 260, 556, 333, 737, 370, 556, 584, 333, 737, 333, 400, 584,
    333, 333, 333, 578, 537, 278, 333, 333, 365, 556, 834, 834, 834, 611, 667, 667, 667, 667, 667,
    667, 1000, 722, 667, 667, 667, 667, 278, 278, 278, 278, 722, 722, 778, 778, 778, 778, 778, 584,
    778, 722, 722, 722, 722, 667, 667, 611, 556, 556, 556, 556, 556, 556, 889, 500, 556, 556, 556,
    556, 278, 278, 278, 278, 556, 556, 556, 556, 556, 556, 556, 584, 611, 556, 556, 556, 556, 500,
    556, 500,
];

#[tactic(auto, unfolding(crate::specs::Widths::widths))]
/// The width of a character, in thousandths of the letters' size.
pub(crate) fn width_of(c: char) -> u16
    ensures { result ≡ width_of c }
{
    if c < ' ' || c > 'ÿ' {
        return 1000;
    }
    WIDTHS[c as usize - 32]
}

/// The width of a text in Helvetica, in thousandths of its letters' size. A character from outside Latin-1 counts as 1000; of those,
/// none that a PDF shows by WinAnsiEncoding is wider. The time goes with the text's length.
pub fn text_width(text: &str) -> u128
    ensures { result ≡ text_width text.now }
{
    let mut width = 0;
    for c in text.chars() {
        width += u128::from(width_of(c));
    }
    width
}
