// The pens of a page.
ghost use Rattle.std.specs.Prelude.{◌≡◌};
ghost use Rattle.sheet_page.specs.Pens.{is_small_page, pens_of, wide_of, narrow_of};

/// The two pens that draw a page's views: a line group of ISO 128.
#[derive(Clone, Copy, PartialEq, Eq, Debug)]
pub enum Pens {
    /// Pens of 0.5 mm and 0.25 mm.
    Usual,
    /// Pens of 0.35 mm and 0.18 mm, for a page that fits A4.
    Small,
}

impl Pens {
    /// The width of visible lines, in hundredths of a millimetre.
    pub fn wide(self) -> u32
        ensures { result ≡ wide_of self }
    {
        match self {
            Pens::Usual => 50,
            Pens::Small => 35,
        }
    }

    /// The width of all other lines of a view, and of chain lines, in hundredths of a millimetre.
    pub fn narrow(self) -> u32
        ensures { result ≡ narrow_of self }
    {
        match self {
            Pens::Usual => 25,
            Pens::Small => 18,
        }
    }
}

/// The pens of a page of this width and height, which are in hundredths of a millimetre.
pub fn pens_of(width: i64, height: i64) -> Pens
    ensures { result ≡ pens_of width height }
{
    if is_small_page(width, height) {
        Pens::Small
    } else {
        Pens::Usual
    }
}

/// Whether a page fits A4: its shorter side is at most 210 mm, and its longer one at most 297 mm.
fn is_small_page(width: i64, height: i64) -> bool
    ensures { result ≡ is_small_page width height }
{
    (width <= 21_000 && height <= 29_700) || (width <= 29_700 && height <= 21_000)
}
