// What makes a text of a page and its strokes.
ghost use Rattle.std.specs.Prelude.{◌≡◌, Some, IsSome, OnOk, OnErr};

use exact_frac::OutOfMemory;
use sheet_plan::Stroke;

/// What makes a text of a page and the strokes on it, as a caller hands it in.
pub trait Plotter: Drop {
    ghost use Rattle.plot_rack.specs.Plotters.{Plot, begun, with_stroke, text_of};

    /// Its suffix, the page that it has begun, the strokes that it has taken there, and which bytes it makes of each page and
    /// strokes. No call changes the suffix, nor which bytes these are.
    ghost plot: { Self → Plot };

    /// What the name of its file ends with.
    fn suffix(&self) -> &str
        ensures { result.now ≡ (plot self.now).suffix };

    /// Begins a page without strokes, in hundredths of a millimetre. Where memory runs out, nothing has changed.
    fn page(&mut self, width: i64, height: i64) -> Result<(), OutOfMemory>
        ensures ok { OnOk result (plot self.new ≡ begun (width, height) (plot self.old)) }
        ensures err { OnErr result (plot self.new ≡ plot self.old) };

    /// Takes one stroke more on the page. Where memory runs out, nothing has changed.
    fn stroke(&mut self, stroke: Stroke) -> Result<(), OutOfMemory>
        requires { IsSome (plot self.old).page }
        ensures ok { OnOk result (plot self.new ≡ with_stroke stroke (plot self.old)) }
        ensures err { OnErr result (plot self.new ≡ plot self.old) };

    /// The bytes that it makes of its page and of the strokes there. It has begun a page.
    fn text(&self) -> &[u8]
        requires { IsSome (plot self.now).page }
        ensures { text_of (plot self.now) ≡ Some result.now };
}
