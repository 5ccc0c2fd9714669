// What a job of version 3 says.
ghost use Rattle.std.specs.Prelude.{◌≤◌, IsTrue, length};
ghost use Rattle.std.specs.List.{AllPairs};
ghost use Rattle.std.specs.Option.{ForSome};
ghost use Rattle.job_file.specs.Texts.{is_title};
ghost use Rattle.job_file.specs.Views.{AreNamedApart};

use crate::block::BlockTexts;
use crate::hidden::Hidden;
use crate::view::SheetView;
use dec_text::{Length, Name};
use job_file::{Paper, Scale};
use lattice::Crease;

/// What a sheet shows, and how. There are 1 to 12 views, and no two have one name.
#[derive(Drop)]
pub struct SheetJob {
    /// The number of decimals. None for the first one at which the part is accepted.
    pub decimals: Option<u8>,
    /// The views are arranged by third-angle projection, and else by first-angle projection.
    pub third: bool,
    /// The usual one if any paper will do.
    pub paper: Paper,
    /// The least sheet on which the views fit is taken.
    pub any_paper: bool,
    /// None for the greatest scale at which the views fit the sheet, and for 1:1 where any paper will do.
    pub scale: Option<Scale>,
    pub crease: Crease,
    /// None for the name of the part's file.
    pub title: Option<Name>,
    /// What the part's lengths and those of the job are given in.
    pub unit: Length,
    /// The sheet stands upright, and else lies.
    pub portrait: bool,
    pub hidden: Hidden,
    pub block: BlockTexts,
    pub views: Vec<SheetView>,
    ghost few_decimals: { ForSome decimals (λ n. n ≤ 6) },
    ghost proper_title: { ForSome title (λ t. IsTrue (is_title t)) },
    ghost some_views: { 1 ≤ length views.items },
    ghost few_views: { length views.items ≤ 12 },
    ghost named_apart: { AllPairs (λ v w. AreNamedApart v.named w.named) views.items },
}
