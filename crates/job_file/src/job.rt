// What a job says.
ghost use Rattle.std.specs.Prelude.{◌≤◌, IsTrue, length};
ghost use Rattle.std.specs.List.{AllPairs};
ghost use Rattle.job_file.specs.Scales.{is_scale};
ghost use Rattle.job_file.specs.Texts.{is_title, are_outputs};
ghost use Rattle.job_file.specs.Views.{AreNamedApart};

use crate::view::JobView;
use dec_text::{Length, Name};
use lattice::Crease;

/// A size of paper.
#[derive(Clone, Copy, PartialEq, Eq, Debug)]
pub enum Paper {
    A0,
    A1,
    A2,
    A3,
    A4,
}

impl Paper {
    ghost use Rattle.std.specs.Prelude.{◌≡◌};
    ghost use Rattle.job_file.specs.Papers.{paper_name};

    /// Its name.
    pub fn name(self) -> &'static str
        ensures { result.now ≡ paper_name self }
    {
        match self {
            Paper::A0 => "A0",
            Paper::A1 => "A1",
            Paper::A2 => "A2",
            Paper::A3 => "A3",
            Paper::A4 => "A4",
        }
    }
}

/// A length on the sheet, and the length of the part that it stands for: 50:1, 20:1, 10:1, 5:1, 2:1, 1:1, 1:2, 1:5, 1:10,
/// 1:20, 1:50 or 1:100.
#[derive(Clone, Copy, PartialEq, Eq, Debug)]
pub struct Scale {
    pub num: u32,
    pub den: u32,
    ghost listed: { IsTrue (is_scale num den) },
}

impl Scale {
    ghost use Rattle.std.specs.Prelude.{◌≡◌, option_map};
    ghost use Rattle.job_file.specs.Scales.{scales};
    ghost use Rattle.job_file.specs.Seen.{scale_seen};
    ghost use Rattle.job_file.specs.Steps.{look_up};

    /// The scale that is written so.
    pub fn of(text: &str) -> Option<Scale>
        ensures { option_map scale_seen result ≡ look_up scales text.now }
    {
        match text {
            "50:1" => Some(Scale { num: 50, den: 1 }),
            "20:1" => Some(Scale { num: 20, den: 1 }),
            "10:1" => Some(Scale { num: 10, den: 1 }),
            "5:1" => Some(Scale { num: 5, den: 1 }),
            "2:1" => Some(Scale { num: 2, den: 1 }),
            "1:1" => Some(Scale { num: 1, den: 1 }),
            "1:2" => Some(Scale { num: 1, den: 2 }),
            "1:5" => Some(Scale { num: 1, den: 5 }),
            "1:10" => Some(Scale { num: 1, den: 10 }),
            "1:20" => Some(Scale { num: 1, den: 20 }),
            "1:50" => Some(Scale { num: 1, den: 50 }),
            "1:100" => Some(Scale { num: 1, den: 100 }),
            _ => None,
        }
    }
}

/// What a drawing shows, and how. A unit is 10^-`decimals` mm; the part's text is read in lengths of `unit`. The title has at most 120 bytes, without ASCII control
/// characters and what XML doesn't allow. There are at most 8 outputs, all different, each of 1 to 16 bytes from `a` to `z`
/// and `0` to `9`, and none is `svg`. There are 1 to 12 views, and no two have one name.
#[derive(Drop)]
pub struct Job {
    pub decimals: u8,
    /// The views are arranged by third-angle projection, and else by first-angle projection.
    pub third: bool,
    pub paper: Paper,
    /// None for the greatest scale up to 1:1 at which the views fit the sheet.
    pub scale: Option<Scale>,
    pub crease: Crease,
    pub title: Name,
    pub outputs: Vec<Name>,
    pub unit: Length,
    /// The sheet stands upright, and else lies.
    pub portrait: bool,
    pub views: Vec<JobView>,
    ghost few_decimals: { decimals ≤ 6 },
    ghost proper_title: { IsTrue (is_title title) },
    ghost proper_outputs: { IsTrue (are_outputs outputs.items) },
    ghost some_views: { 1 ≤ length views.items },
    ghost few_views: { length views.items ≤ 12 },
    ghost named_apart: { AllPairs (λ v w. AreNamedApart v.named w.named) views.items },
}
