// Strips that come in the order of their lines' numbers, put together line by line.
ghost use Rattle.std.specs.Prelude.{◌≡◌, ℕ, ◌≤◌, List, [], ◌∷◌, ◌++◌, map, IfOk, OnOk};
ghost use Rattle.std.specs.List.{All};
ghost use Rattle.std.specs.List.Sorted.{IsNonDecreasingBy};
ghost use Rattle.lattice.specs.declared.lines.Line.{Line};
ghost use Rattle.lattice.specs.declared.pieces.Strip.{Strip};
ghost use Rattle.lattice.specs.Points.{of_dir};
ghost use Rattle.lattice.specs.Lines.{AreStripEnds};
ghost use Rattle.line_merge.specs.declared.numbering.Numbered.{Numbered};
ghost use Rattle.line_merge.specs.Merging.{AreStrips, AreMerged};
ghost use Rattle.line_merge.specs.inner.Numbering.{listed_strip};
ghost use Rattle.line_merge.specs.inner.Pieces.{AreUpToLine};

use crate::merging::add_pieces;
use crate::numbering::{Listed, Numbered, listed_by_line, listed_strip};
use crate::pieces::sorted;
use exact_frac::OutOfMemory;
use lattice::{Dir, Piece, Strip};
use std::alloc::Global;

/// Strips that are taken line by line, in the order of the numbers of their lines. Of the lines before the last one there are
/// the pieces alone.
#[derive(Drop)]
pub struct LineMerge {
    pieces: Vec<Piece>,
    here: Vec<Numbered>,
    line: usize,
}

impl LineMerge {
    ghost use Rattle.line_merge.specs.Taken.{AreTaken, MayBeTaken, last_line};
    ghost use Rattle.line_merge.specs.Numbers.{IsNumbering};

    /// No strip yet.
    pub fn new(alloc: Global) -> LineMerge
        ensures taken { (d : Dir) → (number : Line → ℕ) → AreTaken (of_dir d) number [] result }
        ensures first { last_line result ≡ 0 }
    {
        LineMerge {
            pieces: Vec::new(alloc),
            here: Vec::new(alloc),
            line: 0,
        }
    }

    /// Takes one more strip. If it is on another line than those before it, the pieces of their line are added.
    fn take_one(&mut self, alloc: Global, d: &Dir, x: Numbered) -> Result<(), OutOfMemory>
        requires { All (λ x. AreStripEnds (of_dir d.now) x.strip.line x.strip.a x.strip.b) self.old.here.items }
        ensures taken { OnOk result ((given : List Numbered) → self.old.line ≤ x.line → AreUpToLine (of_dir d.now) given self.old.pieces.items self.old.here.items self.old.line →
            AreUpToLine (of_dir d.now) (given ++ x ∷ []) self.new.pieces.items self.new.here.items self.new.line) }
        ensures line { OnOk result (self.new.line ≤ x.line) }
    {
        if x.line != self.line {
            add_pieces(alloc, d, &mut self.pieces, &self.here)?;
            self.here.clear();
            self.line = x.line;
        }
        self.here.push(x)?;
        Ok(())
    }

    /// Takes these strips, which are on the line with this number. After an error it is not to be used again.
    pub fn take(
        &mut self,
        alloc: Global,
        d: &Dir,
        line: usize,
        strips: &[Strip],
    ) -> Result<(), OutOfMemory>
        requires { (number : Line → ℕ) × (given : List Strip) × MayBeTaken (of_dir d.now) number given self.old line strips.now }
        ensures taken { OnOk result ((number : Line → ℕ) → (given : List Strip) → MayBeTaken (of_dir d.now) number given self.old line strips.now →
            AreTaken (of_dir d.now) number (given ++ strips.now) self.new) }
        ensures line { OnOk result (last_line self.new ≤ line) }
    {
        for strip in strips {
            let x = Numbered {
                strip: *strip,
                line,
            };
            self.take_one(alloc, d, x)?;
        }
        Ok(())
    }

    /// The pieces of all strips that were taken, in their order.
    pub fn pieces(self, alloc: Global, d: &Dir) -> Result<Vec<Piece>, OutOfMemory>
        requires { (number : Line → ℕ) × (given : List Strip) × AreTaken (of_dir d.now) number given self }
        ensures { IfOk result (λ pieces. (number : Line → ℕ) → (given : List Strip) → IsNumbering given number → AreTaken (of_dir d.now) number given self →
            AreMerged (of_dir d.now) given pieces.items) }
    {
        let LineMerge {
            mut pieces,
            here,
            ..
        } = self;
        add_pieces(alloc, d, &mut pieces, &here)?;
        Ok(sorted(d, pieces))
    }
}

/// The pieces of these strips: where strips coincide, visible goes before hidden and hidden before traces; strips of one style
/// that overlap or touch are one piece, and pieces neither overlap nor go on where another of their line and style ends. Solid
/// pieces stand first, then dashed ones, then chain ones; pieces of one style are in the order of U and V of their ends, of
/// which `a` is the lesser.
///
/// Each strip's line is hashed once, and the rest of the time is near linear in the number of strips, but for sorting their ends
/// and the pieces. Memory: 16 bytes for each strip, once more while these are sorted, the pieces, which are sorted in place, and
/// the table of lines; the ends of strips, which take more, are there for one line at a time.
pub fn merge(alloc: Global, d: &Dir, strips: &[Strip]) -> Result<Vec<Piece>, OutOfMemory>
    requires { AreStrips (of_dir d.now) strips.now }
    ensures { IfOk result (λ pieces. AreMerged (of_dir d.now) strips.now pieces.items) }
{
    let listed = listed_by_line(alloc, strips)?;
    let lines = take_listed(alloc, d, &listed)?;
    let pieces = lines.pieces(alloc, d)?;
    Ok(pieces)
}

/// Takes the strips, which stand in the order of their lines' numbers.
fn take_listed(alloc: Global, d: &Dir, listed: &[Listed<'_>]) -> Result<LineMerge, OutOfMemory>
    requires ends { All (λ x. AreStripEnds (of_dir d.now) x.strip.line x.strip.a x.strip.b) (map listed_strip listed.now) }
    requires ascending { IsNonDecreasingBy (λ x. x.line) listed.now }
    ensures { IfOk result (λ lines. AreUpToLine (of_dir d.now) (map listed_strip listed.now) lines.pieces.items lines.here.items lines.line) }
{
    let mut lines = LineMerge::new(alloc);
    for x in listed {
        lines.take_one(alloc, d, listed_strip(x))?;
    }
    Ok(lines)
}
