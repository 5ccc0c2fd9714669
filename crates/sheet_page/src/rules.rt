// The rules of the title block.
ghost use Rattle.std.specs.Prelude.{◌≡◌, ◌<◌, ◌^◌, ◌++◌, unsigned_abs, map, OnOk};
ghost use Rattle.sheet_page.specs.declared.page.Item.TheVariants as item;
ghost use Rattle.sheet_page.specs.Rules.{corner_of, point_from, rule_from, rules_of};

use crate::page::{Item, Pen, Rule};
use exact_frac::OutOfMemory;
use sheet_plan::Sheet;
use stroke_paths::Point;

/// The upper left corner of a sheet's title block. Both coordinates are below 2^61 in size.
#[derive(Clone, Copy)]
pub(crate) struct Corner {
    pub at: Point,
    ghost x_in_range: { unsigned_abs at.x < 2 ^ 61 },
    ghost y_in_range: { unsigned_abs at.y < 2 ^ 61 },
}

impl Corner {
    /// That of a sheet's block.
    pub(crate) fn of(sheet: &Sheet) -> Corner
        ensures { result.at ≡ corner_of sheet.now.width sheet.now.height }
    {
        Corner {
            at: Point {
                x: sheet.width - 19_000,
                y: sheet.height - 3200,
            },
        }
    }

    /// The point so far to the right and below.
    pub(crate) fn point(&self, across: u32, down: u32) -> Point
        ensures { result ≡ point_from self.now.at across down }
    {
        Point {
            x: self.at.x + i64::from(across),
            y: self.at.y + i64::from(down),
        }
    }

    /// The rule from one such point to another.
    pub(crate) fn rule(&self, pen: Pen, x1: u32, y1: u32, x2: u32, y2: u32) -> Rule
        ensures { result ≡ rule_from self.now.at pen x1 y1 x2 y2 }
    {
        Rule {
            pen,
            from: self.point(x1, y1),
            to: self.point(x2, y2),
        }
    }
}

/// The lines around the cells.
pub(crate) fn rules_of(corner: &Corner) -> [Rule; 15]
    ensures { result ≡ rules_of corner.now.at }
{
    [
        corner.rule(Pen::Strong, 0, 0, 18_000, 0),
        corner.rule(Pen::Strong, 0, 0, 0, 2200),
        corner.rule(Pen::Strong, 6000, 0, 6000, 2200),
        corner.rule(Pen::Thin, 0, 400, 6000, 400),
        corner.rule(Pen::Thin, 0, 760, 18_000, 760),
        corner.rule(Pen::Thin, 0, 1120, 6000, 1120),
        corner.rule(Pen::Thin, 0, 1480, 6000, 1480),
        corner.rule(Pen::Thin, 8200, 1480, 18_000, 1480),
        corner.rule(Pen::Thin, 0, 1840, 6000, 1840),
        corner.rule(Pen::Thin, 3700, 760, 3700, 1120),
        corner.rule(Pen::Thin, 8200, 760, 8200, 2200),
        corner.rule(Pen::Thin, 9800, 1480, 9800, 2200),
        corner.rule(Pen::Thin, 11_300, 1480, 11_300, 2200),
        corner.rule(Pen::Thin, 12_800, 760, 12_800, 2200),
        corner.rule(Pen::Thin, 16_200, 760, 16_200, 2200),
    ]
}

/// Adds rules.
pub(crate) fn add_rules(items: &mut Vec<Item>, rules: &[Rule]) -> Result<(), OutOfMemory>
    ensures { OnOk result (items.new.items ≡ items.old.items ++ map item.Rule rules.now) }
{
    for rule in rules {
        items.push(Item::Rule(*rule))?;
    }
    Ok(())
}
