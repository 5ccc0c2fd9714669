// The words of marks.
ghost use Rattle.sheet_plan.specs.LineKinds.{word_of};
ghost use Rattle.piece_verify.specs.Columns.{Reads};
ghost use Rattle.piece_verify.specs.Values.{IsAny};

use sheet_plan::Mark;

/// The mark of this word.
pub(crate) fn mark(bytes: &[u8]) -> Option<Mark>
    ensures { Reads IsAny word_of bytes.now result }
{
    match bytes {
        b"solid" => Some(Mark::Solid),
        b"dashed" => Some(Mark::Dashed),
        b"chain" => Some(Mark::Chain),
        b"hatch" => Some(Mark::Hatch),
        _ => None,
    }
}
