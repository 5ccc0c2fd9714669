// Texts that the words say.
ghost use Rattle.sheet_words.specs.Titles.{IsProper};

use dec_text::Name;

/// What the words say of the title and of the title block, each in place of what the job says: texts that a title may be.
#[derive(Debug, Drop)]
pub struct SaidTexts {
    pub title: Option<Name>,
    pub number: Option<Name>,
    pub revision: Option<Name>,
    pub material: Option<Name>,
    pub date: Option<Name>,
    ghost proper_title: { IsProper title },
    ghost proper_number: { IsProper number },
    ghost proper_revision: { IsProper revision },
    ghost proper_material: { IsProper material },
    ghost proper_date: { IsProper date },
}
