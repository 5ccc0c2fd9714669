// Warns by a line.
ghost use Rattle.std.specs.Prelude.{◌≡◌, ◌++◌, true};
ghost use Rattle.desk.specs.Files.{AppendsFront, OnlyWarns};
ghost use Rattle.put_texts.specs.Desks.{HearsAll};

use desk::Desk;

/// Warns by a line. A desk that can't is not asked again.
pub fn warn<D: Desk>(line: &str, desk: &mut D)
    ensures front { (D.state desk.old).tells_warned ≡ true →
        AppendsFront (D.state desk.old).warned (D.state desk.new).warned line.now }
    ensures whole { HearsAll (D.state desk.old) (D.state desk.new) →
        (D.state desk.new).warned ≡ (D.state desk.old).warned ++ line.now }
    ensures changes { OnlyWarns (D.state desk.old) (D.state desk.new) }
{
    let _unheard = desk.warn(line.as_bytes());
}
