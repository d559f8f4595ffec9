//! Laws of pace scripts.
ghost use Rattle.pace_script.specs.Laws.{SpellsOne};

use media_script::laws::{pieces_are_lines, words_are_spelled};

/// A pace script spells one rate and one list of calls.
pub fn pace_script_spells_one()
    ensures { SpellsOne }
{
    words_are_spelled();
    pieces_are_lines();
}
