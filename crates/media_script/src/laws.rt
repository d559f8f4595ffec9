ghost use Rattle.media_script.specs.Laws.{SpellsOne, WordsAreSpelled, PiecesAreLines};

/// A script spells one setup and one list of steps.
pub fn script_spells_one()
    ensures { SpellsOne }
{}

/// What is read of a word is how it is spelled, and what is spelled so is read: numbers, moments
/// and names.
pub fn words_are_spelled()
    ensures { WordsAreSpelled }
{}

/// The pieces between line feeds are the lines, and what stands behind the last of them.
pub fn pieces_are_lines()
    ensures { PiecesAreLines }
{}
