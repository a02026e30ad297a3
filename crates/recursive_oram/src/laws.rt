ghost use Rattle.recursive_oram.specs.ByLevel.{ShowsByLevel};

/// Does nothing; its clause is a law of what is shown over whole runs, said by the number of a level: its entry is the
/// leaf of the word that this level's own accesses read.
pub fn level_laws()
    ensures { ShowsByLevel }
{}
