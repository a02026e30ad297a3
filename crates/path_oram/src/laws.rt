ghost use Rattle.lt_isa.specs.Prelude.{Parts, IsOblivious, IsInRange};
ghost use Rattle.path_oram.specs.LeavesAlike.{LeavesAlike};
ghost use Rattle.path_oram.specs.Rearranged.{ShowsTheSame};
ghost use Rattle.path_oram.specs.WordsRead.{EachReads, EachWordOnce};
ghost use Rattle.path_oram.specs.Literal.{TakesWhatIsLeftWhereWhole};

/// Does nothing; its clause is a law of the greedy write-back. If each block is stored once, each bucket of the path
/// has as many blocks of the hand as are allowed there and aren't in a deeper bucket, at most four.
pub fn write_back_laws()
    ensures takes_what_is_left { TakesWhatIsLeftWhereWhole }
{}

/// Does nothing; its clauses are laws of runs. An access reads its block's own word if the block wasn't accessed
/// before, and otherwise the word that the last access to it drew. No word is read twice. If the words are rearranged
/// from one run to another, the second run shows the same leaves.
#[tactic(auto, using(crate::proofs::ReadWords::each_reads, crate::proofs::WordsOnce::each_word_once))]
pub fn word_laws()
    ensures each_reads { EachReads }
    ensures each_word_once { EachWordOnce }
    ensures shows_the_same { ShowsTheSame }
{}

/// Does nothing; its clause is a law of oblivious objects. Two runs on inputs that agree show the same leaves of each
/// oblivious bank if the random words are rearranged, and one rearrangement serves for all words.
pub fn leaves_alike()
    ensures { (o : Parts) → IsInRange o → IsOblivious o → LeavesAlike o }
{}
