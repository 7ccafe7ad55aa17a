//! The law of the results of `State::write_trees`. It computes nothing.

ghost use Rattle.index_laws.specs.TreesAnswer.{AllHaveOneTreesAnswer, AllHaveTreesAnswer};

/// Records that strictly increase have exactly one answer, whatever a check returns for names. It is the directory of
/// which their trees are made, or the first rejection, with its paths. That there is an answer requires that each id
/// has the length of its hash algorithm, as in each entry in memory.
pub fn one_answer()
    ensures some { AllHaveTreesAnswer }
    ensures one { AllHaveOneTreesAnswer }
{}
