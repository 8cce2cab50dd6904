// What holds of reading and expansion, as the contracts of functions, so that the check asks for its proof.
ghost use Rattle.cell.specs.Cases.{WorkedCases};
ghost use Rattle.cell.specs.Laws.{ReadsInParts, ExpandsInParts};

// Reading, or expanding, a list in two parts: the second goes on where the first stopped.
pub fn parts_join()
    ensures reading { ReadsInParts }
    ensures expansion { ExpandsInParts }
{}

// The worked cases, all together.
pub fn worked_cases()
    ensures { WorkedCases }
{}
