// Theorems about the rules.
ghost use Rattle.line_book.specs.Histories.{RulesDecide};

// The rules name one answer to each call; it is want of nodes exactly when no ordered table of the book's length holds the formulas concerned.
pub fn rules_decide()
    ensures { RulesDecide }
{}
