// The law of the reading list, as theorems: for every drawing that is a tree of questions, over calls of type C with answers of type R.
ghost use Rattle.trace.specs.Law.{Repeats, ExtractsMatch, Redraws, ListsExactly};

// Calls repeated over any match of their list give the same answers, refusals, strokes and list.
pub fn repeats_stand<C, R>()
    ensures { Repeats C R }
{}

// Extracts, and piles of them, are a match on their list, so that a repeat over them is the same.
pub fn extracts_stand<C, R>()
    ensures matching { ExtractsMatch }
    ensures redraws { Redraws C R }
{}

// The list has exactly the entries that the plain run consults, each once, by first consulting, and keeping it changes nothing that a caller sees.
pub fn lists_stand<C, R>()
    ensures { ListsExactly C R }
{}
