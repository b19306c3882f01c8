ghost use Rattle.sexp_reader.specs.Laws.{FirstFaults, UnclosedGoesOn};

/// A fault that is met inside a text is told at the first place where nothing helps: what stands before it can be gone
/// on with to a text that the grammar spells, and no such text begins with that and the piece at fault. The fault does
/// not hang on what comes later.
pub fn first_fault()
    ensures { FirstFaults }
{}

/// A text that ended inside a list or a text, or after a mark, can be gone on with to one that the grammar spells, so
/// `Unclosed` is told of no other.
pub fn unclosed_goes_on()
    ensures { UnclosedGoesOn }
{}
