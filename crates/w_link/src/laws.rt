//! Laws of the definitions, each the contract of a function that does nothing.
ghost use Rattle.w_link.specs.Laws.{GroupsStandAmong, IndicesStillMatch, ValuesStillMatch, FunctionsStillMatch, ValuesStillEqual};
ghost use Rattle.w_link.specs.Laws.{InstructionsAreFine, FineHaveTypes, CodeIsTyped, BodiesAreTyped, PeaksAreSame, HeightsAreSame, DepthsAreSame};
ghost use Rattle.w_link.specs.Laws.{ContextsFitThemselves, GroupsStay, LocalsStay, CodeStays};

/// The types of a file stand among those of all: what is equivalent, equal or matches in the file does so there.
pub fn types_stand_among_all()
    ensures groups { GroupsStandAmong }
    ensures indices { IndicesStillMatch }
    ensures values { ValuesStillMatch }
    ensures functions { FunctionsStillMatch }
    ensures equal { ValuesStillEqual }
{}

/// An instruction with addresses in the place of its indices takes more and gives less than in its file, so that it has each type that it
/// had.
pub fn instructions_take_more_and_give_less()
    ensures fine { InstructionsAreFine }
    ensures typed { FineHaveTypes }
{}

/// Code that is typed in a file, and the body of a function, is typed among all, where each supertype is of its subtypes' kind.
pub fn code_is_typed_among_all()
    ensures code { CodeIsTyped }
    ensures bodies { BodiesAreTyped }
{}

/// Typed code has as many operands among all as in its file, and code as many blocks around a place.
pub fn heights_and_depths_are_same()
    ensures peaks { PeaksAreSame }
    ensures heights { HeightsAreSame }
    ensures depths { DepthsAreSame }
{}

/// Where each index stands for itself, a context fits itself, and types, locals and code are as they were.
pub fn whole_instances_change_nothing()
    ensures fit { ContextsFitThemselves }
    ensures groups { GroupsStay }
    ensures locals { LocalsStay }
    ensures code { CodeStays }
{}
