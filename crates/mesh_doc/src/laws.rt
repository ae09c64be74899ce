//! The law on which each reader rests.
ghost use Rattle.mesh_doc.specs.Laws.{FirstOfJoined, FirstOfAll, NoneOfEmpty};

/// The law on which each reader rests: the first fault that is met along the parts of a value is the first of the
/// list of all its faults.
pub fn reading_order()
    ensures joined { FirstOfJoined }
    ensures whole { FirstOfAll }
    ensures empty { NoneOfEmpty }
{}
