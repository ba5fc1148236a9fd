// The laws of maps, as contracts of functions that do nothing.
ghost use Rattle.zv_map1.specs.Laws.{AllIsMap, AppendInserts, FoundAlike, InsertIsFound};
ghost use Rattle.zv_map1.specs.Laws.{InsertIsMap, InsertLeavesOthers, LastIsKept, RemoveIsGone};
ghost use Rattle.zv_map1.specs.Laws.{RemoveIsMap, RemoveLeavesOthers};

/// A map is a finite map: after an insertion the key has that value, after a removal it has none,
/// any other key has what it had, and maps in which the same is found are the same. It does
/// nothing.
pub fn finite_map()
    ensures insert { InsertIsFound }
    ensures insert_others { InsertLeavesOthers }
    ensures insert_map { InsertIsMap }
    ensures remove { RemoveIsGone }
    ensures remove_others { RemoveLeavesOthers }
    ensures remove_map { RemoveIsMap }
    ensures alike { FoundAlike }
{}

/// How a map is made: what is appended is inserted, and of pairs in any order a key has the last
/// value that was given for it. It does nothing.
pub fn building()
    ensures append { AppendInserts }
    ensures last { LastIsKept }
    ensures map { AllIsMap }
{}
