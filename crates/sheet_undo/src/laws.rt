ghost use Rattle.sheet_undo.specs.UndoLaws.{LastEntriesAreUndone, LaterEntriesOvertake};
ghost use Rattle.sheet_undo.specs.UndoLaws.{OneEditUndoes, UndoingRestores, UndoneTwiceIsTheEntry};

/// What holds of undoing: one edit undoes an entry. It restores what the entry's cells held, and leaves all others.
/// Where a later entry changes one of the cells, there is a first one that does. What undoes an undone entry, which no
/// later one overtook, is that entry's edit. And the last entries of a log, undone one after the other, leave every
/// content as before them.
pub fn undo_laws()
    ensures one { OneEditUndoes }
    ensures restored { UndoingRestores }
    ensures overtaken { LaterEntriesOvertake }
    ensures twice { UndoneTwiceIsTheEntry }
    ensures last { LastEntriesAreUndone }
{}
