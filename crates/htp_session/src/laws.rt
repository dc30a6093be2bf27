//! Laws of a transcript (a *talk*), as functions with nothing to do.

ghost use Rattle.std.specs.Prelude.{Bool, List};
ghost use Rattle.hex_io.specs.declared.files.File.{File};
ghost use Rattle.htp_session.specs.Laws.{MoreLeftIsNotUsed, ServesAlike, ServesAlikeFrom};
ghost use Rattle.htp_session.specs.Laws.{AnsweredAlike, ThroughAlike, SearchedMovesAreLegal};

/// More at the end of what a conversation has left to consume changes nothing of a transcript that
/// was not short. So a transcript over what was consumed so far stays true whatever is consumed
/// later.
pub fn more_left_is_not_used()
    ensures { MoreLeftIsNotUsed }
{}

/// With one worker a transcript is determined by the lines, the options and what came of the files,
/// whatever good turns its moves consumed. Two transcripts that were answered say the same and
/// stand at the same then, the last turn's texts too. Two that are complete (*through*) are the
/// same in all.
pub fn one_worker_is_determined()
    ensures answered { AnsweredAlike ServesAlike }
    ensures through { ThroughAlike ServesAlike }
{}

/// With one worker and an observable file store a transcript is determined by the lines, the
/// options, the files and which fetches failed. What came of the files need not be given, for bytes
/// are a record of one game at most. Two transcripts whose loads came of these files and faults,
/// and whose turns are good, say the same and stand at the same then, if they were answered; if
/// they are complete, they are the same in all.
pub fn one_worker_and_one_shelf_determine()
    ensures answered { (files : List File) → (tries : List Bool) →
        AnsweredAlike (ServesAlikeFrom files tries) }
    ensures through { (files : List File) → (tries : List Bool) →
        ThroughAlike (ServesAlikeFrom files tries) }
{}

/// Each move of a good turn, searched or certified, is legal where a transcript plays it: if the
/// turn is a conversation's next, a stone of the colour asked on its cell is a legal step of its
/// game.
pub fn searched_moves_are_legal()
    ensures { SearchedMovesAreLegal }
{}
