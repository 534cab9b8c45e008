ghost use Rattle.service_model.specs.Laws.{CommitDoesAlike, CommitTakesNeed, EntryKeepsRoom, EntryKeepsSound, FreeIsTheRest, FrontReaches, HeldIsNotRefused, JournalGoesOn, JournalHasRoom, JournalIsSound, LegalAppends, LegalFront, LegalRest, LineKeepsSound, MergedIsUnclashed, NextReaches, OthersStay, SerialsRise, StandingAppends, StartHasRoom, StartIsSound, UnclashedDoAlike};

/// Runs nothing. Its contract: what stands after two lists of entries is what stands after the second
/// where the first one leads.
pub fn standing_appends()
    ensures { StandingAppends }
{}

/// Runs nothing. Its contract: a legal list of entries and one that is legal where it leads are legal
/// together.
pub fn legal_appends()
    ensures { LegalAppends }
{}

/// Runs nothing. Its contract: a front of a legal list of entries is legal.
pub fn legal_front()
    ensures { LegalFront }
{}

/// Runs nothing. Its contract: the rest of a legal list of entries is legal where its front leads.
pub fn legal_rest()
    ensures { LegalRest }
{}

/// Runs nothing. Its contract: a front of a legal journal leads to what stands after it.
pub fn front_reaches()
    ensures { FrontReaches }
{}

/// Runs nothing. Its contract: a legal journal goes on by entries that are legal where it leads.
pub fn journal_goes_on()
    ensures { JournalGoesOn }
{}

/// Runs nothing. Its contract: a legal journal goes on by one lawful entry.
pub fn next_reaches()
    ensures { NextReaches }
{}

/// Runs nothing. Its contract: an entry leaves every other client as it was.
pub fn others_stay()
    ensures { OthersStay }
{}

/// Runs nothing. Its contract: what stands before the first entry, over a state whose serials begin with 1,
/// is sound.
pub fn start_is_sound()
    ensures { StartIsSound }
{}

/// Runs nothing. Its contract: what stands stays sound by every lawful entry of a script's lines.
pub fn entry_keeps_sound()
    ensures { EntryKeepsSound }
{}

/// Runs nothing. Its contract: what stands stays sound by a lawful entry of a line of which alone it is known that
/// it may be in a script.
pub fn line_keeps_sound()
    ensures { LineKeepsSound }
{}

/// Runs nothing. Its contract: what stands after a legal journal is sound.
pub fn journal_is_sound()
    ensures { JournalIsSound }
{}

/// Runs nothing. Its contract: an open update of a file that is merged up to the file's last serial clashes
/// with no version that was made after its base.
pub fn merged_is_unclashed()
    ensures { MergedIsUnclashed }
{}

/// Runs nothing. Its contract: the serials of a file's versions rise by one up to the last one.
pub fn serials_rise()
    ensures { SerialsRise }
{}

/// Runs nothing. Its contract: where no version after an update's base wrote what the update read, its steps
/// do on the file's last version what they did on its base.
pub fn unclashed_do_alike()
    ensures { UnclashedDoAlike }
{}

/// Runs nothing. Its contract: where a commit with writes may be noted, the steps of each file of the update
/// do on the file's last version what they did on the base.
pub fn commit_does_alike()
    ensures { CommitDoesAlike }
{}

/// Runs nothing. Its contract: a commit that may be noted takes as many blocks as were held for it.
pub fn commit_takes_need()
    ensures { CommitTakesNeed }
{}

/// Runs nothing. Its contract: before the first entry, over a fit state whose blocks suffice and whose versions
/// share what is not fresh in them, no more blocks are in use than there are.
pub fn start_has_room()
    ensures { StartHasRoom }
{}

/// Runs nothing. Its contract: by every lawful entry it stays so that no more blocks are in use than there are.
pub fn entry_keeps_room()
    ensures { EntryKeepsRoom }
{}

/// Runs nothing. Its contract: after a legal journal no more blocks are in use than there are.
pub fn journal_has_room()
    ensures { JournalHasRoom }
{}

/// Runs nothing. Its contract: where no more blocks are in use than there are, those that are free and those in
/// use are all that there are, so no subtraction of the free count stops at 0.
pub fn free_is_the_rest()
    ensures { FreeIsTheRest }
{}

/// Runs nothing. Its contract: where the blocks of a commit may be held, and no cause of a refusal comes earlier, the
/// commit may not be refused.
pub fn held_is_not_refused()
    ensures { HeldIsNotRefused }
{}
