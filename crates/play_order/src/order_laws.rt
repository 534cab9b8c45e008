ghost use Rattle.play_order.specs.OrderLaws.{AnswersAreCounted, DueAppends, EndIsReached};
ghost use Rattle.play_order.specs.OrderLaws.{EndTakesLine, FinishingBegins, FinishingGoesOn};
ghost use Rattle.play_order.specs.OrderLaws.{FullIsFinished, NoneAreOfClient, OfClientAppends};
ghost use Rattle.play_order.specs.OrderLaws.{OneIsInOrder, OneIsMore, OneIsWhole, OrderAppends};
ghost use Rattle.play_order.specs.OrderLaws.{OthersAreLeft, PlayBegins, PlayIsDone, PlayPassesWord};
ghost use Rattle.play_order.specs.OrderLaws.{PlayTakesEnd, PlayTakesWord, StartLeavesAll};
ghost use Rattle.play_order.specs.OrderLaws.{UnansweredIsWithin, WithinBegins, WithinEnds};
ghost use Rattle.play_order.specs.OrderLaws.{WithinGoesOn, WithinIsUnanswered, WordIsPassed};
ghost use Rattle.play_order.specs.OrderLaws.{WordTakesLine};

/// Runs nothing. Its contract: what legal entries of one client do to its answers: they add as many
/// as they answer lines, so where none is added none of them answers, and the other way round.
/// Every other client stays as it was.
pub fn entries_are_counted()
    ensures counted { AnswersAreCounted }
    ensures within { WithinIsUnanswered }
    ensures unanswered { UnansweredIsWithin }
    ensures others { OthersAreLeft }
{}

/// Runs nothing. Its contract: how entries of one client come one list after another: they are its
/// own, legal and due together.
pub fn entries_append()
    ensures due { DueAppends }
    ensures none { NoneAreOfClient }
    ensures appends { OfClientAppends }
{}

/// Runs nothing. Its contract: a line goes on by entries that do not answer it, and ends with those
/// that do.
pub fn lines_go_on()
    ensures begins { WithinBegins }
    ensures goes_on { WithinGoesOn }
    ensures ends { WithinEnds }
{}

/// Runs nothing. Its contract: entries that answer one line of a client, and leave it between two
/// lines, are those of its next line, in the order of that line, and the client has one answer
/// more.
pub fn lines_are_whole()
    ensures whole { OneIsWhole }
    ensures in_order { OneIsInOrder }
    ensures more { OneIsMore }
{}

/// Runs nothing. Its contract: entries that are in order, and those that are in order where they
/// lead, are in order together.
pub fn orders_append()
    ensures { OrderAppends }
{}

/// Runs nothing. Its contract: what is left of an order: all before the first entry, what a word
/// takes of it, and what comes behind the words.
pub fn orders_are_left()
    ensures starts { StartLeavesAll }
    ensures takes { WordTakesLine }
    ensures passes { WordIsPassed }
    ensures behind { EndTakesLine }
    ensures reached { EndIsReached }
{}

/// Runs nothing. Its contract: clients are finished one after another, each where it has as many
/// answers as lines.
pub fn clients_finish()
    ensures full { FullIsFinished }
    ensures begins { FinishingBegins }
    ensures goes_on { FinishingGoesOn }
{}

/// Runs nothing. Its contract: what a run keeps as it goes through the order of play, from its
/// beginning on, by the line that a word takes, past the word of a finished client, and by the
/// lines behind the words.
pub fn plays_go_on()
    ensures begins { PlayBegins }
    ensures takes { PlayTakesWord }
    ensures passes { PlayPassesWord }
    ensures behind { PlayTakesEnd }
{}

/// Runs nothing. Its contract: where all clients are finished the entries of a run follow the order
/// of play, and it is complete.
pub fn plays_end()
    ensures { PlayIsDone }
{}
