ghost use Rattle.joint_flush.specs.Laws.{ReadyLaw, ReadyStaysLaw, StaysLaw};

/// Runs nothing. Its contract: the parts of a commit of several files stay so while its client holds the same blocks and the drafts are
/// the same.
pub fn stays_law()
    ensures { StaysLaw }
{}

/// Runs nothing. Its contract: so does what can be told of it with no parts.
pub fn ready_stays_law()
    ensures { ReadyStaysLaw }
{}

/// Runs nothing. Its contract: what can be told with no parts follows from the parts.
pub fn ready_law()
    ensures { ReadyLaw }
{}
