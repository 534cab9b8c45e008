// A client's next line in a run.
ghost use Rattle.std.specs.Prelude.{◌≡◌, ◌≤◌, None, length};
ghost use Rattle.drives.specs.declared.device.Half.{Half};
ghost use Rattle.playing.specs.Lines.{LineCall};
ghost use Rattle.session.specs.declared.turned.Fault.TheVariants.{Drive};

use afs_base::{BlockNo, ClientNo};
use ground::{Fault, GroundOver, Turned};
use page_codec::Why;
use pair_store::Blocks;

/// How a client went on to its next answer.
#[derive(Clone, Copy, Debug, PartialEq, Eq)]
pub enum LineEnd {
    /// Its next line was answered.
    Answered,
    /// All its lines were answered before.
    Finished,
    /// The run stopped.
    Stopped { fault: Fault },
}

/// Why a run would stop in which a line does not end. This never comes where contents are told.
fn endless() -> Fault
    ensures { (half : Half) → result ≡ Drive half → ⊥ }
{
    Fault::Bad {
        block: BlockNo::at(0),
        why: Why::Serial,
    }
}

/// Takes a client to its next answer, by as many turns as its line needs.
pub fn play_line<B: Blocks>(run: &mut GroundOver<B>, client: ClientNo) -> LineEnd
    requires client { client ≤ length run.old.sessions }
    requires going { run.old.fault ≡ None }
    ensures { LineCall B.Blocks run.old run.new client result }
{
    run.promise();
    for _ in 0..u64::MAX {
        let turned = run.turn(client, None);
        run.promise();
        match turned {
            Turned::Line { .. } => return LineEnd::Answered,
            Turned::Finished => return LineEnd::Finished,
            Turned::Stopped { fault } => return LineEnd::Stopped { fault },
            Turned::Again => {}
            Turned::Work(_) => {}
        }
    }
    LineEnd::Stopped { fault: endless() }
}
