// A run of clients as it is printed.
ghost use Rattle.std.specs.Prelude.{◌≡◌, ◌+◌, ◌<◌, length};

use crate::played::Played;
use crate::texts::client_at;
use afs_base::ClientNo;
use ground::GroundOver;
use pair_store::Blocks;
use script_text::{LineReply, Script};

/// The client at a place of a run, which has 16 clients at most.
fn client_in<B: Blocks>(run: &GroundOver<B>, place: usize) -> ClientNo
    requires { place < length run.now.sessions }
    ensures { result ≡ place + 1 }
{
    let _clients = run.clients();
    client_at(place)
}

impl<B: Blocks> Played for GroundOver<B> {
    ghost use Rattle.ground.specs.Runs.{scripts_in, told_in};
    ghost use Rattle.playing.specs.Runs.{answers_in};

    ghost scripts = { λ g. scripts_in g };

    ghost answers = { λ g. answers_in g };

    ghost told = { λ g. told_in g };

    fn clients(&self) -> usize {
        GroundOver::clients(self)
    }

    fn script(&self, place: usize) -> &Script {
        GroundOver::script(self, client_in(self, place))
    }

    fn answer(&self, place: usize, line: usize) -> Option<&LineReply> {
        GroundOver::answer(self, client_in(self, place), line)
    }

    fn objects(&self) -> usize {
        GroundOver::objects(self)
    }

    fn serials(&self, place: usize) -> Option<(u64, u64)> {
        GroundOver::serials(self, place)
    }
}
