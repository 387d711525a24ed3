// Which calls a phase takes.
ghost use Rattle.std.specs.Prelude.{◌≡◌};
ghost use Rattle.store.specs.Admission.{admitted};

use crate::phase::{Asked, Phase};
use crate::refusals::Refusal;

impl Phase {
    // Whether a call that asks this is taken.
    pub(crate) fn admit(self, ask: Asked) -> Result<(), Refusal>
        ensures { result ≡ admitted self ask }
    {
        match (self, ask) {
            (Phase::Down, _) => Err(Refusal::Down),
            (_, Asked::Up) => Ok(()),
            (Phase::Idle, Asked::Idle) => Ok(()),
            (_, Asked::Idle) => Err(Refusal::Busy),
            (Phase::Open(x), Asked::Open(y)) | (Phase::Waiting(x), Asked::Waiting(y)) if x == y => {
                Ok(())
            }
            _ => Err(Refusal::NoSuchTransaction),
        }
    }
}
