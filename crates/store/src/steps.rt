// Calls on a transaction that is named by the numbers of its object.
ghost use Rattle.std.specs.Prelude.{◌≡◌};
ghost use Rattle.std.specs.Option.{ok_or};
ghost use Rattle.store.specs.Decisions.{Obeys};
ghost use Rattle.store.specs.Runs.{unnamed, on_open, on_waiting, id_of};
ghost use Rattle.store.specs.Staging.{stage_rule};
ghost use Rattle.store.specs.Transactions.{clear_rule, commit_rule, settle_rule, abandon_rule};

use crate::name::Name;
use crate::phase::Phase;
use crate::refusals::Refusal;
use crate::stores::Store;
use crate::tickets::{OpenTicket, WaitingTicket};
use device::Device;
use map::Identifier;

impl Phase {
    // The answer to a ticket whose numbers are no identifier.
    fn unnamed(self) -> Refusal
        ensures { result ≡ unnamed self }
    {
        match self {
            Phase::Down => Refusal::Down,
            _ => Refusal::NoSuchTransaction,
        }
    }
}

impl<D: Device> Store<D> {
    // The identifier that the numbers of a ticket are.
    fn ticket_id(&self, ticket: Name) -> Result<Identifier, Refusal>
        ensures { result ≡ ok_or (id_of ticket) (unnamed self.now.phase) }
    {
        ticket.identifier().ok_or(self.phase.unnamed())
    }

    pub(crate) fn step_clear(&mut self, ticket: Name, position: u64) -> Result<(), Refusal>
        ensures { Obeys D.Device (on_open (id_of ticket) (λ t. clear_rule t position)) self.old result self.new }
    {
        let id = self.ticket_id(ticket)?;
        let ticket = OpenTicket { id };
        let r = self.clear(&ticket, position);
        let OpenTicket { id: _ } = ticket;
        r
    }

    pub(crate) fn step_stage(
        &mut self,
        ticket: Name,
        position: u64,
        first: u64,
        words: &[u16],
    ) -> Result<(), Refusal>
        ensures { Obeys D.Device (on_open (id_of ticket) (λ t. stage_rule t position first words.now)) self.old result self.new }
    {
        let id = self.ticket_id(ticket)?;
        let ticket = OpenTicket { id };
        let r = self.stage(&ticket, position, first, words);
        let OpenTicket { id: _ } = ticket;
        r
    }

    pub(crate) fn step_commit(&mut self, ticket: Name) -> Result<(WaitingTicket, u32), Refusal>
        ensures { Obeys D.Device (on_open (id_of ticket) commit_rule) self.old result self.new }
    {
        let id = self.ticket_id(ticket)?;
        self.commit(OpenTicket { id })
    }

    pub(crate) fn step_settle(&mut self, ticket: Name) -> Result<u32, Refusal>
        ensures { Obeys D.Device (on_waiting (id_of ticket) settle_rule) self.old result self.new }
    {
        let id = self.ticket_id(ticket)?;
        self.settle(WaitingTicket { id })
    }

    pub(crate) fn step_abandon(&mut self, ticket: Name) -> Result<(), Refusal>
        ensures { Obeys D.Device (on_open (id_of ticket) abandon_rule) self.old result self.new }
    {
        let id = self.ticket_id(ticket)?;
        self.abandon(OpenTicket { id })
    }
}
