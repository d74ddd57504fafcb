//! The board as a duty, and what it shows. Its clauses name `settings_of` and `content_of`, which are the duty's own members.
ghost use Rattle.std.specs.Prelude.{◌≡◌, ℕ, ◌+◌, ◌≤◌, true, List, Ok, sum};
ghost use Rattle.duty.specs.Taking.{Takes};
ghost use Rattle.duty.specs.declared.outcomes.Outcome.TheVariants.{Aside};
ghost use Rattle.depot.specs.Bays.{amps_of};
ghost use Rattle.depot.specs.Boards.{Settings as BoardSettings, fitting as grant_fits, step as grant_step, replaced};
ghost use Rattle.depot.specs.BoardCalls.{settings_of, content_of, Made};
ghost use Rattle.depot.specs.Values.{grant_code};
ghost use Rattle.depot.specs.BoardLaws.{Lasting};

use crate::bays::{Bay, Bays};
use crate::boards::Board;
use crate::refusals::SettingsRefusal;
use crate::values::Grant;
use arrayvec::ArrayVec;
use duty::{Duty, DutyRefusal, Outcome};

/// The outcome of a grant that would take the bays' sum past the feed.
const PAST_FEED: Outcome = Outcome::Aside(15);

impl Board {
    /// A board of 1 to 64 bays on a feed of at most 32,000 A, with all bays at 0. Other settings are refused with 6.
    pub fn new(bays: u32, feed: u32) -> Result<Board, SettingsRefusal>
        ensures made { Made (record { bays = bays; feed = feed }) result }
        ensures lasting { Lasting result }
    {
        if bays == 0 || bays > 64 || feed > 32_000 {
            return Err(SettingsRefusal::OutOfRange);
        }
        let mut records = ArrayVec::from([Bay { amps: 0 }; 64]);
        records.truncate(bays as usize);
        Ok(Board {
            feed,
            bays: Bays { records },
        })
    }

    /// The bays, in order.
    pub fn bays(&self) -> &[Bay]
        ensures { amps_of result.now ≡ content_of self.now }
    {
        self.bays.records.as_slice()
    }

    /// The amps that the bays must not pass together.
    pub fn feed(&self) -> u32
        ensures { result ≡ (settings_of self.now).feed }
    {
        self.feed
    }

    /// The amps of all bays together.
    pub fn total(&self) -> u32
        ensures value { result ≡ sum (content_of self.now) }
        ensures within { result ≤ (settings_of self.now).feed }
    {
        self.bays().iter().map(|bay| bay.amps).sum()
    }

    /// The amps of all bays together with those of the grant's bay replaced.
    fn total_with(&self, grant: &Grant) -> u32
        requires { grant_fits (settings_of self.now) (grant_code grant.now) ≡ true }
        ensures { result ≡ sum (replaced (content_of self.now) (grant_code grant.now)) }
    {
        self.others(grant) + grant.amps
    }

    /// The amps of all bays together but for the grant's bay.
    fn others(&self, grant: &Grant) -> u32
        requires { grant_fits (settings_of self.now) (grant_code grant.now) ≡ true }
        ensures value { result + grant.now.amps ≡ sum (replaced (content_of self.now) (grant_code grant.now)) }
        ensures within { result ≤ (settings_of self.now).feed }
    {
        self.total() - self.bays.records[grant.bay as usize].amps
    }
}

impl Duty for Board {
    type Value = Grant;

    ghost Settings = { BoardSettings };

    ghost Content = { List ℕ };

    ghost settings = { settings_of };

    ghost content = { content_of };

    ghost fitting = { grant_fits };

    ghost step = { grant_step };

    fn fits(&self, grant: &Grant) -> bool {
        (grant.bay as usize) < self.bays.records.len() && grant.amps <= 1_000
    }

    fn take(&mut self, grant: &Grant) -> Result<Outcome, DutyRefusal>
        ensures takes { Takes settings_of content_of grant_fits grant_step self.old (grant_code grant.now) result self.new }
        ensures aside { result ≡ Ok (Aside 15) → self.new ≡ self.old }
    {
        if !self.fits(grant) {
            return Err(DutyRefusal::Unfit);
        }
        if self.total_with(grant) > self.feed {
            return Ok(PAST_FEED);
        }
        self.bays.set_amps(grant.bay as usize, grant.amps);
        Ok(Outcome::Taken)
    }
}
