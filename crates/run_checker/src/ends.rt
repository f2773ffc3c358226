//! Rows of a certificate, and its end.

ghost use Rattle.std.specs.Prelude.{◌≡◌};

use crate::Verdict;
use crate::bodies::Body;
use crate::firsts::first_of;
use crate::id_lists::needs_state;
use crate::rows::Showing;
use counter_core::Counter;
use edge_io::{TakeError, Words};
use round_runner::is_locked;

impl Body {
    ghost use Rattle.std.specs.Prelude.{Some};
    ghost use Rattle.edge_io.specs.Taking.{Takes};
    ghost use Rattle.run_checker.specs.Items.{end_item, row_by, values_said};
    ghost use Rattle.run_checker.specs.Checking.{verdict_now, step, step_by};
    ghost use Rattle.run_checker.specs.Bodies.{stage_of};
    ghost use Rattle.run_checker.specs.Changes.{has_states, Marks, ComesToRow, is_at_row};

    /// Whether no correct node is left that needs a state.
    fn has_states(&self) -> bool
        ensures { result ≡ has_states self.now }
    {
        !needs_state(&self.unknown, &self.faulty, self.from, self.tower.nodes())
    }

    /// Compares a row with what the configuration shows, and takes it if it is one.
    fn mark_row(&mut self, words: Words<'_>) -> bool
        ensures { Marks (values_said words.entry) self.old self.new result }
    {
        let showing = Showing {
            faulty: &self.faulty,
            depth: self.tower.depth(),
            config: &self.config,
        };
        let Some(same) = showing.compare_row(words) else {
            return false;
        };
        let locked = is_locked(&self.tower, &self.faulty, &self.config);
        self.differs = first_of(self.differs, !same, self.at);
        self.locked = first_of(self.locked, locked, self.at);
        self.tellings.clear();
        self.is_putting = false;
        true
    }

    /// Makes the configuration that is known the one whose row is next; false if no row may be.
    fn come_to_row(&mut self) -> bool
        ensures { ComesToRow self.old self.new result }
    {
        if self.is_putting() {
            return self.has_states();
        }
        if !self.is_told() {
            return false;
        }
        self.play();
        true
    }

    /// Takes a row.
    pub fn take_row(&mut self, t: u64, words: Words<'_>) -> Result<Option<Verdict>, TakeError<()>>
        ensures { Takes (step_by (stage_of self.old) (row_by (Some t) (values_said words.entry)))
            (stage_of self.new) result }
    {
        if !self.come_to_row() {
            return Err(TakeError::Refused(()));
        }
        if t != self.at() {
            return Err(TakeError::Refused(()));
        }
        if !self.mark_row(words) {
            return Err(TakeError::Refused(()));
        }
        Ok(None)
    }

    /// The number of the configuration.
    fn at(&self) -> u64
        ensures { result ≡ self.now.known.at }
    {
        self.at
    }

    /// Whether nothing was told after the last row.
    fn is_at_row(&self) -> bool
        ensures { result ≡ is_at_row self.now }
    {
        !self.is_putting && self.tellings.is_empty()
    }

    /// The verdict, if the certificate ends with the last row.
    fn verdict(&self) -> Verdict
        ensures { result ≡ verdict_now self.now.known }
    {
        match self.differs {
            Some(row) => Verdict::False { row },
            None => Verdict::True {
                rows: self.at + 1,
                locked: self.locked,
            },
        }
    }

    /// Takes the last line.
    pub fn take_end(&self) -> Result<Option<Verdict>, TakeError<()>>
        ensures { Takes (step (stage_of self.now) end_item) (stage_of self.now) result }
    {
        if !self.is_at_row() {
            return Err(TakeError::Refused(()));
        }
        Ok(Some(self.verdict()))
    }
}
