//! What the events of a log come to.

ghost use Rattle.std.specs.Prelude.{◌≡◌};
ghost use Rattle.example_events.specs.Totals.{with_event, with_fault};

use crate::event::Event;
use std::fmt;

/// How many lines of each kind there are, and how much was paid. A sum that is too large stands
/// still at the largest number.
#[derive(Drop)]
pub struct Totals {
    /// The events.
    pub events: u64,
    /// The accounts that were opened.
    pub opened: u64,
    /// What was paid in, in cents.
    pub paid_in: u64,
    /// What was paid out, in cents.
    pub paid_out: u64,
    /// The lines that hold no event.
    pub damaged: u64,
}

impl Totals {
    /// Those of no lines.
    pub fn new() -> Totals
        ensures { result
            ≡ record { events = 0; opened = 0; paid_in = 0; paid_out = 0; damaged = 0 } }
    {
        Totals {
            events: 0,
            opened: 0,
            paid_in: 0,
            paid_out: 0,
            damaged: 0,
        }
    }

    /// Adds an event.
    pub fn add(&mut self, event: &Event)
        ensures { self.new ≡ with_event self.old event.now }
    {
        self.events = self.events.saturating_add(1);
        match event {
            Event::Opened { .. } => self.opened = self.opened.saturating_add(1),
            Event::PaidIn { cents, .. } => self.paid_in = self.paid_in.saturating_add(*cents),
            Event::PaidOut { cents, .. } => self.paid_out = self.paid_out.saturating_add(*cents),
        }
    }

    /// Adds a line that holds no event.
    pub fn add_fault(&mut self)
        ensures { self.new ≡ with_fault self.old }
    {
        self.damaged = self.damaged.saturating_add(1);
    }
}

impl fmt::Display for Totals {
    fn fmt<W: fmt::Write>(&self, f: &mut fmt::Formatter<W>) -> fmt::Result {
        writeln!(
            f,
            "events: {}, of which {} open an account",
            self.events, self.opened
        )?;
        writeln!(f, "paid in: {}", self.paid_in)?;
        writeln!(f, "paid out: {}", self.paid_out)?;
        write!(f, "damaged lines: {}", self.damaged)
    }
}
