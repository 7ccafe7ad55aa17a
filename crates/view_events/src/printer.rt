//! Printers, which turn events into text.

ghost use Rattle.std.specs.Prelude.{List, ℕ, map};
ghost use Rattle.view_events.specs.Event.{Adds, Event, AddsEvents, event_of};

use crate::event::Event;
use base_text::append::Appended;

/// Text that wasn't written yet.
#[derive(Drop)]
pub struct Text {
    pub bytes: Vec<u8>,
}

/// Turns events into text, each after those before it. After an error the text may be empty.
pub trait Printer {
    // the text of an event
    ghost spell: { Event → List ℕ };

    /// Appends the text of an event.
    fn put(text: &mut Text, event: Event<'_>) -> Appended
        ensures { Adds result text.old.bytes text.new.bytes (spell (event_of event.entry)) };
}

impl Text {
    /// Appends the texts of events, one after another.
    #[inline(always)]
    pub fn put_all<P: Printer>(&mut self, events: &[Event<'_>]) -> Appended
        ensures { AddsEvents P.spell result self.old self.new (map event_of events.now) }
    {
        for event in events {
            P::put(self, *event)?;
        }
        Ok(())
    }
}
