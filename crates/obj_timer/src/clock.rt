// The timer's clock and its line.
ghost use Rattle.std.specs.Prelude.{◌≡◌, ◌<◌, [], length};
ghost use Rattle.gm_words.specs.Platform.{clock_line};
ghost use Rattle.gm_model.specs.Stepped.{line_change};
ghost use Rattle.gm_model.specs.Timer.{clock_at, compared, is_awaited, compare_changes};
ghost use Rattle.obj_core.specs.Out.{extended};
ghost use Rattle.obj_server.specs.Device.{own_changes};
ghost use Rattle.obj_timer.specs.State.{timer_of};

use crate::device::TimerDevice;
use gc_base::Tick;
use gc_base::limits::LAST;
use gm_model::Act;
use obj_core::Outbox;
use obj_server::OwnEvent;

/// The hart's line of the clock, a bit of mip: the machine timer interrupt.
const CLOCK_LINE: u8 = 7;

impl TimerDevice {
    /// The clock: how many periods have passed.
    pub(crate) fn clock(&self, now: Tick) -> u64
        ensures { result ≡ clock_at (timer_of self.now) now }
    {
        now.get() / self.period
    }

    /// Compares the clock with another number. It answers what becomes of the timer's own event.
    pub(crate) fn compare(&mut self, number: u64, now: Tick, out: &mut Outbox) -> OwnEvent
        requires { length out.old.items < 272 }
        ensures device { timer_of self.new ≡ compared (timer_of self.old) number now }
        ensures changes { own_changes result ≡ compare_changes (timer_of self.new) (is_awaited (timer_of self.new)) }
        ensures out { out.new ≡ extended out.old (line_change clock_line self.old.level self.new.level) [] out.old.next }
    {
        self.mtimecmp = number;
        let level = number <= self.clock(now);
        self.set_level(level, out);
        self.own_event()
    }

    /// Sets the level of the clock's line, and tells it where it changes.
    pub(crate) fn set_level(&mut self, level: bool, out: &mut Outbox)
        requires { length out.old.items < 272 }
        ensures device { self.new ≡ record self.old { level = level } }
        ensures out { out.new ≡ extended out.old (line_change clock_line self.old.level level) [] out.old.next }
    {
        if self.level != level {
            self.level = level;
            out.push(Act::SetLine {
                bit: CLOCK_LINE,
                level,
            });
        }
    }

    /// The own event comes as the clock comes to the number, if it still does by the last tick at which a run serves one.
    fn own_event(&self) -> OwnEvent
        ensures { own_changes result ≡ compare_changes (timer_of self.now) (is_awaited (timer_of self.now)) }
    {
        match self.mtimecmp.checked_mul(self.period).and_then(Tick::new) {
            Some(at) if !self.level && at.get() <= LAST => OwnEvent::Comes { at },
            _ => OwnEvent::Goes,
        }
    }
}
