//! A cheap test that no window is over a limit.
ghost use Rattle.std.specs.Prelude.{ℕ, ◌+◌, ◌^◌, ◌<◌, ◌≤◌, All, IsTrue};
ghost use Rattle.duty_calendar.specs.Minutes.{count_between};
ghost use Rattle.duty_calendar.specs.Events.{IsEvent, HasFlightsApart};
ghost use Rattle.part117_limits.specs.Peaks.{is_counted};

use crate::overlap::window_minutes;
use crate::peak::Minutes;
use duty_calendar::Event;

/// Whether the minutes from each event on, to `width` minutes behind its release, are within a limit: then
/// those of each window are.
pub fn is_light(events: &[Event], minutes: Minutes, width: u32, limit: u32) -> bool
    requires fits { All (λ e. e.release + width < 2 ^ 32) events.now }
    requires forms { All IsEvent events.now }
    requires apart { HasFlightsApart events.now }
    ensures light { IsTrue result → (t : ℕ)
        → count_between (is_counted minutes events.now) t (t + width) ≤ limit }
{
    for (index, event) in events.iter().enumerate() {
        if window_minutes(&events[index..], minutes, 0, event.release + width) > limit {
            return false;
        }
    }
    true
}
