//! The next month, and how far its minutes lie behind those of this one.
ghost use Rattle.std.specs.Prelude.{◌≡◌, ◌≢◌, ◌+◌, ◌/◌, ◌≤◌, ◌<◌, ◌↔◌, ◌+ℤ◌, pos, None, IfSome, IsTrue};
ghost use Rattle.duty_calendar.specs.Calendar.{day_zero, month_end, horizon_end};
ghost use Rattle.next_month.specs.Lags.{Follows, IsLag};

use duty_calendar::Horizon;

/// The number of a day, counted from day 0, in a count of all days.
fn day_number(horizon: &Horizon, day: u32) -> u32
    requires within { day ≤ horizon_end horizon.now / 1440 }
    ensures value { pos result ≡ day_zero horizon.now +ℤ pos (day + 4_371_587) }
{
    horizon.date_of(day).to_plain().days_since_min()
}

/// Whether the next month begins on the day after the last of this one.
pub fn follows(this: &Horizon, next: &Horizon) -> bool
    ensures answer { IsTrue result ↔ Follows this.now next.now }
{
    day_number(this, 365 + this.days()) == day_number(next, 365)
}

/// January of the year after, at the same offset.
fn next_january(this: &Horizon) -> Option<Horizon>
    ensures year { IfSome result (λ next. next.year ≡ this.now.year +ℤ pos 1) }
    ensures month { IfSome result (λ next. next.month ≡ 1) }
    ensures same { IfSome result (λ next. next.offset ≡ this.now.offset) }
    ensures last { result ≡ None → this.now.year ≡ pos 2099 }
{
    Horizon::new(this.year() + 1, 1, this.offset()).ok()
}

/// The next month of the same year, at the same offset.
fn next_in_year(this: &Horizon) -> Option<Horizon>
    requires early { this.now.month < 12 }
    ensures year { IfSome result (λ next. next.year ≡ this.now.year) }
    ensures month { IfSome result (λ next. next.month ≡ this.now.month + 1) }
    ensures same { IfSome result (λ next. next.offset ≡ this.now.offset) }
    ensures some { result ≢ None }
{
    Horizon::new(this.year(), this.month() + 1, this.offset()).ok()
}

/// The next month of the calendar at the same offset, but none behind December 2099.
#[tactic(auto, using(crate::proofs::After::january_follows, crate::proofs::After::month_follows))]
pub fn following(this: &Horizon) -> Option<Horizon>
    ensures follows { IfSome result (λ next. Follows this.now next) }
    ensures same { IfSome result (λ next. next.offset ≡ this.now.offset) }
    ensures last { result ≡ None → (this.now.year ≡ pos 2099) × (this.now.month ≡ 12) }
{
    if this.month() == 12 {
        next_january(this)
    } else {
        next_in_year(this)
    }
}

/// How far the base's clocks are ahead of the westernmost ones.
fn lead(horizon: &Horizon) -> u32
    ensures value { pos result ≡ horizon.now.offset +ℤ pos 840 }
    ensures bound { result ≤ 1680 }
{
    (horizon.offset() + 840) as u32
}

/// By how many minutes the next month's count lags behind this one's.
pub fn lag(this: &Horizon, next: &Horizon) -> u32
    requires follows { Follows this.now next.now }
    ensures moments { IsLag this.now next.now result }
    ensures ends { horizon_end this.now ≤ result + month_end next.now }
    ensures short { result ≤ 46320 }
{
    1440 * this.days() + lead(this) - lead(next)
}
