ghost use Rattle.std.specs.List.{find};
ghost use Rattle.std.specs.Prelude.{nat_lt, ◌≡◌, ℕ, ◌<◌, ◌≤◌, None, MatchOption};
ghost use Rattle.terms.specs.Moments.{day, upcoming, timetable, due_by, due_at, Next};

use crate::moments::{Due, Moment};
use crate::ranges::DAY_LENGTH;

// The day of a time, from 0.
pub fn day(time: u32) -> u32
    ensures { result ≡ day time }
{
    time / DAY_LENGTH
}

// 06:00, 14:00, 17:00, 18:00 and 22:00.
const TIMETABLE: [Due; 5] = [
    Due {
        at: 21_600,
        moment: Moment::Funding,
    },
    Due {
        at: 50_400,
        moment: Moment::Funding,
    },
    Due {
        at: 61_200,
        moment: Moment::Deadline,
    },
    Due {
        at: 64_800,
        moment: Moment::Rollover,
    },
    Due {
        at: 79_200,
        moment: Moment::Funding,
    },
];

// 06:00 of the next day.
const NEXT_DAY: Due = Due {
    at: DAY_LENGTH + 21_600,
    moment: Moment::Funding,
};

// The first of the moments that lies after a second.
fn first_after(moments: &[Due], second: u32) -> Option<Due>
    ensures { result ≡ find (λ d. nat_lt second d.at) moments.now }
{
    moments.iter().copied().find(|d| second < d.at)
}

// The next due moment after a second of the day: where none is left, the first one of the next day.
fn upcoming(second: u32) -> Due
    ensures { result ≡ upcoming timetable second }
{
    first_after(&TIMETABLE, second).unwrap_or(NEXT_DAY)
}

// The next due moment after a time, if it comes by the end.
#[tactic(auto, using(crate::proofs::Timetable::next_is_next), unfolding(crate::specs::Moments::next_due))]
pub fn next_due(time: u32, end: u32) -> Option<Due>
    ensures value { result ≡ due_by time end }
    ensures next { MatchOption result ((u : ℕ) → time < u → u ≤ end → due_at u ≡ None) (λ d. Next time d × (d.at ≤ end)) }
{
    let d = upcoming(time % DAY_LENGTH);
    let at = (day(time) * DAY_LENGTH) as u64 + d.at as u64;
    if at <= end as u64 {
        Some(Due {
            at: at as u32,
            moment: d.moment,
        })
    } else {
        None
    }
}
