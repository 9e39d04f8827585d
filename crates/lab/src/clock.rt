//! Tells on standard error how many lines were played, and how many seconds are left where that can be said.
use rssd_lab::Pace;
use std::io;
use std::rt::Clock;
use std::time::{Duration, Instant};

/// Tells how far a run has come, about once a second.
#[derive(Drop)]
pub struct Clocked<'a, R: Clock + Eprint> {
    rt: &'a R,
    start: Option<Instant>,
    /// The second that was told last.
    told: u64,
    /// How many lines there will be, where that is known.
    count: Option<u64>,
}

/// How many lines an order draws: the fifth word of one that begins with `draw`.
fn count_of(words: &[String]) -> Option<u64> {
    match words {
        [name, _, _, _, count, ..] if name.as_str() == "draw" => count.as_str().parse().ok(),
        _ => None,
    }
}

impl<'a, R: Clock + Eprint> Clocked<'a, R> {
    /// A clock that starts now.
    pub fn new(rt: &'a R, words: &[String]) -> Clocked<'a, R> {
        Clocked {
            rt,
            start: Instant::now(rt).ok(),
            told: 0,
            count: count_of(words),
        }
    }

    /// The seconds since the start.
    fn seconds(&self) -> Option<u64> {
        let start = self.start.as_ref()?;
        let passed: Duration = start.elapsed(self.rt).ok()?;
        Some(passed.as_secs())
    }
}

/// How many seconds are left, at the rate so far.
fn seconds_left(lines: u64, count: u64, seconds: u64) -> u64 {
    if lines == 0 {
        0
    } else {
        count.saturating_sub(lines).saturating_mul(seconds) / lines
    }
}

/// Tells it.
fn tell<R: Eprint>(rt: &R, lines: u64, count: Option<u64>, seconds: u64) -> io::Result<()> {
    match count {
        Some(count) => {
            let left = seconds_left(lines, count, seconds);
            eprintln!(rt; "lab: {lines} of {count} lines in {seconds} s, {left} s left")
        }
        None => eprintln!(rt; "lab: {lines} lines in {seconds} s"),
    }
}

impl<R: Clock + Eprint> Pace for Clocked<'_, R> {
    fn told(&mut self, lines: u64) {
        let Some(seconds) = self.seconds() else {
            return;
        };
        if seconds > self.told {
            self.told = seconds;
            let _ = tell(self.rt, lines, self.count, seconds);
        }
    }
}
