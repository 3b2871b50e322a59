//! The loop that makes one call with each of many keys, and the line with its time.

use std::time::Instant;

/// A call that reads.
pub trait Reads<T, K> {
    /// Makes the call with a key. Returns what the call adds to the sum of a line, or `None` if it
    /// failed.
    fn call(&self, subject: &T, key: &K) -> Option<u64>;
}

/// A call that changes its subject.
pub trait Changes<T, K> {
    /// Makes the call with a key. Returns what the call adds to the sum of a line, or `None` if it
    /// failed.
    fn call(&self, subject: &mut T, key: &K) -> Option<u64>;
}

/// The output for the times of one kind of tree.
#[derive(Clone, Copy)]
pub struct Report<'a> {
    pub rt: &'a HostRuntime,
    pub kind: &'a str,
}

/// The start time of calls of one name.
#[derive(Clone, Copy)]
pub struct Clock<'a> {
    report: Report<'a>,
    call: &'a str,
    start: Option<Instant>,
}

impl<'a> Report<'a> {
    /// Records the time before the calls.
    pub fn start(self, call: &'a str) -> Clock<'a> {
        Clock {
            report: self,
            call,
            start: Instant::now(self.rt).ok(),
        }
    }
}

impl Clock<'_> {
    /// Prints the line of this number of calls, which end now, with the sum of their results.
    pub fn stop(self, calls: usize, sum: u64) {
        let Some(start) = self.start else {
            return;
        };
        if let Ok(spent) = start.elapsed(self.report.rt) {
            let each = spent.as_nanos() * 100 / (calls as u128 + 1);
            let (kind, call) = (self.report.kind, self.call);
            let _ = println!(self.report.rt; "{calls} {kind} {call} {each} {sum}");
        }
    }
}

/// Makes a call with each key. Returns whether no call failed.
pub fn read_each<T, K, C: Reads<T, K>>(
    report: Report<'_>,
    name: &str,
    call: &C,
    subject: &T,
    keys: &[K],
) -> bool {
    let clock = report.start(name);
    let mut sum = 0u64;
    for key in keys {
        match call.call(subject, key) {
            Some(number) => sum = sum.wrapping_add(number),
            None => return false,
        }
    }
    clock.stop(keys.len(), sum);
    true
}

/// Makes a change with each key. Returns whether no call failed.
pub fn change_each<T, K, C: Changes<T, K>>(
    report: Report<'_>,
    name: &str,
    call: &C,
    subject: &mut T,
    keys: &[K],
) -> bool {
    let clock = report.start(name);
    let mut sum = 0u64;
    for key in keys {
        match call.call(subject, key) {
            Some(number) => sum = sum.wrapping_add(number),
            None => return false,
        }
    }
    clock.stop(keys.len(), sum);
    true
}
