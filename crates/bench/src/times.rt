//! Times of work, by the processor's time that it takes.
use crate::failure::Failure;
use std::alloc::{AllocError, Global};
use std::rt::CpuClock;
use std::time::Duration;

/// How many words of 64 bits make a megabyte.
const MEGABYTE: usize = 1 << 17;

/// A clock, and memory to go through before each work that is timed, so that the work finds a cold cache. With no such
/// memory it finds in the cache what the work before left there.
#[derive(Debug, Drop)]
pub struct Stopwatch<'r, R> {
    clock: &'r R,
    words: Vec<u64>,
}

impl<'r, R: CpuClock> Stopwatch<'r, R> {
    /// A stopwatch that goes through so many megabytes.
    ///
    /// # Errors
    ///
    /// Out of memory.
    pub fn new(
        alloc: Global,
        clock: &'r R,
        megabytes: usize,
    ) -> Result<Stopwatch<'r, R>, AllocError> {
        let words = vec![in alloc; 0u64; megabytes.saturating_mul(MEGABYTE)]?;
        Ok(Stopwatch { clock, words })
    }

    fn go_through_memory(&mut self) {
        for word in self.words.iter_mut() {
            *word = word.wrapping_add(1);
        }
    }

    /// How long some work takes. Dropping its result isn't timed.
    ///
    /// # Errors
    ///
    /// The work failed, or the clock did.
    pub fn time_of<T: Drop, F: FnOnce() -> Result<T, Failure>>(
        &mut self,
        work: F,
    ) -> Result<Duration, Failure>
        requires { F.IsAlwaysCallable work }
    {
        self.go_through_memory();
        let start = self.clock.process_cpu_time()?;
        let made = work()?;
        let end = self.clock.process_cpu_time();
        drop(made);
        Ok(end?.saturating_sub(start))
    }
}

/// The median of so many times in nanoseconds, or `None` for no times.
///
/// # Errors
///
/// Taking a time failed, or out of memory.
pub fn median_of<F: FnMut() -> Result<Duration, Failure>>(
    alloc: Global,
    times: usize,
    mut take: F,
) -> Result<Option<u128>, Failure>
    requires { F.IsAlwaysCallable take }
{
    let mut taken = Vec::new(alloc);
    for _ in 0..times {
        taken.push(take()?)?;
    }
    taken.sort_unstable();
    let middle = taken.len() / 2;
    Ok(taken.get(middle).map(|time| time.as_nanos()))
}
