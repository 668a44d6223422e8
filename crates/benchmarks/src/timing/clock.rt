//! The processor time, and the print of times.

use crate::timing::Times;
use crate::work::Work;
use std::io;
use std::rt::CpuClock;
use std::time::Duration;

impl Times {
    /// Adds the processor time since `start`.
    pub(crate) fn add_since(&mut self, rt: &impl CpuClock, start: Duration) -> io::Result<()> {
        let now = rt.thread_cpu_time()?;
        self.add(now.saturating_sub(start))?;
        Ok(())
    }

    /// Prints the best and the median of the times, after the name of what was timed and the number
    /// of calls of each time. Prints nothing if there are no times or the work asks for none.
    pub(crate) fn print(
        self,
        rt: &impl Print,
        work: Work<'_>,
        name: &str,
        calls: u128,
    ) -> io::Result<()> {
        if work.prints_times
            && let (Some(best), Some(median)) = (self.best(), self.into_median())
        {
            println!(rt; "{name} calls {calls} best {best} median {median}")?;
        }
        Ok(())
    }

    /// Prints the best and the median of the times in microseconds, if there are any, after the
    /// name of what was timed.
    pub(crate) fn print_microseconds(self, rt: &impl Print, name: &str) -> io::Result<()> {
        if let (Some(best), Some(median)) = (self.best(), self.into_median()) {
            println!(rt; "{name} best {} median {}", best / 1000, median / 1000)?;
        }
        Ok(())
    }
}
