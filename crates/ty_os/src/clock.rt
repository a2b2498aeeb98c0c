// The system's clock.
ghost use Rattle.std.specs.Prelude.{⊤};

use std::rt;
use std::time::Instant;
use ty_base::Clock;

/// Milliseconds since it was made, or 0 where the system's clock fails. Make it where the program
/// starts. It tells nothing: it may give any moment.
#[derive(Drop)]
pub struct OsClock<R> {
    rt: R,
    start: Option<Instant>,
}

impl<R: rt::Clock> OsClock<R> {
    /// A clock that begins now. Where the system's clock fails, it stands at 0 ever after.
    pub fn new(rt: R) -> OsClock<R> {
        let start = Instant::now(&rt).ok();
        OsClock { rt, start }
    }
}

impl<R: rt::Clock> Clock for OsClock<R> {
    ghost gives = { λ _ _. ⊤ };

    fn now(&self) -> u64 {
        let Some(start) = self.start else {
            return 0;
        };
        match start.elapsed(&self.rt) {
            Ok(passed) => u64::try_from(passed.as_millis()).unwrap_or(u64::MAX),
            Err(_) => 0,
        }
    }
}
