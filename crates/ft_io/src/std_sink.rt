ghost use Rattle.std.specs.Prelude.{◌≡◌, ◌+◌, ◌^◌, ◌<◌, ◌≤◌, length, IfOk};
ghost use Rattle.ft_io.specs.Faults.{CountsFault, faults_after};

use crate::{Failed, Sink};
use std::marker::Model;

/// Standard output. Each write hands its bytes on at once, as many as the system takes. What was written isn't known.
#[derive(Drop)]
pub struct StdSink<R: Print> {
    rt: R,
    faults: u64,
}

impl<R: Print> Model for StdSink<R> {
    ghost use Rattle.std.specs.Prelude.{ℕ};

    ghost Value = { ℕ };

    ghost view = { λ sink. sink.faults };
}

impl<R: Print> StdSink<R> {
    /// A sink to the standard output that the runtime reaches, without a fault so far.
    pub fn new(rt: R) -> StdSink<R>
        ensures { result ≡ 0 }
    {
        StdSink { rt, faults: 0 }
    }
}

impl<R: Print> Sink for StdSink<R> {
    ghost use Rattle.std.specs.Prelude.{None};

    ghost written = { λ _. None };

    ghost faults = { λ sink. sink };

    fn write(&mut self, from: &[u8]) -> Result<usize, Failed>
        requires some { 0 < length from.now }
        requires countable { self.old + 1 < 2 ^ 64 }
        ensures progress { IfOk result (λ count. 1 ≤ count) }
        ensures within { IfOk result (λ count. count ≤ length from.now) }
        ensures faults { self.new ≡ faults_after self.old result }
    {
        match self.rt.write_some(from) {
            Ok(count) if count > 0 => Ok(count),
            _ => {
                self.faults += 1;
                Err(Failed)
            }
        }
    }
}
