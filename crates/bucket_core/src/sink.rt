ghost use Rattle.std.specs.Prelude.{◌≡◌, ◌≤◌, ◌++◌, length, take, option_map};
ghost use Rattle.bucket_core.specs.Causes.{CountsFaults, write_failed};
ghost use Rattle.bucket_core.specs.Streams.{count_taken, TakesSome};

use crate::WriteAnswer;

/// Where bytes are written one after another.
pub trait Sink {
    ghost use Rattle.bucket_core.specs.Told.{SinkTold};

    /// What is told of it: the bytes that were written, and how often it has failed.
    ghost told: { Self → SinkTold };

    /// Takes bytes from the front of the piece. A failed write takes none.
    fn write(&mut self, bytes: &[u8]) -> WriteAnswer
        ensures fits { count_taken result ≤ length bytes.now }
        ensures some { TakesSome result bytes.now }
        ensures added { (told self.new).written
            ≡ option_map (λ before. before ++ take (count_taken result) bytes.now)
            (told self.old).written }
        ensures faults { CountsFaults (told self.old).faults (told self.new).faults
            (write_failed result) };
}
