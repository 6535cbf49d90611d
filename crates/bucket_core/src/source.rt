ghost use Rattle.std.specs.Prelude.{◌≡◌, ◌<◌, ◌≤◌, ◌++◌, length, take, option_map};
ghost use Rattle.bucket_core.specs.Causes.{CountsFaults, read_failed};
ghost use Rattle.bucket_core.specs.Streams.{count_got, EndsWhereNone};

use crate::ReadAnswer;

/// Bytes that are read from the front on.
pub trait Source {
    ghost use Rattle.bucket_core.specs.Told.{SourceTold};

    /// What is told of it: the bytes that are left, and how often it has failed.
    ghost told: { Self → SourceTold };

    /// Puts some of the next bytes at the front of the buffer. A failed read takes none.
    fn read(&mut self, into: &mut [u8]) -> ReadAnswer
        requires { 0 < length into.old }
        ensures fits { count_got result ≤ length into.new }
        ensures taken { (told self.old).left
            ≡ option_map (λ rest. take (count_got result) into.new ++ rest) (told self.new).left }
        ensures end { EndsWhereNone result (told self.old).left }
        ensures faults { CountsFaults (told self.old).faults (told self.new).faults
            (read_failed result) };
}
