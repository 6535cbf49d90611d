ghost use Rattle.std.specs.Prelude.{◌≡◌, ◌<◌, None, IfSome};
ghost use Rattle.call_verdicts.specs.Statuses.{number_of};

use crate::Status;

impl Status {
    /// The exit status of the program.
    pub fn number(self) -> u8
        ensures { result ≡ number_of self }
    {
        match self {
            Status::Done => 0,
            Status::WordsRefused => 1,
            Status::ScriptRefused => 2,
            Status::SourceFault => 3,
            Status::SinkFault => 4,
            Status::ActivityFailed => 5,
            Status::NoMemory => 6,
            Status::BucketNotEmpty => 7,
            Status::JournalFull => 8,
            Status::SiteFault => 9,
        }
    }

    /// The status of an exit status, where there is one.
    pub fn from_number(number: u8) -> Option<Status>
        ensures found { IfSome result (λ status. number_of status ≡ number) }
        ensures none { result ≡ None → 9 < number }
    {
        match number {
            0 => Some(Status::Done),
            1 => Some(Status::WordsRefused),
            2 => Some(Status::ScriptRefused),
            3 => Some(Status::SourceFault),
            4 => Some(Status::SinkFault),
            5 => Some(Status::ActivityFailed),
            6 => Some(Status::NoMemory),
            7 => Some(Status::BucketNotEmpty),
            8 => Some(Status::JournalFull),
            9 => Some(Status::SiteFault),
            _ => None,
        }
    }
}
