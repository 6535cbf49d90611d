/// How a call of the program ended. Its number is the program's exit status.
#[derive(Clone, Copy, Debug, PartialEq, Eq)]
pub enum Status {
    /// Every activity ended as asked.
    Done,
    /// The words are no form of a call.
    WordsRefused,
    /// The script is no script, or too long.
    ScriptRefused,
    /// The script could not be read.
    SourceFault,
    /// The output could not be written.
    SinkFault,
    /// Some activity ended otherwise than as asked; the report says which.
    ActivityFailed,
    /// Memory was wanted and there was none.
    NoMemory,
    /// The bucket held an object before the run.
    BucketNotEmpty,
    /// The journal has no room for another entry.
    JournalFull,
    /// The bucket or the shelf could not be opened, the bucket not listed, or a file of the shelf not read.
    SiteFault,
}
