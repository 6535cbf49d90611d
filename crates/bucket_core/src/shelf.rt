ghost use Rattle.std.specs.Prelude.{◌≡◌, IfSome};
ghost use Rattle.bucket_core.specs.Asking.{AsksOnce};
ghost use Rattle.bucket_core.specs.Causes.{CountsFaults, file_failed};
ghost use Rattle.bucket_core.specs.Files.{IsWithinLimit, ShowsFile};

use crate::ShelfAnswer;

/// Files of blocks under names, which are read whole. Reading changes none of them.
pub trait Shelf {
    ghost use Rattle.bucket_core.specs.Told.{ShelfTold};

    /// What is told of it: what the files hold, the names that were asked, and how often a reading has failed.
    ghost told: { Self → ShelfTold };

    /// The whole file under the name, which is the text of a key.
    fn read(&mut self, name: &str) -> ShelfAnswer
        ensures shown { IfSome (told self.old).files (λ files. ShowsFile (files name.now) result) }

        // What is found is within the limit, whether the files are told or not.
        ensures within { IsWithinLimit result }
        ensures same { (told self.new).files ≡ (told self.old).files }
        ensures asks { AsksOnce (told self.old).asked (told self.new).asked name.now result
            ShelfAnswer.NoMemory }
        ensures faults { CountsFaults (told self.old).faults (told self.new).faults
            (file_failed result) };
}
