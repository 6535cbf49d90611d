//! Where the words of a call become a bucket and a shelf. It counts what it hands out, so that a contract can say that
//! a call opened each at most once, and none that no word names.

ghost use Rattle.std.specs.Prelude.{◌≡◌, ◌+◌, is_ok, IfOk, if◌then◌else◌};
ghost use Rattle.bucket_core.specs.Causes.{CountsFaults, opening_failed};
ghost use Rattle.bucket_core.specs.Openings.{IsBucketAsTold, IsShelfAsTold};

use crate::{Bucket, Shelf, SiteRefusal};

/// Where buckets and shelves are opened by name. What it tells of an opening, by its order and its name, stays as it is.
pub trait Site {
    type Store: Bucket;

    type Files: Shelf;

    ghost use Rattle.bucket_core.specs.Told.{SiteTold, next_bucket, next_shelf};

    /// What is told of it: how many buckets and shelves it has handed out, what those hold that it hands out, and how often
    /// an opening has failed.
    ghost told: { Self → SiteTold };

    /// Hands out a bucket that has not failed yet and was asked for nothing.
    fn open_bucket(&mut self, name: &str) -> Result<Self::Store, SiteRefusal>
        ensures opened { IfOk result (λ store.
            IsBucketAsTold (next_bucket (told self.old) name.now) (Self.Store.told store)) }
        ensures counted { (told self.new).buckets ≡ (if is_ok result
            then (told self.old).buckets + 1 else (told self.old).buckets) }
        ensures stays { (told self.new).bucket_at ≡ (told self.old).bucket_at }
        ensures shelves { (told self.new).shelves ≡ (told self.old).shelves }
        ensures files { (told self.new).shelf_at ≡ (told self.old).shelf_at }
        ensures faults { CountsFaults (told self.old).faults (told self.new).faults
            (opening_failed result) };

    /// Hands out a shelf that has not failed yet and was asked for nothing.
    fn open_shelf(&mut self, name: &str) -> Result<Self::Files, SiteRefusal>
        ensures opened { IfOk result (λ shelf.
            IsShelfAsTold (next_shelf (told self.old) name.now) (Self.Files.told shelf)) }
        ensures counted { (told self.new).shelves ≡ (if is_ok result
            then (told self.old).shelves + 1 else (told self.old).shelves) }
        ensures stays { (told self.new).shelf_at ≡ (told self.old).shelf_at }
        ensures buckets { (told self.new).buckets ≡ (told self.old).buckets }
        ensures contents { (told self.new).bucket_at ≡ (told self.old).bucket_at }
        ensures faults { CountsFaults (told self.old).faults (told self.new).faults
            (opening_failed result) };
}
