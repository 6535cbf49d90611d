//! The check of one block of a shelf.
ghost use Rattle.std.specs.Prelude.{◌≡◌, [], None, IfSome, is_some, option_map};
ghost use Rattle.bucket_core.specs.Causes.{Rose};
ghost use Rattle.call_verdicts.specs.CheckVerdicts.{refused_for, verdict_on};
ghost use Rattle.call_verdicts.specs.Checks.{cause_number, files_held, files_in, files_of, HasFailed};
ghost use Rattle.call_verdicts.specs.Kept.{AsksNoBucket, IsShelfOf};
ghost use Rattle.call_verdicts.specs.Asked.{IsBroken, WasAsked, WasChecked, names_asked};
ghost use Rattle.call_verdicts.specs.Verdicts.{BehindOpening, IfShort, IsChecked, ShelfFailed};
ghost use Rattle.call_verdicts.specs.Words.{named_by};

use crate::Verdict;
use crate::ended::Ended;
use crate::opening::{open_shelf, refusal_verdict};
use block_content::{CheckRefusal, Checked};
use block_keys::Key;
use block_loading::{LoadRefusal, check_on_shelf};
use bucket_core::{Shelf, Site};
use report_lines::CheckOutcome;
use report_lines::script_running::cause_number;
use std::alloc::Global;
use ulid_core::Ulid;

/// Checks a block of the shelf that the word names, as the shipper does. Without a shelf there is no block.
pub fn check_block<S: Site>(
    alloc: Global,
    shelf: &str,
    block: Ulid,
    site: &mut S,
) -> Ended<S::Store, S::Files>
    ensures cause { IsChecked
        (files_of S.Files.told (S.told site.old) (named_by shelf.now) result.shelf) block
        (ShelfFailed (S.told site.old) (S.told site.new) S.Files.told result.shelf)
        result.verdict }
    ensures opened { BehindOpening result.verdict
        (is_some result.shelf ≡ is_some (named_by shelf.now)) }
    ensures bucket { AsksNoBucket (S.told site.old) (S.told site.new) }
    ensures shelf { IsShelfOf S.Files.told (named_by shelf.now) (S.told site.old)
        (S.told site.new) result.shelf }
    ensures short { IfShort result.verdict
        (((S.told site.new).faults ≡ (S.told site.old).faults)
        × IfSome result.shelf (λ files. (S.Files.told files).faults ≡ 0)) }
    ensures asked { IfSome result.shelf (WasChecked S.Files.told
        (files_of S.Files.told (S.told site.old) (named_by shelf.now) result.shelf) block
        (IsBroken result.verdict)) }
    ensures store { result.store ≡ None }
    ensures journal { result.journal ≡ None }
    ensures note { result.note ≡ None }
{
    match open_shelf(site, shelf) {
        Ok(files) => {
            let (verdict, files) = check_opened(alloc, block, files);
            Ended::without_bucket(verdict, files)
        }
        Err(refusal) => Ended::without_bucket(refusal_verdict(refusal), None),
    }
}

/// Checks a block of a shelf that was opened. Without a shelf there is no block.
fn check_opened<F: Shelf>(alloc: Global, block: Ulid, shelf: Option<F>) -> (Verdict, Option<F>)
    ensures cause { IsChecked (files_in F.told shelf) block
        (HasFailed F.told shelf result.1) result.0 }
    ensures short { IfSome shelf (λ files. (F.told files).faults ≡ 0)
        → IfShort result.0 (IfSome result.1 (λ files. (F.told files).faults ≡ 0)) }
    ensures asked { IfSome shelf (WasAsked (names_asked F.told) [])
        → IfSome result.1
        (WasChecked F.told (files_in F.told shelf) block (IsBroken result.0)) }
    ensures same { option_map (files_held F.told) result.1 ≡ option_map (files_held F.told) shelf }
{
    match shelf {
        Some(shelf) => {
            let (verdict, shelf) = check_files(alloc, block, shelf);
            (verdict, Some(shelf))
        }
        None => (absent(block), None),
    }
}

/// What a check comes to where there is no file.
fn absent(block: Ulid) -> Verdict
    ensures { result ≡ refused_for block (cause_number (CheckRefusal.NoFile (Key.Meta block))) }
{
    refused_for(block, &CheckRefusal::NoFile(Key::Meta(block)))
}

/// Checks a block of a shelf.
fn check_files<F: Shelf>(alloc: Global, block: Ulid, shelf: F) -> (Verdict, F)
    ensures cause { IsChecked (F.told shelf).files block
        (Rose (F.told shelf).faults (F.told result.1).faults) result.0 }
    ensures short { IfShort result.0 ((F.told result.1).faults ≡ (F.told shelf).faults) }
    ensures asked { WasAsked (names_asked F.told) [] shelf
        → WasChecked F.told (F.told shelf).files block (IsBroken result.0) result.1 }
    ensures same { (F.told result.1).files ≡ (F.told shelf).files }
{
    let mut shelf = shelf;
    let checked = check_on_shelf(alloc, &mut shelf, block);
    (verdict_on(block, checked), shelf)
}

/// What a check comes to by its end.
fn verdict_on(block: Ulid, checked: Result<Checked, LoadRefusal>) -> Verdict
    ensures { result ≡ verdict_on block checked }
{
    match checked {
        Ok(checked) => {
            let passed = CheckOutcome::Passed(checked.series(), checked.samples());
            drop(checked);
            Verdict::Checked(block, passed)
        }
        Err(LoadRefusal::Refused(refusal)) => refused_for(block, &refusal),
        Err(LoadRefusal::ShelfFault) => Verdict::SiteFault,
        Err(LoadRefusal::NoMemory) => Verdict::NoMemory,
    }
}

/// What a check comes to that ended with a refusal.
fn refused_for(block: Ulid, refusal: &CheckRefusal) -> Verdict
    ensures { result ≡ refused_for block (cause_number refusal.now) }
{
    match cause_number(refusal) {
        Some(number) => Verdict::Checked(block, CheckOutcome::Refused(number)),
        None => Verdict::NoMemory,
    }
}
