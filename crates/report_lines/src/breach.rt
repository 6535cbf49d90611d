//! The last line of a report.

ghost use Rattle.std.specs.Prelude.{◌≡◌, ◌++◌, Option, OnOk};
ghost use Rattle.world_core.specs.Worlds.{IsJournal, IsOfBytes};
ghost use Rattle.script_core.specs.Lawful.{IsLawfulScript};
ghost use Rattle.breach_finding.specs.declared.found.Breach.{Breach};
ghost use Rattle.report_lines.specs.BreachLines.{HasBreach, breach_text};

use crate::report::put_breach;
use base::NoMemory;
use breach_finding::breach;
use script_core::Script;
use std::alloc::Global;
use world_core::Entry;

/// Appends the line of the journal's breach, where it has one.
pub fn put_breach_of(
    alloc: Global,
    script: &Script,
    journal: &[Entry],
    out: &mut Vec<u8>,
) -> Result<(), NoMemory>
    requires lawful { IsLawfulScript script.now }
    requires kept { IsJournal script.now.rules.tick.ms journal.now }
    requires bytes { IsOfBytes journal.now }
    ensures { OnOk result ((breach : Option Breach) × HasBreach script.now journal.now breach
        × (out.new.items ≡ out.old.items ++ breach_text breach)) }
{
    let breach = breach(alloc, journal, script)?;
    put_breach(out, breach)
}
