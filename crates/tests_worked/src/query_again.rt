ghost use Rattle.std.specs.Prelude.{List, ◌++◌};
ghost use Rattle.world_core.specs.Standing.{IsHonest};
ghost use Rattle.world_core.specs.declared.entry.Entry.{Entry};
ghost use Rattle.lifecycle_core.specs.Phases.{IsFinished, IsLawfulJournal, IsRunOf};
ghost use Rattle.tests_worked.specs.QueryAgain.{asked_twice, ends, journal, setting};

/// A law: where a gateway answers a query for the second time, it reads the table of contents and the chunk alone: all else that it
/// needs of the index it has kept from the first time.
pub fn second_query_reads_two_ranges()
    ensures run { IsRunOf setting journal ends }
    ensures finished { IsFinished setting ends }
    ensures honest { IsHonest journal }
{}

/// A law: no lawful journal has a second query that reads the symbols again, whatever follows.
pub fn symbols_are_read_once()
    ensures { (rest : List Entry) → ¬ IsLawfulJournal setting (asked_twice ++ rest) }
{}
