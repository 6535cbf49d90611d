ghost use Rattle.std.specs.Prelude.{◌≡◌, ℕ, List, Some};
ghost use Rattle.world_core.specs.declared.entry.Entry.{Entry};
ghost use Rattle.lifecycle_core.specs.Acting.{IsActing};
ghost use Rattle.lifecycle_core.specs.Breaches.{Refuses, RefusesUnder, view_time, watched_call};
ghost use Rattle.lifecycle_core.specs.Phases.{IsLawfulJournal};
ghost use Rattle.lifecycle_core.specs.SyncsAndCalls.{IsCallIn, IsViewOf};
ghost use Rattle.lifecycle_core.specs.Tasks.{sync_rules};
ghost use Rattle.tests_worked.specs.OneBlock.{setting, sync, used};
ghost use Rattle.tests_worked.specs.OneStrict.{idle};
ghost use Rattle.tests_worked.specs.OtherSeat.{answer, first_read, journal, query, question};

/// A law: where somebody asks the query at a seat that the script gives to nobody, the journal is acting, and not lawful. The
/// reads are a call all the same, over the view of the gateway's sync.
pub fn call_at_another_seat_acts()
    ensures acting { IsActing setting journal }
    ensures unlawful { ¬ IsLawfulJournal setting journal }
    ensures view { IsViewOf (sync_rules setting 0) journal used sync }
    ensures call { IsCallIn journal used question query (Some answer) }
{}

/// A law: where marks are ignored for as long as objects stand after their mark, that call's first read comes too late. Who
/// watches the script's own gateways alone does not see it.
pub fn late_read_at_another_seat_is_refused()
    ensures watched { (before : List Entry)
        → RefusesUnder idle (watched_call used sync query) view_time before first_read
        174_600_004 174_600_001 }
    ensures unwatched { (before : List Entry) (x y : ℕ)
        → ¬ Refuses idle journal view_time before first_read x y }
{}
