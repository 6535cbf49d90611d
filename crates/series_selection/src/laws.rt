//! Laws of what is read of an index of a list of series.
ghost use Rattle.std.specs.Prelude.{◌≡◌, ◌≤◌, ℕ, List, Ok, length};
ghost use Rattle.label_sets.specs.declared.label.Label.{Label};
ghost use Rattle.matchers.specs.declared.matcher.Matcher.{Matcher};
ghost use Rattle.index_parts.specs.Parts.{file};
ghost use Rattle.index_parts.specs.IndexFile.{IsIndex};
ghost use Rattle.index_parts.specs.declared.index_series.IndexSeries.{IndexSeries};
ghost use Rattle.series_selection.specs.Selections.{deciding};
ghost use Rattle.series_selection.specs.SelectionSteps.{numbers_at};

/// In an index of a list of series the lists that are read for one matcher share no number: together they have no more than all
/// series.
pub fn lists_share_no_number()
    ensures { (bytes : List ℕ) (list : List IndexSeries) (is : IsIndex bytes list)
        → (external : List Label) (matcher : Matcher) (numbers : List ℕ)
        → numbers_at (file is.opened.bytes) (deciding external is.opened.rows matcher) ≡ Ok numbers
        → length numbers ≤ length is.listed }
{}
