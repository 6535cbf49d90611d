//! A law of the bound on lists.
ghost use Rattle.std.specs.Prelude.{ℕ, List, map};
ghost use Rattle.std.specs.List.{Contains};
ghost use Rattle.index_parts.specs.declared.index_series.IndexSeries.{IndexSeries};
ghost use Rattle.index_parts.specs.declared.postings_row.PostingsRow.{PostingsRow};
ghost use Rattle.index_parts.specs.Opened.{Opened};
ghost use Rattle.index_parts.specs.IndexFile.{IsOpened, AreSeriesOf, IsFullListOf, AreFewLists};

/// Lists that have no bytes left over behind their numbers are few, wherever the sections stand. So no index is refused for
/// how long such lists are.
pub fn full_lists_are_few()
    ensures { (opened : Opened) (listed : List (ℕ × IndexSeries)) → IsOpened opened
        → AreSeriesOf opened listed
        → ((row : PostingsRow) → Contains opened.rows row
        → IsFullListOf opened.bytes listed row)
        → AreFewLists opened (map (λ one. one.1) listed) }
{}
