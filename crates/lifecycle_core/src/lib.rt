//! Definitions over whole journals of a script, and their laws: runs, complete uploads, views, what an answer is worth, and why an
//! object may be missing.
#![tactic(auto)]

mod activity_laws;
mod block_histories;
mod laws;
mod view_laws;
mod working;

pub use activity_laws::{
    cleanings_ask_so, compactions_ask_so, marks_are_read_again, merges_hold_what_was_held,
    syncs_see_so,
};
pub use block_histories::{
    compactions_miss_nothing_without_cause, complete_blocks_hold_their_sources,
    files_stand_while_the_meta_stands, first_marks_stand_until_the_meta_goes, keys_have_one_text,
    marks_have_their_cause, nothing_is_put_after_a_decision, sources_lie_within,
};
pub use laws::{
    calls_are_worth_it, calls_miss_nothing_while_nothing_deletes, conducts_are_acting,
    ends_are_calls, ends_are_one, entries_tell_the_end, fronts_are_lawful,
    honest_buckets_miss_nothing, honest_journals_tell_no_lie, journals_begin_with_the_first_phase,
    journals_have_one_breach, lawful_journals_are_acting, misses_are_explained, no_entry_is_lawful,
    reads_of_kept_blocks_are_explained, replies_lie_where_they_do_not_tell, runs_are_guaranteed,
    runs_in_line_are_lawful, settled_uploads_are_named, unbroken_journals_are_honest,
    unbroken_journals_are_in_time, unbroken_journals_have_no_breach,
    unbroken_journals_miss_nothing, unbroken_runs_end_well, unbroken_runs_leave_none_out,
};
pub use view_laws::{nothing_is_damaged, views_are_worth_it};
pub use working::Working;
