//! Whole runs that are written out: that the definitions of `lifecycle_core` and `replay_cli` say of
//! them what they should.
#![tactic(auto)]

mod compacted_pair;
mod cut_run;
mod deleted_upload;
mod expired_block;
mod in_line;
mod landed_fault;
mod late_compaction;
mod late_upload;
mod lost_index;
mod missed_input;
mod one_block;
mod one_block_changed;
mod one_strict;
mod other_reads;
mod other_seat;
mod query_again;
mod second_page;
mod shelf_block;
mod side_by_side;
mod spoiled_meta;
mod stopped_compaction;
mod strangers;
mod two_gateways;
mod two_replicas;
mod young_block;

pub use compacted_pair::{
    compacted_block_holds_both, compacted_block_is_the_cause, marked_block_is_settled,
    pair_is_compacted,
};
pub use cut_run::cut_run_has_one_cut;
pub use deleted_upload::{deleted_upload_is_missed, late_put_is_the_breach};
pub use expired_block::{
    expired_block_is_deleted, expired_block_is_marked, expired_block_is_not_settled,
    late_mark_is_the_breach, late_query_is_the_breach,
};
pub use in_line::{one_block_runs_in_line, side_by_side_is_not_in_line};
pub use landed_fault::{landed_fault_completes, landed_fault_is_already_there};
pub use late_compaction::{late_compaction_is_the_breach, late_compaction_misses_an_input};
pub use late_upload::{late_upload_is_the_breach, late_upload_runs};
pub use lost_index::{
    lost_index_has_no_other_cause, lost_index_is_explained, lost_index_is_the_breach,
    lost_index_runs,
};
pub use missed_input::{missed_input_is_explained, others_are_not_to_blame};
pub use one_block::{
    one_block_breaks_no_rule, one_block_is_answered, one_block_is_guaranteed, one_block_is_honest,
    one_block_is_in_time, one_block_is_reported, one_block_is_shipped, one_block_is_spelled,
    one_block_runs,
};
pub use one_block_changed::{
    absent_meta_is_a_lie, answer_of_nothing_leaves_one_out, answer_without_sample_is_not_exact,
    clock_that_stands_is_refused, index_before_segment_is_refused,
    missing_without_cause_is_refused, put_without_look_is_refused, read_of_absent_block_is_refused,
    report_without_source_is_refused, strange_source_is_refused,
    upload_at_gateways_seat_is_refused,
};
pub use one_strict::{late_mark_is_refused, strict_rules_are_broken};
pub use other_reads::{failed_read_ends_no_query, spoiled_index_is_damaged};
pub use other_seat::{call_at_another_seat_acts, late_read_at_another_seat_is_refused};
pub use query_again::{second_query_reads_two_ranges, symbols_are_read_once};
pub use second_page::second_page_begins_no_sync;
pub use shelf_block::{shelf_block_is_answered, shelf_block_is_refused, shelf_block_is_uploaded};
pub use side_by_side::{
    block_completed_during_the_sync_is_left_out, named_block_was_completed_during_the_sync,
    side_by_side_runs,
};
pub use spoiled_meta::{spoiled_meta_gives_no_view, spoiled_meta_is_the_breach};
pub use stopped_compaction::{stopped_compaction_is_cleaned, stopped_output_is_a_partial};
pub use strangers::{stranger_that_lists_acts, stranger_that_puts_is_refused};
pub use two_gateways::{answer_of_one_gateway_is_refused, two_gateways_answer};
pub use two_replicas::replicas_are_answered_once;
pub use young_block::{
    young_block_is_answered_later, young_block_is_left_out, young_block_is_not_answered,
    young_block_is_not_kept, young_block_is_reported, young_block_is_spelled, young_block_runs,
};
