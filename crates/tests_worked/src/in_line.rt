ghost use Rattle.lifecycle_core.specs.InLine.{IsInLine};
ghost use Rattle.tests_worked.specs.OneBlock as one;
ghost use Rattle.tests_worked.specs.SideBySide as side;

/// A law: the run of the script of one block does its tasks in the order of their lines.
pub fn one_block_runs_in_line()
    ensures { IsInLine one.setting one.journal }
{}

/// A law: the run of workers beside each other does not: an upload begins before the sync whose line is the first.
pub fn side_by_side_is_not_in_line()
    ensures { ¬ IsInLine side.setting side.journal }
{}
