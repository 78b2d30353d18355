//! Definitions of the effects of inputs on a machine, and laws about these effects.
#![tactic(auto)]

mod laws;
mod marks;

pub use laws::{
    counts_keep_machine, levels_have_no_effect, marks_precede_condition,
    no_limits_allow_all_levels, port_choices_cover_reads, pulled_lines_can_be_pulled,
    reads_decide_cycle, same_read_gives_same_run, stopwatch_ends_within_limit,
};
pub use marks::Mark;
