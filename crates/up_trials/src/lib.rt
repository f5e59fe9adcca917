//! Trials: made graphs, and tests that cross crates, so that lower crates aren't proved twice for them.
#![tactic(auto)]

#[cfg(test)]
mod attr_tests;
#[cfg(test)]
mod before_faults;
#[cfg(test)]
mod branch_tests;
#[cfg(test)]
mod closing_tests;
#[cfg(test)]
mod damaged_tests;
#[cfg(test)]
mod frame_tests;
#[cfg(test)]
mod frame_trials;
#[cfg(test)]
mod graph_runs;
#[cfg(test)]
mod graph_tests;
#[cfg(test)]
mod grove_runs;
#[cfg(test)]
mod grove_tests;
#[cfg(test)]
mod lane_flags;
#[cfg(test)]
mod lane_tests;
#[cfg(test)]
mod left;
#[cfg(test)]
mod lent_packet;
#[cfg(test)]
mod limit_tests;
#[cfg(test)]
mod listing_depot;
#[cfg(test)]
mod made_frames;
#[cfg(test)]
mod made_groves;
#[cfg(test)]
mod made_trees;
#[cfg(test)]
mod made_trees_tests;
#[cfg(test)]
mod memory_tests;
#[cfg(test)]
mod outcome_tests;
#[cfg(test)]
mod plain_copies;
#[cfg(test)]
mod room_tests;
#[cfg(test)]
mod row;
#[cfg(test)]
mod run;
#[cfg(test)]
mod same;
#[cfg(test)]
mod sent;
#[cfg(test)]
mod short_frame_tests;
#[cfg(test)]
mod short_graph_tests;
#[cfg(test)]
mod short_tests;
#[cfg(test)]
mod slow_strands;
#[cfg(test)]
mod split;
#[cfg(test)]
mod strand_tests;
#[cfg(test)]
mod widest_tests;
