//! Tests of the configuration, the words, the commands and whole sites in memory, beside what
//! their contracts prove: worked examples with every byte that is printed and told, faults of
//! each kind, a `count` and a `watch` stopped after each call of the station and with each read
//! failing, each length of a recording, stores whose bytes were changed, and rounds that run beside
//! the puts.
//! There is no code but the tests.
#![tactic(auto)]

#[cfg(test)]
mod audit_runs;
#[cfg(test)]
mod bodies;
#[cfg(test)]
mod changes;
#[cfg(test)]
mod column_runs;
#[cfg(test)]
mod columns;
#[cfg(test)]
mod compact_runs;
#[cfg(test)]
mod configuration_readings;
#[cfg(test)]
mod configurations;
#[cfg(test)]
mod count_runs;
#[cfg(test)]
mod demo_runs;
#[cfg(test)]
mod examples;
#[cfg(test)]
mod fault_lines;
#[cfg(test)]
mod faults;
#[cfg(test)]
mod growing;
#[cfg(test)]
mod held_example;
#[cfg(test)]
mod held_lines;
#[cfg(test)]
mod init_runs;
#[cfg(test)]
mod lengths;
#[cfg(test)]
mod line_rooms;
#[cfg(test)]
mod made;
#[cfg(test)]
mod monitor_runs;
#[cfg(test)]
mod reads;
#[cfg(test)]
mod repeat_runs;
#[cfg(test)]
mod report_rooms;
#[cfg(test)]
mod report_runs;
#[cfg(test)]
mod seen_lines;
#[cfg(test)]
mod sheet_runs;
#[cfg(test)]
mod sheets;
#[cfg(test)]
mod sites;
#[cfg(test)]
mod stops;
#[cfg(test)]
mod usual;
#[cfg(test)]
mod watch_runs;
#[cfg(test)]
mod window_runs;
#[cfg(test)]
mod words;
