//! What no script reaches of files: texts of errors, filters that are called, options, writers that fail, and allocations that are refused
//! in calls that no command makes; and each form of a call that no script asks for, run once with memory and once with each of its
//! allocations refused, since a proof can't exclude that a body always reports that memory ran out. What is below is in `gitconf_tests`.
#![tactic(auto)]

#[cfg(test)]
mod calls;
#[cfg(test)]
mod dropped;
#[cfg(test)]
mod editors;
#[cfg(test)]
mod files;
#[cfg(test)]
mod loads;
#[cfg(test)]
mod look_ups;
#[cfg(test)]
mod messages;
#[cfg(test)]
mod names;
#[cfg(test)]
mod options;
#[cfg(test)]
mod patterns;
#[cfg(test)]
mod refused;
#[cfg(test)]
mod reseeding;
#[cfg(test)]
mod section_editors;
#[cfg(test)]
mod sections;
#[cfg(test)]
mod sections_alone;
#[cfg(test)]
mod several_values;
#[cfg(test)]
mod typed;
#[cfg(test)]
mod without_memory;
#[cfg(test)]
mod writers;
