//! Tests of the command over an outside in memory: where streams fail, texts are long, runs are measured, journals are audited or followed; and of `serve`, with its gate and its clock, a journal in files, audits before it, and two workers beside one another.
#![tactic(auto)]

#[cfg(test)]
mod audited_first;
#[cfg(test)]
mod audits;
#[cfg(test)]
mod endings;
#[cfg(test)]
mod followers;
#[cfg(test)]
mod full;
#[cfg(test)]
mod gates_and_clocks;
#[cfg(test)]
mod kept_in_files;
#[cfg(test)]
mod loading;
#[cfg(test)]
mod outside;
#[cfg(test)]
mod servings;
#[cfg(test)]
mod setups;
#[cfg(test)]
mod streets;
#[cfg(test)]
mod texts;
#[cfg(test)]
mod transcripts;
#[cfg(test)]
mod two_workers;
#[cfg(test)]
mod without_memory;
