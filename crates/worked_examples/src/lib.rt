//! Whole runs over a folder, an outlet and a console in memory: those that files can't show, since a call or an allocation
//! fails, or since no file system holds such files. The other whole runs are the cases in `tests/cases`.
#![tactic(auto)]

#[cfg(test)]
mod assertions;
#[cfg(test)]
mod failing_reads;
#[cfg(test)]
mod hello;
#[cfg(test)]
mod limits;
#[cfg(test)]
mod memory_run;
