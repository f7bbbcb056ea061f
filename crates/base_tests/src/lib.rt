//! Tests of what stored runs can't show: the real folder, outlet and console with their failures, what never fails,
//! expressions of a million tokens, and calls that no run makes yet: reports with verdicts, and what chains of pairs reach.
#![tactic(auto)]

#[cfg(test)]
mod adapters;
#[cfg(test)]
mod bytes;
#[cfg(test)]
mod expressions;
#[cfg(test)]
mod reach;
#[cfg(test)]
mod reports;
