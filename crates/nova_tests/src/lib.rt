//! Tests of the whole program where a source or a host fails. The other tests of it are cases of
//! `nova_cases`.
#![tactic(auto)]

#[cfg(test)]
mod faults;
#[cfg(test)]
mod run;
