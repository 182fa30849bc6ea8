//! Tests of what a server's sessions and workers share: that each call can succeed, and what no clause says of threads.
//!
//! It has no function of its own, and stands over libraries that are proved once (as `library_tests` does over the lowest ones). Each test ends whatever the schedule, and says the same.
#![tactic(auto)]

#[cfg(test)]
mod exchanges;
#[cfg(test)]
mod jobs;
#[cfg(test)]
mod meters;
#[cfg(test)]
mod places;
#[cfg(test)]
mod shops;
