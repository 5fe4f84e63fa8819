//! Runs of scripts on threads, whose reports a plain program judges. The crate has tests alone.
#![tactic(auto)]

#[cfg(test)]
mod draws;
#[cfg(test)]
mod histories;
#[cfg(test)]
mod orders;
#[cfg(test)]
mod replay;
#[cfg(test)]
mod tests_judged;
