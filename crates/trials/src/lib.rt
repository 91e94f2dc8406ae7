// Examples of the public calls, as tests.
#![tactic(auto)]

#[cfg(test)]
mod common;
#[cfg(test)]
mod history_trials;
#[cfg(test)]
mod load_trials;
pub mod matrices;
#[cfg(test)]
mod model_trials;
#[cfg(test)]
mod plan_trials;
#[cfg(test)]
mod ruling_trials;
