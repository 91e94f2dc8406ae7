// Small case files with their outcomes, as tests.
#![tactic(auto)]

#[cfg(test)]
mod fault_trials;
#[cfg(test)]
mod files;
#[cfg(test)]
mod order_trials;
#[cfg(test)]
mod table_trials;
#[cfg(test)]
mod text_trials;
