//! Tests of desks and clients, from without.
#![tactic(auto)]

#[cfg(test)]
mod asked_again;
#[cfg(test)]
mod calls;
#[cfg(test)]
mod group;
#[cfg(test)]
mod growths;
#[cfg(test)]
mod refreshing;
#[cfg(test)]
mod sets;
#[cfg(test)]
mod waiting;
