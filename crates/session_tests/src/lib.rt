//! Tests of devices and sessions, of two runs with a loss of power between them, and of the talk with a client of NBD of which no
//! row can be made.
#![tactic(auto)]

#[cfg(test)]
mod client_limits;
#[cfg(test)]
mod fixture;
#[cfg(test)]
mod made_devices;
#[cfg(test)]
mod maker;
#[cfg(test)]
mod run_twice;
#[cfg(test)]
mod sessions;
#[cfg(test)]
mod volumes_twice;
