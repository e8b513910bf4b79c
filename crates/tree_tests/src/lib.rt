//! Tests of trees of many levels: look-ups, and updates beside an ordered map.
#![tactic(auto)]

#[cfg(test)]
mod acts;
#[cfg(test)]
mod device;
#[cfg(test)]
mod fixture;
#[cfg(test)]
mod look_ups;
#[cfg(test)]
mod pages;
#[cfg(test)]
mod pair;
#[cfg(test)]
mod script;
#[cfg(test)]
mod shape;
#[cfg(test)]
mod updates;
#[cfg(test)]
mod walker;
