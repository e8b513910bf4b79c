//! Trees that are partly in memory, over pages: what they map, and how the way of an update is brought into memory.
#![tactic(auto)]

mod counting;
mod finding;
mod groves;
mod helping;
mod holding;
mod lacking;
mod laws;
mod opening;
mod reading;
mod refusals;
mod siblings;

pub use groves::Grove;
pub use laws::{
    grove_maps_all, grove_maps_ascend, grove_maps_many, opened_maps, put_maps, read_maps,
    sealed_is, take_maps,
};
pub use opening::open_way;
pub use refusals::ReadyRefusal;
