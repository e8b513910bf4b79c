//! Records on the medium: what is wanted at a place of the tree, and whether what stands there fits.
//!
//! A device's tree begins at the node that its root record names. A node's entries name the places below
//! it, each by address, key and lower bound, down to the data records. Each page is read as it is needed,
//! unsealed under the key that led to it, and refused where it is not the record that was wanted there.
#![tactic(auto)]

mod appending;
mod blocks;
mod buffers;
mod change_laws;
mod floor_laws;
mod key_laws;
mod laws;
mod nodes;
mod refusals;
mod roots;
mod wants;

pub use appending::Placed;
pub use blocks::fetch_block;
pub use buffers::Buffers;
pub use change_laws::same_page_or_collides;
pub use floor_laws::{head_of_root, keeps_deleted, never_reached, reaches_still};
pub use key_laws::{keeps_keys, moments_reach, reaches_tree, tree_is_closed};
pub use laws::{
    leaf_of_stands, no_wrong_place, one_device, one_tree, outlasts_loss_of_power, stands_by_leaf,
    stays_while_the_cell_stays,
};
pub use nodes::fetch_node;
pub use refusals::{AppendFault, CurrentRefusal, FetchRefusal};
pub use roots::current;
pub use wants::Want;
