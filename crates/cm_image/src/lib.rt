//! The bytes of a map, both ways, and the files in which they are kept.
#![tactic(auto)]

mod dir;
mod header;
mod image;
mod memory;
mod refused;
mod stored;
mod vault;
mod words;

pub use dir::DirVault;
pub use image::{ImageOfStop, bytes_of, image_of};
pub use memory::MapVault;
pub use refused::ImageRefused;
pub use stored::{ImageStop, ImageWriteStop, read_image, write_image};
pub use vault::Vault;
