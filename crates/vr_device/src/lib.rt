//! Block devices: what a read, a write and a sync do, and what a crash at any moment may leave, as
//! the contract of one trait. It stands on the words of vr_types. It promises that a device in
//! memory meets that contract and reports all its content, and that the layers above may stand on
//! any device by writing through; a device over a host file meets it and reports no content.
#![tactic(auto)]

mod block_file;
mod choice;
mod device;
mod device_calls;
mod device_file;
mod file_device;
mod host_file;
mod image_no;
mod laws;
mod locked_file;
mod memory;
mod new_direct;
mod new_memory;
mod past;
mod write_ahead;
mod write_through;

pub use block_file::BlockFile;
pub use device::BlockDevice;
pub use device_file::DeviceFile;
pub use file_device::FileDevice;
pub use host_file::HostFile;
pub use image_no::ImageNo;
pub use laws::{choices_are_images, devices_can_be_sent};
pub use locked_file::LockedFile;
pub use memory::MemoryDevice;
pub use new_direct::direct;
pub use new_memory::memory_device;
pub use write_ahead::{replace, replace_all};
pub use write_through::Direct;
