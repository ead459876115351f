//! The objects of iommufd: for each open file a table of objects, each under an id of that file.
//!
//! Ids are unique in a file and say nothing in another file, as `Documentation/userspace-api/iommufd.rst`
//! has it: each open of the iommu device has its own ids. Contracts see the whole table as a list of rows
//! (file, id, users, value) by rising file and then rising id. The kind of an object is what its value tells (`Typed`).
#![tactic(auto)]

mod close;
mod error;
mod file_objects;
mod insert;
mod iter;
mod kind;
mod table;
mod users;

pub use error::InsertError;
pub use iter::{ObjectRef, Objects};
pub use kind::{Kind, Typed};
pub use table::ObjectTable;
