//! The words of the iommufd server: the values that every other crate names, and, in `specs/`, the
//! definitions that every contract speaks of.
#![tactic(auto)]

mod burst;
mod call_error;
mod config;
mod device_set;
mod event;
mod fault;
mod flags;
mod lists;
mod numbers;
mod query;
mod range;
mod record;
mod refusal;
mod reply;
mod rows;
mod span;
mod told;
mod width;

pub use burst::Burst;
pub use call_error::CallError;
pub use config::{Config, ConfigError, DeviceConfig};
pub use device_set::DeviceSet;
pub use event::{
    Act, CopyRequest, DirtyRequest, Event, HwptRequest, MapRequest, PinRequest, UnmapRequest,
};
pub use fault::{AccessKind, Fault, FaultReason};
pub use flags::{MapFlags, Rights};
pub use lists::{FrameList, SpanList};
pub use numbers::{
    DeviceNo, FileNo, FrameNo, Iova, ObjId, PAGE_SIZE, PassNo, SourceId, USER_END, UserNo,
};
pub use query::{Answer, Query, Translation};
pub use range::{IovaRange, RangeList};
pub use record::Record;
pub use refusal::{Cause, Errno, NoMemory, Refusal};
pub use reply::Reply;
pub use rows::{
    AccessPin, Area, Attachment, MemoryObject, Object, ObjectKind, Phase, Pin, TableFrame, UserPage,
};
pub use span::{INTERRUPT_RANGE, Span};
pub use width::Width;
