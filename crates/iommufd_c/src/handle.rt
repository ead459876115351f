//! What C keeps of a client: its address, or null. A client is a caller, or a device's port, with a share of the
//! server; a call by its handle is a call of the server, and none waits.

ghost use Rattle.std.specs.Prelude.{◌≡◌, Option, Some, None, MatchOption, is_some};
ghost use Rattle.std.specs.contracts.impls.GlobalAllocator.TheImpl.{ghosts};
ghost use Rattle.iommufd_c.specs.Kept.{keeps_boxed};
ghost use Rattle.iommufd_c.specs.declared.handle.client.Client.{Client as Stood};
ghost use Rattle.iommufd_c.specs.contracts.handle.client.Client.{the_row as client_row};

mod asked;
mod caller;
mod caller_calls;
mod client;
mod device;
mod device_calls;
mod error;
mod loose;
mod opening;
mod turn;

pub use caller::Caller;
pub(crate) use caller_calls::{Call, Ioctl, Journal, Look, Notices};
pub use client::Client;
pub use device::{Access, Device};
pub(crate) use device_calls::{Read, TakeTurn, Translate, Write};
pub use error::{GiveError, OpenError};
use loose::Loose;
use std::alloc::Global;
use std::marker::Model;
use std::mem;
use std::ptr::null_mut;
pub use turn::Turn;

/// A handle: closed, or it owns what it stands for. In C it is a struct of one pointer, which is null where it is
/// closed.
#[repr(C)]
pub struct Handle {
    at: *mut u8,
    alloc: Global,
    pub ghost client: { Option Stood },
}

impl Model for Handle {
    ghost also_owns = { λ it. keeps_boxed (ghosts.dealloc_token it.alloc) client_row it.at it.client };
}

impl Handle {
    /// A closed one.
    pub(crate) fn closed(alloc: Global) -> Handle
        ensures { result.client ≡ None }
    {
        let at: *mut u8 = null_mut();
        Handle { at, alloc }
    }

    fn of_loose(client: Loose<Client, Global>) -> Handle
        ensures { result.client ≡ Some client.value }
    {
        let Loose { at, alloc } = client;
        let at = at as *mut u8;
        Handle { at, alloc }
    }

    fn into_loose(self) -> Option<Loose<Client, Global>>
        ensures { MatchOption result (self.client ≡ None) (λ it. self.client ≡ Some it.value) }
    {
        let Handle { at, alloc } = self;
        if at.is_null() {
            None
        } else {
            let at = at as *mut Client;
            Some(Loose { at, alloc })
        }
    }

    /// The handle of a client.
    pub(crate) fn of(client: Box<Client>) -> Handle
        ensures { result.client ≡ Some client.value }
    {
        Handle::of_loose(Loose::of(client))
    }

    /// The client, if it is open.
    pub(crate) fn into_client(self) -> Option<Box<Client>>
        ensures { MatchOption result (self.client ≡ None) (λ it. self.client ≡ Some it.value) }
    {
        match self.into_loose() {
            Some(client) => Some(client.into_box()),
            None => None,
        }
    }

    /// Takes the client out, and leaves the handle closed.
    pub(crate) fn take(&mut self, alloc: Global) -> Option<Box<Client>>
        ensures closed { self.new.client ≡ None }
        ensures taken { MatchOption result (self.old.client ≡ None) (λ it. self.old.client ≡ Some it.value) }
    {
        mem::replace(self, Handle::closed(alloc)).into_client()
    }

    /// Whether it is open.
    pub(crate) fn is_open(&mut self, alloc: Global) -> bool
        ensures value { result ≡ is_some self.old.client }
        ensures same { self.new.client ≡ self.old.client }
    {
        match self.take(alloc) {
            Some(client) => {
                *self = Handle::of(client);
                true
            }
            None => false,
        }
    }
}

// Any thread may have it, one at a time.
unsafe impl Send for Handle {}

impl Drop for Handle {
    fn drop(self) {
        match self.into_client() {
            Some(client) => drop(client),
            None => {}
        }
    }
}

fn sends<T: Send>(_value: &T) {}

// `Send` of a handle is proved here: C rests on it, and nothing else asks for it.
fn handle_sends(handle: &Handle) {
    sends(handle);
}
