//! The end of a server.

use crate::error::CloseError;
use crate::server::{Pass, Server};
use iommufd_core::Core;
use lane_lock::CloseError as LockError;
use std::alloc::Allocator;

impl<A: Allocator + Copy> Server<A> {
    ghost use Rattle.std.specs.Prelude.{IfErr, IfOk};
    ghost use Rattle.lane_lock.specs.Passes.{OwnsAll};
    ghost use Rattle.shared_iommufd.specs.Ends.{Ends};
    ghost use Rattle.shared_iommufd.specs.GivenBack.{GivesBack};

    /// Ends the server and gives its core back. Its records are a run of those of all passes, each once and in its
    /// pass's order, and no others. Where a pass is missing NotAll hands server and passes back. Where a share of the
    /// core is still held elsewhere Shared hands one over, with the same records.
    pub fn close(self, passes: Vec<Pass<A>>) -> Result<Core<A>, CloseError<A>>
        requires { OwnsAll self.lock passes.items }
        ensures ends { IfOk result (λ core. Ends self.lock passes.items core.history) }
        ensures refused { IfErr result (GivesBack self passes.items) }
    {
        let (lock, alloc) = self.into_parts();
        match lock.close(passes) {
            Ok(kept) => {
                let _core = kept.core();
                Ok(kept.into_core())
            }
            Err(LockError::NotAll { lock, passes }) => Err(CloseError::NotAll {
                server: Server { lock, alloc },
                passes,
            }),
            Err(LockError::Shared(share)) => {
                let _core = share.core();
                Err(CloseError::Shared(share))
            }
        }
    }
}
