//! The page table of an attachment.

ghost use Rattle.iofd_steps.specs.Answers.{AnswersId, IsHwptFor, IsHwptOf, IsTarget};
ghost use Rattle.iofd_words.specs.Files.{device_of};
ghost use Rattle.iofd_words.specs.Objects.{binding_of, kind_of};
ghost use Rattle.journal_audit_world.specs.Decides.{Decides};

use iofd_words::{DeviceNo, FileNo, ObjId, Object, ObjectKind, Reply, Width};
use journal_audit_tables::coming;
use journal_audit_world::{World, objects};
use std::alloc::Allocator;

/// Whether the answer is the id of a page table that an attachment of the device to what its file has under `pt_id` may
/// be by: the automatic one of its width over an address space, or an unused id where there is none, or the page table
/// that is named.
pub fn is_attached<A: Allocator>(
    world: &World<A>,
    device: DeviceNo,
    pt_id: ObjId,
    reply: Reply,
) -> bool
    ensures { let w = world.now in Decides result (AnswersId
        (λ id. IsHwptOf w pt_id id (binding_of w.objects device) (device_of w.settings device)) reply) }
{
    match reply {
        Reply::Id(id) => is_hwpt_of(world, device, pt_id, id),
        _ => false,
    }
}

fn is_hwpt_of<A: Allocator>(world: &World<A>, device: DeviceNo, pt_id: ObjId, id: ObjId) -> bool
    ensures { let w = world.now in Decides result
        (IsHwptOf w pt_id id (binding_of w.objects device) (device_of w.settings device)) }
{
    let Some(bound) = objects::binding_of(&world.objects, device) else {
        return false;
    };
    match world.config.device(device) {
        Some(settings) => is_target(world, bound.file, pt_id, id, settings.width()),
        None => false,
    }
}

// By what the file has under the id that is named.
fn is_target<A: Allocator>(
    world: &World<A>,
    file: FileNo,
    pt_id: ObjId,
    id: ObjId,
    width: Width,
) -> bool
    ensures { let w = world.now in Decides result (IsTarget w file pt_id id width (kind_of w.objects file pt_id)) }
{
    match objects::kind_of(&world.objects, file, pt_id) {
        Some(ObjectKind::Ioas) => {
            let automatic = coming::automatic_hwpt(&world.objects, file, pt_id, width);
            is_hwpt_for(world, file, id, automatic)
        }
        Some(ObjectKind::Hwpt { .. }) => id == pt_id,
        _ => false,
    }
}

// The automatic page table, or a new one with an unused id.
fn is_hwpt_for<A: Allocator>(
    world: &World<A>,
    file: FileNo,
    id: ObjId,
    automatic: Option<Object>,
) -> bool
    ensures { Decides result (IsHwptFor world.now file id automatic) }
{
    match automatic {
        Some(automatic) => id == automatic.id,
        None => objects::is_fresh(&world.objects, file, id),
    }
}
