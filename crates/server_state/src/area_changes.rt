//! Changes of one address space's areas: one comes, some leave or go, or a device pays what it owes them.

ghost use Rattle.std.specs.Prelude.{◌≡◌, ◌<◌, ◌==◌, not, true, None, [], length, map};
ghost use Rattle.std.specs.Prelude.{OnErr, OnOk, MatchOption};
ghost use Rattle.std.specs.List.{list_any};
ghost use Rattle.area_map_rows.specs.Areas.{areas_outside, marked, tried, with_area};
ghost use Rattle.area_map.specs.Insertion.{insert_refusal};
ghost use Rattle.held_pins.specs.HeldPins.{are_met};
ghost use Rattle.iofd_words.specs.Areas.{all_paid, is_held_back, owed_by};
ghost use Rattle.iofd_words.specs.Objects.{has_ioas, is_ioas};
ghost use Rattle.server_state.specs.Held.{areas_at, areas_in, kind_in, objects_in, room_at, room_in};
ghost use Rattle.server_state.specs.Spaces.{IsOrderly, IsWith, HasAreas};
ghost use Rattle.server_state.specs.Mapping.{own_areas};

use crate::held::Held;
use area_map::{Areas, Iter};
use held_pins::HeldPins;
use iofd_words::{Area, DeviceNo, DeviceSet, FileNo, NoMemory, ObjId, Phase, Span};
use object_table::{Kind, ObjectTable};
use std::alloc::Allocator;

/// Takes memory for one more area of this address space, if there is no room. No area changes, on an error neither:
/// it is want of memory, and comes only where there was no room.
#[tactic(auto, using(crate::proofs::AreasHeld::areas_absent))]
pub fn reserve<A: Allocator + Copy>(
    table: &mut ObjectTable<Held<A>, A>,
    file: FileNo,
    ioas: ObjId,
) -> Result<(), NoMemory>
    ensures areas { IsOrderly table.old
        → HasAreas file ioas (areas_at table.old.rows file ioas) table.old table.new }
    ensures ok { OnOk result (IsOrderly table.old → has_ioas (objects_in table.old) file ioas ≡ true
        → 0 < room_at table.new.rows file ioas) }
    ensures full { OnErr result (IsOrderly table.old → room_at table.old.rows file ioas ≡ 0) }
{
    match table.get_mut(file, Kind::Ioas, ioas) {
        Ok(held) => reserve_held(held),
        Err(_) => Ok(()),
    }
}

fn reserve_held<A: Allocator + Copy>(held: &mut Held<A>) -> Result<(), NoMemory>
    ensures areas { IsWith (areas_in held.old) held.old held.new }
    ensures ok { OnOk result (is_ioas (kind_in held.old) ≡ true → 0 < room_in held.new) }
    ensures full { OnErr result (room_in held.old ≡ 0) }
{
    match held {
        Held::Ioas(areas) => areas.reserve(),
        _ => Ok(()),
    }
}

/// Adds the area to those of this address space, which has room for it (`reserve`), where it meets no other and there
/// may be one more. Elsewhere, or where there is no such address space, it changes nothing.
pub fn insert<A: Allocator + Copy>(
    table: &mut ObjectTable<Held<A>, A>,
    file: FileNo,
    ioas: ObjId,
    area: Area,
)
    ensures { IsOrderly table.old → has_ioas (objects_in table.old) file ioas ≡ true
        → insert_refusal area.span (areas_at table.old.rows file ioas) ≡ None
        → 0 < room_at table.old.rows file ioas
        → HasAreas file ioas (with_area area (areas_at table.old.rows file ioas)) table.old table.new }
{
    match table.get_mut(file, Kind::Ioas, ioas) {
        Ok(held) => insert_held(held, area),
        Err(_) => (),
    }
}

fn insert_held<A: Allocator + Copy>(held: &mut Held<A>, area: Area)
    ensures { is_ioas (kind_in held.old) ≡ true → insert_refusal area.span (areas_in held.old) ≡ None
        → 0 < room_in held.old
        → IsWith (with_area area (areas_in held.old)) held.old held.new }
{
    if let Held::Ioas(areas) = held {
        let _ = areas.insert(area);
    }
}

/// The areas in this address space. None where there is no such address space.
pub fn own_areas<A: Allocator>(
    table: &ObjectTable<Held<A>, A>,
    file: FileNo,
    ioas: ObjId,
) -> Option<&Areas<A>>
    ensures { MatchOption result (own_areas table.now file ioas ≡ []) (λ areas. own_areas table.now file ioas
        ≡ areas.now.areas) }
{
    match table.get(file, Kind::Ioas, ioas) {
        Ok(Held::Ioas(areas)) => Some(areas),
        _ => None,
    }
}

/// Whether one of these areas of the address space may not go yet: a device still has to flush, one of those attached
/// for a live area and one of those that it waits for for a leaving area, or an access object has pinned pages of it.
pub fn some_waits<A: Allocator>(
    mut areas: Iter<'_, A>,
    attached: &DeviceSet,
    file: FileNo,
    ioas: ObjId,
    pins: &HeldPins<A>,
) -> bool
    ensures { result ≡ list_any (is_held_back attached.now (λ area. are_met pins.now file ioas area.span)) areas.entry }
{
    areas.any(|area| waits(&area.phase, attached) || pins.meets(file, ioas, area.span))
}

/// Whether some device still has to flush, where these are attached.
fn waits(phase: &Phase, attached: &DeviceSet) -> bool
    ensures { result ≡ not (length (owed_by attached.now phase.now) == 0) }
{
    match phase {
        Phase::Live => !attached.is_empty(),
        Phase::Leaving { owed, .. } => !owed.is_empty(),
    }
}

/// The live areas of the address space that lie in the span are leaving now, and wait for these devices.
#[tactic(auto, using(crate::proofs::AreasHeld::areas_absent))]
pub fn mark_leaving<A: Allocator>(
    table: &mut ObjectTable<Held<A>, A>,
    file: FileNo,
    ioas: ObjId,
    span: Span,
    owed: &DeviceSet,
)
    ensures { IsOrderly table.old
        → HasAreas file ioas (map (marked span owed.now) (areas_at table.old.rows file ioas)) table.old table.new }
{
    match table.get_mut(file, Kind::Ioas, ioas) {
        Ok(held) => mark_held(held, span, owed),
        Err(_) => (),
    }
}

fn mark_held<A: Allocator>(held: &mut Held<A>, span: Span, owed: &DeviceSet)
    ensures { IsWith (map (marked span owed.now) (areas_in held.old)) held.old held.new }
{
    if let Held::Ioas(areas) = held {
        areas.mark_leaving(span, owed);
    }
}

/// Each leaving area of the address space that lies in the span has seen so many tries.
#[tactic(auto, using(crate::proofs::AreasHeld::areas_absent))]
pub fn set_tries<A: Allocator>(
    table: &mut ObjectTable<Held<A>, A>,
    file: FileNo,
    ioas: ObjId,
    span: Span,
    tries: u8,
)
    ensures { IsOrderly table.old
        → HasAreas file ioas (map (tried span tries) (areas_at table.old.rows file ioas)) table.old table.new }
{
    match table.get_mut(file, Kind::Ioas, ioas) {
        Ok(held) => set_tries_held(held, span, tries),
        Err(_) => (),
    }
}

fn set_tries_held<A: Allocator>(held: &mut Held<A>, span: Span, tries: u8)
    ensures { IsWith (map (tried span tries) (areas_in held.old)) held.old held.new }
{
    if let Held::Ioas(areas) = held {
        areas.set_tries(span, tries);
    }
}

/// Takes away the areas of the address space that lie in the span.
#[tactic(auto, using(crate::proofs::AreasHeld::areas_absent, crate::proofs::AreasHeld::unwritten))]
pub fn remove<A: Allocator>(
    table: &mut ObjectTable<Held<A>, A>,
    file: FileNo,
    ioas: ObjId,
    span: Span,
)
    ensures { IsOrderly table.old
        → HasAreas file ioas (areas_outside span (areas_at table.old.rows file ioas)) table.old table.new }
{
    match table.get_mut(file, Kind::Ioas, ioas) {
        Ok(held) => remove_held(held, span),
        Err(_) => (),
    }
}

fn remove_held<A: Allocator>(held: &mut Held<A>, span: Span)
    ensures { IsWith (areas_outside span (areas_in held.old)) held.old held.new }
{
    if let Held::Ioas(areas) = held {
        areas.remove(span);
    }
}

/// The device owes the areas of this address space no flush any more.
#[tactic(auto, using(crate::proofs::AreasHeld::unwritten, crate::proofs::AreasHeld::areas_absent))]
pub fn pay<A: Allocator>(
    table: &mut ObjectTable<Held<A>, A>,
    file: FileNo,
    ioas: ObjId,
    device: DeviceNo,
)
    ensures { IsOrderly table.old
        → HasAreas file ioas (all_paid device (areas_at table.old.rows file ioas)) table.old table.new }
{
    match table.get_mut(file, Kind::Ioas, ioas) {
        Ok(held) => pay_held(held, device),
        Err(_) => (),
    }
}

fn pay_held<A: Allocator>(held: &mut Held<A>, device: DeviceNo)
    ensures { IsWith (all_paid device (areas_in held.old)) held.old held.new }
{
    if let Held::Ioas(areas) = held {
        areas.pay(device);
    }
}
