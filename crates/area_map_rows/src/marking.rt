//! Areas on their way out: what they owe to devices.

ghost use Rattle.std.specs.Prelude.{◌≡◌, ◌&&◌, ◌||◌, map, vec_capacity};
ghost use Rattle.area_map_rows.specs.Areas.{changed, marked, without_debt, tried};
ghost use Rattle.area_map_rows.specs.Rows as rows;
ghost use Rattle.iofd_words.specs.Areas.{tries_of};

use iofd_words::{Area, DeviceNo, DeviceSet, Phase, Span};
use std::alloc::Allocator;

/// A change of areas' phases.
#[derive(Drop)]
pub enum Change {
    /// Each live area that lies in the span is leaving, with this debt.
    Leave(DeviceSet),
    /// The device is out of the debt of each leaving area. They all lie in the span.
    Pay(DeviceNo),
    /// Each leaving area that lies in the span has seen so many tries.
    SetTries(u8),
}

impl Change {
    /// Whether it makes live areas leaving. Each other change is of areas that are leaving.
    pub(crate) fn reaches_live(&self) -> bool
        ensures { result ≡ rows.reaches_live self.now }
    {
        matches!(self, Change::Leave(_))
    }
}

/// Changes each of the areas.
pub fn change_all<A: Allocator>(areas: &mut Vec<Area, A>, change: &Change, span: Span)
    ensures areas { areas.new.items ≡ map (changed change.now span) areas.old.items }
    ensures capacity { vec_capacity areas.new ≡ vec_capacity areas.old }
{
    for area in areas.iter_mut() {
        change_one(area, change, span);
    }
}

fn change_one(area: &mut Area, change: &Change, span: Span)
    ensures { area.new ≡ changed change.now span area.old }
{
    match change {
        Change::Leave(owed) => mark(area, span, owed),
        Change::Pay(device) => pay_one(area, *device),
        Change::SetTries(tries) => set_tries_of(area, span, *tries),
    }
}

// Makes the area leaving, if it is live and lies in the span.
fn mark(area: &mut Area, span: Span, owed: &DeviceSet)
    ensures { area.new ≡ marked span owed.now area.old }
{
    if area.span.lies_in(span)
        && let Phase::Live = area.phase
    {
        area.phase = Phase::Leaving {
            owed: owed.copied(),
            tries: 0,
        };
    }
}

// Takes the device out of the area's debt.
fn pay_one(area: &mut Area, device: DeviceNo)
    ensures { area.new ≡ without_debt device area.old }
{
    if let Phase::Leaving { owed, .. } = &mut area.phase {
        owed.remove(device);
    }
}

// Gives the area so many tries, if it is leaving and lies in the span.
fn set_tries_of(area: &mut Area, span: Span, count: u8)
    ensures { area.new ≡ tried span count area.old }
{
    if area.span.lies_in(span)
        && let Phase::Leaving { tries, .. } = &mut area.phase
    {
        *tries = count;
    }
}

/// How many tries the area has seen; none of a live one.
pub fn tries_of(phase: &Phase) -> u8
    ensures { result ≡ tries_of phase.now }
{
    match phase {
        Phase::Live => 0,
        Phase::Leaving { tries, .. } => *tries,
    }
}

/// Whether an UNMAP of the area was called.
pub fn is_leaving(phase: &Phase) -> bool
    ensures { result ≡ rows.is_leaving phase.now }
{
    matches!(phase, Phase::Leaving { .. })
}

/// Whether one of the areas is leaving.
pub fn has_leaving(areas: &[Area]) -> bool
    ensures { result ≡ rows.has_leaving areas.now }
{
    areas.iter().any(|area| is_leaving(&area.phase))
}

/// Whether one is leaving where there is one area more.
pub fn leaves_with(leaves: bool, area: &Area) -> bool
    ensures { result ≡ (leaves || rows.leaves area.now) }
{
    leaves || is_leaving(&area.phase)
}

/// Whether one is leaving where these are left. It looks at none where none was before.
pub fn leaves_still(leaves: bool, areas: &[Area]) -> bool
    ensures { result ≡ (leaves && rows.has_leaving areas.now) }
{
    leaves && has_leaving(areas)
}
