//! Tables through which no page of an area goes.

ghost use Rattle.std.specs.Prelude.{◌≡◌, ◌≤◌, ◌+◌, ◌*◌, ◌^◌, ◌&&◌, nat_le};
ghost use Rattle.iofd_words.specs.Span.{meets};
ghost use Rattle.iofd_words.specs.Areas.{areas_meet, areas_of, is_of};
ghost use Rattle.iofd_words.specs.Tables.{is_below_root, is_idle, span_of_table};
ghost use Rattle.journal_audit_tables.specs.Moved.{is_below};

use crate::place::levels_of;
use iofd_words::{Area, FileNo, ObjId, Object, ObjectKind, TableFrame};
use journal_audit_world::{areas, objects};

/// Whether the table is one below the root of a page table over the address space, through which no page of an area
/// goes.
pub fn is_idle(
    objects: &[Object],
    areas: &[Area],
    file: FileNo,
    ioas: ObjId,
    table: &TableFrame,
) -> bool
    ensures { result ≡ is_idle objects.now areas.now file ioas table.now }
{
    table.file.0 == file.0 && is_below(objects, ioas, table) && !is_used(areas, file, ioas, table)
}

fn is_below(objects: &[Object], ioas: ObjId, table: &TableFrame) -> bool
    ensures { result ≡ is_below objects.now ioas table.now }
{
    match objects::kind_of(objects, table.file, table.hwpt) {
        Some(kind) => is_below_root(ioas, table, kind),
        None => false,
    }
}

fn is_below_root(ioas: ObjId, table: &TableFrame, kind: ObjectKind) -> bool
    ensures { result ≡ is_below_root ioas table.now kind }
{
    match kind {
        ObjectKind::Hwpt {
            ioas: over,
            width,
            ..
        } => over.0 == ioas.0 && table.level != levels_of(width),
        _ => false,
    }
}

// How many addresses go through a table of this level, of those that address spaces have.
fn size_of_level(level: u8) -> u64
    requires { level ≤ 5 }
    ensures { result ≡ 2 ^ (9 * level + 12) }
{
    match level {
        0 => 1 << 12,
        1 => 1 << 21,
        2 => 1 << 30,
        3 => 1 << 39,
        4 => 1 << 48,
        _ => 1 << 57,
    }
}

// Whether the address goes through it, or is below those that do.
fn is_within(address: u64, table: &TableFrame) -> bool
    ensures { result ≡ nat_le address (span_of_table table.now).last }
{
    if table.level > 5 {
        return true;
    }
    let last = u128::from(table.first.0) + u128::from(size_of_level(table.level)) - 1;
    u128::from(address) <= last
}

// Whether it is an area of the address space of which a page goes through it.
fn is_through(area: &Area, file: FileNo, ioas: ObjId, table: &TableFrame) -> bool
    ensures { result ≡ (is_of file ioas area.now && meets area.now.span (span_of_table table.now)) }
{
    areas::is_of(file, ioas, area) && meets(area, table)
}

// Whether a page of some area of the address space goes through it.
fn is_used(areas: &[Area], file: FileNo, ioas: ObjId, table: &TableFrame) -> bool
    ensures { result ≡ areas_meet (span_of_table table.now) (areas_of areas.now file ioas) }
{
    for area in areas {
        if is_through(area, file, ioas, table) {
            return true;
        }
    }
    false
}

// Whether a page of the area does.
fn meets(area: &Area, table: &TableFrame) -> bool
    ensures { result ≡ meets area.now.span (span_of_table table.now) }
{
    is_within(area.span.first(), table) && table.first.0 <= area.span.last()
}
