//! Which addresses of an address space may be used.

ghost use Rattle.std.specs.Prelude.{◌≡◌, false, find, map, MatchOption};
ghost use Rattle.std.specs.List.{list_any};
ghost use Rattle.std.specs.Option.{option_copied};
ghost use Rattle.iofd_rows.specs.Reached as reached;
ghost use Rattle.iofd_words.specs.Files.{device_of};
ghost use Rattle.iofd_words.specs.Ranges.{meets_some};
ghost use Rattle.iofd_words.specs.Span.{meets};
ghost use Rattle.iofd_words.specs.Usable as usable;
ghost use Rattle.server_state.specs.Choice.{first_of};
ghost use Rattle.server_state.specs.Held.{objects_in};
ghost use Rattle.server_state.specs.Reach.{IsOneOf};
ghost use Rattle.server_state.specs.Step.{IsKnown};
ghost use Rattle.server_state.specs.Tables.{page_tables_among};

use crate::held::Held;
use crate::lookups;
use crate::state::State;
use iofd_words::{Attachment, Config, DeviceNo, FileNo, ObjId, Object, ObjectKind, Span};
use object_table::ObjectTable;
use page_table_set::Hwpt;
use std::alloc::Allocator;

impl<A: Allocator> State<A> {
    /// A span that can't be used in the file's address space of this id and that meets this one, if there is one. It
    /// takes no memory.
    pub fn unusable_meeting(&self, file: FileNo, ioas: ObjId, span: Span) -> Option<Span>
        requires { IsKnown self.now }
        ensures { MatchOption result
            (meets_some (usable.unusable self.now.config (objects_in self.now.objects) self.now.attachments.items
            file ioas) span ≡ false)
            (IsOneOf (usable.unusable self.now.config (objects_in self.now.objects)
            self.now.attachments.items file ioas) span) }
    {
        match beyond_meeting(&self.objects, self.page_tables.as_slice(), file, ioas, span) {
            Some(one) => Some(one),
            None => kept_meeting(
                &self.config,
                &self.objects,
                &self.attachments,
                file,
                ioas,
                span,
            ),
        }
    }
}

/// The addresses beyond a page table over the file's address space of this id, where they meet the span.
fn beyond_meeting<A: Allocator>(
    table: &ObjectTable<Held<A>, A>,
    tables: &[Hwpt],
    file: FileNo,
    ioas: ObjId,
    span: Span,
) -> Option<Span>
    requires { map (λ h. h.object) tables.now ≡ page_tables_among (objects_in table.now) }
    ensures { MatchOption result
        (list_any (reached.ends_in file ioas span) (objects_in table.now) ≡ false)
        (IsOneOf (usable.beyond_tables (objects_in table.now) file ioas) span) }
{
    match table_ending_in(tables, file, ioas, span) {
        Some(hwpt) => beyond(hwpt.object().kind),
        None => None,
    }
}

/// The first page table over the address space that doesn't translate all of the span.
fn table_ending_in(tables: &[Hwpt], file: FileNo, ioas: ObjId, span: Span) -> Option<&Hwpt>
    ensures { option_copied result ≡ find (λ h. reached.ends_in file ioas span h.object) tables.now }
{
    tables
        .iter()
        .find(|hwpt| is_end_in(hwpt.object(), file, ioas, span))
}

/// Whether the object is a page table over the address space that doesn't translate all of the span.
fn is_end_in(object: &Object, file: FileNo, ioas: ObjId, span: Span) -> bool
    ensures { result ≡ reached.ends_in file ioas span object.now }
{
    object.file == file && is_short_of(object.kind, ioas, span)
}

/// Whether it is a page table over the address space and doesn't translate all of the span.
fn is_short_of(kind: ObjectKind, ioas: ObjId, span: Span) -> bool
    ensures { result ≡ reached.ends_in_kind ioas span kind }
{
    match kind {
        ObjectKind::Hwpt {
            ioas: over,
            width,
            ..
        } => over == ioas && width.end() <= span.last(),
        _ => false,
    }
}

/// The addresses that the object doesn't translate, if it is a page table.
fn beyond(kind: ObjectKind) -> Option<Span>
    ensures { result ≡ first_of (usable.beyond_table kind) }
{
    match kind {
        ObjectKind::Hwpt { width, .. } => Span::new(width.end(), u64::MAX),
        _ => None,
    }
}

/// A span that a device attached to the file's address space of this id keeps for itself and that meets this one, if
/// there is one.
fn kept_meeting<A: Allocator>(
    config: &Config<A>,
    table: &ObjectTable<Held<A>, A>,
    attachments: &[Attachment],
    file: FileNo,
    ioas: ObjId,
    span: Span,
) -> Option<Span>
    ensures { MatchOption result
        (list_any (reached.keeps_of config.now (objects_in table.now) file ioas span) attachments.now ≡ false)
        (IsOneOf (usable.reserved_in config.now (objects_in table.now) attachments.now file ioas) span) }
{
    match keeper(config, table, attachments, file, ioas, span) {
        Some(a) => kept_by(config, a.device, span),
        None => None,
    }
}

/// The first attachment to the address space of a device that keeps some of the span for itself.
fn keeper<'a, A: Allocator>(
    config: &Config<A>,
    table: &ObjectTable<Held<A>, A>,
    attachments: &'a [Attachment],
    file: FileNo,
    ioas: ObjId,
    span: Span,
) -> Option<&'a Attachment>
    ensures { option_copied result
        ≡ find (reached.keeps_of config.now (objects_in table.now) file ioas span) attachments.now }
{
    attachments
        .iter()
        .find(|a| is_keeper(config, table, file, ioas, span, a))
}

fn is_keeper<A: Allocator>(
    config: &Config<A>,
    table: &ObjectTable<Held<A>, A>,
    file: FileNo,
    ioas: ObjId,
    span: Span,
    attachment: &Attachment,
) -> bool
    ensures { result ≡ reached.keeps_of config.now (objects_in table.now) file ioas span attachment.now }
{
    // Most devices keep nothing there, which is told by fewer steps than to what they are attached.
    keeps(config, attachment.device, span) && lookups::is_attached_to(table, file, ioas, attachment)
}

/// Whether the device keeps some of the span for itself.
fn keeps<A: Allocator>(config: &Config<A>, device: DeviceNo, span: Span) -> bool
    ensures { result ≡ meets_some (usable.reserved_of (device_of config.now device)) span }
{
    kept_by(config, device, span).is_some()
}

/// The first span that the device keeps for itself and that meets this one.
fn kept_by<A: Allocator>(config: &Config<A>, device: DeviceNo, span: Span) -> Option<Span>
    ensures { result ≡ find (λ one. meets one span) (usable.reserved_of (device_of config.now device)) }
{
    match config.device(device) {
        Some(settings) => settings.kept_meeting(span),
        None => None,
    }
}
