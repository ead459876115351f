//! Where areas may lie while devices are attached, each the contract of a function that does nothing.

ghost use Rattle.std.specs.Prelude.{◌≡◌, ◌<◌, ◌+◌, ℕ, Bool, true, Some, None, List, [], ◌∷◌};
ghost use Rattle.std.specs.Prelude.{◌++◌, Contains, slice_get};
ghost use Rattle.iofd_promises.specs.Reaches.{TranslatesBy};
ghost use Rattle.iofd_promises.specs.Reserved.{Avoids, end_of};
ghost use Rattle.iofd_refusals.specs.Checks.{refusal};
ghost use Rattle.iofd_words.specs.Rights.{is_fixed, is_readable, is_writeable};
ghost use Rattle.iofd_steps.specs.Run.{IsRun, world_of};
ghost use Rattle.iofd_words.specs.Record.{Record};
ghost use Rattle.iofd_words.specs.Settings.{DeviceSettings, Settings};
ghost use Rattle.iofd_words.specs.declared.event.CopyRequest.{CopyRequest};
ghost use Rattle.iofd_words.specs.declared.event.Event.TheVariants as event;
ghost use Rattle.iofd_words.specs.declared.event.MapRequest.{MapRequest};
ghost use Rattle.iofd_words.specs.declared.flags.MapFlags.{MapFlags};
ghost use Rattle.iofd_words.specs.declared.numbers.DeviceNo.{DeviceNo};
ghost use Rattle.iofd_words.specs.declared.numbers.FileNo.{FileNo};
ghost use Rattle.iofd_words.specs.declared.numbers.Iova.{Iova};
ghost use Rattle.iofd_words.specs.declared.reply.Reply.TheVariants as reply;
ghost use Rattle.iofd_words.specs.declared.rows.Area.{Area};
ghost use Rattle.iofd_words.specs.declared.rows.Object.{Object};
ghost use Rattle.iofd_words.specs.declared.rows.ObjectKind.TheVariants as kind;
ghost use Rattle.iofd_words.specs.declared.width.Width.{Width};

use std::alloc::Allocator;

/// In every run, an area lies in the addresses that each page table over its address space translates: below 2^39 or
/// 2^48, by the table's width.
pub fn areas_lie_below_their_tables_width<A: Allocator>()
    ensures { (settings : Settings) (records : List (Record A)) (area : Area) (table : Object) (width : Width)
        (automatic : Bool) → IsRun settings records →
        Contains (world_of settings records).areas area → Contains (world_of settings records).objects table →
        table.file ≡ area.file → table.kind ≡ kind.Hwpt area.ioas width automatic →
        area.span.last < end_of width }
{}

/// In every run, an area has no address that a device which translates by its address space keeps for itself. Devices
/// are numbered from 1.
pub fn areas_avoid_what_devices_reserve<A: Allocator>()
    ensures { (settings : Settings) (records : List (Record A)) (area : Area) (device : DeviceNo) (n : ℕ)
        (reserves : DeviceSettings) → IsRun settings records → Contains (world_of settings records).areas area →
        TranslatesBy (world_of settings records) device area.file area.ioas →
        device.0 ≡ n + 1 → slice_get settings.devices n ≡ Some reserves → Avoids area reserves }
{}

/// An address that a MAP or a COPY is answered is one that the same command with the same rights could have named as
/// its fixed one: then nothing would have refused it.
pub fn chosen_addresses_could_be_fixed<A: Allocator>()
    ensures maps { (settings : Settings) (before : List (Record A)) (r : Record A)
        (file : FileNo) (request : MapRequest)
        (flags : MapFlags) (iova : Iova) →
        IsRun settings (before ++ r ∷ []) → r.event ≡ event.Map file request → r.reply ≡ reply.Iova iova →
        is_fixed flags ≡ true → is_readable flags ≡ is_readable request.flags →
        is_writeable flags ≡ is_writeable request.flags →
        refusal {A = A} (world_of settings before)
        (event.Map file (record request { flags = flags; iova = iova })) ≡ None }
    ensures copies { (settings : Settings) (before : List (Record A)) (r : Record A) (file : FileNo)
        (request : CopyRequest) (flags : MapFlags) (iova : Iova) →
        IsRun settings (before ++ r ∷ []) → r.event ≡ event.Copy file request → r.reply ≡ reply.Iova iova →
        is_fixed flags ≡ true → is_readable flags ≡ is_readable request.flags →
        is_writeable flags ≡ is_writeable request.flags →
        refusal {A = A} (world_of settings before)
        (event.Copy file (record request { flags = flags; dst_iova = iova })) ≡ None }
{}
