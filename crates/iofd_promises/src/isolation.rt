//! Whose memory is reached, each the contract of a function that does nothing.

ghost use Rattle.std.specs.Prelude.{◌≡◌, ◌+◌, ◌⊎◌, ℕ, Bool, Some, List, [], ◌∷◌, ◌++◌};
ghost use Rattle.std.specs.Prelude.{Contains, slice_get};
ghost use Rattle.iofd_promises.specs.Owners.{HasPlace, IsNobodys, IsUsersPage};
ghost use Rattle.iofd_steps.specs.Run.{IsRun, world_of};
ghost use Rattle.iofd_words.specs.Record.{Record};
ghost use Rattle.iofd_words.specs.Settings.{DeviceSettings, Settings};
ghost use Rattle.iofd_words.specs.declared.numbers.FrameNo.{FrameNo};
ghost use Rattle.iofd_words.specs.declared.numbers.ObjId.{ObjId};
ghost use Rattle.iofd_words.specs.declared.reply.Reply.TheVariants as reply;
ghost use Rattle.iofd_words.specs.declared.rows.Attachment.{Attachment};
ghost use Rattle.iofd_words.specs.declared.rows.Object.{Object};
ghost use Rattle.iofd_words.specs.declared.rows.ObjectKind.TheVariants as kind;
ghost use Rattle.iofd_words.specs.declared.rows.Pin.{Pin};
ghost use Rattle.iofd_words.specs.declared.rows.TableFrame.{TableFrame};
ghost use Rattle.iofd_words.specs.declared.rows.UserPage.{UserPage};
ghost use Rattle.iofd_words.specs.declared.width.Width.{Width};

use std::alloc::Allocator;

/// A pin that a record leaves stood before it, as the same row, or its frame is that of the page that it pins, in the
/// memory of the user whose memory object it is of.
pub fn new_pins_are_their_users_pages<A: Allocator>()
    ensures { (settings : Settings) (before : List (Record A)) (r : Record A) (pin : Pin) →
        IsRun settings (before ++ r ∷ []) → Contains (world_of settings (before ++ r ∷ [])).pins pin →
        Contains (world_of settings before).pins pin ⊎ IsUsersPage (world_of settings (before ++ r ∷ [])) pin }
{}

/// A frame that a record gives to a user or takes for a table was nobody's: no user's page, no pin and no table had it.
/// No record takes a frame twice.
pub fn given_frames_were_nobodys<A: Allocator>()
    ensures to_users { (settings : Settings) (before : List (Record A)) (r : Record A) (frame : FrameNo) →
        IsRun settings (before ++ r ∷ []) → r.reply ≡ reply.Frame frame →
        IsNobodys (world_of settings before) frame }
    ensures for_tables { (settings : Settings) (before : List (Record A)) (r : Record A) (frame : FrameNo) →
        IsRun settings (before ++ r ∷ []) → Contains r.taken frame → IsNobodys (world_of settings before) frame }
    ensures once { (settings : Settings) (before : List (Record A)) (r : Record A) (frame : FrameNo) (i j : ℕ) →
        IsRun settings (before ++ r ∷ []) → slice_get r.taken i ≡ Some frame →
        slice_get r.taken j ≡ Some frame →
        i ≡ j }
{}

/// In every run, a page of a user has one row, and a frame is the page of one row.
pub fn user_pages_have_a_row_each<A: Allocator>()
    ensures pages { (settings : Settings) (records : List (Record A)) (i j : ℕ) (page other : UserPage) →
        IsRun settings records → slice_get (world_of settings records).user_pages i ≡ Some page →
        slice_get (world_of settings records).user_pages j ≡ Some other →
        page.user.0 ≡ other.user.0 → page.page ≡ other.page → i ≡ j }
    ensures frames { (settings : Settings) (records : List (Record A)) (i j : ℕ) (page other : UserPage) →
        IsRun settings records → slice_get (world_of settings records).user_pages i ≡ Some page →
        slice_get (world_of settings records).user_pages j ≡ Some other →
        page.frame.0 ≡ other.frame.0 → i ≡ j }
{}

/// In every run, a device translates by a page table of its own width, as the settings have it. Devices are numbered
/// from 1.
pub fn page_tables_have_their_devices_width<A: Allocator>()
    ensures { (settings : Settings) (records : List (Record A)) (a : Attachment) (table : Object) (ioas : ObjId)
        (width : Width) (automatic : Bool) (n : ℕ) (device : DeviceSettings) → IsRun settings records →
        Contains (world_of settings records).attachments a → Contains (world_of settings records).objects table →
        table.file ≡ a.file → table.id ≡ a.hwpt → table.kind ≡ kind.Hwpt ioas width automatic →
        a.device.0 ≡ n + 1 → slice_get settings.devices n ≡ Some device → width ≡ device.width }
{}

/// In every run, each table is of a page table that is there, and of a level that tables of that width have: 3 levels
/// for 39 bits, 4 for 48.
pub fn tables_are_of_their_page_tables_width<A: Allocator>()
    ensures { (settings : Settings) (records : List (Record A)) (table : TableFrame) → IsRun settings records →
        Contains (world_of settings records).table_frames table → HasPlace (world_of settings records) table }
{}
