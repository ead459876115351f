//! A head, appended to bytes.

ghost use Rattle.std.specs.Prelude.{◌≡◌, ◌^◌, ◌<◌, ◌++◌, true, List, ℕ, OnOk, OnErr, length};
ghost use Rattle.std.specs.List.{AllByRecursion, list_all};
ghost use Rattle.iofd_words.specs.Settings.{is_device_in_limits};
ghost use Rattle.journal_audit_bytes.specs.Head.{CountedFit, DeviceFits, SpellsHead, all_spelled, counted};
ghost use Rattle.journal_audit_bytes.specs.Head.{device_spelled, head_spelled};
ghost use Rattle.journal_audit_bytes.specs.declared.version.Version.TheVariants.{Two};
ghost use Rattle.journal_audit_writing.specs.Writing.{Appends};

use crate::number::{Number, Spell, put, spell_all, spell_counted};
use iofd_words::{Config, DeviceConfig, NoMemory};
use journal_audit_bytes::Version;
use std::alloc::Allocator;

// Appends a device that is within its limits.
fn spell_device<A: Allocator, B: Allocator>(
    out: &mut Vec<u8, A>,
    device: &DeviceConfig<B>,
) -> Result<(), NoMemory>
    requires { is_device_in_limits device.now ≡ true }
    ensures bytes { Appends result out.old.items out.new.items (device_spelled device.now) }
    ensures fits { OnOk result (DeviceFits Two device.now) }
{
    let (source, width, x86) = (device.source().0, device.width().bits(), device.is_x86());
    let numbers = [
        Number::U16(source),
        Number::U8(width),
        Number::U8(u8::from(x86)),
    ];
    spell_all(out, &numbers)?;
    spell_counted(out, device.reserved())
}

// Appends devices that are within their limits.
fn spell_devices<A: Allocator, B: Allocator>(
    out: &mut Vec<u8, A>,
    devices: &[DeviceConfig<B>],
) -> Result<(), NoMemory>
    requires { list_all is_device_in_limits devices.now ≡ true }
    ensures bytes { Appends result out.old.items out.new.items (all_spelled device_spelled devices.now) }
    ensures fits { OnOk result (AllByRecursion (λ device. DeviceFits Two device) devices.now) }
{
    for device in devices {
        spell_device(out, device)?;
    }
    Ok(())
}

// Appends a head of version 2.
fn spell_head<A: Allocator, B: Allocator>(
    config: &Config<A>,
    out: &mut Vec<u8, B>,
) -> Result<(), NoMemory>
    ensures bytes { Appends result out.old.items out.new.items (head_spelled Two config.now) }
    ensures spells { OnOk result (SpellsHead Two config.now (head_spelled Two config.now)) }
{
    let (pool, devices, passes) = (config.pool(), config.devices(), config.passes());
    put(out, Version::Two.mark())?;
    Number::U32(pool).spell(out)?;
    spell_counted(out, config.users())?;
    spell_counted(out, config.files())?;
    Number::U16(devices.len() as u16).spell(out)?;
    spell_devices(out, devices)?;
    Number::U16(passes).spell(out)
}

/// Appends the bytes of the head of a journal of version 2 with this configuration. The error comes only where memory
/// was refused, and leaves the bytes as they were.
pub fn write_head<A: Allocator, B: Allocator>(
    config: &Config<A>,
    out: &mut Vec<u8, B>,
) -> Result<(), NoMemory>
    ensures ok { OnOk result
        ((text : List ℕ) × SpellsHead Two config.now text × (out.new.items ≡ out.old.items ++ text)) }
    ensures err { OnErr result (out.new.items ≡ out.old.items) }
{
    let length = out.len();
    match spell_head(config, out) {
        Ok(()) => Ok(()),
        Err(NoMemory) => {
            out.truncate(length);
            Err(NoMemory)
        }
    }
}
