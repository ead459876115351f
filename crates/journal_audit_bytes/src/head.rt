//! From bytes to what a server was opened with.

ghost use Rattle.std.specs.Prelude.{◌≡◌, ◌++◌, List, ℕ, Some, IfOk, option_map};
ghost use Rattle.iofd_words.specs.Settings.{Settings};
ghost use Rattle.journal_audit_bytes.specs.Head.{BeginWithUsers, SpellsHead};
ghost use Rattle.journal_audit_bytes.specs.HeadReading.{device_at, head_at, limit_at, span_at};
ghost use Rattle.journal_audit_bytes.specs.HeadReading.{user_at, version_at, width_at, x86_at};
ghost use Rattle.journal_audit_bytes.specs.Reading.{Gives, OnMemory};
ghost use Rattle.journal_audit_bytes.specs.declared.version.Version.{Version};

use crate::counted::{Element, counted_at};
use crate::numbers::{u8_at, u16_at, u32_at, u64_at};
use crate::spelled::ReadError;
use crate::version::Version;
use iofd_words::{Config, DeviceConfig, SourceId, Span, SpanList, UserNo, Width};
use std::alloc::Allocator;

// The limit of a user's pinned pages.
impl<A: Allocator> Element<A> for u64 {
    ghost at = { λ _. limit_at };

    ghost least = { 8 };

    #[tactic(auto, unfolding(crate::specs::HeadReading::limit_at))]
    fn read(_alloc: A, _version: Version, bytes: &[u8]) -> Result<(u64, &[u8]), ReadError> {
        u64_at(bytes).ok_or(ReadError::Torn)
    }

    fn least() -> usize {
        8
    }
}

// The user of a file.
impl<A: Allocator> Element<A> for UserNo {
    ghost at = { λ _. user_at };

    ghost least = { 2 };

    #[tactic(auto, unfolding(crate::specs::HeadReading::user_at))]
    fn read(_alloc: A, _version: Version, bytes: &[u8]) -> Result<(UserNo, &[u8]), ReadError> {
        let Some((user, rest)) = u16_at(bytes) else {
            return Err(ReadError::Torn);
        };
        Ok((UserNo(user), rest))
    }

    fn least() -> usize {
        2
    }
}

// A reserved span of a device.
impl<A: Allocator> Element<A> for Span {
    ghost at = { λ _. span_at };

    ghost least = { 16 };

    #[tactic(auto, unfolding(crate::specs::HeadReading::span_at))]
    fn read(_alloc: A, _version: Version, bytes: &[u8]) -> Result<(Span, &[u8]), ReadError> {
        let Some((first, rest)) = u64_at(bytes) else {
            return Err(ReadError::Torn);
        };
        let Some((last, rest)) = u64_at(rest) else {
            return Err(ReadError::Torn);
        };
        match Span::new(first, last) {
            Some(span) => Ok((span, rest)),
            None => Err(ReadError::Torn),
        }
    }

    fn least() -> usize {
        16
    }
}

impl<A: Allocator + Copy> Element<A> for DeviceConfig<A> {
    ghost at = { device_at };

    ghost least = { 6 };

    #[tactic(auto, unfolding(crate::specs::HeadReading::device_at))]
    fn read(
        alloc: A,
        version: Version,
        bytes: &[u8],
    ) -> Result<(DeviceConfig<A>, &[u8]), ReadError> {
        let Some((source, rest)) = u16_at(bytes) else {
            return Err(ReadError::Torn);
        };
        let Some((width, rest)) = width_at(version, rest) else {
            return Err(ReadError::Torn);
        };
        let Some((x86, rest)) = x86_at(rest) else {
            return Err(ReadError::Torn);
        };
        let (reserved, rest) = counted_at(alloc, version, rest)?;
        let device = DeviceConfig::new(SourceId(source), width, x86, SpanList::new(reserved));
        Ok((device, rest))
    }

    fn least() -> usize {
        6
    }
}

// The width of a device's addresses.
#[tactic(auto, unfolding(crate::specs::HeadReading::width_at))]
fn width_at(version: Version, bytes: &[u8]) -> Option<(Width, &[u8])>
    ensures { width_at version bytes.now ≡ option_map (λ x. (x.0, x.1.now)) result }
{
    let (bits, rest) = u8_at(bytes)?;
    let width = version.width_of(bits)?;
    Some((width, rest))
}

// Whether it is an x86 device.
#[tactic(auto, unfolding(crate::specs::HeadReading::x86_at))]
fn x86_at(bytes: &[u8]) -> Option<(bool, &[u8])>
    ensures { x86_at bytes.now ≡ option_map (λ x. (x.0, x.1.now)) result }
{
    let (number, rest) = u8_at(bytes)?;
    match number {
        0 => Some((false, rest)),
        1 => Some((true, rest)),
        _ => None,
    }
}

// The version whose mark stands at the front, and the bytes behind it.
#[tactic(auto, unfolding(crate::specs::HeadReading::version_at))]
fn version_at(bytes: &[u8]) -> Option<(Version, &[u8])>
    ensures { version_at bytes.now ≡ option_map (λ x. (x.0, x.1.now)) result }
{
    if let Some(rest) = bytes.strip_prefix(Version::One.mark()) {
        return Some((Version::One, rest));
    }
    let rest = bytes.strip_prefix(Version::Two.mark())?;
    Some((Version::Two, rest))
}

#[tactic(auto, unfolding(crate::specs::HeadReading::head_at, crate::specs::HeadReading::settings_if))]
fn head_at<A: Allocator + Copy>(
    alloc: A,
    bytes: &[u8],
) -> Result<(Version, Config<A>, &[u8]), ReadError>
    ensures read { Gives (λ x. (x.0, x.1, x.2.now)) result (head_at bytes.now) }
    ensures memory { OnMemory result (BeginWithUsers bytes.now) }
{
    let Some((version, rest)) = version_at(bytes) else {
        return Err(ReadError::Torn);
    };
    let Some((pool, rest)) = u32_at(rest) else {
        return Err(ReadError::Torn);
    };
    let (users, rest) = counted_at(alloc, version, rest)?;
    let (files, rest) = counted_at(alloc, version, rest)?;
    let (devices, rest) = counted_at(alloc, version, rest)?;
    let Some((passes, rest)) = u16_at(rest) else {
        return Err(ReadError::Torn);
    };
    match Config::new(pool, users, files, devices, passes) {
        Ok(config) => Ok((version, config, rest)),
        Err(_) => Err(ReadError::Torn),
    }
}

/// The version and the configuration that the head at the front of the bytes says, and the bytes after it. The error is
/// Torn where the bytes begin with no head of either version: they begin with neither mark, end within the head, or a
/// width of the version, an x86 mark or a limit of a configuration is broken. It is Memory where the memory for a list
/// was refused; a list for which the bytes are too few takes none. So it is Memory only where the bytes begin with a
/// mark, the size of the pool and the limits of the users.
pub fn read_head<A: Allocator + Copy>(
    alloc: A,
    bytes: &[u8],
) -> Result<(Version, Config<A>, &[u8]), ReadError>
    // What is read is spelled so.
    ensures found { IfOk result
        (λ x. (text : List ℕ) × SpellsHead x.0 x.1 text × (bytes.now ≡ text ++ x.2.now)) }
    // What is spelled so is read, unless memory was refused: the bytes are torn only where they begin with no head.
    ensures only { (version : Version) (s : Settings) (text rest : List ℕ) → SpellsHead version s text →
        bytes.now ≡ text ++ rest →
        Gives {Y = Version × Settings × List ℕ} (λ x. (x.0, x.1, x.2.now)) result (Some (version, s, rest)) }
    // Memory is told only of bytes that begin with a mark, the size of the pool and the limits of the users.
    ensures memory { OnMemory result (BeginWithUsers bytes.now) }
    // A head of a version has one spelling.
    ensures one { (version : Version) (s : Settings) (a b : List ℕ) → SpellsHead version s a →
        SpellsHead version s b → a ≡ b }
{
    head_at(alloc, bytes)
}
