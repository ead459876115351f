//! What a script opens a server with.

ghost use Rattle.std.specs.Prelude.{◌≡◌, None, IfOk, OnOk};
ghost use Rattle.std.specs.List.{fold};
ghost use Rattle.iofd_words.specs.Limits.{first_outside};
ghost use Rattle.iommufd_script.specs.Lines.{lines};
ghost use Rattle.iommufd_script.specs.Script.{first_bad_line};
ghost use Rattle.iommufd_script.specs.Opening.{headings, nothing_set, set_by, settings_of, script_of, Answers};

use crate::error::ScriptError;
use crate::line::{HeadLine, Line};
use crate::parsing::parse_line;
use crate::script::Steps;
use crate::split::split_line;
use iofd_words::{Config, DeviceConfig, NoMemory, UserNo};
use std::alloc::Allocator;
use std::marker::Model;

// What the lines of the head have said so far.
#[derive(Drop)]
struct Head<A: Allocator> {
    pool: u32,
    users: Vec<u64, A>,
    files: Vec<UserNo, A>,
    devices: Vec<DeviceConfig<A>, A>,
}

impl<A: Allocator> Model for Head<A> {
    ghost use Rattle.iofd_words.specs.Settings.{Settings};

    ghost Value = { Settings };

    ghost view = { λ head. record {
      pool = head.pool;
      users = head.users.items;
      files = head.files.items;
      devices = head.devices.items;
      passes = 1;
    } };
}

impl<A: Allocator + Copy> Head<A> {
    // Before the first line. It takes no memory.
    fn new(alloc: A) -> Head<A>
        ensures { result ≡ nothing_set }
    {
        Head {
            pool: 0,
            users: Vec::new(alloc),
            files: Vec::new(alloc),
            devices: Vec::new(alloc),
        }
    }

    // Adds what a line says.
    fn add(&mut self, alloc: A, line: HeadLine<'_>) -> Result<(), NoMemory>
        ensures { OnOk result (self.new ≡ set_by self.old line.entry) }
    {
        match line {
            HeadLine::Pool(frames) => self.pool = frames,
            HeadLine::User(limit) => self.users.push(limit)?,
            HeadLine::File(user) => self.files.push(user)?,
            HeadLine::Device(source, width, x86, spans) => {
                let reserved = spans.to_list(alloc)?;
                self.devices
                    .push(DeviceConfig::new(source, width, x86, reserved))?;
            }
            HeadLine::Begin => {}
        }
        Ok(())
    }
}

// Adds what the lines up to `begin` say. The head is the caller's, so that no early end has to drop it.
fn add_lines<A: Allocator + Copy>(head: &mut Head<A>, alloc: A, text: &[u8]) -> Result<(), NoMemory>
    ensures { OnOk result (head.new ≡ fold set_by head.old (headings (lines text.now))) }
{
    let mut rest = text;
    while !rest.is_empty() {
        let (line, others) = split_line(rest);
        rest = others;
        match parse_line(line) {
            Some(Line::Head(HeadLine::Begin)) => return Ok(()),
            Some(Line::Head(heading)) => head.add(alloc, heading)?,
            _ => {}
        }
    }
    Ok(())
}

// What the lines up to `begin` say.
#[tactic(auto, unfolding(crate::specs::Opening::settings_of))]
fn read_head<A: Allocator + Copy>(alloc: A, text: &[u8]) -> Result<Head<A>, NoMemory>
    ensures { IfOk result (λ head. head ≡ settings_of text.now) }
{
    let mut head = Head::new(alloc);
    add_lines(&mut head, alloc, text)?;
    Ok(head)
}

// The configuration that the head asks for.
fn opened<A: Allocator>(head: Head<A>) -> Config<A>
    requires { first_outside head ≡ None }
    ensures { result ≡ head }
{
    let Head {
        pool,
        users,
        files,
        devices,
    } = head;
    match Config::new(pool, users, files, devices, 1) {
        Ok(config) => config,
        Err(_) => unreachable!(),
    }
}

/// Reads a script whole: what it opens a server with, and its steps.
///
/// The error is BadLine with the number of the first bad line (`first_bad_line`), whatever memory there
/// is; else NoMemory where the memory for the head or for the steps was refused.
#[tactic(auto, unfolding(crate::specs::Opening::script_of))]
pub fn read_script<'a, A: Allocator + Copy>(
    alloc: A,
    text: &'a [u8],
) -> Result<(Config<A>, Steps<'a, A>), ScriptError>
    ensures { Answers (λ script. script) result (script_of text.now) }
{
    let steps = Steps::read(alloc, text)?;
    let head = read_head(alloc, text)?;
    Ok((opened(head), steps))
}
