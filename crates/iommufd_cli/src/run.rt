//! A session: from a script's bytes to the lines of its replies.

ghost use Rattle.std.specs.Prelude.{◌≡◌, ◌++◌, true, IfErr, IfOk, IfSome, OnErr, OnOk};
ghost use Rattle.std.specs.Io.KnownBytes.{Appends};
ghost use Rattle.std.specs.Option.{option_or};
ghost use Rattle.iommufd_cli.specs.Failures.{BeginsEnd, BeginsLines, BeginsRunText, BeginsSteps, BeginsText, IsWithin};
ghost use Rattle.iommufd_cli.specs.Failures.{Leaves};
ghost use Rattle.iommufd_cli.specs.Journal.{EndText};
ghost use Rattle.iommufd_cli.specs.Leaving.{LeavesServer, last_of_lines, server_of, server_of_begun};
ghost use Rattle.iommufd_cli.specs.Leaving.{server_of_begun_run, server_of_run};
ghost use Rattle.iommufd_cli.specs.Output.{IsFinal, IsFront, Writes};
ghost use Rattle.iommufd_cli.specs.Session.{IsReadText, IsRunText, IsText, StepsLines, StepsText};
ghost use Rattle.iommufd_cli.specs.Steps.{text_of};

use crate::fault::CliFault;
use crate::input::read_all;
use crate::journal::journal_line;
use crate::line::Line;
use crate::output::put;
use crate::page::Page;
use crate::replies::{bad_line, memory_line, no_memory_line};
use crate::steps::answer_step;
use iofd_words::{Config, Record};
use iommufd_core::Core;
use iommufd_script::{ScriptError, Steps, read_script};
use std::alloc::{Allocator, Global};
use std::io::{self, Read, Write};
use std::marker::Model;

/// Carries out the script that the reader gives, and writes the line of each step, or one line alone where the
/// script has a bad line or there is no memory for it. The answer is the exit status: 0, or 1 in those two cases.
/// Where a journal is asked for, it comes behind the lines of the steps, as a line of its own; where that can't be had,
/// `12 Memory` does.
///
/// The errors are a read that fails, a script of more than 2^24 bytes, and a write that fails. The first two write
/// nothing. At the last a beginning of the lines was written, and never all of them.
pub fn session<R: Read, W: Write, A: Allocator + Copy>(
    alloc: A,
    reader: &mut R,
    writer: &mut W,
    journal: bool,
) -> Result<u8, CliFault>
    ensures text { IfOk result (λ status. IfSome (R.remaining reader.old) (λ input.
        Writes (λ out. IsText A input journal out status × IsWithin input out status) (W.contents writer.old)
        (W.contents writer.new))) }
    ensures fault { IfErr result (λ fault.
        Leaves A fault (R.remaining reader.old) journal (W.contents writer.old) (W.contents writer.new)) }
{
    serve(alloc, reader, writer, journal, &mut Served::new())
}

/// What a session leaves in memory, of which a contract sees the server, or that there is none. Letting it go takes two
/// or three hundredths of the session's time, which a program that ends behind its session spares by `mem::forget`.
#[derive(Drop)]
pub struct Served<A: Allocator = Global> {
    server: Option<Core<A>>,
}

impl<A: Allocator> Model for Served<A> {
    ghost use Rattle.std.specs.Prelude.{Option};
    ghost use Rattle.iommufd_core.specs.Server.{Server};

    ghost Value = { Option (Server A) };

    ghost view = { λ s. s.server };
}

impl<A: Allocator> Served<A> {
    /// Nothing as yet. It takes no memory.
    pub fn new() -> Served<A>
        ensures { result ≡ None }
    {
        Served { server: None }
    }
}

/// Does what `session` does, and leaves its server to the caller, in place of what was there. Where a write fails, that
/// is the server behind the steps that were carried out. Where none was opened, what was there stays.
pub fn serve<R: Read, W: Write, A: Allocator + Copy>(
    alloc: A,
    reader: &mut R,
    writer: &mut W,
    journal: bool,
    served: &mut Served<A>,
) -> Result<u8, CliFault>
    ensures text { IfOk result (λ status. IfSome (R.remaining reader.old) (λ input.
        Writes (λ out. (text : IsText A input journal out status) × IsWithin input out status
        × (served.new ≡ option_or (server_of text) served.old)) (W.contents writer.old) (W.contents writer.new))) }
    ensures fault { IfErr result (λ fault.
        LeavesServer A fault (R.remaining reader.old) journal (W.contents writer.old) (W.contents writer.new)
        served.old served.new) }
{
    let Some(text) = read_all(alloc, reader)? else {
        return told(writer, &no_memory_line()).map_err(CliFault::Output);
    };
    run_text(alloc, &text, writer, journal, &mut served.server).map_err(CliFault::Output)
}

// Carries out a script, given whole, and leaves the server where it is told to.
fn run_text<W: Write, A: Allocator + Copy>(
    alloc: A,
    text: &[u8],
    writer: &mut W,
    journal: bool,
    server: &mut Option<Core<A>>,
) -> io::Result<u8>
    ensures text { IfOk result (λ status.
        Writes (λ out. (told : IsReadText A text.now journal out status)
        × (server.new ≡ option_or (server_of told) server.old)) (W.contents writer.old) (W.contents writer.new)) }
    ensures begun { OnErr result (Writes (λ out. (begun : BeginsText A text.now journal out)
        × (server.new ≡ option_or (server_of_begun begun) server.old)) (W.contents writer.old)
        (W.contents writer.new)) }
    ensures retried { IfErr result IsFinal }
{
    match read_script(alloc, text) {
        Ok((config, mut steps)) => {
            run_script(alloc, &config, &mut steps, writer, journal, server)
        }
        Err(ScriptError::BadLine(number)) => told(writer, &bad_line(number)),
        Err(ScriptError::NoMemory) => told(writer, &no_memory_line()),
    }
}

// Opens a server, and carries out the steps.
fn run_script<W: Write, A: Allocator + Copy>(
    alloc: A,
    config: &Config<A>,
    steps: &mut Steps<'_, A>,
    writer: &mut W,
    journal: bool,
    server: &mut Option<Core<A>>,
) -> io::Result<u8>
    ensures text { IfOk result (λ status.
        Writes (λ out. (text : IsRunText A config.now steps.old journal out status)
        × (server.new ≡ option_or (server_of_run text) server.old)) (W.contents writer.old) (W.contents writer.new)) }
    ensures begun { OnErr result (Writes (λ out. (begun : BeginsRunText A config.now steps.old journal out)
        × (server.new ≡ option_or (server_of_begun_run begun) server.old)) (W.contents writer.old)
        (W.contents writer.new)) }
    ensures retried { IfErr result IsFinal }
{
    match Core::new(alloc, config) {
        Ok(core) => run_whole(alloc, config, server.insert(core), steps, writer, journal),
        Err(_) => told(writer, &no_memory_line()),
    }
}

/// Writes one line alone. Status 1.
pub(crate) fn told<W: Write>(writer: &mut W, line: &Line) -> io::Result<u8>
    ensures text { IfOk result (λ status. (status ≡ 1)
        × Appends (W.contents writer.old) (W.contents writer.new) line.now) }
    ensures begun { OnErr result (Writes (λ out. IsFront out line.now) (W.contents writer.old)
        (W.contents writer.new)) }
    ensures retried { IfErr result IsFinal }
{
    put(writer, line.as_slice())?;
    Ok(1)
}

// Carries out the steps, and writes the journal behind them where it is asked for. Status 0.
fn run_whole<W: Write, A: Allocator + Copy>(
    alloc: A,
    config: &Config<A>,
    core: &mut Core<A>,
    steps: &mut Steps<'_, A>,
    writer: &mut W,
    journal: bool,
) -> io::Result<u8>
    ensures text { IfOk result (λ status.
        Writes (λ out. (text : StepsText journal config.now core.old steps.old out) × (status ≡ 0)
        × (core.new ≡ text.last)) (W.contents writer.old) (W.contents writer.new)) }
    ensures begun { OnErr result (Writes (λ out. (begun : BeginsLines journal config.now core.old steps.old out)
        × (core.new ≡ last_of_lines begun)) (W.contents writer.old) (W.contents writer.new)) }
    ensures retried { IfErr result IsFinal }
{
    run_steps(alloc, core, steps, writer)?;
    if journal {
        put_journal(alloc, config, core.records(), writer)?;
    }
    Ok(0)
}

// The line of the journal, or that there was no memory for it.
fn put_journal<W: Write, A: Allocator + Copy>(
    alloc: A,
    config: &Config<A>,
    records: &[Record<A>],
    writer: &mut W,
) -> io::Result<()>
    ensures ok { OnOk result (Writes (EndText true config.now records.now) (W.contents writer.old)
        (W.contents writer.new)) }
    ensures err { OnErr result (Writes (BeginsEnd true config.now records.now) (W.contents writer.old)
        (W.contents writer.new)) }
    ensures retried { IfErr result IsFinal }
{
    match journal_line(alloc, config, records) {
        Ok(line) => put(writer, &line),
        Err(_) => put(writer, memory_line().as_slice()),
    }
}

// Carries out the steps in turn, and writes the line of each. Lines are kept until a page is full, since a call of the
// writer for each would take as long as many a step.
fn run_steps<W: Write, A: Allocator + Copy>(
    alloc: A,
    core: &mut Core<A>,
    steps: &mut Steps<'_, A>,
    writer: &mut W,
) -> io::Result<()>
    ensures text { OnOk result (Writes (λ out. StepsLines core.old steps.old out core.new) (W.contents writer.old)
        (W.contents writer.new)) }
    ensures begun { OnErr result (Writes (λ out. (begun : BeginsSteps core.old steps.old out)
        × (core.new ≡ begun.last)) (W.contents writer.old) (W.contents writer.new)) }
    ensures retried { IfErr result IsFinal }
{
    let mut page = Page::new();
    let mut line = Line::new();
    while let Some(step) = steps.next_step() {
        let long = answer_step(alloc, core, &step, &mut line);
        let bytes = answered(&long, &line);
        if bytes.len() <= page.room() {
            page.push_slice(bytes);
        } else {
            hand_on(writer, &mut page, bytes)?;
        }
    }
    put(writer, page.as_slice())
}

// Hands on what the page has, for which these bytes are too many, and keeps them in its place; bytes that no page has
// room for are handed on, too. It is no part of its caller's loop, whose steps seldom come here.
#[inline(never)]
fn hand_on<W: Write>(writer: &mut W, page: &mut Page, bytes: &[u8]) -> io::Result<()>
    ensures ok { OnOk result (Writes (λ out. out ++ page.new ≡ page.old ++ bytes.now) (W.contents writer.old)
        (W.contents writer.new)) }
    ensures err { OnErr result (Writes (λ out. IsFront out (page.old ++ bytes.now)) (W.contents writer.old)
        (W.contents writer.new)) }
    ensures retried { IfErr result IsFinal }
{
    put(writer, page.as_slice())?;
    page.clear();
    if bytes.len() > page.room() {
        return put(writer, bytes);
    }
    page.push_slice(bytes);
    Ok(())
}

// The bytes that a step is answered with: the long line where there is one, and else the one in place.
fn answered<'a, A: Allocator>(long: &'a Option<Vec<u8, A>>, line: &'a Line) -> &'a [u8]
    ensures { result.now ≡ text_of long.now line.now }
{
    match long {
        Some(text) => text.as_slice(),
        None => line.as_slice(),
    }
}
