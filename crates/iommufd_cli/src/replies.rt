//! The lines that a session answers to the steps of a script.

ghost use Rattle.std.specs.Prelude.{◌≡◌, ◌≤◌, ◌<◌, ◌^◌, ◌+◌, ◌*◌, ◌++◌, IfOk};
ghost use Rattle.std.specs.Prelude.{[], codes, length, decimal};
ghost use Rattle.hex.specs.Hex.{encode_lower};
ghost use Rattle.iommufd_cli.specs.Replies.{line, refusal_text, pending_text, memory_text, no_memory_text};
ghost use Rattle.iommufd_cli.specs.Replies.{bad_line_text, fault_text, reply_text, written_text, ioctl_text};
ghost use Rattle.iommufd_cli.specs.Replies.{answer_text, notice_text, notices_text, places_text, ranges_text};
ghost use Rattle.iommufd_cli.specs.Replies.{report_text};

use crate::byte_digits::hex_digits;
use crate::line::Line;
use crate::names::{name_of_cause, name_of_kind};
use ioctl_codec::{Command, RangesRequest, encode_ranges, encode_reply_to};
use iofd_words::{Answer, Cause, DirtyRequest, Errno, Fault, NoMemory, Refusal, Reply, Span};
use iommufd_core::AnswerInPlace;
use std::alloc::Allocator;

impl Line {
    /// Tells a reply to a step that is no ioctl: `ok`, `ok id N` and `ok frame N` in decimal, the errno and
    /// the cause of a refusal, the errno and `Pending`, or the fault. A line feed ends it.
    pub fn tell_reply(&mut self, reply: &Reply)
        ensures { self.new ≡ line (reply_text reply.now) }
    {
        match *reply {
            Reply::Done | Reply::Iova(_) | Reply::Bytes(_) | Reply::Passed(_) | Reply::Dirty(_) =>
                self.tell(b"ok"),
            Reply::Id(id) => self.tell_number(b"ok id ", u64::from(id.0)),
            Reply::Frame(frame) => self.tell_number(b"ok frame ", u64::from(frame.0)),
            Reply::Pending(errno) => self.tell_pending(errno),
            Reply::Fault(fault) => self.tell_fault(fault),
            Reply::Refused(refusal) => self.tell_refusal(refusal),
        }
    }

    /// Tells a reply to an ioctl that was given this command: the errno and the cause of a refusal, the errno
    /// and `Pending`, and for any other reply `0` and in hex what is written back, at most 64 bytes. A line
    /// feed ends it.
    pub fn tell_ioctl<A: Allocator>(&mut self, command: &Command<A>, reply: &Reply)
        ensures { self.new ≡ line (ioctl_text command.now reply.now) }
    {
        match *reply {
            Reply::Pending(errno) => self.tell_pending(errno),
            Reply::Refused(refusal) => self.tell_refusal(refusal),
            _ => self.tell_written(command, reply),
        }
    }

    /// Tells an answer to a look: the bytes in hex, the count, the id or the frame in decimal, `ok` alone where there
    /// is no id or no frame, the fault, or the errno and the cause of a refusal. A line feed ends it.
    pub fn tell_answer(&mut self, answer: &Answer)
        ensures { self.new ≡ line (answer_text answer.now) }
    {
        match answer {
            Answer::Read(bytes) => self.tell_hex(b"ok ", bytes.as_slice()),
            Answer::Count(count) => self.tell_number(b"ok ", *count),
            Answer::Attached(Some(id)) => self.tell_number(b"ok id ", u64::from(id.0)),
            Answer::Walk(Some(to)) => self.tell_number(b"ok frame ", u64::from(to.frame.0)),
            Answer::Attached(None) | Answer::Walk(None) | Answer::Dirty(_) => self.tell(b"ok"),
            Answer::Fault(fault) => self.tell_fault(*fault),
            Answer::Refused(refusal) => self.tell_refusal(*refusal),
        }
    }

    /// Tells an answer to a look as `tell_answer` does. The bytes of a read are told from the memory that was read.
    pub fn tell_in_place(&mut self, answer: &AnswerInPlace<'_>)
        ensures { self.new ≡ line (answer_text answer.now) }
    {
        match answer.bytes() {
            Some(bytes) => self.tell_hex(b"ok ", bytes),
            None => self.tell_answer(&answer.answer()),
        }
    }

    /// Tells the answer to a report of written pages that doesn't clear, as an ioctl's: `0` and in hex what is written
    /// back, or the errno and the cause of a refusal. A line feed ends it.
    pub fn tell_report(&mut self, request: DirtyRequest, answer: &Answer)
        ensures { self.new ≡ line (report_text request answer.now) }
    {
        match answer {
            Answer::Dirty(words) => {
                let command: Command = Command::DirtyReport(request, false);
                self.tell_written(&command, &Reply::Dirty(*words));
            }
            _ => self.tell_answer(answer),
        }
    }

    /// Tells a refusal, also of bytes that spell no command: the errno in decimal, and the cause. A line feed
    /// ends it.
    pub fn tell_refusal(&mut self, refusal: Refusal)
        ensures { self.new ≡ line (refusal_text refusal.cause) }
    {
        self.put_refusal(refusal);
        self.push_slice(b"\n");
    }

    /// Tells that an access object has no notice: `ok`. A line feed ends it.
    pub fn tell_no_notice(&mut self)
        ensures { self.new ≡ line (notices_text []) }
    {
        self.tell(b"ok");
    }

    /// Tells that a step was refused for want of memory: `12 Memory`. A line feed ends it.
    pub fn tell_memory(&mut self)
        ensures { self.new ≡ line memory_text }
    {
        self.tell(b"12 Memory");
    }

    // A text that has no number in it.
    fn tell(&mut self, text: &[u8])
        requires { length text.now ≤ 191 }
        ensures { self.new ≡ line text.now }
    {
        self.clear();
        self.push_slice(text);
        self.push_slice(b"\n");
    }

    /// A text with a decimal number behind it. A line feed ends it.
    pub(crate) fn tell_number(&mut self, text: &[u8], number: u64)
        requires { length text.now ≤ 171 }
        ensures { self.new ≡ line (text.now ++ decimal number) }
    {
        self.clear();
        self.push_slice(text);
        self.push_decimal(number);
        self.push_slice(b"\n");
    }

    // A text with bytes in hex behind it.
    fn tell_hex(&mut self, text: &[u8], bytes: &[u8])
        requires { length text.now + 2 * length bytes.now ≤ 191 }
        ensures { self.new ≡ line (text.now ++ encode_lower bytes.now) }
    {
        self.clear();
        self.push_slice(text);
        self.push_hex(bytes);
        self.push_slice(b"\n");
    }

    // An UNMAP that has to be called again.
    fn tell_pending(&mut self, errno: Errno)
        ensures { self.new ≡ line (pending_text errno) }
    {
        self.clear();
        self.push_decimal(u64::from(errno.number()));
        self.push_slice(b" Pending");
        self.push_slice(b"\n");
    }

    // An ioctl whose errno is 0.
    fn tell_written<A: Allocator>(&mut self, command: &Command<A>, reply: &Reply)
        ensures { self.new ≡ line (written_text command.now reply.now) }
    {
        let mut buffer = [0; 64];
        let count = encode_reply_to(command, reply, &mut buffer);
        self.tell_hex(b"0 ", &buffer[..count]);
    }

    // A denied access of a device.
    fn tell_fault(&mut self, fault: Fault)
        ensures { self.new ≡ line (fault_text fault) }
    {
        self.clear();
        self.push_slice(b"fault ");
        self.push_decimal(u64::from(fault.reason.number()));
        self.push_slice(b" source ");
        self.push_hex(&fault.source.0.to_be_bytes());
        self.push_slice(b" page ");
        self.push_hex_number(fault.page);
        self.push_slice(b" ");
        self.push_slice(name_of_kind(fault.kind));
        self.push_slice(b"\n");
    }

    // The errno and the cause, with no line feed.
    fn put_refusal(&mut self, refusal: Refusal)
        ensures text { self.new ≡ refusal_text refusal.cause }
        ensures most { length self.new ≤ 190 }
    {
        self.clear();
        self.push_decimal(u64::from(refusal.errno().number()));
        self.push_slice(b" ");
        self.push_slice(name_of_cause(refusal.cause));
    }
}

/// The line where there is no memory to read the script or to open the server: `no memory`. A line feed
/// ends it.
pub fn no_memory_line() -> Line
    ensures { result ≡ line no_memory_text }
{
    let mut line = Line::new();
    line.tell(b"no memory");
    line
}

/// The line where there is no memory for a journal: `12 Memory`. A line feed ends it.
pub fn memory_line() -> Line
    ensures { result ≡ line memory_text }
{
    let mut line = Line::new();
    line.tell_memory();
    line
}

/// The line for an audited input that is no hex: `bad hex`. A line feed ends it.
pub fn bad_hex_line() -> Line
    ensures { result ≡ line (codes "bad hex") }
{
    let mut line = Line::new();
    line.tell(b"bad hex");
    line
}

/// The line for a script that is refused: `bad line N`, the number of its first bad line, counted from
/// 1. A line feed ends it.
pub fn bad_line(number: u64) -> Line
    ensures { result ≡ line (bad_line_text number) }
{
    let mut line = Line::new();
    line.tell_number(b"bad line ", number);
    line
}

/// The line for the usable ranges of an address space, which the request asks for: `0`, or `90 Places` where it has
/// fewer places than there are ranges, and in hex what is written back. A line feed ends it. It may be long, so it
/// takes memory, and fails only where that does.
pub fn ranges_line<A: Allocator + Copy>(
    alloc: A,
    request: RangesRequest,
    ranges: &[Span],
) -> Result<Vec<u8, A>, NoMemory>
    requires { length ranges.now < 2 ^ 32 }
    ensures { IfOk result (λ text. text.items ≡ line (ranges_text request ranges.now)) }
{
    let bytes = encode_ranges(alloc, request, ranges)?;
    let digits = hex_digits(alloc, &bytes)?;
    let mut text = Vec::from_slice(alloc, places_words(request, ranges.len()).as_slice())?;
    text.extend_from_slice(&digits)?;
    text.extend_from_slice(b"\n")?;
    Ok(text)
}

/// The line for the notices of an access object, which have these spans: `ok`, and for each a space and its first and
/// last address in hex. A line feed ends it. It may be long, so it takes memory, and fails only where that does.
pub fn notices_line<A: Allocator>(alloc: A, spans: &[Span]) -> Result<Vec<u8, A>, NoMemory>
    ensures { IfOk result (λ text. text.items ≡ line (notices_text spans.now)) }
{
    let mut text = Vec::from_slice(alloc, b"ok")?;
    for span in spans {
        text.extend_from_slice(notice_words(*span).as_slice())?;
    }
    text.extend_from_slice(b"\n")?;
    Ok(text)
}

// A notice, behind the space that parts it from what stands before.
fn notice_words(span: Span) -> Line
    ensures { result ≡ notice_text span }
{
    let mut words = Line::new();
    words.push_slice(b" ");
    words.push_hex_number(span.first());
    words.push_slice(b"-");
    words.push_hex_number(span.last());
    words
}

// What stands before the digits: `0`, or the refusal where there are too few places for so many ranges.
fn places_words(request: RangesRequest, count: usize) -> Line
    ensures { result ≡ places_text request count }
{
    let mut words = Line::new();
    if (request.places as usize) < count {
        words.put_refusal(Refusal {
            cause: Cause::Places,
        });
        words.push_slice(b" ");
    } else {
        words.push_slice(b"0 ");
    }
    words
}
