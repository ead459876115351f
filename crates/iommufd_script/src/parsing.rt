//! From the text of a line to what it says.
#![tactic(auto, unfolding(crate::specs::Grammar::head_of, crate::specs::Grammar::step_at))]

ghost use Rattle.std.specs.Prelude.{◌≡◌, Some, None};
ghost use Rattle.std.specs.Char.{is_ascii};
ghost use Rattle.std.specs.List.{list_all};
ghost use Rattle.iommufd_script.specs.Fields.{fields};
ghost use Rattle.iommufd_script.specs.Grammar.{head_keyword, head_of, step_at, step_keyword};
ghost use Rattle.iommufd_script.specs.Lines.{head_or_step, is_skipped, line_of, step_line, worded};
ghost use Rattle.iommufd_script.specs.declared.keyword.HeadKeyword.TheVariants as head;
ghost use Rattle.iommufd_script.specs.declared.keyword.StepKeyword.TheVariants as step;

use crate::fields::Fields;
use crate::keyword::{HeadKeyword, StepKeyword, head_keyword, step_keyword};
use crate::line::{HeadLine, Line, Step};
use iofd_words::{DeviceNo, FileNo, Iova, ObjId, PinRequest, SourceId, UserNo};

// `pool <n>`
fn pool(fields: Fields<'_>) -> Option<HeadLine<'_>>
    ensures { result ≡ head_of head.Pool fields.entry }
{
    let (frames, fields) = fields.decimal_u32()?;
    fields.end(HeadLine::Pool(frames))
}

// `user <n>`
fn user(fields: Fields<'_>) -> Option<HeadLine<'_>>
    ensures { result ≡ head_of head.User fields.entry }
{
    let (limit, fields) = fields.decimal_u64()?;
    fields.end(HeadLine::User(limit))
}

// `file <n>`
fn file(fields: Fields<'_>) -> Option<HeadLine<'_>>
    ensures { result ≡ head_of head.File fields.entry }
{
    let (user, fields) = fields.decimal_u16()?;
    fields.end(HeadLine::File(UserNo(user)))
}

// `device <4 hex digits> <39, 48 or 57> [x86] [<x>-<x> ..]`
fn device(fields: Fields<'_>) -> Option<HeadLine<'_>>
    ensures { result ≡ head_of head.Device fields.entry }
{
    let (source, fields) = fields.source()?;
    let (width, fields) = fields.width()?;
    let (x86, fields) = fields.mark();
    let (reserved, fields) = fields.spans()?;
    fields.end(HeadLine::Device(SourceId(source), width, x86, reserved))
}

// A line of the head, by its word and the fields behind it.
#[tactic(auto)]
fn head_line(keyword: HeadKeyword, fields: Fields<'_>) -> Option<HeadLine<'_>>
    ensures { result ≡ head_of keyword fields.entry }
{
    match keyword {
        HeadKeyword::Pool => pool(fields),
        HeadKeyword::User => user(fields),
        HeadKeyword::File => file(fields),
        HeadKeyword::Device => device(fields),
        HeadKeyword::Begin => fields.end(HeadLine::Begin),
    }
}

// `ioctl <file> <x> <h>`
fn ioctl<'a>(fields: Fields<'a>) -> Option<Step<'a>>
    ensures { result ≡ step_at step.Ioctl fields.entry }
{
    let (file, fields) = fields.decimal_u16()?;
    let (number, fields) = fields.hexadecimal_u32()?;
    let (bytes, fields) = fields.bytes()?;
    fields.end(Step::Ioctl(FileNo(file), number, bytes))
}

// `close <file>`
fn close<'a>(fields: Fields<'a>) -> Option<Step<'a>>
    ensures { result ≡ step_at step.Close fields.entry }
{
    let (file, fields) = fields.decimal_u16()?;
    fields.end(Step::Close(FileNo(file)))
}

// `umap <user> <x>`
fn umap<'a>(fields: Fields<'a>) -> Option<Step<'a>>
    ensures { result ≡ step_at step.UserMap fields.entry }
{
    let (user, fields) = fields.decimal_u16()?;
    let (address, fields) = fields.hexadecimal_u64()?;
    fields.end(Step::UserMap(UserNo(user), address))
}

// `uunmap <user> <x>`
fn uunmap<'a>(fields: Fields<'a>) -> Option<Step<'a>>
    ensures { result ≡ step_at step.UserUnmap fields.entry }
{
    let (user, fields) = fields.decimal_u16()?;
    let (address, fields) = fields.hexadecimal_u64()?;
    fields.end(Step::UserUnmap(UserNo(user), address))
}

// `uread <user> <x> <len>`
fn uread<'a>(fields: Fields<'a>) -> Option<Step<'a>>
    ensures { result ≡ step_at step.UserRead fields.entry }
{
    let (user, fields) = fields.decimal_u16()?;
    let (address, fields) = fields.hexadecimal_u64()?;
    let (length, fields) = fields.length()?;
    fields.end(Step::UserRead(UserNo(user), address, length))
}

// `uwrite <user> <x> <h>`
fn uwrite<'a>(fields: Fields<'a>) -> Option<Step<'a>>
    ensures { result ≡ step_at step.UserWrite fields.entry }
{
    let (user, fields) = fields.decimal_u16()?;
    let (address, fields) = fields.hexadecimal_u64()?;
    let (bytes, fields) = fields.access()?;
    fields.end(Step::UserWrite(UserNo(user), address, bytes))
}

// `bind <file> <device>`
fn bind<'a>(fields: Fields<'a>) -> Option<Step<'a>>
    ensures { result ≡ step_at step.Bind fields.entry }
{
    let (file, fields) = fields.decimal_u16()?;
    let (device, fields) = fields.decimal_u16()?;
    fields.end(Step::Bind(FileNo(file), DeviceNo(device)))
}

// `unbind <file> <id>`
fn unbind<'a>(fields: Fields<'a>) -> Option<Step<'a>>
    ensures { result ≡ step_at step.Unbind fields.entry }
{
    let (file, fields) = fields.decimal_u16()?;
    let (id, fields) = fields.decimal_u32()?;
    fields.end(Step::Unbind(FileNo(file), ObjId(id)))
}

// `attach <device> <id>`
fn attach<'a>(fields: Fields<'a>) -> Option<Step<'a>>
    ensures { result ≡ step_at step.Attach fields.entry }
{
    let (device, fields) = fields.decimal_u16()?;
    let (id, fields) = fields.decimal_u32()?;
    fields.end(Step::Attach(DeviceNo(device), ObjId(id)))
}

// `detach <device>`
fn detach<'a>(fields: Fields<'a>) -> Option<Step<'a>>
    ensures { result ≡ step_at step.Detach fields.entry }
{
    let (device, fields) = fields.decimal_u16()?;
    fields.end(Step::Detach(DeviceNo(device)))
}

// `flush <device>`
fn flush<'a>(fields: Fields<'a>) -> Option<Step<'a>>
    ensures { result ≡ step_at step.Flush fields.entry }
{
    let (device, fields) = fields.decimal_u16()?;
    fields.end(Step::Flush(DeviceNo(device)))
}

// `dread <device> <x> <len>`
fn dread<'a>(fields: Fields<'a>) -> Option<Step<'a>>
    ensures { result ≡ step_at step.DeviceRead fields.entry }
{
    let (device, fields) = fields.decimal_u16()?;
    let (iova, fields) = fields.hexadecimal_u64()?;
    let (length, fields) = fields.length()?;
    fields.end(Step::DeviceRead(DeviceNo(device), Iova(iova), length))
}

// `dwrite <device> <x> <h>`
fn dwrite<'a>(fields: Fields<'a>) -> Option<Step<'a>>
    ensures { result ≡ step_at step.DeviceWrite fields.entry }
{
    let (device, fields) = fields.decimal_u16()?;
    let (iova, fields) = fields.hexadecimal_u64()?;
    let (bytes, fields) = fields.access()?;
    fields.end(Step::DeviceWrite(DeviceNo(device), Iova(iova), bytes))
}

// `access <file>`
fn access<'a>(fields: Fields<'a>) -> Option<Step<'a>>
    ensures { result ≡ step_at step.AccessCreate fields.entry }
{
    let (file, fields) = fields.decimal_u16()?;
    fields.end(Step::AccessCreate(FileNo(file)))
}

// `aattach <file> <id> <ioas>`
fn aattach<'a>(fields: Fields<'a>) -> Option<Step<'a>>
    ensures { result ≡ step_at step.AccessAttach fields.entry }
{
    let (file, fields) = fields.decimal_u16()?;
    let (id, fields) = fields.decimal_u32()?;
    let (ioas, fields) = fields.decimal_u32()?;
    fields.end(Step::AccessAttach(FileNo(file), ObjId(id), ObjId(ioas)))
}

// `adetach <file> <id>`
fn adetach<'a>(fields: Fields<'a>) -> Option<Step<'a>>
    ensures { result ≡ step_at step.AccessDetach fields.entry }
{
    let (file, fields) = fields.decimal_u16()?;
    let (id, fields) = fields.decimal_u32()?;
    fields.end(Step::AccessDetach(FileNo(file), ObjId(id)))
}

// `apin <file> <id> <x> <x> r|w`
fn apin<'a>(fields: Fields<'a>) -> Option<Step<'a>>
    ensures { result ≡ step_at step.AccessPin fields.entry }
{
    let (file, fields) = fields.decimal_u16()?;
    let (id, fields) = fields.decimal_u32()?;
    let (iova, fields) = fields.hexadecimal_u64()?;
    let (length, fields) = fields.hexadecimal_u64()?;
    let (write, fields) = fields.purpose()?;
    let iova = Iova(iova);
    let request = PinRequest {
        iova,
        length,
        write,
    };
    fields.end(Step::AccessPin(FileNo(file), ObjId(id), request))
}

// `aunpin <file> <id> <x> <x> r|w`
fn aunpin<'a>(fields: Fields<'a>) -> Option<Step<'a>>
    ensures { result ≡ step_at step.AccessUnpin fields.entry }
{
    let (file, fields) = fields.decimal_u16()?;
    let (id, fields) = fields.decimal_u32()?;
    let (iova, fields) = fields.hexadecimal_u64()?;
    let (length, fields) = fields.hexadecimal_u64()?;
    let (write, fields) = fields.purpose()?;
    let iova = Iova(iova);
    let request = PinRequest {
        iova,
        length,
        write,
    };
    fields.end(Step::AccessUnpin(FileNo(file), ObjId(id), request))
}

// `aread <file> <id> <x> <len>`
fn aread<'a>(fields: Fields<'a>) -> Option<Step<'a>>
    ensures { result ≡ step_at step.AccessRead fields.entry }
{
    let (file, fields) = fields.decimal_u16()?;
    let (id, fields) = fields.decimal_u32()?;
    let (iova, fields) = fields.hexadecimal_u64()?;
    let (length, fields) = fields.length()?;
    fields.end(Step::AccessRead(FileNo(file), ObjId(id), Iova(iova), length))
}

// `awrite <file> <id> <x> <h>`
fn awrite<'a>(fields: Fields<'a>) -> Option<Step<'a>>
    ensures { result ≡ step_at step.AccessWrite fields.entry }
{
    let (file, fields) = fields.decimal_u16()?;
    let (id, fields) = fields.decimal_u32()?;
    let (iova, fields) = fields.hexadecimal_u64()?;
    let (bytes, fields) = fields.access()?;
    fields.end(Step::AccessWrite(FileNo(file), ObjId(id), Iova(iova), bytes))
}

// `notices <file> <id>`
fn notices<'a>(fields: Fields<'a>) -> Option<Step<'a>>
    ensures { result ≡ step_at step.Notices fields.entry }
{
    let (file, fields) = fields.decimal_u16()?;
    let (id, fields) = fields.decimal_u32()?;
    fields.end(Step::Notices(FileNo(file), ObjId(id)))
}

// `held <user>`
fn held<'a>(fields: Fields<'a>) -> Option<Step<'a>>
    ensures { result ≡ step_at step.Held fields.entry }
{
    let (user, fields) = fields.decimal_u16()?;
    fields.end(Step::Held(UserNo(user)))
}

// A step, by its word and the fields behind it.
#[tactic(auto)]
fn step<'a>(keyword: StepKeyword, fields: Fields<'a>) -> Option<Step<'a>>
    ensures { result ≡ step_at keyword fields.entry }
{
    match keyword {
        StepKeyword::Ioctl => ioctl(fields),
        StepKeyword::Close => close(fields),
        StepKeyword::UserMap => umap(fields),
        StepKeyword::UserUnmap => uunmap(fields),
        StepKeyword::UserRead => uread(fields),
        StepKeyword::UserWrite => uwrite(fields),
        StepKeyword::Bind => bind(fields),
        StepKeyword::Unbind => unbind(fields),
        StepKeyword::Attach => attach(fields),
        StepKeyword::Detach => detach(fields),
        StepKeyword::Flush => flush(fields),
        StepKeyword::DeviceRead => dread(fields),
        StepKeyword::DeviceWrite => dwrite(fields),
        StepKeyword::AccessCreate => access(fields),
        StepKeyword::AccessAttach => aattach(fields),
        StepKeyword::AccessDetach => adetach(fields),
        StepKeyword::AccessPin => apin(fields),
        StepKeyword::AccessUnpin => aunpin(fields),
        StepKeyword::AccessRead => aread(fields),
        StepKeyword::AccessWrite => awrite(fields),
        StepKeyword::Notices => notices(fields),
        StepKeyword::FreeFrames => fields.end(Step::FreeFrames),
        StepKeyword::Held => held(fields),
    }
}

fn is_ascii_text(text: &[u8]) -> bool
    ensures { result ≡ list_all is_ascii text.now }
{
    text.iter().all(|c| c.is_ascii())
}

// Whether the line says nothing: it's empty, or begins with `#`.
fn is_skipped(text: &[u8]) -> bool
    ensures { result ≡ is_skipped text.now }
{
    text.is_empty() || text[0] == b'#'
}

// The line of a step, by its word and the fields behind it.
fn step_line(keyword: StepKeyword, fields: Fields<'_>) -> Option<Line<'_>>
    ensures { result ≡ step_line (Some keyword) fields.entry }
{
    Some(Line::Step(step(keyword, fields)?))
}

// A line of the head, if its first word is one of the head's, by the fields behind it. It's no step's.
fn heading_line<'a>(word: &[u8], fields: Fields<'a>) -> Option<Line<'a>>
    requires { step_keyword word.now ≡ None }
    ensures { result ≡ head_or_step word.now (head_keyword word.now) fields.entry }
{
    Some(Line::Head(head_line(head_keyword(word)?, fields)?))
}

// What a line says by its first word and the fields behind it.
#[tactic(auto)]
fn worded_line(text: &[u8]) -> Option<Line<'_>>
    ensures { result ≡ worded (fields text.now) }
{
    let (word, fields) = Fields::of(text).split()?;
    match step_keyword(word) {
        Some(keyword) => step_line(keyword, fields),
        None => heading_line(word, fields),
    }
}

/// What a line says, given without its line feed; None where it isn't of the grammar. It takes no
/// memory, and takes time by the line's length alone.
#[tactic(auto, unfolding(crate::specs::Lines::line_of))]
pub fn parse_line(text: &[u8]) -> Option<Line<'_>>
    ensures { result ≡ line_of text.now }
{
    if !is_skipped(text) {
        // The grammar's words and fields are of ASCII alone, so nothing has to test the line for it.
        return worded_line(text);
    }
    if is_ascii_text(text) {
        Some(Line::Skipped)
    } else {
        None
    }
}
