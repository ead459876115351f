//! Whether what a server answers is what a line of a session tells.

use iofd_words::{Answer, CallError, NoMemory, Reply, Span};
use iommufd_cli::{Line, notices_line};
use iommufd_script::HexBytes;
use shared_iommufd::{IoctlAnswer, Stamp};
use std::alloc::Global;

// Whether the line, with its line feed, is this text.
fn is_text(line: &[u8], text: &[u8]) -> bool {
    match line.split_last() {
        Some((_, words)) => words == text,
        None => false,
    }
}

fn tells_reply(text: &[u8], reply: &Reply) -> bool {
    let mut line = Line::new();
    line.tell_reply(reply);
    is_text(line.as_slice(), text)
}

/// Whether the text tells the answer to a question.
pub fn tells_answer(text: &[u8], answer: &Answer) -> bool {
    let mut line = Line::new();
    line.tell_answer(answer);
    is_text(line.as_slice(), text)
}

/// Whether the text tells what a call made, and the record stands behind so many.
pub fn tells_stamp(text: &[u8], stamp: &Result<Stamp, NoMemory>, before: u64) -> bool {
    match stamp {
        Ok(stamp) => stamp.at == before && tells_reply(text, &stamp.reply),
        Err(NoMemory) => false,
    }
}

/// Whether the text tells these notices.
pub fn tells_notices(global: Global, text: &[u8], notices: &Result<Vec<Span>, CallError>) -> bool {
    match notices {
        Ok(spans) => match notices_line(global, spans.as_slice()) {
            Ok(line) => is_text(line.as_slice(), text),
            Err(_) => false,
        },
        Err(CallError::Refused(refusal)) => tells_answer(text, &Answer::Refused(*refusal)),
        Err(CallError::Memory(NoMemory)) => false,
    }
}

// What stands behind this number, of at most two digits, and a space.
fn behind_number(text: &[u8], number: u8) -> Option<&[u8]> {
    match text {
        [digit, b' ', rest @ ..] if number < 10 && *digit == b'0' + number => Some(rest),
        [tens, digit, b' ', rest @ ..] => {
            let is_number = number >= 10
                && number < 100
                && *tens == b'0' + number / 10
                && *digit == b'0' + number % 10;
            if is_number { Some(rest) } else { None }
        }
        _ => None,
    }
}

// Whether the text spells these bytes in hex.
fn is_hex(global: Global, text: &[u8], bytes: &[u8]) -> bool {
    let Some(spelt) = HexBytes::of(text) else {
        return false;
    };
    match spelt.to_vec(global) {
        Ok(spelt) => spelt.as_slice() == bytes,
        Err(_) => false,
    }
}

/// Whether the text tells the answer to an ioctl: the number of the error, or 0, and in hex what is written back, if
/// anything is.
pub fn tells_ioctl(global: Global, text: &[u8], answer: &IoctlAnswer) -> bool {
    let errno = match answer.errno {
        Some(errno) => errno.number(),
        None => 0,
    };
    let bytes = answer.bytes.as_slice();
    match behind_number(text, errno) {
        Some(word) => bytes.is_empty() || is_hex(global, word, bytes),
        None => false,
    }
}
