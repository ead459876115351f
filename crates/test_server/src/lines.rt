//! Worked lines that no script leads to, each with the line feed that ends it. The others are in scripts.

use ioctl_codec::Command;
use iofd_words::{Cause, Errno, Iova, ObjId, Refusal, Reply, UnmapRequest};
use iommufd_cli::{Line, bad_line, no_memory_line};

const UNMAP: Command = Command::IoasUnmap(UnmapRequest {
    ioas: ObjId(1),
    iova: Iova(0x4fff),
    length: 0x1002,
});

// What a line tells.
#[derive(Clone, Copy)]
enum Told {
    // A step's reply, and an UNMAP's.
    Step(Reply),
    Unmap(Reply),
    Refused(Cause),
    Memory,
}

// The largest id, an UNMAP that isn't to be called again, a refusal for want of places with nothing written back, and
// want of memory.
static TOLD: [(Told, &str); 4] = [
    (
        Told::Step(Reply::Id(ObjId(0x7fff_ffff))),
        "ok id 2147483647\n",
    ),
    (
        Told::Unmap(Reply::Pending(Errno::EDEADLOCK)),
        "35 Pending\n",
    ),
    (Told::Refused(Cause::Places), "90 Places\n"),
    (Told::Memory, "12 Memory\n"),
];

fn is(line: &Line, text: &str) -> bool {
    line.as_slice() == text.as_bytes()
}

// Whether the line that tells this is the text.
fn tells(told: Told, text: &str) -> bool {
    let mut line = Line::new();
    match told {
        Told::Step(reply) => line.tell_reply(&reply),
        Told::Unmap(reply) => line.tell_ioctl(&UNMAP, &reply),
        Told::Refused(cause) => line.tell_refusal(Refusal { cause }),
        Told::Memory => line.tell_memory(),
    }
    is(&line, text)
}

#[test]
fn lines_of_steps(rt: HostRuntime) {
    for (told, text) in &TOLD {
        assert!(rt; tells(*told, text), "{text}");
    }
}

#[test]
fn whole_outputs(rt: HostRuntime) {
    assert!(rt; is(&no_memory_line(), "no memory\n"));
    assert!(rt; is(&bad_line(u64::MAX), "bad line 18446744073709551615\n"));
}
