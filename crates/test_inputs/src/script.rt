//! Want of memory, and the laws of scripts. What scripts say is shown by those of `tests`.

use iommufd_script::{ScriptError, laws, read_script};
use linked_list_allocator::LocalHeap;
use std::alloc::{AllocError, Allocator};

// A map, reads and a write of the device, an unmap that waits for a flush, and destroys.
static WORKED: &str = "pool 8
user 4
file 1
file 1
device 0018 39
begin
ioctl 1 3b81 0c0000000000000000000000
ioctl 2 3b81 0c0000000000000000000000
umap 1 10000
ioctl 1 3b85 28000000070000000100000000000000000001000000000000100000000000000010000000000000
dread 1 1000 1
bind 1 1
attach 1 1
dwrite 1 1ffe beef
dread 1 1ffe 2
dread 1 1fff 2
dread 1 2000 1
ioctl 1 3b86 180000000100000000100000000000000010000000000000
dread 1 1000 1
flush 1
ioctl 1 3b86 180000000100000000100000000000000010000000000000
ioctl 2 3b80 0800000002000000
ioctl 2 3b80 0800000001000000
ioctl 2 3b80 0800000001000000
ioctl 1 3b80 0800000001000000
detach 1
ioctl 1 3b80 0800000001000000
";

// Why the script isn't read.
fn error<A: Allocator + Copy>(alloc: A, script: &str) -> Option<ScriptError> {
    read_script(alloc, script.as_bytes()).err()
}

// Whether a script that is right is told to want for memory, and others by their bad lines.
fn tells_bad_lines<A: Allocator + Copy>(full: A) -> bool {
    // The first step has no place, and the line behind it is bad.
    let bad = "pool 8\nuser 4\nfile 1\nbegin\nclose 1\nclose\n";
    error(full, WORKED) == Some(ScriptError::NoMemory)
        && error(full, "pool 8\n") == Some(ScriptError::BadLine(2))
        && error(full, bad) == Some(ScriptError::BadLine(6))
}

#[test]
fn a_bad_line_is_told_without_memory(rt: HostRuntime) {
    // The smallest heap has one block, which is taken.
    let full = LocalHeap::new(rt.alloc(), 0).expect(&rt, "memory for a heap");
    let taken: Result<Vec<u8, &LocalHeap>, AllocError> = Vec::with_capacity(&full, 1);
    assert!(rt; taken.is_ok());
    assert!(rt; tells_bad_lines(&full));
}

#[test]
fn laws_hold_of_every_text() {
    laws::good_scripts();
    laws::first_bad_lines();
}
