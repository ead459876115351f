//! A table of files' objects: by which id they are found, and want of memory.

use iofd_words::{CallError, FileNo, NoMemory, ObjId};
use linked_list_allocator::LocalHeap;
use object_table::{InsertError, Kind, ObjectTable, Typed};
use std::alloc::Allocator;

const FIRST: FileNo = FileNo(1);

const SECOND: FileNo = FileNo(2);

const THIRD: FileNo = FileNo(3);

const FOURTH: FileNo = FileNo(4);

const FIFTH: FileNo = FileNo(5);

/// What an object holds here: a number, and of which kind the object is.
#[derive(Drop)]
struct Content {
    kind: Kind,
    number: u32,
}

impl Typed for Content {
    ghost kind = { λ value. value.kind };

    fn kind(&self) -> Kind {
        self.kind
    }
}

/// The id that an object with this number gets; 0 where it is refused.
fn inserted<A: Allocator>(
    table: &mut ObjectTable<Content, A>,
    file: FileNo,
    kind: Kind,
    number: u32,
) -> u32 {
    match table.insert(file, Content { kind, number }) {
        Ok(id) => id.0,
        Err(_) => 0,
    }
}

/// The same by `reserve` and then `insert_reserved`.
fn inserted_reserved<A: Allocator>(
    table: &mut ObjectTable<Content, A>,
    file: FileNo,
    kind: Kind,
    number: u32,
) -> u32 {
    match table.reserve(file) {
        Ok(_) => table.insert_reserved(file, Content { kind, number }).0,
        Err(_) => 0,
    }
}

/// The number that the object holds; 0 where there is none of this kind.
fn got<A: Allocator>(table: &ObjectTable<Content, A>, file: FileNo, kind: Kind, id: u32) -> u32 {
    match table.get(file, kind, ObjId(id)) {
        Ok(value) => value.number,
        Err(_) => 0,
    }
}

/// The same of an object of whatever kind.
fn held<A: Allocator>(table: &ObjectTable<Content, A>, file: FileNo, id: u32) -> u32 {
    match table.value(file, ObjId(id)) {
        Some(value) => value.number,
        None => 0,
    }
}

/// Whether each of two files gives the ids 1, 2, 3.
fn numbers<A: Allocator>(table: &mut ObjectTable<Content, A>) -> bool {
    inserted(table, THIRD, Kind::Ioas, 1) == 1
        && inserted(table, THIRD, Kind::Device, 2) == 2
        && inserted_reserved(table, THIRD, Kind::Hwpt, 3) == 3
        && inserted(table, FOURTH, Kind::Access, 4) == 1
}

/// Whether an object is then found by its file, kind and id alone.
fn finds<A: Allocator>(table: &ObjectTable<Content, A>) -> bool {
    got(table, THIRD, Kind::Ioas, 1) == 1
        && got(table, FOURTH, Kind::Access, 1) == 4
        && got(table, THIRD, Kind::Access, 1) == 0
        && got(table, FOURTH, Kind::Device, 2) == 0
        && table.kind_of(THIRD, ObjId(3)) == Some(Kind::Hwpt)
        && held(table, THIRD, 3) == 3
}

/// Inserts objects with the numbers 1, 2, 3 and so on, as long as each gets its number as its id. How many came in.
fn numbered<A: Allocator>(table: &mut ObjectTable<Content, A>, file: FileNo) -> u32 {
    for count in 0..1024u32 {
        if inserted(table, file, Kind::Ioas, count + 1) != count + 1 {
            return count;
        }
    }
    1024
}

/// How many objects come into the file while a block leaves so much memory, until one finds none.
fn came_in<A: Allocator>(
    heap: &LocalHeap,
    table: &mut ObjectTable<Content, A>,
    file: FileNo,
    left: usize,
) -> Option<u32> {
    let size = heap.free().saturating_sub(left);
    let Ok(_block) = Vec::<u8, &LocalHeap>::with_capacity(heap, size) else {
        return None;
    };
    let count = numbered(table, file);
    let another = Content {
        kind: Kind::Ioas,
        number: 99,
    };
    match table.insert(file, another) {
        Err(
            InsertError {
                reason: CallError::Memory(NoMemory),
                value: _,
            },
        ) => Some(count),
        _ => None,
    }
}

/// Whether an object finds no memory where none is left, nor behind a few others; and then where there is some again.
fn grows_again<A: Allocator>(heap: &LocalHeap, table: &mut ObjectTable<Content, A>) -> bool {
    let none = came_in(heap, table, FIRST, 0);
    match came_in(heap, table, FIRST, 1 << 10) {
        Some(few) => { none == Some(0) && few > 0 && inserted(table, FIRST, Kind::Ioas, 0) > few }
        None => false,
    }
}

/// Fills the second file and closes it. Whether all that it took goes back, and the file after it gets as much.
fn gives_back<A: Allocator>(heap: &LocalHeap, table: &mut ObjectTable<Content, A>) -> bool {
    let used = heap.used();
    let count = numbered(table, SECOND);
    let has_grown = count > 8 && count < 1024 && heap.used() > used;
    has_grown
        && table.close_file(SECOND).is_ok()
        && heap.used() == used
        && numbered(table, FIFTH) == count
}

/// Whether objects are found in a table of five files, and it grows again and gives back what it took.
pub(crate) fn come_and_go<A: Allocator + Copy>(heap: &LocalHeap, in_heap: A) -> bool {
    match ObjectTable::new(in_heap, 5) {
        Ok(mut table) => {
            numbers(&mut table)
                && finds(&table)
                && grows_again(heap, &mut table)
                && gives_back(heap, &mut table)
        }
        Err(_) => false,
    }
}
