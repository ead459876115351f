//! Each byte of a small journal, altered to each other value.

use crate::example::says;
use journal_audit::Verdict;
use std::alloc::Allocator;

// The head of the example, and four records: an address space, of id 1; a page of user 1 at 0x10000, in frame 0; a
// DESTROY of id 2, refused by Id; and a MAP of the page with all flags at 0x1000. They begin at 30, 44, 66 and 81.
const JOURNAL: [u8; 131] = *b"IOFDJNL1\x02\0\0\0\x01\0\x01\0\0\0\0\0\0\0\x01\0\x01\0\0\0\x01\0\
      \0\0\x81\x01\0\x01\x01\0\0\0\0\0\0\0\
      \0\0\x02\x01\0\0\0\x01\0\0\0\0\0\x05\0\0\0\0\0\0\0\0\
      \0\0\x80\x01\0\x02\0\0\0\x08\x0b\0\0\0\0\
      \0\0\x85\x01\0\x07\0\0\0\x01\0\0\0\0\0\x01\0\0\0\0\0\0\x10\0\0\0\0\0\0\0\x10\0\0\0\0\0\0\x02\0\x10\0\0\0\0\0\0\0\0\0\0";

const RUN: Verdict = Verdict::Run { records: 4 };

const NO_HEAD: Verdict = Verdict::Torn { offset: 0 };

const TORN_0: Verdict = Verdict::Torn { offset: 30 };

const TORN_1: Verdict = Verdict::Torn { offset: 44 };

const TORN_2: Verdict = Verdict::Torn { offset: 66 };

const TORN_3: Verdict = Verdict::Torn { offset: 81 };

const NOT_0: Verdict = Verdict::NotRun { index: 0 };

const NOT_1: Verdict = Verdict::NotRun { index: 1 };

const NOT_2: Verdict = Verdict::NotRun { index: 2 };

const NOT_3: Verdict = Verdict::NotRun { index: 3 };

// What the journal is with another byte, by the grammar of journals and the rules of these events: offsets from one to
// another, the values there from one to another, each so many, and the verdict. The last row that fits decides, and the
// journal's own bytes aren't asked for.
static VERDICTS: [(usize, usize, u8, u8, u8, Verdict); 118] = [
    // Head: the mark, which may be version 2's.
    (0, 7, 0, 255, 1, NO_HEAD),
    (7, 7, 0x32, 0x32, 1, RUN),
    // The size of the pool: from 1 to 4096 frames, of which one is enough.
    (8, 8, 0, 255, 1, RUN),
    (8, 8, 0, 0, 1, NO_HEAD),
    (9, 9, 0, 255, 1, NO_HEAD),
    (9, 9, 1, 15, 1, RUN),
    // More users than there are limits.
    (10, 13, 0, 255, 1, NO_HEAD),
    // The limit, of any number of pages.
    (14, 21, 0, 255, 1, RUN),
    // The number of files, the user of the file, the number of devices.
    (22, 27, 0, 255, 1, NO_HEAD),
    // The number of passes, from 1 to 1024.
    (28, 28, 0, 255, 1, RUN),
    (28, 28, 0, 0, 1, NO_HEAD),
    (29, 29, 0, 255, 1, NO_HEAD),
    (29, 29, 1, 3, 1, RUN),
    // Record 0, IOAS_ALLOC: its pass.
    (30, 31, 0, 255, 1, TORN_0),
    // Its tag. AccessCreate may answer an id as well, and then there is no address space to map in.
    (32, 32, 0, 255, 1, TORN_0),
    (32, 32, 1, 1, 1, NOT_0),
    (32, 32, 5, 9, 1, NOT_0),
    (32, 32, 11, 11, 1, NOT_3),
    (32, 32, 13, 15, 1, NOT_0),
    (32, 32, 128, 128, 1, NOT_0),
    // Another file.
    (33, 34, 0, 255, 1, NOT_0),
    // The tag of its reply, by which it is longer or shorter.
    (35, 35, 0, 255, 1, TORN_0),
    (35, 35, 0, 0, 1, NOT_0),
    (35, 35, 4, 8, 1, NOT_0),
    // Its id: another one, that of the DESTROY, none, or one from 2^31 on.
    (36, 36, 0, 255, 1, NOT_3),
    (36, 36, 0, 0, 1, NOT_0),
    (36, 36, 2, 2, 1, NOT_2),
    (37, 38, 0, 255, 1, NOT_3),
    (39, 39, 0, 255, 1, NOT_0),
    (39, 39, 1, 127, 1, NOT_3),
    // How many frames it takes and gives back, the bytes of which are those of the records behind it.
    (40, 40, 0, 255, 1, TORN_0),
    (40, 40, 3, 6, 1, NOT_0),
    (40, 40, 9, 9, 1, NOT_0),
    (40, 40, 11, 14, 1, NOT_0),
    (40, 40, 16, 16, 1, NOT_0),
    (40, 40, 18, 21, 1, NOT_0),
    (41, 41, 0, 255, 1, TORN_0),
    (42, 42, 0, 255, 1, TORN_0),
    (42, 42, 1, 21, 1, NOT_0),
    (43, 43, 0, 255, 1, TORN_0),
    // Record 1, UserMap: its pass and its tag.
    (44, 45, 0, 255, 1, TORN_1),
    (46, 46, 0, 255, 1, TORN_1),
    (46, 46, 3, 4, 1, NOT_1),
    (46, 46, 10, 10, 1, NOT_1),
    (46, 46, 12, 12, 1, NOT_1),
    (46, 46, 14, 15, 1, NOT_1),
    (46, 46, 130, 130, 1, NOT_1),
    (46, 46, 137, 137, 1, NOT_1),
    // Another user, and an address within a page.
    (47, 49, 0, 255, 1, NOT_1),
    (50, 50, 0, 255, 1, NOT_1),
    (50, 50, 16, 240, 16, RUN),
    // Another page, below 2^48.
    (51, 54, 0, 255, 1, RUN),
    (55, 56, 0, 255, 1, NOT_1),
    // The tag of its reply, and the frame, of which the pool has two.
    (57, 57, 0, 255, 1, TORN_1),
    (57, 57, 0, 1, 1, NOT_1),
    (57, 57, 4, 8, 1, NOT_1),
    (58, 58, 0, 255, 1, NOT_1),
    (58, 58, 1, 1, 1, RUN),
    (59, 61, 0, 255, 1, NOT_1),
    // How many frames.
    (62, 62, 0, 255, 1, TORN_1),
    (62, 62, 2, 13, 1, NOT_1),
    (62, 62, 15, 16, 1, NOT_1),
    (63, 63, 0, 255, 1, TORN_1),
    (64, 64, 0, 255, 1, TORN_1),
    (64, 64, 1, 16, 1, NOT_1),
    (65, 65, 0, 255, 1, TORN_1),
    // Record 2, DESTROY, refused by Id: its pass, and its tag. Unbind and AccessDetach have the same fields and
    // refusal.
    (66, 67, 0, 255, 1, TORN_2),
    (68, 68, 0, 255, 1, TORN_2),
    (68, 68, 6, 7, 1, RUN),
    (68, 68, 13, 13, 1, RUN),
    (68, 68, 134, 134, 1, NOT_2),
    // Any other file and id are refused so, but for the address space of record 0.
    (69, 70, 0, 255, 1, RUN),
    (71, 71, 0, 255, 1, RUN),
    (71, 71, 1, 1, 1, NOT_2),
    (72, 74, 0, 255, 1, RUN),
    // The tag of its reply, and the number of the refusal.
    (75, 75, 0, 255, 1, TORN_2),
    (75, 75, 0, 0, 1, NOT_2),
    (75, 75, 2, 4, 1, NOT_2),
    (75, 75, 7, 7, 1, NOT_2),
    (76, 76, 0, 255, 1, NOT_2),
    // How many frames.
    (77, 77, 0, 255, 1, TORN_2),
    (77, 77, 2, 3, 1, NOT_2),
    (77, 77, 5, 5, 1, NOT_2),
    (77, 77, 7, 7, 1, NOT_2),
    (77, 77, 9, 9, 1, NOT_2),
    (77, 77, 11, 12, 1, NOT_2),
    (78, 78, 0, 255, 1, TORN_2),
    (79, 79, 0, 255, 1, TORN_2),
    (79, 79, 1, 12, 1, NOT_2),
    (80, 80, 0, 255, 1, TORN_2),
    // Record 3, MAP: its pass and its tag.
    (81, 82, 0, 255, 1, TORN_3),
    (83, 83, 0, 255, 1, TORN_3),
    (83, 83, 1, 1, 1, NOT_3),
    (83, 83, 8, 9, 1, NOT_3),
    (83, 83, 11, 11, 1, NOT_3),
    (83, 83, 129, 129, 1, NOT_3),
    (83, 83, 131, 131, 1, NOT_3),
    (83, 83, 134, 134, 1, NOT_3),
    // Another file.
    (84, 85, 0, 255, 1, NOT_3),
    // Its flags: fixed alone, not fixed with an address, readable alone or writeable alone, and unknown ones.
    (86, 86, 0, 255, 1, TORN_3),
    (86, 86, 1, 1, 1, NOT_3),
    (86, 86, 3, 3, 1, RUN),
    (86, 86, 5, 5, 1, RUN),
    (87, 89, 0, 255, 1, TORN_3),
    // Another address space, and memory that begins within a page, on another one, or ends above 2^48.
    (90, 94, 0, 255, 1, NOT_3),
    (95, 95, 0, 255, 1, NOT_3),
    (95, 95, 16, 240, 16, RUN),
    (96, 99, 0, 255, 1, RUN),
    // Its length: within a page, of more pages, or beyond 2^48.
    (100, 102, 0, 255, 1, NOT_3),
    (103, 103, 0, 255, 1, NOT_3),
    (103, 103, 32, 240, 16, RUN),
    (104, 107, 0, 255, 1, RUN),
    // Its address, and the tag of its reply, and the address that is answered.
    (108, 117, 0, 255, 1, NOT_3),
    (118, 118, 0, 255, 1, TORN_3),
    (118, 118, 1, 3, 1, NOT_3),
    (118, 118, 5, 6, 1, NOT_3),
    (119, 126, 0, 255, 1, NOT_3),
    // How many frames.
    (127, 130, 0, 255, 1, TORN_3),
];

// The verdict of the journal with this value at the offset.
fn verdict_of(offset: usize, value: u8) -> Option<Verdict> {
    let mut found = None;
    for (first, last, low, high, step, verdict) in &VERDICTS {
        let is_there = *first <= offset && offset <= *last;
        if is_there && *low <= value && value <= *high && *step > 0 && (value - *low) % *step == 0 {
            found = Some(*verdict);
        }
    }
    found
}

// Whether the auditor says so, of each value at the offset but the journal's own.
fn are_told<A: Allocator + Copy>(alloc: A, offset: usize) -> bool {
    (0..=255u8).all(|value| is_told(alloc, offset, value))
}

// Whether it does of this value.
fn is_told<A: Allocator + Copy>(alloc: A, offset: usize, value: u8) -> bool {
    let mut bytes = JOURNAL;
    let Some(place) = bytes.get_mut(offset) else {
        return false;
    };
    if *place == value {
        return true;
    }
    *place = value;
    match verdict_of(offset, value) {
        Some(verdict) => says(alloc, &bytes, verdict),
        None => false,
    }
}

#[test]
fn each_altered_byte_is_told(rt: HostRuntime) {
    assert!(rt; says(rt.alloc(), &JOURNAL, RUN));
    for offset in 0..131 {
        assert!(rt; are_told(rt.alloc(), offset), "{offset}");
    }
}
