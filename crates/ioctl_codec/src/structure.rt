//! The structures served (uapi header `iommufd.h`, and this project's own two): what each of their fields is for, in
//! their order.

ghost use Rattle.std.specs.Prelude.{◌≡◌};
ghost use Rattle.ioctl_codec.specs.Layout.{is_allowed};
ghost use Rattle.ioctl_codec.specs.Table.{field_in};

use crate::command::KNOWN_FLAGS;
use crate::structure::Field::{U32, U64};
use crate::structure::Role::{Answered, Argument, Count, Flags, Ignored, Output, Reserved};

pub const DESTROY: u32 = 0x3b80;

pub const IOAS_ALLOC: u32 = 0x3b81;

pub const IOAS_ALLOW_IOVAS: u32 = 0x3b82;

pub const IOAS_COPY: u32 = 0x3b83;

pub const IOAS_IOVA_RANGES: u32 = 0x3b84;

pub const IOAS_MAP: u32 = 0x3b85;

pub const IOAS_UNMAP: u32 = 0x3b86;

pub const HWPT_ALLOC: u32 = 0x3b89;

pub const DIRTY_ENABLE: u32 = 0x3bf0;

pub const DIRTY_REPORT: u32 = 0x3bf1;

// The only flag of a DIRTY_ENABLE, by which it turns tracking on, and of a DIRTY_REPORT, by which it clears.
pub const DIRTY_FLAG: u32 = 1;

// What a field is for.
#[derive(Clone, Copy)]
pub enum Role {
    // Flags that the command carries: none but the known ones.
    Flags(u32),
    // A number that the command carries.
    Argument,
    // A number that the command carries, and in whose place the answer is written back.
    Answered,
    // How many entries follow the structure.
    Count,
    // It's ignored, and what is written back has the answer in it.
    Output,
    // It's ignored.
    Ignored,
    // It has to be 0.
    Reserved,
}

// A field of 4 bytes, or of 8.
#[derive(Clone, Copy)]
pub enum Field {
    U32(Role),
    U64(Role),
}

// A command's number, its structure's own length in bytes, and the fields behind the size.
#[derive(Clone, Copy)]
pub struct Structure {
    pub number: u32,
    pub length: u32,
    pub fields: &'static [Field],
}

pub const DESTROY_ROW: Structure = Structure {
    number: DESTROY,
    length: 8,
    fields: &[U32(Argument)],
};

// flags, out_ioas_id
pub const IOAS_ALLOC_ROW: Structure = Structure {
    number: IOAS_ALLOC,
    length: 12,
    fields: &[U32(Reserved), U32(Output)],
};

// ioas_id, num_iovas, reserved, allowed_iovas
pub const IOAS_ALLOW_IOVAS_ROW: Structure = Structure {
    number: IOAS_ALLOW_IOVAS,
    length: 24,
    fields: &[U32(Argument), U32(Count), U32(Reserved), U64(Ignored)],
};

// flags, dst_ioas_id, src_ioas_id, length, dst_iova, src_iova
pub const IOAS_COPY_ROW: Structure = Structure {
    number: IOAS_COPY,
    length: 40,
    fields: &[
        U32(Flags(KNOWN_FLAGS)),
        U32(Argument),
        U32(Argument),
        U64(Argument),
        U64(Answered),
        U64(Argument),
    ],
};

// ioas_id, num_iovas, reserved, allowed_iovas, out_iova_alignment
pub const IOAS_IOVA_RANGES_ROW: Structure = Structure {
    number: IOAS_IOVA_RANGES,
    length: 32,
    fields: &[
        U32(Argument),
        U32(Argument),
        U32(Reserved),
        U64(Ignored),
        U64(Output),
    ],
};

// flags, ioas_id, reserved, user_va, length, iova
pub const IOAS_MAP_ROW: Structure = Structure {
    number: IOAS_MAP,
    length: 40,
    fields: &[
        U32(Flags(KNOWN_FLAGS)),
        U32(Argument),
        U32(Reserved),
        U64(Argument),
        U64(Argument),
        U64(Answered),
    ],
};

// ioas_id, iova, length
pub const IOAS_UNMAP_ROW: Structure = Structure {
    number: IOAS_UNMAP,
    length: 24,
    fields: &[U32(Argument), U64(Argument), U64(Answered)],
};

// flags, dev_id, pt_id, out_hwpt_id, reserved
pub const HWPT_ALLOC_ROW: Structure = Structure {
    number: HWPT_ALLOC,
    length: 24,
    fields: &[
        U32(Reserved),
        U32(Argument),
        U32(Argument),
        U32(Output),
        U32(Reserved),
    ],
};

// hwpt_id, flags, reserved
pub const DIRTY_ENABLE_ROW: Structure = Structure {
    number: DIRTY_ENABLE,
    length: 16,
    fields: &[U32(Argument), U32(Flags(DIRTY_FLAG)), U32(Reserved)],
};

// hwpt_id, flags, reserved, iova, length
pub const DIRTY_REPORT_ROW: Structure = Structure {
    number: DIRTY_REPORT,
    length: 32,
    fields: &[
        U32(Argument),
        U32(Flags(DIRTY_FLAG)),
        U32(Reserved),
        U64(Argument),
        U64(Argument),
    ],
};

impl Field {
    // Whether this number may stand in the field.
    #[inline(always)]
    pub fn allows(self, number: u64) -> bool
        ensures { result ≡ is_allowed (field_in self).role number }
    {
        match self {
            U32(Flags(known)) | U64(Flags(known)) => number & u64::from(known) == number,
            U32(Reserved) | U64(Reserved) => number == 0,
            U32(Argument | Answered | Count | Output | Ignored)
            | U64(Argument | Answered | Count | Output | Ignored) => true,
        }
    }
}
