//! The kinds of objects.

ghost use Rattle.std.specs.Prelude.{◌≡◌};
ghost use Rattle.object_table.specs.Table.{is_same_kind, keeps_file_open};

/// What an object is (`iommufd.rst`, "User API": the objects that have an id).
#[derive(Clone, Copy, PartialEq, Eq)]
pub enum Kind {
    /// An I/O address space (`IOMMUFD_OBJ_IOAS`).
    Ioas,
    /// A hardware page table (`IOMMUFD_OBJ_HW_PAGETABLE`).
    Hwpt,
    /// A bound device (`IOMMUFD_OBJ_DEVICE`).
    Device,
    /// An access, by which software pins pages (`IOMMUFD_OBJ_ACCESS`).
    Access,
}

/// A value that tells of which kind the object is that holds it. The table keeps no kind beside it.
pub trait Typed {
    ghost use Rattle.object_table.specs.declared.kind.Kind.{Kind};

    /// The kind of the object.
    ghost kind: { Self → Kind };

    /// The kind of the object.
    fn kind(&self) -> Kind
        ensures { result ≡ kind self.now };
}

impl Kind {
    /// Whether both are one kind.
    pub(crate) fn is_same(self, other: Kind) -> bool
        ensures { result ≡ is_same_kind self other }
    {
        matches!(
            (self, other),
            (Kind::Ioas, Kind::Ioas)
                | (Kind::Hwpt, Kind::Hwpt)
                | (Kind::Device, Kind::Device)
                | (Kind::Access, Kind::Access)
        )
    }

    /// Whether an object of this kind keeps its file from being closed: something outside the file, a
    /// device or a driver, still holds it.
    pub fn keeps_file_open(self) -> bool
        ensures { result ≡ keeps_file_open self }
    {
        matches!(self, Kind::Device | Kind::Access)
    }
}
