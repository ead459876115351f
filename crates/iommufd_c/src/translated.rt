//! What a page is translated to, as C has it.

ghost use Rattle.std.specs.Prelude.{◌≡◌};
ghost use Rattle.iommufd_c.specs.Exports.{row_of_translation, translation_told};

use iofd_words::{AccessKind, Translation};
use shared_iommufd::NotNow;

/// What a page is translated to (`struct defnulk_translation`).
#[repr(C)]
#[derive(Clone, Copy)]
pub struct TranslationRow {
    /// The number of the frame.
    pub frame: u32,
    /// Whether the device may read the page: 1 or 0.
    pub readable: u8,
    /// Whether it may write it: 1 or 0.
    pub writeable: u8,
}

fn row_of(translation: Translation) -> TranslationRow
    ensures { result ≡ row_of_translation translation }
{
    let rights = translation.rights;
    TranslationRow {
        frame: translation.frame.0,
        readable: u8::from(rights.allow(AccessKind::Read)),
        writeable: u8::from(rights.allow(AccessKind::Write)),
    }
}

/// Puts what was told into the row, if anything was.
pub(crate) fn put_translation(
    row: &mut TranslationRow,
    told: &Option<Result<Option<Translation>, NotNow>>,
)
    ensures { row.new ≡ translation_told row.old told.now }
{
    if let Some(Ok(Some(translation))) = told {
        *row = row_of(*translation);
    }
}
