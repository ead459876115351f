//! The words that lines begin with.

ghost use Rattle.std.specs.Prelude.{◌≡◌, length};
ghost use Rattle.std.specs.Str.{bytes_eq};
ghost use Rattle.iommufd_script.specs.Grammar.{head_keyword, step_keyword};

/// The words of the head.
#[derive(Clone, Copy)]
pub enum HeadKeyword {
    Pool,
    User,
    File,
    Device,
    Begin,
}

/// The words of the steps.
#[derive(Clone, Copy)]
pub enum StepKeyword {
    Ioctl,
    Close,
    UserMap,
    UserUnmap,
    UserRead,
    UserWrite,
    Bind,
    Unbind,
    Attach,
    Detach,
    Flush,
    DeviceRead,
    DeviceWrite,
    AccessCreate,
    AccessAttach,
    AccessDetach,
    AccessPin,
    AccessUnpin,
    AccessRead,
    AccessWrite,
    Notices,
    FreeFrames,
    Held,
}

// Whether the word is this one. Each name is written out where this is called, so that its bytes are compared one by
// one with no call.
#[inline(always)]
fn is_word(word: &[u8], name: &[u8]) -> bool
    ensures { result ≡ bytes_eq word.now name.now }
{
    if word.len() != name.len() {
        return false;
    }
    for i in 0..name.len() {
        if word[i] != name[i] {
            return false;
        }
    }
    true
}

// The word of the head that this is.
pub fn head_keyword(word: &[u8]) -> Option<HeadKeyword>
    ensures { result ≡ head_keyword word.now }
{
    if is_word(word, b"pool") {
        Some(HeadKeyword::Pool)
    } else if is_word(word, b"user") {
        Some(HeadKeyword::User)
    } else if is_word(word, b"file") {
        Some(HeadKeyword::File)
    } else if is_word(word, b"device") {
        Some(HeadKeyword::Device)
    } else if is_word(word, b"begin") {
        Some(HeadKeyword::Begin)
    } else {
        None
    }
}

// The word of a step that this is. Its length leaves a few of them.
pub fn step_keyword(word: &[u8]) -> Option<StepKeyword>
    ensures { result ≡ step_keyword word.now }
{
    match word.len() {
        4 => step_keyword_of_4(word),
        5 => step_keyword_of_5(word),
        6 => step_keyword_of_6(word),
        7 => step_keyword_of_7(word),
        _ => None,
    }
}

// The same of a word of four letters.
fn step_keyword_of_4(word: &[u8]) -> Option<StepKeyword>
    requires { length word.now ≡ 4 }
    ensures { result ≡ step_keyword word.now }
{
    if is_word(word, b"umap") {
        Some(StepKeyword::UserMap)
    } else if is_word(word, b"bind") {
        Some(StepKeyword::Bind)
    } else if is_word(word, b"free") {
        Some(StepKeyword::FreeFrames)
    } else if is_word(word, b"held") {
        Some(StepKeyword::Held)
    } else if is_word(word, b"apin") {
        Some(StepKeyword::AccessPin)
    } else {
        None
    }
}

// The same of a word of five letters.
fn step_keyword_of_5(word: &[u8]) -> Option<StepKeyword>
    requires { length word.now ≡ 5 }
    ensures { result ≡ step_keyword word.now }
{
    if is_word(word, b"ioctl") {
        Some(StepKeyword::Ioctl)
    } else if is_word(word, b"close") {
        Some(StepKeyword::Close)
    } else if is_word(word, b"uread") {
        Some(StepKeyword::UserRead)
    } else if is_word(word, b"flush") {
        Some(StepKeyword::Flush)
    } else if is_word(word, b"dread") {
        Some(StepKeyword::DeviceRead)
    } else if is_word(word, b"aread") {
        Some(StepKeyword::AccessRead)
    } else {
        None
    }
}

// The same of a word of six letters.
fn step_keyword_of_6(word: &[u8]) -> Option<StepKeyword>
    requires { length word.now ≡ 6 }
    ensures { result ≡ step_keyword word.now }
{
    if is_word(word, b"uunmap") {
        Some(StepKeyword::UserUnmap)
    } else if is_word(word, b"uwrite") {
        Some(StepKeyword::UserWrite)
    } else if is_word(word, b"unbind") {
        Some(StepKeyword::Unbind)
    } else if is_word(word, b"attach") {
        Some(StepKeyword::Attach)
    } else if is_word(word, b"detach") {
        Some(StepKeyword::Detach)
    } else if is_word(word, b"dwrite") {
        Some(StepKeyword::DeviceWrite)
    } else if is_word(word, b"access") {
        Some(StepKeyword::AccessCreate)
    } else if is_word(word, b"aunpin") {
        Some(StepKeyword::AccessUnpin)
    } else if is_word(word, b"awrite") {
        Some(StepKeyword::AccessWrite)
    } else {
        None
    }
}

// The same of a word of seven letters.
fn step_keyword_of_7(word: &[u8]) -> Option<StepKeyword>
    requires { length word.now ≡ 7 }
    ensures { result ≡ step_keyword word.now }
{
    if is_word(word, b"aattach") {
        Some(StepKeyword::AccessAttach)
    } else if is_word(word, b"adetach") {
        Some(StepKeyword::AccessDetach)
    } else if is_word(word, b"notices") {
        Some(StepKeyword::Notices)
    } else {
        None
    }
}
