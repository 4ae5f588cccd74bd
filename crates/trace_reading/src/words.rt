//! The words that say what was done.

ghost use Rattle.std.specs.Prelude.{◌≡◌};
ghost use Rattle.trace_reading.specs.Deeds.{call_word, data_word, list_word, mode_word, plain_word};

/// What is done at an element.
#[derive(Clone, Copy)]
pub enum DataWord {
    Read,
    Write,
    Fetch,
    Publish,
    Send,
    Receive,
    IsUpdated,
    Invalidate,
}

/// What is done at a point.
#[derive(Clone, Copy)]
pub enum CallWord {
    Ask,
    Answer,
    TakeResult,
}

/// What is done with modes.
#[derive(Clone, Copy)]
pub enum ModeWord {
    Mode,
    Switch,
    Phase,
}

/// What is done with a coherent list.
#[derive(Clone, Copy)]
pub enum ListWord {
    FetchAll,
    PublishAll,
}

/// What else is done.
#[derive(Clone, Copy)]
pub enum PlainWord {
    Start,
    Admit,
    End,
    Tick,
    Return,
    Enter,
    Leave,
}

/// The word of this text, if it says what is done at an element.
pub fn data_word(text: &[u8]) -> Option<DataWord>
    ensures { result ≡ data_word text.now }
{
    if text == b"read".as_slice() {
        Some(DataWord::Read)
    } else if text == b"write".as_slice() {
        Some(DataWord::Write)
    } else if text == b"fetch".as_slice() {
        Some(DataWord::Fetch)
    } else if text == b"publish".as_slice() {
        Some(DataWord::Publish)
    } else if text == b"send".as_slice() {
        Some(DataWord::Send)
    } else if text == b"receive".as_slice() {
        Some(DataWord::Receive)
    } else if text == b"isUpdated".as_slice() {
        Some(DataWord::IsUpdated)
    } else if text == b"invalidate".as_slice() {
        Some(DataWord::Invalidate)
    } else {
        None
    }
}

/// The word of this text, if it says what else is done.
pub fn plain_word(text: &[u8]) -> Option<PlainWord>
    ensures { result ≡ plain_word text.now }
{
    if text == b"start".as_slice() {
        Some(PlainWord::Start)
    } else if text == b"admit".as_slice() {
        Some(PlainWord::Admit)
    } else if text == b"end".as_slice() {
        Some(PlainWord::End)
    } else if text == b"tick".as_slice() {
        Some(PlainWord::Tick)
    } else if text == b"return".as_slice() {
        Some(PlainWord::Return)
    } else if text == b"enter".as_slice() {
        Some(PlainWord::Enter)
    } else if text == b"exit".as_slice() {
        Some(PlainWord::Leave)
    } else {
        None
    }
}

/// The word of this text, if it says what is done at a point.
pub fn call_word(text: &[u8]) -> Option<CallWord>
    ensures { result ≡ call_word text.now }
{
    if text == b"ask".as_slice() {
        Some(CallWord::Ask)
    } else if text == b"answer".as_slice() {
        Some(CallWord::Answer)
    } else if text == b"result".as_slice() {
        Some(CallWord::TakeResult)
    } else {
        None
    }
}

/// The word of this text, if it says what is done with modes.
pub fn mode_word(text: &[u8]) -> Option<ModeWord>
    ensures { result ≡ mode_word text.now }
{
    if text == b"mode".as_slice() {
        Some(ModeWord::Mode)
    } else if text == b"switch".as_slice() {
        Some(ModeWord::Switch)
    } else if text == b"phase".as_slice() {
        Some(ModeWord::Phase)
    } else {
        None
    }
}

/// The word of this text, if it says what is done with a coherent list.
pub fn list_word(text: &[u8]) -> Option<ListWord>
    ensures { result ≡ list_word text.now }
{
    if text == b"fetchAll".as_slice() {
        Some(ListWord::FetchAll)
    } else if text == b"publishAll".as_slice() {
        Some(ListWord::PublishAll)
    } else {
        None
    }
}
