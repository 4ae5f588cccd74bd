//! The forms of the lines that name a thing of an outer port.

ghost use Rattle.std.specs.Prelude.{◌≡◌};
ghost use Rattle.script_reading.specs.Forms.{behind, form_of, service_form};

/// The forms of the lines that name a thing of an outer port: what the environment does there.
#[derive(Clone, Copy)]
pub enum Form {
    /// `write P.E V`: it writes an unqueued element of an R-port, which it provides to the instances (SWS_RTE: Rte_Write).
    Write,
    /// `send P.E V`: it sends to a queued element of an R-port (SWS_RTE: Rte_Send).
    Send,
    /// `read P.E`: it reads an unqueued element of a P-port, which the instances provide to it (SWS_RTE: Rte_Read).
    Read,
    /// `receive P.E`: it receives from a queued element of a P-port (SWS_RTE: Rte_Receive).
    Receive,
    /// `ask P.O V`: it calls an operation of a P-port, and does not wait (SWS_RTE: Rte_Call, asynchronous).
    Ask,
    /// `result P.O`: it takes the result of such a call (SWS_RTE: Rte_Result).
    TakeResult,
    /// `switch P.O MODE`: it switches a mode machine of its own, at an R-port (SWS_RTE: Rte_Switch).
    Switch,
    /// `mode P.O`: it looks at the mode of a mode element of a P-port (SWS_RTE: Rte_Mode).
    SeeMode,
}

/// What stands behind the name in a line of a form.
#[derive(Clone, Copy)]
pub enum Follows {
    Nothing,
    /// A value.
    Value,
    /// The name of a mode.
    Mode,
}

/// What stands behind the name in a line of this form.
pub fn behind(form: Form) -> Follows
    ensures { result ≡ behind form }
{
    match form {
        Form::Write | Form::Send | Form::Ask => Follows::Value,
        Form::Switch => Follows::Mode,
        Form::Read | Form::Receive | Form::TakeResult | Form::SeeMode => Follows::Nothing,
    }
}

/// The form of calls and modes whose lines begin with this word.
fn service_form(word: &[u8]) -> Option<Form>
    ensures { result ≡ service_form word.now }
{
    if word == b"ask".as_slice() {
        Some(Form::Ask)
    } else if word == b"result".as_slice() {
        Some(Form::TakeResult)
    } else if word == b"switch".as_slice() {
        Some(Form::Switch)
    } else if word == b"mode".as_slice() {
        Some(Form::SeeMode)
    } else {
        None
    }
}

/// The form whose lines begin with this word.
pub fn form_of(word: &[u8]) -> Option<Form>
    ensures { result ≡ form_of word.now }
{
    if word == b"write".as_slice() {
        Some(Form::Write)
    } else if word == b"send".as_slice() {
        Some(Form::Send)
    } else if word == b"read".as_slice() {
        Some(Form::Read)
    } else if word == b"receive".as_slice() {
        Some(Form::Receive)
    } else {
        service_form(word)
    }
}
