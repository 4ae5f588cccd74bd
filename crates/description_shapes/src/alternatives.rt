//! Kinds that are found by a word of the value.

ghost use Rattle.std.specs.Prelude.{◌≡◌, map, option_map};
ghost use Rattle.serde_json.specs.View.{view};
ghost use Rattle.description_shapes.specs.Alternatives.{choice_of, choices_of, pick, pick_if, word_at, first_word, by_activation, expression_kind, resolved};
ghost use Rattle.description_shapes.specs.Rows.{text_of};

use crate::kind::Kind;
use serde_json::Value;

/// A word, and the kind that it names.
#[derive(Clone, Copy)]
pub struct Alternative {
    /// The word.
    pub word: &'static str,
    /// The kind that it names.
    pub kind: Kind,
}

macro_rules! names {
    ($word:literal, $kind:ident) => {
        Alternative {
            word: $word,
            kind: Kind::$kind,
        }
    };
}

/// The words that a value of this kind may name its own kind by.
pub fn choices_of(kind: Kind) -> &'static [Alternative]
    ensures { map choice_of result.now ≡ choices_of kind }
{
    match kind {
        Kind::Interface => &[
            names!("SenderReceiverInterface", SenderReceiverInterface),
            names!("ClientServerInterface", ClientServerInterface),
            names!("ModeSwitchInterface", ModeSwitchInterface),
        ],
        Kind::Event => &[
            names!("TimingEvent", TimingEvent),
            names!("InitEvent", InitEvent),
            names!("DataReceivedEvent", DataReceivedEvent),
            names!("OperationInvokedEvent", OperationInvokedEvent),
            names!("AsynchronousServerCallReturnsEvent", CallReturnsEvent),
            names!("SwcModeSwitchEvent", ModeSwitchEvent),
            names!("ModeSwitchedAckEvent", ModeSwitchAckEvent),
        ],
        Kind::Connector => &[
            names!("AssemblySwConnector", AssemblyConnector),
            names!("DelegationSwConnector", DelegationConnector),
        ],
        Kind::Access => &[
            names!("write", ItemAccess),
            names!("read", ItemAccess),
            names!("invalidate", ItemAccess),
            names!("isUpdated", ItemAccess),
            names!("send", ItemAccess),
            names!("receive", ItemAccess),
            names!("iwrite", ItemAccess),
            names!("iread", ItemAccess),
            names!("call", ItemAccess),
            names!("acall", ItemAccess),
            names!("result", ItemAccess),
            names!("irvWrite", VariableAccess),
            names!("irvRead", VariableAccess),
            names!("irvIWrite", VariableAccess),
            names!("irvIRead", VariableAccess),
            names!("switch", PortAccess),
            names!("mode", PortAccess),
            names!("enter", AreaAccess),
        ],
        Kind::Statement => &[
            names!("set", SetStatement),
            names!("if", IfStatement),
            names!("repeat", RepeatStatement),
            names!("area", AreaStatement),
            names!("write", GivingStatement),
            names!("read", TakingStatement),
            names!("invalidate", ItemStatement),
            names!("isUpdated", ItemStatement),
            names!("send", GivingStatement),
            names!("receive", TakingStatement),
            names!("iwrite", LateWrite),
            names!("iread", EarlyRead),
            names!("irvWrite", VariableWrite),
            names!("irvRead", VariableRead),
            names!("irvIWrite", VariableWrite),
            names!("irvIRead", VariableRead),
            names!("call", CallStatement),
            names!("acall", GivingStatement),
            names!("result", TakingStatement),
            names!("switch", SwitchStatement),
            names!("mode", ModeStatement),
        ],
        Kind::Expression => &[
            names!("add", Operator),
            names!("sub", Operator),
            names!("mul", Operator),
            names!("div", Operator),
            names!("eq", Operator),
            names!("ne", Operator),
            names!("lt", Operator),
            names!("le", Operator),
        ],
        Kind::ModeSwitchEvent => &[names!("onTransition", ModeTransitionEvent)],
        _ => &[],
    }
}

fn pick(kind: Kind, other: Kind, word: Option<&str>) -> Kind
    ensures { result ≡ pick_if (choices_of kind) other (option_map text_of word.exit) }
{
    match word {
        Some(word) => pick_from(choices_of(kind), other, word),
        None => other,
    }
}

#[tactic(auto, using(crate::proofs::Tables::find_turn))]
fn pick_from(choices: &[Alternative], other: Kind, word: &str) -> Kind
    ensures { result ≡ pick (map choice_of choices.now) other word.now }
{
    for choice in choices {
        if choice.word == word {
            return choice.kind;
        }
    }
    other
}

fn word_at<'a>(value: &'a Value, key: &str) -> Option<&'a str>
    ensures { option_map text_of result ≡ word_at key.now (view value.now) }
{
    value.get(key).and_then(Value::as_str)
}

fn first_word(value: &Value) -> Option<&str>
    ensures { option_map text_of result ≡ first_word (view value.now) }
{
    value.get(0).and_then(Value::as_str)
}

fn by_activation(kind: Kind, value: &Value) -> Kind
    ensures { result ≡ by_activation kind (view value.now) }
{
    match kind {
        Kind::ModeSwitchEvent => pick(kind, kind, word_at(value, "activation")),
        _ => kind,
    }
}

fn expression_kind(value: &Value) -> Kind
    ensures { result ≡ expression_kind (view value.now) }
{
    if value.is_number() {
        Kind::Constant
    } else if value.is_string() {
        Kind::LocalName
    } else {
        pick(Kind::Expression, Kind::UnknownExpression, first_word(value))
    }
}

/// The kind that a value is found to have where a value of this kind should stand: an object by its `kind`, an array by
/// its first part, an expression by what it is, and else the same kind. A word that names none gives an unknown kind.
pub fn resolved(kind: Kind, value: &Value) -> Kind
    ensures { result ≡ resolved kind (view value.now) }
{
    match kind {
        Kind::Interface => pick(kind, Kind::UnknownInterface, word_at(value, "kind")),
        Kind::Event => by_activation(
            pick(kind, Kind::UnknownEvent, word_at(value, "kind")),
            value,
        ),
        Kind::Connector => pick(kind, Kind::UnknownConnector, word_at(value, "kind")),
        Kind::Access => pick(kind, Kind::UnknownAccess, first_word(value)),
        Kind::Statement => pick(kind, Kind::UnknownStatement, first_word(value)),
        Kind::Expression => expression_kind(value),
        _ => kind,
    }
}
