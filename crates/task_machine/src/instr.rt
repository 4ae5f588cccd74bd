//! The instructions of a body.

ghost use Rattle.std.specs.Prelude.{◌≡◌, ◌≤◌, ◌<◌, ◌^◌, length, get_or};
ghost use Rattle.task_machine.specs.Targets.{number_at, fetched_at, written_at};

use crate::given::Given;
use crate::returned::Returned;
use rte_text::Seq;
use runnable_lang::Expr;
use std::alloc::Global;
use std::sync::Arc;

/// What a body asks of the bus: at what its access names, or else at these positions in the lists of the plan.
#[derive(Drop)]
pub enum Request {
    /// To have the activation admitted (SWS_RTE: ModeDisablingDependency).
    Admit,
    /// To fetch an element (SWS_RTE: Rte_IRead, Rte_IrvIRead).
    Fetch { elem: u32 },
    /// To write these words (SWS_RTE: Rte_Write, Rte_IrvWrite).
    Write { given: Given },
    /// To read an element (SWS_RTE: Rte_Read, Rte_IrvRead).
    Read,
    /// To invalidate an element (SWS_RTE: Rte_Invalidate).
    Invalidate,
    /// To see whether an element was updated (SWS_RTE: Rte_IsUpdated).
    IsUpdated,
    /// To send these words (SWS_RTE: Rte_Send).
    Send { given: Given },
    /// To receive from an element (SWS_RTE: Rte_Receive).
    Receive,
    /// To call an operation with these arguments (SWS_RTE: Rte_Call).
    Ask { given: Given },
    /// To take the answer of a call that waits (SWS_RTE: Rte_Call, synchronous).
    Answer,
    /// To take the result of a call (SWS_RTE: Rte_Result).
    TakeResult,
    /// To enter an exclusive area (SWS_RTE: Rte_Enter).
    Enter,
    /// To leave it (SWS_RTE: Rte_Exit).
    Leave,
    /// To switch a machine to this mode (SWS_RTE: Rte_Switch).
    Switch { mode: u32 },
    /// To see the mode at a mode port (SWS_RTE: Rte_Mode).
    Mode,
    /// To publish what was written into the slot (SWS_RTE: Rte_IWrite, Rte_IrvIWrite).
    Publish { elem: u32, slot: usize },
    /// To fetch the elements of a coherent list at one moment (SWS_RTE: Rte_IRead).
    FetchAll { list: u32 },
    /// To publish at one moment what was written into the slots of a coherent list's elements, in the list's order (SWS_RTE: Rte_IWrite).
    /// There are at most 16 slots, and 16 words in them.
    PublishAll { list: u32, slots: Seq<usize> },
    /// To return from an operation.
    Return(Returned),
    /// To end the activation.
    End,
}

/// What a body takes of the answer. Numbers are those of variables.
#[derive(Drop)]
pub enum Taken {
    /// Nothing.
    Nothing,
    /// The status of a call that always answers 0.
    Zero(u32),
    /// The status.
    Code(u32),
    /// A mode, or 1 if there was an update and else 0.
    Number(u32),
    /// The words, from left to right. If there are fewer words, the other variables stay.
    Value(Seq<u32>),
    /// The words, from left to right, and then the status into the last one.
    Words(Seq<u32>, u32),
    /// Nothing of an ask that was accepted, which has the code 0. Of another one the status, and the next instruction is
    /// passed over, which would hear what the operation returns.
    Refusal(u32),
    /// What was fetched, into this slot.
    Slot(usize),
    /// What was fetched together, into these slots: each takes so many words from the left. If there are fewer words, the later slots
    /// take the words that are left, or none.
    Slots(Seq<SlotPart>),
}

/// A slot, and how many words its element has.
#[derive(Clone, Copy)]
pub struct SlotPart {
    pub slot: usize,
    pub words: u8,
}

/// An instruction of a body. It counts instructions from the next one on.
#[derive(Drop)]
pub enum Instr {
    /// The variable takes the value.
    Set {
        var: u32,
        value: Expr,
    },
    /// The variables take what was fetched by an access, from left to right. If there are fewer words, the others stay.
    Load {
        vars: Seq<u32>,
        access: usize,
    },
    /// What an access is to publish is these words, in the place of what was written by it before.
    Keep {
        access: usize,
        given: Given,
    },
    /// So many instructions are passed over if the value is 0.
    Unless {
        cond: Expr,
        past: u32,
    },
    /// So many instructions are passed over if nothing was written into the slot.
    Unwritten {
        slot: usize,
        past: u32,
    },
    /// So many instructions are passed over if nothing was written into any of the slots.
    NoneWritten {
        slots: Seq<usize>,
        past: u32,
    },
    /// So many instructions are passed over.
    Skip {
        past: u32,
    },
    /// A loop begins: its counter takes the number of times, or if that is 0 so many instructions are passed over.
    Repeat {
        counter: u32,
        times: u32,
        past: u32,
    },
    /// A loop has gone through its body: if its counter is above 1 it is lowered by 1, and so many instructions are gone
    /// back, counted from this one on.
    Again {
        counter: u32,
        back: u32,
    },
    /// The bus is called, at what an access names.
    Call {
        request: Request,
        access: usize,
        taken: Taken,
    },
}

/// What accesses name in an instance, by the number of the access. Number 0 is of none: it names the position 0.
#[derive(Drop)]
pub struct Targets {
    /// For each access, in the order of the signature, the position of its target in a list of the plan.
    pub numbers: Seq<u32>,
    /// For each access that fetches, in this order, its slot.
    pub fetched: Seq<usize>,
    /// For each access that publishes, in this order, its slot.
    pub written: Seq<usize>,
}

/// The number at a place, and 0 if there is none.
fn number_in(numbers: &[u32], place: usize) -> u32
    ensures { result ≡ get_or numbers.now place 0 }
{
    numbers.get(place).copied().unwrap_or(0)
}

/// The slot at a place, and 0 if there is none.
fn slot_in(slots: &[usize], place: usize) -> usize
    ensures { result ≡ get_or slots.now place 0 }
{
    slots.get(place).copied().unwrap_or(0)
}

impl Targets {
    /// The position of what an access names.
    pub fn number(&self, access: usize) -> u32
        ensures { result ≡ number_at self.now access }
    {
        number_in(self.numbers.items(), access)
    }

    /// The slot of what an access fetches.
    pub fn fetched_slot(&self, access: usize) -> usize
        ensures { result ≡ fetched_at self.now access }
    {
        slot_in(self.fetched.items(), access)
    }

    /// The slot of what an access is to publish.
    pub fn written_slot(&self, access: usize) -> usize
        ensures { result ≡ written_at self.now access }
    {
        slot_in(self.written.items(), access)
    }
}

/// The instructions of a program, which the runnables of all instances of a component share: they name accesses by number.
#[derive(Drop)]
pub struct Code {
    pub instrs: Seq<Instr>,
    /// The most instructions of them that one activation executes.
    pub steps: u64,
    /// How many loops stand within one another at most.
    pub loops: u32,
    pub ghost short: { length instrs < 2 ^ 32 },
}

/// The body of a runnable of an instance: instructions before its program, the program's, and instructions after it. The first one asks
/// for admission; an activation whose event no mode disables begins behind it.
#[derive(Drop)]
pub struct Body {
    /// How many variables it has, which begin at 0, except the `in` arguments.
    pub vars: u32,
    /// The variables of the `in` arguments, in order: they begin with the values that the start gives.
    pub arguments: Seq<u32>,
    /// How many slots it has for what it fetches.
    pub fetched: usize,
    /// How many slots it has for what it is to publish.
    pub written: usize,
    /// How many loops stand within one another at most.
    pub counters: u32,
    /// The most instructions that one activation executes (OS: execution budget). An activation that has used them up is over.
    pub budget: u64,
    /// What the accesses name in its instance.
    pub targets: Targets,
    /// Its instructions around the program: the admission and the fetches before it, and the publications, the return and the end after
    /// it. The activation is over behind the last one.
    pub around: Seq<Instr>,
    /// How many of them stand before the program.
    pub before: usize,
    /// The instructions of its program.
    pub code: Arc<Code, Global>,
    pub ghost around_it: { before ≤ length around },
}

/// The bodies of all runnables.
#[derive(Drop)]
pub struct TaskSet {
    /// The bodies of the runnables, each at the place of its number.
    pub bodies: Seq<Body>,
    /// For each event whether some mode disables it (SWS_RTE: ModeDisablingDependency).
    pub disabled: Seq<bool>,
}
