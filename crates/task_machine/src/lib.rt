//! The machine that runs task bodies: flat instructions, and frames that run them call by call.
//!
//! A body is a list of instructions: admission, fetches, the program, publications, the return, the end. Many change what the
//! activation works on at once: `Set` a variable, `Load` what was fetched, `Keep` what is to be published, pass over some
//! (`Unless`, `Unwritten`, `Skip`), begin and end a loop (`Repeat`, `Again`). A `Call` asks the bus for something, and says what
//! is taken of the answer. A loop has a counter, one for each depth, so a body is as long as its program's text. A `Frame` is a
//! program counter, the variables, a slot for each element that is fetched and for each that is published, the counters and the
//! key. The instructions of the program are those of a component's runnable, and all its instances share them (`Code`, in an
//! `Arc`): they name an access by its number in the signature. What an access names in an instance is in the body's `Targets`: a
//! position in a list of the plan, or a slot. The instructions around the program are each instance's own. So bodies take memory
//! as the programs and the accesses of the instances do, and not as programs times instances. Between calls no name is looked up.
//! `bench/run_bodies.sh` times bodies.
//!
//! # Decisions
//!
//! **Why has a body a budget?** So that going from call to call returns for every list of instructions, also one that no program
//! gives. It is the most instructions that the program executes, and one for its admission, one for each fetch, two for each
//! publication, one for its return and one for its end. That no activation of a made body uses it up is part of the promise: it is
//! over only if the actor rule wants nothing.
//!
//! **Why are the instructions before a program and after it one list?** The places of a body are counted in 64 bits. Two lists and
//! a third could be longer than that by the clauses of `Vec`; one list and a program, which has at most 300,000 instructions,
//! cannot. So no sum has to be refused.
//!
//! **How does one body serve events that modes disable and others?** Its first instruction asks for admission, and an activation
//! whose event no mode disables begins behind it.
//!
//! **When is an activation over?** After an answer that is an End or a refused admission, whatever was asked. So the promise needs
//! no condition on the answers.
//!
//! **How does a refused call not hear?** What a call takes of an answer says too how many instructions the answer passes over. So
//! a call that waits is two instructions, and a frame keeps nothing of the first.
//!
//! **What has a frame of a checked activation?** It is made at the first Start of its key, with the room of its own body
//! (`Frame::for_activation`), as bodies of a trace's runnables may be of very different sizes. The later activations of the key begin in
//! it (`Frame::begin_again`). A task of a node keeps its frame, which has the room of the largest body and takes no memory while it runs.
//!
//! **Why does `next_call` not change a frame?** A frame stands for the answers so far, and asking is no answer. So it may be asked
//! again, and a turn that made nothing leaves the frame as it was.
//!
//! **What has a frame to be asked in?** Any state: `next_call` and `feed` have no condition. Their clauses say what a frame gives
//! that stands for an activation; of any other nothing is said.
#![tactic(auto)]

mod finding;
mod frame;
mod given;
mod instr;
mod listed;
mod place;
mod returned;
mod store;
mod taking;

pub use frame::{Frame, Next};
pub use given::{Given, GivenWord};
pub use instr::{Body, Code, Instr, Request, SlotPart, Taken, Targets, TaskSet};
pub use returned::Returned;

/// There was no memory for what a call makes.
pub type Memory = std::alloc::AllocError;
