//! The generator of task bodies: it makes the program of each runnable into flat instructions.
//!
//! # Decisions
//!
//! **Where does what was fetched lie?** In slots of the frame, one for each place among the elements that a runnable fetches, and
//! likewise for what it is to publish. The definitions keep lists, the last first, which no fixed room holds. An element has the
//! slot of its first place, so two accesses to one element share it. While bodies are made a slot is looked for by a walk over the
//! elements that the runnable fetches, or those that it publishes; once for each access of an instance, and not for each
//! statement.
//!
//! **How do instances share code, if each accesses elements of its own?** A shared instruction names an access by a number, and
//! each body has what these numbers name in its instance (`Targets`). Accesses that fetch are numbered among themselves, those
//! that publish too, and the others among all; 0 stands for an access that the signature has not, so that no premise on programs
//! is needed. The fetches before a program and the publications and the return after it are instructions of the instance: what
//! they are depends on its elements and its server.
//!
//! **What if a call gave more than 16 words, or 32 bits did not hold a jump?** Values hold 16 words and jumps 32 bits, so that
//! instructions stay small. `generate` asks for a sound plan, and shows that it has nothing larger: an element has at most 16
//! words, a point and a server at most 16 arguments, and a program, which costs at most 100,000, at most three instructions for
//! each 1 of its cost (`costs_bound_bodies`). So its budget fits 64 bits too. No code of `generate` answers out of memory but
//! where an allocation is refused.
//!
//! **Why has a `repeat` that does nothing no instructions?** A `repeat` without turns costs 1, whatever stands in it, and one of
//! an empty list costs 1, however many turns it has. Both would break the bound above, and the second would go through very many
//! silent instructions between two calls. So a `repeat` that asks nothing and sets nothing (`does_nothing`) is left out. Whether
//! it does is looked for once for each `repeat` around it; at most 127 brackets are open at once, so there are few of these.
//!
//! **How is an access found while code is made?** By its kind, port and item, in a map. It is filled from the last access to the
//! first, so that of two equal ones the first counts. A walk over the accesses for each statement would be quadratic.
//!
//! **Why does `generate` take the mapping?** The plan is sound with it. Bodies are made by runnable, and no task enters them
//! today. With the mapping the call keeps its form when bodies depend on tasks.
#![tactic(auto)]

mod accesses;
mod around;
mod bounds;
mod calls;
mod code;
mod copies;
mod generator;
mod implicit;
mod laws;
mod nothing;
mod numbers;
mod set;
mod shared;
mod targets;

pub use laws::costs_bound_bodies;
pub use set::generate;

/// There was no memory for what a call makes.
pub type Memory = std::alloc::AllocError;
