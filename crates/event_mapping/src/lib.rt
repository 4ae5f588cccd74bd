//! The plan of a description made flat, and its mapping.
//!
//! # Decisions
//!
//! **What does the rule on sizes count?** Groups, each by itself, and not bundles: a list makes no plan smaller, and a description
//! without lists is judged as one with them. There are at most as many bundles as groups, so objects are bounded too; and so is
//! what bundling costs, at most a walk over all groups for each time that two bundles become one.
//!
//! **When are the coherent lists of a plan listed?** When rule 31 holds, which is looked at behind the rule on sizes. A file of 8
//! MiB may name two million lists in a component of a thousand instances; if each fits, a runnable has at most half as many of
//! them as implicit accesses. So the rule on sizes is judged from the plan's other pieces. No rule limits runnables, so very many
//! of them in very many instances may still have very many lists (`bench/README.md` says what that costs).
//!
//! **Whose queues count?** Those of every required queued element, joined or not, the environment's too; of servers that are not
//! direct; and of mode machines. They are taken off the least sum that is too much, one after the other, down to 0, and so are the
//! objects, events and points that are counted before a plan is listed: so no count is larger than its type holds, and none is
//! answered as out of memory.
//!
//! **Why does rule 30 bound points, and by 262,144?** Nothing else bounds them: many callers share a server, and the environment
//! has a point for each operation of each outer P-port, joined or not. A file of 8 MiB with 59,000 outer P-ports of an interface
//! of 89,000 operations has 5 * 10^9, more than 32 bits number and more than memory takes. 262,144 are 16 for each of as many
//! events as there may be, or 256 for each instance. They are counted before the plan is listed: the calls of a component once for
//! all its instances, and an outer port by the operations of its interface. So nothing is listed of a plan with too many.
#![tactic(auto)]

mod areas;
mod build;
mod check;
mod guard;
mod pieces;
mod size;

pub use check::map_events;
