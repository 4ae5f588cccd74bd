//! A round: cores act on the objects of a bus at the same time.

ghost use Rattle.std.specs.Prelude.{◌≡◌, true};
ghost use Rattle.bus_semantics.specs.SoundPlan.{groups_fit};
ghost use Rattle.cross_core_table.specs.Logs.{plan_in};
ghost use Rattle.cross_core_table.specs.Rules.{place_of};

use crate::plays::Ruled;
use crate::steps::Top;
use crate::views::{Opening, View};
use atomic_table::Table;
use bus_semantics::Stamped;
use port_objects::Object;
use std::alloc::Global;
use std::marker::Model;

/// The objects of a bus on a table that cores share, each core by a seat of its own. Contracts see which table it is, what the
/// round was opened with, and how many cores have a seat.
#[derive(Drop)]
pub struct Round {
    pub(crate) table: Table<Object, View, Opening, Ruled, Global>,
    /// Empty, with room for all entries of the round.
    pub(crate) entries: Vec<Stamped>,
    /// Empty, with room for the part of each core.
    pub(crate) rooms: Vec<Vec<Stamped>>,
    /// Empty, with room for all objects.
    pub(crate) returned: Vec<Object>,
    pub(crate) cores: u32,
}

impl Model for Round {
    ghost use Rattle.cross_core_table.specs.Ready.{IsReady};
    ghost use Rattle.cross_core_table.specs.OpenRounds.{OpenRound};
    ghost use Rattle.runnable_lang.specs.contracts.stmt.Stmt as statements;
    ghost use Rattle.runnable_lang.specs.contracts.stmt.Expr as expressions;
    ghost use Rattle.std.specs.Coded.{codes};

    ghost Value = { OpenRound };

    ghost coded = { Prim.hlevel (codes, statements.the_row.coded, expressions.the_row.coded) };

    ghost view = { λ r. record { table = r.table.shared.table_id; opening = r.table.shared.key; cores = r.cores } };

    ghost invariant = { λ r. IsReady r.table.shared.table_id r.table.shared.key r.cores r.entries r.rooms r.returned };
}

impl Round {
    /// The table as its seats see it: a word for each object and one for the stamps.
    pub(crate) fn top(&self) -> &Top
        ensures table { result.now.table_id ≡ self.now.table }
        ensures opening { result.now.key ≡ self.now.opening }
        ensures words { result.now.table_id.words ≡ place_of result.now.table_id.slots }
        ensures slots { result.now.table_id.slots ≡ (plan_in result.now.key).objects }
        ensures groups { groups_fit (plan_in result.now.key) ≡ true }
    {
        &self.table.shared
    }
}
