//! The law of names.

ghost use Rattle.bus_semantics.specs.declared.script.Mapping.{Mapping};
ghost use Rattle.bus_semantics.specs.Common.{Plan, IsSound};
ghost use Rattle.line_fields.specs.Named.{FindsAreas, FindsElems, FindsEvents, FindsInstances, FindsMachines, FindsModePorts, FindsModes, FindsPoints, FindsRunnables};

/// In a sound plan the name of a thing, with what it stands in, finds that thing.
pub fn names_find_what_they_name()
    ensures instances { (p : Plan) (m : Mapping) → IsSound p m → FindsInstances p }
    ensures elements { (p : Plan) (m : Mapping) → IsSound p m → FindsElems p }
    ensures points { (p : Plan) (m : Mapping) → IsSound p m → FindsPoints p }
    ensures areas { (p : Plan) (m : Mapping) → IsSound p m → FindsAreas p }
    ensures machines { (p : Plan) (m : Mapping) → IsSound p m → FindsMachines p }
    ensures modes { (p : Plan) (m : Mapping) → IsSound p m → FindsModes p }
    ensures mode_ports { (p : Plan) (m : Mapping) → IsSound p m → FindsModePorts p }
    ensures events { (p : Plan) (m : Mapping) → IsSound p m → FindsEvents p }
    ensures runnables { (p : Plan) (m : Mapping) → IsSound p m → FindsRunnables p }
{}
