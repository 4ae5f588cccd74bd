//! Laws of the numbers.

ghost use Rattle.std.specs.Prelude.{◌≡◌};
ghost use Rattle.bus_semantics.specs.declared.script.Mapping.{Mapping};
ghost use Rattle.bus_semantics.specs.declared.version.Version.{Version};
ghost use Rattle.bus_semantics.specs.Common.{Plan, Session, IsSound, spelling_of};
ghost use Rattle.trace_counts.specs.Sessions.{numbers_of};
ghost use Rattle.trace_counts.specs.Tallies.{numbers_in};

/// What is counted of the text of a session, in either version, is what the session did. It is so over a sound plan; each number
/// counts up to 2^32 - 1.
pub fn texts_have_the_numbers_of_their_session()
    ensures { (v : Version) (p : Plan) (m : Mapping) (s : Session) → IsSound p m → numbers_in (spelling_of v p s) ≡ numbers_of s }
{}
