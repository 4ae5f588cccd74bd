//! Laws of traces.

ghost use Rattle.bus_semantics.specs.declared.script.Mapping.{Mapping};
ghost use Rattle.bus_semantics.specs.Common.{Plan, IsSound};
ghost use Rattle.trace_reading.specs.Readable.{SoundPlansAreReadable};
ghost use Rattle.trace_reading.specs.Reads.{ItemsHaveOneLine, LinesHaveOneReading, SessionsHaveOneText, TextsHaveOneSession, TextsHaveOneVersion};

/// In a sound plan an item that fits has one line: its text ends by a newline, and has no other.
pub fn items_have_one_line()
    ensures { (p : Plan) (m : Mapping) → IsSound p m → ItemsHaveOneLine p }
{}

/// Every sound plan has what reading needs of one. To call it before a reader is made shows that the plan may be read.
pub fn sound_plans_are_readable()
    ensures { SoundPlansAreReadable }
{}

/// In a sound plan a line of a version is that of one item.
pub fn lines_have_one_reading()
    ensures { (p : Plan) (m : Mapping) → IsSound p m → LinesHaveOneReading p }
{}

/// A session has one text in each version. In a sound plan a text is that of one session whose items fit the plan, and in one
/// version.
pub fn texts_have_one_session()
    ensures one_text { (p : Plan) → SessionsHaveOneText p }
    ensures one_version { (p : Plan) (m : Mapping) → IsSound p m → TextsHaveOneVersion p }
    ensures one_session { (p : Plan) (m : Mapping) → IsSound p m → TextsHaveOneSession p }
{}
