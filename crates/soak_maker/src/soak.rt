//! The bytes of the description and of the script.

ghost use Rattle.std.specs.Prelude.{◌≡◌, List, IfOk};
ghost use Rattle.bus_semantics.specs.declared.script.Line.{Line};
ghost use Rattle.bus_semantics.specs.Plan.{Plan};
ghost use Rattle.description_places.specs.Rules.{Reads};
ghost use Rattle.script_reading.specs.Reading.{IsScript};
ghost use Rattle.soak_maker.specs.Script.{rounds, soak_lines};
ghost use Rattle.soak_maker.specs.Soak.{soak_value};

use crate::root::description;
use rte_text::Memory;
use std::alloc::Global;

/// How many run lines the script has.
const RUNS: u32 = 20;

/// What a node is soaked with.
#[derive(Drop)]
pub struct Soak {
    /// The bytes of a description, as JSON.
    pub description: Vec<u8>,
    /// The bytes of a script over it.
    pub script: Vec<u8>,
}

/// Ten ticks and a run line, so often.
fn script(alloc: Global, count: u32) -> Result<Vec<u8>, Memory>
    ensures { IfOk result (λ bytes. bytes.items ≡ rounds count) }
{
    let mut bytes = Vec::new(alloc);
    for i in 0..count {
        bytes.extend_from_slice(b"tick 10\nrun\n")?;
    }
    Ok(bytes)
}

/// The description of `n` producers, `n` consumers and a server on four cores, and the script that ticks ten times and runs, twenty
/// times. The only error is that there is no memory. `serde_json` reads the bytes of the description as one value (`soak_value`),
/// and over any plan those of the script are this script and no other.
pub fn make_soak(alloc: Global, n: u32) -> Result<Soak, Memory>
    ensures described { IfOk result (λ s. Reads s.description.items (soak_value n)) }
    ensures scripted { IfOk result (λ s. (p : Plan) → IsScript p s.script.items soak_lines) }
    ensures once { IfOk result (λ s. (p : Plan) (lines : List Line) → IsScript p s.script.items lines → lines ≡ soak_lines) }
{
    let value = description(alloc, n)?;
    Ok(Soak {
        description: value.to_vec(alloc)?,
        script: script(alloc, RUNS)?,
    })
}
