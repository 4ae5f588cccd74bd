//! What a refusal is printed as, which no contract says.

use rte_text::{Refusal, Refused, Text};
use std::alloc::AllocError;
use std::test::Fail;

#[test]
fn prints_why_a_description_is_refused(rt: HostRuntime) -> Result<(), Fail> {
    let alloc = rt.alloc();
    let place = Text::new(alloc, b"/dataTypes/0")?;
    let rule = Refused::Rule(Refusal { rule: 7, place });
    assert_eq!(rt; rule.to_string(alloc)?.as_str(), "refused rule 7");
    let memory = Refused::from(AllocError);
    assert_eq!(rt; memory.to_string(alloc)?.as_str(), "out of memory");
    Ok(())
}
