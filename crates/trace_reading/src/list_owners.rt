//! Coherent lists: whose they are, and what a publication of one holds.

ghost use Rattle.std.specs.Prelude.{◌≡◌, ◌≤◌, ◌*◌, ◌%◌, ◌==◌, ◌&&◌, if◌then◌else◌, false, length};
ghost use Rattle.bus_semantics.specs.Common.{words_of, elems_of, list_fits, marked, marks_fit, words_at, words_of_all, plan_of};

use bus_semantics::BusPlan;
use rte_value::Value;

/// Whether the list is one of the runnable's, of reads or of writes.
pub fn list_fits(p: &BusPlan, runnable: u32, reads: bool, list: u32) -> bool
    ensures { result ≡ list_fits (plan_of p.now) runnable reads list }
{
    match p.lists.items().get(list as usize) {
        Some(coherent) => coherent.runnable == runnable && coherent.reads == reads,
        None => false,
    }
}

/// Whether no mark is beyond the elements.
fn marks_fit(written: u16, elems: &[u32]) -> bool
    ensures { result ≡ marks_fit written elems.now }
{
    elems.len() >= 16 || u32::from(written) >> elems.len() == 0
}

/// The words of an element if the lowest mark is set, else none.
fn words_if_marked(p: &BusPlan, marks: u16, elem: u32) -> u32
    ensures words { result ≡ (if marks % 2 == 1 then words_at (plan_of p.now) elem else 0) }
    ensures few { result ≤ 255 * (marks % 2) }
{
    if marks % 2 == 1 {
        u32::from(p.words_at(elem))
    } else {
        0
    }
}

/// How many words the marked elements have together.
fn words_of_marked(p: &BusPlan, elems: &[u32], written: u16) -> u32
    ensures { result ≡ words_of_all (plan_of p.now) (marked written elems.now) }
{
    let mut marks = written;
    let mut words = 0;
    for elem in elems {
        words += words_if_marked(p, marks, *elem);
        marks /= 2;
    }
    words
}

/// Whether the list is one of the runnable's lists of writes, no mark is beyond its elements, and the value has the words of
/// the marked ones, all together.
pub fn may_be_published(p: &BusPlan, runnable: u32, list: u32, written: u16, value: &Value) -> bool
    ensures { result ≡ (list_fits (plan_of p.now) runnable false list && (marks_fit written (elems_of (plan_of p.now) list) && (length (words_of value.now) == words_of_all (plan_of p.now) (marked written (elems_of (plan_of p.now) list))))) }
{
    let elems = p.elems_of(list);
    list_fits(p, runnable, false, list)
        && (marks_fit(written, elems)
            && value.words().len() == words_of_marked(p, elems, written) as usize)
}
