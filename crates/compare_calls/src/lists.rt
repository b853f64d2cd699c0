// Reading into a lent list, of 130 records and of 127.
use compare_answers::same;
use compare_answers::tally::{Comparison, Tally};
use compare_lines::splitting::Fault;
use compare_lines::wires;
use compare_making::lending::CONTENT;
use data::{Listing, Refusal, Wire};

// Whether the list has the routine's records afterwards, and from n on the old content.
fn same_list(list: &[Wire], ws: &[Wire]) -> bool {
    let wanted = |k: usize| ws.get(k).copied().unwrap_or(CONTENT);
    list.iter().enumerate().all(|(k, x)| *x == wanted(k))
}

fn compare_long(t: &mut Tally, text: &[u8], own: Result<Listing, Fault>) {
    let after = compare_lists::read(text, [CONTENT; 130]);
    let same_wires = match own {
        Ok(g) => same_list(&after.list, wires::of(&g)),
        Err(_) => same_list(&after.list, &[]),
    };
    let same = same::same_answer(after.answer, own) && same_wires;
    t.compared(Comparison::LentReads, same);
}

// Refusal 10 before all else, whatever the text is, and the list as it came.
fn compare_short(t: &mut Tally, text: &[u8]) {
    let after = compare_lists::read(text, [CONTENT; 127]);
    let refused = Err(Fault {
        refusal: Refusal::Lent,
        line: 0,
    });
    let same = same::same_answer(after.answer, refused) && same_list(&after.list, &[]);
    t.compared(Comparison::LentShort, same);
    t.refused(Some(Refusal::Lent));
}

pub fn compare_read(t: &mut Tally, text: &[u8], own: Result<Listing, Fault>) {
    compare_long(t, text, own);
    compare_short(t, text);
}
