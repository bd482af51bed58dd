//! Which notes come back to which share.

use crate::notes::Notes;
use std::test::Fail;
use tn_agenda::share::Share;

fn is_sync<T: Sync>(_value: &T) {}

#[test]
fn each_note_comes_back_once(rt: HostRuntime) -> Result<(), Fail> {
    let notes = Notes::of(rt.alloc(), 130)?;
    is_sync(&notes);
    for stop in [70, 3, 3, 129, 69] {
        notes.note(stop);
    }
    let low = Share::of(130, 2, 0);
    let high = Share::of(130, 2, 1);
    let cases = [
        (low, Some(3)),
        (low, None),
        (high, Some(69)),
        (high, Some(70)),
        (high, Some(129)),
        (high, None),
    ];
    for (share, want) in cases {
        assert_eq!(rt; notes.take(share), want);
    }
    Ok(())
}
