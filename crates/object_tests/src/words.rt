//! The worked words of the format, and one lock word from its first reader to its writer's release. An sx lock wakes
//! the other side first where it was held exclusively.
use lock_model::{Kind, Mode, Side, ThreadNo};
use lock_words::*;

// A word, its holder, and whether exclusive and shared waiters are shown.
const WORDS: [(u64, Hold, bool, bool); 5] = [
    (0, Hold::Free, false, false),
    (4, Hold::Excl(ThreadNo(0)), false, false),
    (29, Hold::Excl(ThreadNo(3)), true, false),
    (19, Hold::Shared(2), true, true),
    (2, Hold::Free, false, true),
];

#[test]
fn worked_words(rt: HostRuntime) {
    for (word, hold, xw, sw) in WORDS {
        let view = WordView { hold, xw, sw };
        assert!(rt; decode(word) == view && encode(view) == word, "of {word}");
        assert!(rt; shows_waiters(word) == (xw || sw), "of {word}");
    }
    assert!(rt; owner_of(29) == Some(ThreadNo(3)));
    assert!(rt; owner_of(19).is_none() && owner_of(2).is_none());
    assert!(rt; is_drop(4) && !is_drop(29) && is_drop(19));
}

#[test]
fn steps_of_a_word(rt: HostRuntime) {
    assert!(rt; admits(Kind::Rw, 0, Mode::Shared));
    assert!(rt; gained(0, ThreadNo(0), Mode::Shared) == 8);
    assert!(rt; entered(8, Side::X) == 9);
    assert!(rt; !admits(Kind::Rw, 9, Mode::Shared));
    assert!(rt; entered(9, Side::S) == 11);
    assert!(rt; opened(Kind::Rw, 11) == (2, Some(Side::X)));
    assert!(rt; opened(Kind::Sx, 11) == (2, Some(Side::X)));
    assert!(rt; opened(Kind::Sx, 7) == (1, Some(Side::S)));
    assert!(rt; !is_plain(Kind::Rw, 2, Mode::Excl));
    assert!(rt; claimed(2, ThreadNo(4)) == 38);
    assert!(rt; unshown(38, Side::S) == 36);
    assert!(rt; dropped(36, Mode::Excl) == 0);
}
