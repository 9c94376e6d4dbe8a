//! The place that a read comes to: what a volume finds before it asks the crate.

use crate::small::{Keeps, Key, Small, Sought, Stands};

/// Whether a read finds what another unit may bring back.
pub fn sees_kept(update: bool, keeps: Keeps) -> bool {
    update || keeps != Keeps::Nothing
}

/// A record stands at a place, or one may be brought back there, where the read sees it.
fn has(case: &Small, key: Key, kept: bool) -> bool {
    let stands = match key {
        Key::A => case.has_a,
        Key::B => case.has_b,
        Key::Far => false,
    };
    stands || (kept && case.kept == Some(key))
}

/// Whether a sequential read may come to a place from where its file stands.
fn is_ahead(stands: Stands, key: Key) -> bool {
    match stands {
        Stands::Unused | Stands::Start | Stands::At(Key::A) => true,
        Stands::At(Key::B) | Stands::After(Key::A) => key == Key::B,
        Stands::At(Key::Far) | Stands::After(Key::B) | Stands::After(Key::Far) => false,
        Stands::End | Stands::Nowhere => false,
    }
}

/// Whether a read asks for a place.
fn is_asked(case: &Small, sought: Sought, key: Key) -> bool {
    match sought {
        Sought::Next => is_ahead(case.stands, key),
        Sought::Equal(wanted) => key == wanted,
        Sought::AtLeast(least) => key == least || least == Key::A,
    }
}

/// The place that a read comes to: the one that it names, or the first that it asks for.
pub fn found(case: &Small, sought: Sought, kept: bool) -> Option<Key> {
    if let Sought::Equal(key) = sought {
        return Some(key);
    }
    for key in [Key::A, Key::B] {
        if is_asked(case, sought, key) && has(case, key, kept) {
            return Some(key);
        }
    }
    None
}
