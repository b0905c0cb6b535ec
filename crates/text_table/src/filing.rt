ghost use Rattle.std.specs.Prelude.{◌≡◌, ◌↔◌, Some, map, slice_get, string_bytes, IsTrue, MatchOption};
ghost use Rattle.text_table.specs.Filing.{HasNone, hash_of, tag_of as tag_part};

use std::hash::{FoldHasher, Hasher};

/// A place of a table in a bucket, with half the hash of its text, so that few other texts are compared.
#[derive(Clone, Copy, Default)]
pub(crate) struct Slot {
    pub(crate) tag: u32,
    pub(crate) place: u32,
}

/// The hash of a text.
pub(crate) fn text_hash(text: &str) -> u64
    ensures { result ≡ hash_of text.now }
{
    let mut hasher = FoldHasher::default();
    hasher.write(text.as_bytes());
    hasher.finish()
}

/// The half of a hash that stands beside a place. The other half mostly decides the bucket.
pub(crate) fn tag_of(hash: u64) -> u32
    ensures { result ≡ tag_part hash }
{
    (hash / 0x1_0000_0000) as u32
}

// Whether a text stands at a place.
fn is_at(texts: &[String], place: u32, text: &str) -> bool
    ensures { IsTrue result ↔ (slice_get (map string_bytes texts.now) place ≡ Some text.now) }
{
    match texts.get(place as usize) {
        Some(found) => found.as_str() == text,
        None => false,
    }
}

/// The place of a text among those of a bucket.
pub(crate) fn find_in(slots: &[Slot], tag: u32, texts: &[String], text: &str) -> Option<u32>
    ensures { MatchOption result
        (HasNone slots.now tag (map string_bytes texts.now) text.now)
        (λ place. slice_get (map string_bytes texts.now) place ≡ Some text.now) }
{
    for slot in slots {
        if slot.tag == tag && is_at(texts, slot.place, text) {
            return Some(slot.place);
        }
    }
    None
}
