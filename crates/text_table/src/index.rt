ghost use Rattle.std.specs.Prelude.{◌≡◌, ◌<◌, ◌≤◌, ◌^◌, true, false, ◌++◌, ◌∷◌};
ghost use Rattle.std.specs.Prelude.{[], List, ℕ, Some};
ghost use Rattle.std.specs.Prelude.{length, map, slice_get, string_bytes};
ghost use Rattle.std.specs.Prelude.{IfOk, OnOk, OnErr, MatchOption};
ghost use Rattle.std.specs.BTreeMap.{get_by_text};
ghost use Rattle.text_table.specs.Filing.{IsIndexOf, hash_of, slots_of};
ghost use Rattle.text_table.specs.Tables.{AreDistinct, IsAbsent};

use crate::filing::{Slot, find_in, tag_of, text_hash};
use arrayvec::ArrayVec;
use sheet_refs::Memory;
use std::alloc::Global;
use std::collections::BTreeMap;

/// How many places a bucket has room for.
const ROOM: usize = 8;

/// Where the texts of a table are found. A text whose bucket is full stands in the map, which is ordered by text.
#[derive(Drop)]
pub(crate) struct TextIndex {
    pub(crate) buckets: Vec<ArrayVec<Slot, ROOM>>,
    pub(crate) beside: BTreeMap<String, u32>,
}

// Puts a place into a bucket, where it has room.
fn put(bucket: &mut ArrayVec<Slot, ROOM>, slot: Slot) -> bool
    ensures put { result ≡ true → (length bucket.old.items < 8)
        × (bucket.new.items ≡ bucket.old.items ++ slot ∷ []) }
    ensures full { result ≡ false → (8 ≤ length bucket.old.items) × (bucket.new ≡ bucket.old) }
{
    if bucket.len() < ROOM {
        bucket.push(slot);
        true
    } else {
        false
    }
}

// So many empty buckets.
fn empty_buckets(alloc: Global, count: usize) -> Result<Vec<ArrayVec<Slot, ROOM>>, Memory>
    ensures { IfOk result (λ buckets. length buckets.items ≡ count) }
{
    let mut buckets = Vec::with_capacity(alloc, count)?;
    for _ in 0..count {
        buckets.push(ArrayVec::new())?;
    }
    Ok(buckets)
}

impl TextIndex {
    /// The index of no texts. It has no bucket, and takes no memory.
    pub(crate) fn new(alloc: Global) -> TextIndex
        ensures { IsIndexOf (map (λ bucket. bucket.items) result.buckets.items)
            (get_by_text result.beside) [] }
    {
        TextIndex {
            buckets: Vec::new(alloc),
            beside: BTreeMap::new(alloc),
        }
    }

    /// An index of texts, with so many buckets.
    pub(crate) fn of(alloc: Global, texts: &[String], count: usize) -> Result<TextIndex, Memory>
        requires some { 0 < count }
        requires distinct { AreDistinct (map string_bytes texts.now) }
        requires few { length texts.now < 2 ^ 32 }
        ensures index { IfOk result (λ index. IsIndexOf
            (map (λ bucket. bucket.items) index.buckets.items)
            (get_by_text index.beside) (map string_bytes texts.now)) }
        ensures some { IfOk result (λ index. 0 < length index.buckets.items) }
    {
        let mut index = TextIndex::new(alloc);
        index.buckets = empty_buckets(alloc, count)?;
        for place in 0..texts.len() {
            let text = texts[place].as_str();
            index.file(alloc, text, text_hash(text), place as u32)?;
        }
        Ok(index)
    }

    // What stands in the bucket of a hash.
    fn slots(&self, hash: u64) -> &[Slot]
        ensures { result.now ≡ slots_of (map (λ bucket. bucket.items) self.now.buckets.items) hash }
    {
        if self.buckets.is_empty() {
            return &[];
        }
        let home = hash % self.buckets.len() as u64;
        self.buckets[home as usize].as_slice()
    }

    /// The place of a text. It takes time in proportion to its length, and where its bucket is full, also to the
    /// logarithm of the number of texts in such buckets.
    pub(crate) fn find(&self, texts: &[String], text: &str, hash: u64) -> Option<u32>
        requires hash { hash ≡ hash_of text.now }
        requires index { IsIndexOf (map (λ bucket. bucket.items) self.now.buckets.items)
            (get_by_text self.now.beside) (map string_bytes texts.now) }
        ensures { MatchOption result (IsAbsent (map string_bytes texts.now) text.now)
            (λ place. slice_get (map string_bytes texts.now) place ≡ Some text.now) }
    {
        let slots = self.slots(hash);
        if let Some(place) = find_in(slots, tag_of(hash), texts, text) {
            return Some(place);
        }
        if slots.len() < ROOM {
            return None;
        }
        match self.beside.get(text) {
            Some(place) => Some(*place),
            None => None,
        }
    }

    /// Makes more buckets where there is none, or those that there are have four texts each on average. It takes the
    /// time of filing all texts, which have then become twice as many.
    pub(crate) fn make_room(&mut self, alloc: Global, texts: &[String]) -> Result<(), Memory>
        requires distinct { AreDistinct (map string_bytes texts.now) }
        requires few { length texts.now < 2 ^ 32 }
        requires index { IsIndexOf (map (λ bucket. bucket.items) self.old.buckets.items)
            (get_by_text self.old.beside) (map string_bytes texts.now) }
        ensures index { IsIndexOf (map (λ bucket. bucket.items) self.new.buckets.items)
            (get_by_text self.new.beside) (map string_bytes texts.now) }
        ensures some { OnOk result (0 < length self.new.buckets.items) }
    {
        let count = texts.len();
        if count / 4 < self.buckets.len() {
            return Ok(());
        }
        *self = TextIndex::of(alloc, texts, count / 2 + 8)?;
        Ok(())
    }

    /// Files a text that isn't there yet at the place behind all others. After a refusal the index is as before.
    pub(crate) fn file(
        &mut self,
        alloc: Global,
        text: &str,
        hash: u64,
        place: u32,
    ) -> Result<(), Memory>
        requires hash { hash ≡ hash_of text.now }
        requires some { 0 < length self.old.buckets.items }
        ensures some { 0 < length self.new.buckets.items }
        ensures filed { (texts : List (List ℕ)) → length texts ≡ place → IsAbsent texts text.now
            → IsIndexOf (map (λ bucket. bucket.items) self.old.buckets.items)
            (get_by_text self.old.beside) texts
            → OnOk result (IsIndexOf (map (λ bucket. bucket.items) self.new.buckets.items)
            (get_by_text self.new.beside) (texts ++ text.now ∷ []))
            × OnErr result (IsIndexOf (map (λ bucket. bucket.items) self.new.buckets.items)
            (get_by_text self.new.beside) texts) }
    {
        let home = (hash % self.buckets.len() as u64) as usize;
        let slot = Slot {
            tag: tag_of(hash),
            place,
        };
        if put(&mut self.buckets[home], slot) {
            return Ok(());
        }
        let copy = String::from_str(alloc, text)?;
        self.beside.insert(copy, place)?;
        Ok(())
    }
}
